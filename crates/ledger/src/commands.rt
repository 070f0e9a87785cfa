// The lines of a ledger as commands.
ghost use Rattle.std.specs.Prelude.{◌≡◌, map, IfSome, IfOk, vec_items, IsUtf8};
ghost use Rattle.std.specs.Option.{option_map};
ghost use Rattle.ledger.specs.Commands.{life_of, row_serial, words_of};

use crate::failures::Failure;
use crate::reading::read_all;
use crate::requests::{
    Request, parse_bench, parse_bound, parse_note, parse_pool, parse_room, read_shape,
};
use curves::Shape;
use lines::fields::{begins_with, part};
use lines::numbers::{archive_word, at_most, decimal, hours};
use lives::{SheetRow, UncheckedLife};
use std::alloc::{AllocError, Global};
use std::str::from_utf8;

// The most life places that a ledger opens a study over.
const MOST_MEMORY: u32 = 4096;

// What a line asks for: something of the study, or what needs none.
#[derive(Drop)]
pub enum Command<'a> {
    Study(StudyCommand<'a>),
    Request(Request),
}

#[derive(Drop)]
pub enum StudyCommand<'a> {
    Memory(u32),
    Change(Change<'a>),
    Seal,
    Archive,
    Fit(Shape),
}

// A change to the open study. It has its words, where `Call` of the crate `history` borrows them.
#[derive(Drop)]
pub enum Change<'a> {
    Row(SheetRow<'a>),
    Enter(UncheckedLife),
    Strike(u32),
    Load(Vec<u32>),
}

// The command of a line; none where it is blank or a comment.
pub fn read(heap: Global, line: &[u8]) -> Result<Option<Command<'_>>, Failure> {
    if begins_with(line, b'#') {
        return Ok(None);
    }
    let fields = part(heap, line)?;
    if fields.is_empty() {
        return Ok(None);
    }
    Ok(Some(parse(heap, fields.as_slice())?))
}

// The command that the fields of a line are. Those that begin with no command's name are a row.
fn parse<'a>(heap: Global, fields: &[&'a [u8]]) -> Result<Command<'a>, Failure> {
    let Some((name, rest)) = fields.split_first() else {
        return Err(Failure::NotUnderstood);
    };
    match *name {
        b"load" => parse_load(heap, rest),
        b"pool" => Ok(Command::Request(parse_pool(heap, rest)?)),
        b"bench" => Ok(Command::Request(parse_bench(heap, rest)?)),
        b"row" => parse_row(rest).ok_or(Failure::NotUnderstood),
        name => parse_named(name, rest)
            .or_else(|| parse_row(fields))
            .ok_or(Failure::NotUnderstood),
    }
}

// The commands that need no memory.
fn parse_named<'a>(name: &[u8], fields: &[&'a [u8]]) -> Option<Command<'a>> {
    match name {
        b"memory" => parse_memory(fields),
        b"enter" => parse_enter(fields),
        b"strike" => parse_strike(fields),
        b"seal" => alone(fields, Command::Study(StudyCommand::Seal)),
        b"archive" => alone(fields, Command::Study(StudyCommand::Archive)),
        b"fit" => parse_fit(fields),
        b"growth" => alone(fields, Command::Request(Request::Growth)),
        b"room" => Some(Command::Request(parse_room(fields)?)),
        b"note" => Some(Command::Request(parse_note(fields)?)),
        b"bound" => Some(Command::Request(parse_bound(fields)?)),
        _ => None,
    }
}

// A command that has no fields after its name.
fn alone<'a>(fields: &[&[u8]], command: Command<'a>) -> Option<Command<'a>> {
    fields.is_empty().then_some(command)
}

fn changing(change: Change<'_>) -> Command<'_> {
    Command::Study(StudyCommand::Change(change))
}

fn parse_memory<'a>(fields: &[&'a [u8]]) -> Option<Command<'a>> {
    let [places] = fields else {
        return None;
    };
    Some(Command::Study(StudyCommand::Memory(at_most(places, MOST_MEMORY)?)))
}

fn parse_row<'a>(fields: &[&'a [u8]]) -> Option<Command<'a>> {
    let [serial, from, to, status] = fields else {
        return None;
    };
    Some(changing(Change::Row(read_row(serial, from, to, status)?)))
}

fn parse_enter<'a>(fields: &[&'a [u8]]) -> Option<Command<'a>> {
    let [serial, entry, exit, status] = fields else {
        return None;
    };
    Some(changing(Change::Enter(read_life(serial, entry, exit, status)?)))
}

fn parse_strike<'a>(fields: &[&'a [u8]]) -> Option<Command<'a>> {
    let [place] = fields else {
        return None;
    };
    Some(changing(Change::Strike(decimal(place)?)))
}

// A fit of the study or of the bench.
fn parse_fit<'a>(fields: &[&'a [u8]]) -> Option<Command<'a>> {
    let [shape, source] = fields else {
        return None;
    };
    let shape = read_shape(shape)?;
    match *source {
        b"study" => Some(Command::Study(StudyCommand::Fit(shape))),
        b"bench" => Some(Command::Request(Request::Fit(shape))),
        _ => None,
    }
}

fn parse_load<'a>(heap: Global, fields: &[&'a [u8]]) -> Result<Command<'a>, Failure> {
    let words = read_words(heap, fields)?.ok_or(Failure::NotUnderstood)?;
    Ok(changing(Change::Load(words)))
}

fn read_row<'a>(serial: &[u8], from: &[u8], to: &[u8], status: &'a [u8]) -> Option<SheetRow<'a>>
    ensures serial { option_map (λ row. row.serial) result ≡ row_serial serial.now from.now to.now }
    ensures status { IfSome result (λ row. IsUtf8 status.now → row.status.now ≡ status.now) }
{
    Some(SheetRow {
        serial: decimal(serial)?,
        from_hours: hours(from)?,
        to_hours: hours(to)?,
        // Bytes that are no text are no status word either.
        status: from_utf8(status).unwrap_or(""),
    })
}

fn read_life(serial: &[u8], entry: &[u8], exit: &[u8], status: &[u8]) -> Option<UncheckedLife>
    ensures { result ≡ life_of serial.now entry.now exit.now status.now }
{
    Some(UncheckedLife {
        serial: decimal(serial)?,
        entry: decimal(entry)?,
        exit: decimal(exit)?,
        status: decimal(status)?,
    })
}

// The words of an archive, where every field is one.
fn read_words(heap: Global, fields: &[&[u8]]) -> Result<Option<Vec<u32>>, AllocError>
    ensures { IfOk result (λ o. option_map vec_items o ≡ words_of (map (λ x. x.now) fields.now)) }
{
    read_all(heap, fields, archive_word)
}
