// Lines that need no study: memory to lend, releases, lists to pool, and bench runs.
use crate::failures::Failure;
use crate::reading::read_all;
use curves::Shape;
use lines::numbers::{at_most, decimal, pair};
use pooling::{Rate, Share};
use sources::Confidence;
use std::alloc::Global;
use std::fmt;
use units::{Age, Exposure};

// The most places of other memory than life memory that a ledger lends.
const MOST_ROOM: u32 = 8192;

// Memory that is lent beside the life memory.
#[derive(Clone, Copy)]
pub enum Room {
    Words,
    Blocks,
    Steps,
    Work,
}

impl Room {
    // The fields of a line are bytes, and only here is one a room: an `Option` says as much as a `TryFrom` would.
    fn named(name: &[u8]) -> Option<Room> {
        match name {
            b"words" => Some(Room::Words),
            b"blocks" => Some(Room::Blocks),
            b"steps" => Some(Room::Steps),
            b"work" => Some(Room::Work),
            _ => None,
        }
    }
}

impl fmt::Display for Room {
    fn fmt<W: fmt::Write>(&self, f: &mut fmt::Formatter<W>) -> fmt::Result {
        f.write_str(match self {
            Room::Words => "words",
            Room::Blocks => "blocks",
            Room::Steps => "steps",
            Room::Work => "work",
        })
    }
}

// Trials of a release.
#[derive(Clone, Copy)]
pub struct Note {
    pub release: u32,
    pub successes: u32,
    pub trials: u32,
}

// The data of a bench run.
#[derive(Drop)]
pub struct Bench {
    pub units: u32,
    pub stop: Age,
    pub ages: Vec<Age>,
}

#[derive(Drop)]
pub enum Request {
    Lend(Room, u32),
    Note(Note),
    Growth,
    PoolRates(Vec<Rate>),
    PoolShares(Vec<Share>),
    Bench(Bench),
    Bound(Confidence),
    Fit(Shape),
}

pub fn parse_room(fields: &[&[u8]]) -> Option<Request> {
    let [room, places] = fields else {
        return None;
    };
    Some(Request::Lend(Room::named(room)?, at_most(places, MOST_ROOM)?))
}

pub fn parse_note(fields: &[&[u8]]) -> Option<Request> {
    let [release, successes, trials] = fields else {
        return None;
    };
    Some(Request::Note(Note {
        release: decimal(release)?,
        successes: decimal(successes)?,
        trials: decimal(trials)?,
    }))
}

pub fn parse_bound(fields: &[&[u8]]) -> Option<Request> {
    let [percent] = fields else {
        return None;
    };
    match *percent {
        b"95" => Some(Request::Bound(Confidence::Percent95)),
        b"90" => Some(Request::Bound(Confidence::Percent90)),
        _ => None,
    }
}

// The shape of a curve by its name.
pub fn read_shape(name: &[u8]) -> Option<Shape> {
    match name {
        b"falling" => Some(Shape::Falling),
        b"rising" => Some(Shape::Rising),
        b"ushaped" => Some(Shape::UShaped),
        _ => None,
    }
}

pub fn parse_bench(heap: Global, fields: &[&[u8]]) -> Result<Request, Failure> {
    let [units, stop, ages @ ..] = fields else {
        return Err(Failure::NotUnderstood);
    };
    Ok(Request::Bench(Bench {
        units: decimal(units).ok_or(Failure::NotUnderstood)?,
        stop: read_age(stop).ok_or(Failure::NotUnderstood)?,
        ages: read_all(heap, ages, read_age)?.ok_or(Failure::NotUnderstood)?,
    }))
}

pub fn parse_pool(heap: Global, fields: &[&[u8]]) -> Result<Request, Failure> {
    let Some((kind, pieces)) = fields.split_first() else {
        return Err(Failure::NotUnderstood);
    };
    let request = match *kind {
        b"rates" => read_all(heap, pieces, read_rate)?.map(Request::PoolRates),
        b"shares" => read_all(heap, pieces, read_share)?.map(Request::PoolShares),
        _ => None,
    };
    request.ok_or(Failure::NotUnderstood)
}

fn read_age(field: &[u8]) -> Option<Age> {
    decimal(field).map(Age)
}

fn read_rate(field: &[u8]) -> Option<Rate> {
    let (failures, exposure) = pair(field)?;
    Rate::new(failures, Exposure(exposure))
}

fn read_share(field: &[u8]) -> Option<Share> {
    let (successes, trials) = pair(field)?;
    Share::new(successes, trials)
}
