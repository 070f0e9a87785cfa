// The running of a ledger: one study after another, each first open, then sealed.
ghost use Rattle.std.specs.Prelude.{◌≡◌};
ghost use Rattle.lives.specs.Studies.{held};
ghost use Rattle.ledger.specs.Changes.{change_after, change_answer, outcome};

use crate::answers::{Answer, print_answer, print_words};
use crate::commands::{Change, Command, StudyCommand, read};
use crate::desk::Desk;
use crate::failures::Failure;
use crate::input::Input;
use history::{Call, do_call};
use lives::{OpenStudy, Place, SealedStudy};
use std::io;
use units::Refusal;

// The life places of the study that is open at the start.
const FIRST_MEMORY: u32 = 1024;

// What ends the lines of a study. The end of the input does too.
#[derive(Clone, Copy)]
enum Next {
    Memory(u32),
    Seal,
}

// What outlives a study: the input, and the desk.
#[derive(Drop)]
struct Ledger {
    input: Input,
    desk: Desk,
}

pub fn run(rt: &HostRuntime) -> io::Result<()> {
    let mut ledger = Ledger {
        input: Input::new(rt)?,
        desk: Desk::new(),
    };
    let mut places = FIRST_MEMORY;
    // Ends with the input: no ledger has so many studies, and the count is not read.
    for _ in 0..u64::MAX {
        let Some(more) = ledger.study_lines(rt, places)? else {
            break;
        };
        places = more;
        rt.println(Answer::Open(places))?;
    }
    Ok(())
}

impl Ledger {
    // Opens a study over new memory, and does its lines until the next study or the end of the input.
    // Answers the life places of the next study.
    fn study_lines(&mut self, rt: &HostRuntime, places: u32) -> io::Result<Option<u32>> {
        let mut memory = vec![in rt.alloc(); Place::blank(); places as usize]?;
        let mut study = OpenStudy::open(memory.as_mut_slice());
        match self.do_lines(rt, &mut study)? {
            Some(Next::Seal) => {}
            Some(Next::Memory(places)) => return Ok(Some(places)),
            None => return Ok(None),
        }
        let mut study = study.seal();
        rt.println(Answer::Sealed(study.places().len()))?;
        self.do_lines(rt, &mut study)
    }

    // Does lines until one ends the study, or the input ends.
    fn do_lines<S: Worked>(
        &mut self,
        rt: &HostRuntime,
        study: &mut S,
    ) -> io::Result<Option<S::End>> {
        // Ends with the input, as above.
        for _ in 0..u64::MAX {
            let Some(line) = self.input.next_line()? else {
                break;
            };
            match do_line(rt, line, &mut self.desk, study) {
                Ok(None) => {}
                Ok(end) => return Ok(end),
                Err(failure) => print_answer(rt, Err(failure))?,
            }
        }
        Ok(None)
    }
}

// A study that lines are done to, until one of them ends it.
trait Worked {
    type End;

    fn work(
        &mut self,
        rt: &HostRuntime,
        desk: &Desk,
        command: StudyCommand,
    ) -> Result<Option<Self::End>, Failure>;
}

impl Worked for OpenStudy<'_> {
    type End = Next;

    fn work(
        &mut self,
        rt: &HostRuntime,
        _desk: &Desk,
        command: StudyCommand,
    ) -> Result<Option<Next>, Failure> {
        match command {
            StudyCommand::Memory(places) => Ok(Some(Next::Memory(places))),
            StudyCommand::Seal => Ok(Some(Next::Seal)),
            StudyCommand::Change(change) => {
                rt.println(changed(self, change)?)?;
                Ok(None)
            }
            StudyCommand::Archive | StudyCommand::Fit(_) => Err(Failure::NotNow),
        }
    }
}

impl Worked for SealedStudy<'_> {
    type End = u32;

    fn work(
        &mut self,
        rt: &HostRuntime,
        desk: &Desk,
        command: StudyCommand,
    ) -> Result<Option<u32>, Failure> {
        match command {
            StudyCommand::Memory(places) => Ok(Some(places)),
            StudyCommand::Archive => {
                archive(rt, self, desk.words)?;
                Ok(None)
            }
            StudyCommand::Fit(shape) => {
                rt.println(desk.fit(rt, self, shape)?)?;
                Ok(None)
            }
            StudyCommand::Seal | StudyCommand::Change(_) => Err(Failure::NotNow),
        }
    }
}

fn do_line<S: Worked>(
    rt: &HostRuntime,
    line: &[u8],
    desk: &mut Desk,
    study: &mut S,
) -> Result<Option<S::End>, Failure> {
    match read(rt.alloc(), line)? {
        None => Ok(None),
        Some(Command::Study(command)) => study.work(rt, desk, command),
        Some(Command::Request(request)) => {
            rt.println(desk.answer(rt, request)?)?;
            Ok(None)
        }
    }
}

fn archive(rt: &HostRuntime, study: &SealedStudy, room: u32) -> Result<(), Failure> {
    let mut words = vec![in rt.alloc(); 0; room as usize]?;
    let length = study.write(words.as_mut_slice())?;
    words.truncate(length);
    print_words(rt, words.as_slice())?;
    Ok(())
}

// Makes a change to the open study.
fn changed(study: &mut OpenStudy, change: Change) -> Result<Answer, Refusal>
    ensures answer { outcome result ≡ change_answer (held study.old) change.entry }
    ensures after { held study.new ≡ change_after (held study.old) change.entry }
{
    match change {
        Change::Row(row) => do_call(study, &Call::Row(row)).map(Answer::Place),
        Change::Enter(life) => do_call(study, &Call::Enter(life)).map(Answer::Place),
        Change::Strike(place) => do_call(study, &Call::Strike(place as usize)).map(
            |_| Answer::Struck(place),
        ),
        Change::Load(words) => do_call(study, &Call::Load(words.as_slice())).map(Answer::Loaded),
    }
}
