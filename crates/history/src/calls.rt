// Calls on a study, one and in succession.
ghost use Rattle.std.specs.Prelude.{◌≡◌, false, map, length, is_ok};
ghost use Rattle.units.specs.Refusals.{answer};
ghost use Rattle.lives.specs.Lives.{plain};
ghost use Rattle.lives.specs.Studies.{held, opened, sealed};
ghost use Rattle.history.specs.Calls.{listed, plain_call};
ghost use Rattle.history.specs.Runs.{Reached, Stands, call_after, call_answer, calls_after, kept};

use lives::{OpenStudy, Place, SealedStudy, SheetRow, UncheckedLife};
use units::Refusal;

// A call that may change an open study. It borrows its words, where the ledger's `Change` has those of a line.
#[derive(Drop)]
pub enum Call<'c> {
    Enter(UncheckedLife),
    Row(SheetRow<'c>),
    Strike(usize),
    Load(&'c [u32]),
}

// Does one call. Answers the place of the life entered or struck, or the number of lives loaded.
pub fn do_call(study: &mut OpenStudy, call: &Call) -> Result<usize, Refusal>
    ensures answer { answer result ≡ call_answer (held study.old) (plain_call call.now) }
    ensures after { held study.new ≡ call_after (held study.old) (plain_call call.now) }
    ensures refused { is_ok result ≡ false → study.new ≡ study.old }
    ensures named { study.new.memory.ghost_name ≡ study.old.memory.ghost_name }
{
    match call {
        Call::Enter(unchecked) => study.enter(*unchecked),
        Call::Row(row) => study.enter_row(row),
        Call::Strike(place) => {
            study.strike(*place)?;
            Ok(*place)
        }
        Call::Load(words) => study.load(words),
    }
}

// Does the calls in order. A refused one changes nothing.
pub fn do_calls(study: &mut OpenStudy, calls: &[Call])
    ensures after { held study.new ≡ calls_after (held study.old) (map plain_call calls.now) }
    ensures named { study.new.memory.ghost_name ≡ study.old.memory.ghost_name }
{
    for call in calls {
        let _ = do_call(study, call);
    }
}

// Opens a study over the memory, does the calls in order, and seals it. The study holds what the plain list of the calls says.
pub fn sealed_after<'a>(memory: &'a mut [Place], calls: &[Call]) -> SealedStudy<'a>
    ensures reached { Reached (length memory.old) (map plain_call calls.now) (sealed result) }
    ensures listed { (sealed result).places ≡ listed (length memory.old) (map plain_call calls.now) }
    ensures kept { sealed result ≡ kept (map plain memory.old) (map plain_call calls.now) }
    ensures stands { Stands (length memory.old) (map plain_call calls.now) (sealed result) }
    ensures named { result.memory.ghost_name ≡ memory.entry.ghost_name }
{
    open_after(memory, calls).seal()
}

// A study opened over the memory and given the calls.
fn open_after<'a>(memory: &'a mut [Place], calls: &[Call]) -> OpenStudy<'a>
    ensures held { held result ≡ calls_after (opened (map plain memory.old)) (map plain_call calls.now) }
    ensures named { result.memory.ghost_name ≡ memory.entry.ghost_name }
{
    let mut study = OpenStudy::open(memory);
    do_calls(&mut study, calls);
    study
}
