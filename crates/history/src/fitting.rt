// A curve from a succession of calls.
ghost use Rattle.std.specs.Prelude.{◌≡◌, map, length, IfOk};
ghost use Rattle.units.specs.Refusals.{answer};
ghost use Rattle.lives.specs.Lives.{plain};
ghost use Rattle.lives.specs.Studies.{sealed};
ghost use Rattle.curves.specs.Faults.{Fault};
ghost use Rattle.curves.specs.Fits.{fit_result, fit_steps, fit_work, shown, work_places};
ghost use Rattle.history.specs.Calls.{plain_call};
ghost use Rattle.history.specs.Runs.{Reached, Stands, counts_after, kept};

use crate::calls::{Call, sealed_after};
use curves::{Fit, Shape, Step, Work, fit_curve};
use lives::{Place, SealedStudy};
use units::Refusal;

// Opens a study over the memory, does the calls in order, seals it, and fits a curve to it. Answers the study, and what the fit answers.
// The curve is that of the unmarked lives of the plain list of the calls, and has no fault against them.
pub fn fit_after<'a>(
    memory: &'a mut [Place],
    calls: &[Call],
    shape: Shape,
    steps: &mut [Step],
    work: Work,
) -> (SealedStudy<'a>, Result<Fit, Refusal>)
    ensures reached { Reached (length memory.old) (map plain_call calls.now) (sealed result.0) }
    ensures kept { sealed result.0 ≡ kept (map plain memory.old) (map plain_call calls.now) }
    ensures named { result.0.memory.ghost_name ≡ memory.entry.ghost_name }
    ensures answer { answer result.1 ≡ fit_result (counts_after (length memory.old) (map plain_call calls.now)) shape (length steps.old) (work_places work.entry) }
    ensures steps { steps.new ≡ fit_steps (counts_after (length memory.old) (map plain_call calls.now)) shape (length steps.old) (work_places work.entry) steps.old }
    ensures gaps { work.exit.0.now ≡ fit_work (counts_after (length memory.old) (map plain_call calls.now)) shape (length steps.old) (work_places work.entry) work.entry.gaps.now work.exit.0.now }
    ensures blocks { work.exit.1.0.now ≡ fit_work (counts_after (length memory.old) (map plain_call calls.now)) shape (length steps.old) (work_places work.entry) work.entry.blocks.now work.exit.1.0.now }
    ensures scores { work.exit.1.1.0.now ≡ fit_work (counts_after (length memory.old) (map plain_call calls.now)) shape (length steps.old) (work_places work.entry) work.entry.scores.now work.exit.1.1.0.now }
    ensures faultless { IfOk result.1 (λ a. Fault (counts_after (length memory.old) (map plain_call calls.now)) shape (shown a steps.new) → ⊥) }
{
    let study = sealed_after(memory, calls);
    // Taken apart and put together: of rows that are handed on whole nothing is known afterwards.
    let Work {
        gaps,
        blocks,
        scores,
    } = work;
    let rows = Work {
        gaps,
        blocks,
        scores,
    };
    let fit = fit_curve(&study, shape, steps, rows);
    (study, fit)
}
