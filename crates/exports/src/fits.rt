// U-shaped fits of bench runs and of studies, for callers in C.
ghost use Rattle.std.specs.Prelude.{◌≡◌, ◌≤◌, map, length};
ghost use Rattle.units.specs.Hours.{age_ticks};
ghost use Rattle.lives.specs.Studies.{held, sealed};
ghost use Rattle.sources.specs.Studies.{study_counts};
ghost use Rattle.history.specs.Runs.{calls_after, counts_after};
ghost use Rattle.exports.specs.Codes.{bench_code, life_entered, lives_code, ushaped_code};

use crate::repeating::repeated;
use curves::{Shape, Step, Work, fit_curve};
use isotonic::Block;
use lives::{OpenStudy, Place, SealedStudy, UncheckedLife};
use pooling::{Rate, Turned};
use sources::{BenchRun, Gap, Source};
use units::Age;

// The most ages, and the most gaps: one more. Other limits of 1,024 are other rules' numbers.
const MOST_AGES: usize = 1024;

const MOST_GAPS: usize = MOST_AGES + 1;

// A turning gap counts so much in the number that is answered.
const GAP_UNIT: u64 = 65_536;

// The memory that a fit of the most ages is lent.
#[derive(Drop)]
struct FitMemory {
    steps: [Step; MOST_GAPS],
    gaps: [Gap; MOST_GAPS],
    blocks: [Block<Turned<Rate>>; MOST_GAPS],
    scores: [i64; MOST_GAPS],
}

impl FitMemory {
    fn new() -> FitMemory {
        FitMemory {
            steps: [Step::default(); MOST_GAPS],
            gaps: [Gap::default(); MOST_GAPS],
            blocks: [Block::default(); MOST_GAPS],
            scores: [0; MOST_GAPS],
        }
    }
}

// Fits a source once, U-shaped. Answers steps + turning gap x 65,536; 0 where the fit is refused, since a caller in C gets one number.
fn fit_once<S: Source>(source: &S, memory: &mut FitMemory) -> u64
    ensures { result ≡ ushaped_code (S.counts source.now) }
{
    let work = Work {
        gaps: &mut memory.gaps,
        blocks: &mut memory.blocks,
        scores: &mut memory.scores,
    };
    match fit_curve(source, Shape::UShaped, &mut memory.steps, work) {
        Ok(fit) => fit.steps as u64 + fit.turning_gap as u64 * GAP_UNIT,
        Err(_) => 0,
    }
}

// Copies ages into the first places, and answers these.
fn copy_ages<'a>(ticks: &[u32], ages: &'a mut [Age]) -> &'a [Age]
    requires { length ticks.now ≤ length ages.old }
    ensures { map age_ticks result.now ≡ ticks.now }
{
    for (i, tick) in ticks.iter().enumerate() {
        ages[i] = Age(*tick);
    }
    &ages[..ticks.len()]
}

// Fits a bench run so many times. Answers steps + turning gap x 65,536; 0 for no time, for more than 1,024 ages, or where the fit is refused.
#[unsafe(no_mangle)]
pub extern "C" fn fit_repeatedly(ages: &[u32], units: u32, stop: u32, times: u32) -> u64
    ensures { result ≡ bench_code ages.now units stop times }
{
    // The arrays stand before any return: the compiler has set up large frames wrongly after one.
    let mut copied = [Age(0); MOST_AGES];
    let mut memory = FitMemory::new();
    if ages.len() > MOST_AGES {
        return 0;
    }
    let ages = copy_ages(ages, &mut copied);
    let bench = BenchRun::new(units, ages, Age(stop));
    repeated(
        times,
        &mut memory,
        |memory: &mut FitMemory| fit_once(&bench, memory),
    )
    .unwrap_or(0)
}

// Enters a life for each exit age: watched from age 0 until it failed there. What is no age is refused and not entered.
fn enter_lives(study: &mut OpenStudy, exits: &[u32])
    ensures after { held study.new ≡ calls_after (held study.old) (map life_entered exits.now) }
    ensures named { study.new.memory.ghost_name ≡ study.old.memory.ghost_name }
{
    for exit in exits {
        let _ = study.enter(UncheckedLife {
            serial: 1,
            entry: 0,
            exit: *exit,
            status: 0,
        });
    }
}

// A sealed study of the lives that failed at the exit ages.
fn sealed_lives<'a>(memory: &'a mut [Place], exits: &[u32]) -> SealedStudy<'a>
    ensures counts { study_counts (sealed result).places ≡ counts_after (length memory.old) (map life_entered exits.now) }
    ensures named { result.memory.ghost_name ≡ memory.entry.ghost_name }
{
    let mut study = OpenStudy::open(memory);
    enter_lives(&mut study, exits);
    study.seal()
}

// Fits the study of the lives that failed at the exit ages so many times. Answers as `fit_repeatedly`; 0 for more than 1,024 exits.
#[unsafe(no_mangle)]
pub extern "C" fn fit_lives_repeatedly(exits: &[u32], times: u32) -> u64
    ensures { result ≡ lives_code exits.now times }
{
    // The arrays stand before any return, as above.
    let mut places = [Place::blank(); MOST_AGES];
    let mut memory = FitMemory::new();
    if exits.len() > MOST_AGES {
        return 0;
    }
    let study = sealed_lives(&mut places, exits);
    repeated(
        times,
        &mut memory,
        |memory: &mut FitMemory| fit_once(&study, memory),
    )
    .unwrap_or(0)
}
