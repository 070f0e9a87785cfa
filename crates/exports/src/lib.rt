// Fits for callers in C: here the rising fit of rates.
#![tactic(auto)]

ghost use Rattle.std.specs.Prelude.{◌≡◌, ◌≤◌, IfSome, IfNone, false, map, length};
ghost use Rattle.std.specs.Option.{option_map};
ghost use Rattle.pooling.specs.Kinds.{rate_ratio, rate_made};
ghost use Rattle.exports.specs.Counts.{plain_ratio, all_exposed, rates_count, blocks_counted};

mod fits;
mod repeating;

pub use fits::{fit_lives_repeatedly, fit_repeatedly};
use isotonic::Block;
use pooling::{Rate, pool_rising};
use repeating::repeated;
use units::Exposure;

// The most rates in a list. It is `Rate::MOST`, but a constant's value can't name a trait's constant.
const MOST: usize = 1024;

// Failures over an exposure, as a C caller lays them out.
#[repr(C)]
#[derive(Clone, Copy)]
pub struct PlainRate {
    pub failures: u32,
    pub exposure: u32,
}

impl PlainRate {
    // The rate of these numbers; none without exposure.
    fn rate(self) -> Option<Rate>
        ensures { option_map rate_ratio result ≡ rate_made self.failures self.exposure }
    {
        Rate::new(self.failures, Exposure(self.exposure))
    }
}

// Copies the rates into the first places, and answers these, where each has an exposure.
fn copy_in<'a>(plain: &[PlainRate], rates: &'a mut [Rate]) -> Option<&'a [Rate]>
    requires { length plain.now ≤ length rates.old }
    ensures none { IfNone result (all_exposed (map plain_ratio plain.now) ≡ false) }
    ensures rates { IfSome result (λ copied. map rate_ratio copied.now ≡ map plain_ratio plain.now) }
{
    for (i, rate) in plain.iter().enumerate() {
        rates[i] = rate.rate()?;
    }
    Some(&rates[..plain.len()])
}

// Fits the rates. Answers the number of blocks; 0 for a refusal, since a caller in C gets one number.
fn pool_once(rates: &[Rate], blocks: &mut [Block<Rate>; MOST]) -> usize
    ensures { result ≡ rates_count rates.now MOST }
{
    pool_rising(rates, blocks).unwrap_or(0)
}

// Fits the same rates so many times. Answers the number of blocks; 0 for no time, for a rate without exposure, for more than 1,024 rates, or where the list is refused.
#[unsafe(no_mangle)]
pub extern "C" fn pool_repeatedly(plain: &[PlainRate], times: u32) -> usize
    ensures { result ≡ blocks_counted (map plain_ratio plain.now) times }
{
    // The arrays stand before any return: the compiler has set up large frames wrongly after one.
    let mut rates = [Rate::default(); MOST];
    let mut blocks = [Block::default(); MOST];
    if plain.len() > MOST {
        return 0;
    }
    let Some(rates) = copy_in(plain, &mut rates) else {
        return 0;
    };
    repeated(
        times,
        &mut blocks,
        |blocks: &mut [Block<Rate>; MOST]| pool_once(rates, blocks),
    )
    .unwrap_or(0)
}
