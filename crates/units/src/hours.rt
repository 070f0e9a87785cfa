// Hours of a sheet as an age, for every binary64 number.
ghost use Rattle.std.specs.Prelude.{◌≡◌, ℕ, ◌≤◌, MatchOption, MatchResult};
ghost use Rattle.units.specs.Hours.{IsTicks, age_ticks, equals_cut, equals_zero, four_times, hours_age, hours_in_range};
ghost use Rattle.units.specs.Refusals.{seen};

use crate::ages::Age;
use crate::refusals::Refusal;

// The ticks of an hour.
const TICKS_PER_HOUR: f64 = 4.0;

// The highest age of 2,097,151 ticks, in hours.
const LAST_HOURS: f64 = 524287.75;

impl Age {
    // Four times the hours, where that is a whole number of ticks from 0 to 2,097,151. The unit stands in the name, where a `TryFrom<f64>` would not say it.
    pub fn from_hours(hours: f64) -> Result<Age, Refusal>
        ensures value { seen age_ticks result ≡ hours_age hours }
        ensures exact { MatchResult result (λ a. IsTicks hours (age_ticks a)) (λ _. (t : ℕ) → IsTicks hours t → ⊥) }
    {
        ticks(hours).ok_or(Refusal::NotQuarterHours)
    }
}

fn ticks(hours: f64) -> Option<Age>
    ensures { MatchOption result ((t : ℕ) → IsTicks hours t → ⊥) (λ a. IsTicks hours (age_ticks a)) }
{
    if !in_range(hours) {
        return None;
    }
    let quarters = in_quarters(hours);
    // Minus zero too, which no cast takes.
    if is_zero(quarters) {
        return Some(Age(0));
    }
    if !is_whole(quarters) {
        return None;
    }
    Some(Age(quarters as u32))
}

fn in_range(hours: f64) -> bool
    ensures { result ≡ hours_in_range hours }
{
    0.0 <= hours && hours <= LAST_HOURS
}

// Exact for hours in range: only the exponent changes.
fn in_quarters(hours: f64) -> f64
    ensures { result ≡ four_times hours }
{
    hours * TICKS_PER_HOUR
}

fn is_zero(number: f64) -> bool
    ensures { result ≡ equals_zero number }
{
    number == 0.0
}

fn is_whole(number: f64) -> bool
    ensures { result ≡ equals_cut number }
{
    number.trunc() == number
}

#[cfg(test)]
mod tests {
    use super::*;

    // The ticks of some hours, or none.
    fn read(hours: f64) -> Option<u32> {
        match Age::from_hours(hours) {
            Ok(age) => Some(age.0),
            Err(_) => None,
        }
    }

    #[test]
    fn hours_that_are_ticks(rt: HostRuntime) {
        assert_eq!(rt; read(0.25), Some(1));
        assert_eq!(rt; read(-0.0), Some(0));
        assert_eq!(rt; read(524287.75), Some(2097151));
    }

    #[test]
    fn hours_that_are_none(rt: HostRuntime) {
        assert_eq!(rt; read(0.1), None);
        assert_eq!(rt; read(524288.0), None);
        assert_eq!(rt; read(-0.25), None);
        assert_eq!(rt; read(f64::NAN), None);
        assert_eq!(rt; read(f64::INFINITY), None);
        assert_eq!(rt; read(5e-324), None);
    }
}
