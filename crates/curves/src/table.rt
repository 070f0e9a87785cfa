// The table of gaps that a fit works on, and what is read from it.
ghost use Rattle.std.specs.Prelude.{◌≡◌, ◌+◌, ◌^◌, ◌<◌, ◌≤◌, length, take, sum_by};
ghost use Rattle.curves.specs.Pieces.{rate_of};
ghost use Rattle.curves.specs.Tables.{piece_at, table_age};

use crate::side::Side;
use pooling::Rate;
use sources::Gap;
use units::{Age, Exposure};

// The gaps of so many counted ages, and last the gap from there to the oldest age, so that its ages have the numbers 0 to count + 1.
// Rows past that gap are not read. The count stands beside the slice, as every definition speaks of k counted ages: of a slice cut to k + 1 rows, each clause would say its length less one.
#[derive(Clone, Copy)]
pub(crate) struct Table<'a> {
    pub(crate) gaps: &'a [Gap],
    pub(crate) count: usize,
    ghost last: { count < length gaps.now },
    ghost fits: { count + 1 < 2 ^ 64 },
}

// The rate of failures over exposure; no piece of a source has an exposure of 0.
fn rate_of(failures: u32, exposure: Exposure) -> Rate
    ensures { result ≡ rate_of (record { failures = failures; exposure = exposure.0 }) }
{
    Rate {
        failures,
        exposure: exposure.max(Exposure(1)),
    }
}

impl Table<'_> {
    // The failures at the counted ages.
    pub(crate) fn failures(&self) -> u32
        requires { sum_by (λ g. g.failures) (take self.now.count self.now.gaps.now) < 2 ^ 32 }
        ensures { result ≡ sum_by (λ g. g.failures) (take self.now.count self.now.gaps.now) }
    {
        self.gaps[..self.count].iter().map(|gap| gap.failures).sum()
    }

    // A piece of a side, by its number in the order in which the pieces are stacked: on the right the last comes first.
    pub(crate) fn piece(&self, side: Side, i: usize) -> Rate
        requires { i < self.now.count }
        ensures { result ≡ piece_at self.now.gaps.now self.now.count side i }
    {
        match side {
            Side::Left => rate_of(self.gaps[i].failures, self.gaps[i].exposure),
            Side::Right => {
                let right = self.count - 1 - i;
                rate_of(self.gaps[right].failures, self.gaps[right + 1].exposure)
            }
        }
    }

    // An age of the table: the first is 0, and each gap ends at the next.
    pub(crate) fn age_at(&self, i: usize) -> Age
        requires { i ≤ self.now.count + 1 }
        ensures { result.0 ≡ table_age self.now.gaps.now i }
    {
        if i == 0 {
            return Age(0);
        }
        self.gaps[i - 1].age
    }
}
