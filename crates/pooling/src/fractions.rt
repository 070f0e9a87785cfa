// Kinds whose elements are a part over a whole: they compare by their exact ratio and pool by adding.
ghost use Rattle.std.specs.Prelude.{◌≡◌, ℕ, ◌+◌, ◌≤◌};
ghost use Rattle.isotonic.specs.Laws.{limit, Commutes};
ghost use Rattle.pooling.specs.Ratios.{ratio_leq, within_limit};
ghost use Rattle.pooling.specs.Laws.{Adds, ratio_laws};

use super::kinds::{BULK_LIMIT, Poolable};

// A kind of element that is a part over a whole. Only this crate names it, since `plus` asks for room.
pub trait Fraction: Copy {
    // The greatest number of pieces in a list of this kind.
    const MOST: usize;

    ghost MOST: { ℕ };

    ghost parts: { Self → ℕ };

    ghost wholes: { Self → ℕ };

    ghost weights: { Self → ℕ };

    // Two elements added.
    ghost sums: { Self → Self → Self };

    fn part(&self) -> u32
        ensures { result ≡ parts self.now };

    fn whole(&self) -> u32
        ensures { result ≡ wholes self.now };

    // What the element adds to the bulk of a list.
    fn weight(&self) -> u64
        ensures { result ≡ weights self.now };

    // Both numbers added.
    fn plus(self, other: Self) -> Self
        requires within { weights self + weights other ≤ limit }
        ensures part { parts result ≡ parts self + parts other }
        ensures whole { wholes result ≡ wholes self + wholes other };

    // No whole is 0, sums add parts, wholes and weights, and an element is told by its part and whole.
    ghost adds: { Adds parts wholes weights sums };
}

impl<F: Fraction> Poolable for F {
    const MOST: usize = <F as Fraction>::MOST;

    ghost MOST = { F.Fraction.MOST };

    ghost leq = { ratio_leq F.Fraction.parts F.Fraction.wholes };

    ghost joined = { within_limit F.Fraction.weights F.Fraction.sums };

    ghost bulks = { F.Fraction.weights };

    ghost lawful = { ratio_laws F.Fraction.adds };

    fn at_most(&self, other: &F) -> bool {
        self.part() as u64 * other.whole() as u64 <= other.part() as u64 * self.whole() as u64
    }

    fn pool(self, other: F) -> F {
        if self.weight().saturating_add(other.weight()) <= BULK_LIMIT {
            self.plus(other)
        } else {
            self
        }
    }

    fn bulk(&self) -> u64 {
        self.weight()
    }
}

// Where elements are a part over a whole, pooling is the same in either order.
pub(crate) fn fractions_commute<F: Fraction>()
    ensures { Commutes (within_limit F.weights F.sums) F.weights }
{}
