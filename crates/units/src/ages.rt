// A tick is a quarter of an hour.

// An age, in ticks on one unit's own clock.
#[derive(Clone, Copy, PartialEq, Eq, PartialOrd, Ord, Default, Debug)]
pub struct Age(pub u32);

impl Age {
    // The highest age.
    pub const LAST: Age = Age(2_097_151);
}

// Time on test summed over units, in unit-ticks. An age is never added to it.
#[derive(Clone, Copy, PartialEq, Eq, PartialOrd, Ord, Default, Debug)]
pub struct Exposure(pub u32);
