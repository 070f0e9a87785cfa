// The two sides of a turning gap.

// On the left the rates fall, and on the right they rise. Seen from the outer end of its side, each falls towards the turning gap.
#[derive(Clone, Copy, PartialEq, Eq, Debug)]
pub(crate) enum Side {
    Left,
    Right,
}
