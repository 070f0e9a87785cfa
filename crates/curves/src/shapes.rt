// How the rate of a curve moves with age: it falls, it rises, or it falls up to a turning gap and rises after it.
#[derive(Clone, Copy, PartialEq, Eq, Debug)]
pub enum Shape {
    Falling,
    Rising,
    UShaped,
}
