// A share: successes among trials, of which there is at least one.
ghost use Rattle.std.specs.Prelude.{◌≤◌};

#[derive(Clone, Copy, PartialEq, Eq, Debug)]
pub struct Share {
    pub successes: u32,
    pub trials: u32,
    ghost tried: { 1 ≤ trials },
    ghost within: { successes ≤ trials },
}
