ghost use Rattle.std.specs.Prelude.{Some};
ghost use Rattle.std.specs.Fmt.{◌++?◌};
ghost use Rattle.isotonic.specs.Texts.{block_place};

use std::fmt;

// The pieces from `first` to `last`, counted from 0, pooled into one element.
#[derive(Clone, Copy, PartialEq, Eq, Default, Debug)]
pub struct Block<K> {
    pub first: usize,
    pub last: usize,
    pub element: K,
}

impl<K: fmt::Display> fmt::Display for Block<K> {
    ghost output = { λ block. Some (block_place block) ++? K.output block.element };

    fn fmt<W: fmt::Write>(&self, f: &mut fmt::Formatter<W>) -> fmt::Result {
        write!(f, "{} {} {}", self.first, self.last, self.element)
    }
}
