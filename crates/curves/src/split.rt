// A table split at its turning gap.
ghost use Rattle.std.specs.Prelude.{◌≤◌, sum_by};
ghost use Rattle.isotonic.specs.Laws.{limit};
ghost use Rattle.pooling.specs.Kinds.{rate_bulk};
ghost use Rattle.curves.specs.Tables.{side_pieces};
ghost use Rattle.curves.specs.declared.side.Side.{Side};

use crate::table::Table;

// A table with its turning gap, by the number of left pieces before it. The pieces of each side stay within the bulk limit.
#[derive(Clone, Copy)]
pub(crate) struct Split<'a> {
    pub(crate) table: Table<'a>,
    pub(crate) turn: usize,
    ghost within: { turn ≤ table.count },
    ghost light: { (side : Side) → sum_by rate_bulk (side_pieces table.gaps.now table.count turn side) ≤ limit },
}
