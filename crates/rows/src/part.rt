// A part of a split, its length or weight in range.
ghost use Rattle.std.specs.Prelude.{◌≤◌};
ghost use Rattle.rows.specs.Sizes.{amount, lowest, highest};

use crate::size::Size;

#[derive(Clone, Copy)]
pub struct Part {
    pub size: Size,
    ghost low: { lowest size ≤ amount size },
    ghost high: { amount size ≤ highest size },
}
