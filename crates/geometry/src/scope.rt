// A box with a rule, told by the index of the rule's first line in its book.
ghost use Rattle.std.specs.Prelude.{◌<◌};
ghost use Rattle.geometry.specs.Limits.{most_lines};

use crate::cuboid::Cuboid;

#[derive(Clone, Copy)]
pub struct Scope {
    pub cuboid: Cuboid,
    pub rule: u8,
    ghost known: { rule < most_lines },
}
