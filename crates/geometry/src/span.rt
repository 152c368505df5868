// A stretch of one axis inside the site: `size` millimetres from `at` on.
ghost use Rattle.std.specs.Prelude.{◌+◌, ◌≤◌};
ghost use Rattle.geometry.specs.Limits.{least, site};

use crate::units::Mm;

#[derive(Clone, Copy)]
pub struct Span {
    pub at: Mm,
    pub size: Mm,
    ghost some: { least ≤ size.0 },
    ghost inside: { at.0 + size.0 ≤ site },
}
