// The length of a tile as drawn, near which a repeat keeps its tiles.
ghost use Rattle.std.specs.Prelude.{◌≤◌};
ghost use Rattle.geometry.specs.Limits.{least, site};

use geometry::units::Mm;

#[derive(Clone, Copy)]
pub struct Tile {
    pub length: Mm,
    ghost some: { least ≤ length.0 },
    ghost inside: { length.0 ≤ site },
}
