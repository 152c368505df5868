// The numbers that tell a box.
ghost use Rattle.std.specs.Prelude.{◌≡◌};
ghost use Rattle.sheet_text.specs.Told.{box_numbers};

use geometry::cuboid::Cuboid;

// Corner and sizes.
pub(crate) fn box_numbers(cuboid: Cuboid) -> [u64; 6]
    ensures { result ≡ box_numbers cuboid }
{
    let Cuboid { x, y, z } = cuboid;
    [
        u64::from(x.at.0),
        u64::from(y.at.0),
        u64::from(z.at.0),
        u64::from(x.size.0),
        u64::from(y.size.0),
        u64::from(z.size.0),
    ]
}
