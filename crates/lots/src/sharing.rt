// Boxes that share a cube.
ghost use Rattle.std.specs.Prelude.{◌≡◌};
ghost use Rattle.std.specs.List.{list_any};
ghost use Rattle.lots.specs.Lists.{box_of};
ghost use Rattle.lots.specs.Shares.{meets, shares, SharesACube};

use geometry::cuboid::Cuboid;
use geometry::span::Span;

// Whether two stretches share a millimetre.
fn meet(a: Span, b: Span) -> bool
    ensures { result ≡ meets a.at.0 a.size.0 b.at.0 b.size.0 }
{
    a.at.0 < b.at.0 + b.size.0 && b.at.0 < a.at.0 + a.size.0
}

// Whether two boxes share a cube; boxes that only touch share none.
pub fn share(a: Cuboid, b: Cuboid) -> bool
    ensures { result ≡ shares (box_of a) (box_of b) }
{
    meet(a.x, b.x) && meet(a.y, b.y) && meet(a.z, b.z)
}

// Whether a box shares a cube with one of a list.
// Stays: a public question over boxes; the like one in the reading asks lots where they stand, and needs no list of boxes.
pub fn share_any(a: Cuboid, boxes: &[Cuboid]) -> bool
    ensures { result ≡ list_any (λ b. shares (box_of a) (box_of b)) boxes.now }
{
    boxes.iter().any(|b| share(a, *b))
}

// What it is to share.
pub fn sharing_means_a_cube()
    ensures { SharesACube }
{}
