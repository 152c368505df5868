// The body of a rule line without the names that it uses: one for each part of a split, else one.
use geometry::axis::Axis;
use rows::parts::Parts;
use rows::tile::Tile;

#[derive(Clone, Copy)]
pub enum Shape {
    // a block of the material that is used
    Make,
    // on with the rule that is used
    Use,
    // tiles along the axis, each with the rule that is used
    Repeat(Axis, Tile),
    // parts along the axis, the k-th with the k-th rule that is used
    Split(Axis, Parts),
}
