// What a line does with a scope. A rule is told by the index of its first line, a material by its number.
use geometry::axis::Axis;
use rows::parts::Parts;
use rows::tile::Tile;

#[derive(Clone, Copy)]
pub enum Body {
    // the scope becomes a block of this material
    Make(u8),
    // the scope goes on with this rule
    Use(u8),
    // equal tiles along the axis, each with this rule
    Repeat(Axis, Tile, u8),
    // parts along the axis, the k-th with the k-th of these rules
    // Stays: a row is cut by the parts alone and told by the rules alone, so the two are not one list; and a list of rules
    // with a length of its own could disagree with the parts.
    Split(Axis, Parts, [u8; 16]),
}
