// What a part of a split asks for: a fixed length, or a share of the rest by weight.
use geometry::units::{Mm, Weight};

#[derive(Clone, Copy)]
pub enum Size {
    Fix(Mm),
    Float(Weight),
}
