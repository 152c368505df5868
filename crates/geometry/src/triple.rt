// Three lengths, one for each axis: a corner, or a box's sizes.
use crate::units::Mm;

#[derive(Clone, Copy, PartialEq, Eq)]
pub struct Triple {
    pub x: Mm,
    pub y: Mm,
    pub z: Mm,
}
