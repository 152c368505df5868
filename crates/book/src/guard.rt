// Asks that a scope's size on the axis is from `low` to `high`, both included.
use geometry::axis::Axis;
use geometry::units::Mm;

#[derive(Clone, Copy)]
pub struct Guard {
    pub axis: Axis,
    pub low: Mm,
    pub high: Mm,
}
