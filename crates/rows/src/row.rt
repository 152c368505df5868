// A row, at most 64 segments.
use bounded::inline::InlineVec;
use geometry::units::Mm;

// What a row tells of one part or tile.
#[derive(Clone, Copy)]
pub struct Segment {
    pub length: Mm,
}

// Stays: no model, as the inline list has none.
#[derive(Clone, Copy)]
pub struct Row {
    pub(crate) segments: InlineVec<Segment, 64>,
}
