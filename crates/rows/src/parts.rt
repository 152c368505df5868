// The parts of a split, at most 16.
use crate::part::Part;
use bounded::inline::InlineVec;

// Stays: no model, as the inline list has none.
#[derive(Clone, Copy)]
pub struct Parts {
    pub(crate) parts: InlineVec<Part, 16>,
}
