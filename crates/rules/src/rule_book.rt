// What was read of a rule file, in the order of the file: the declared materials, the rule lines with their names, the names
// that their bodies use, and the number of all parts. Memory for all that a book may hold is reserved when it is made.
use bounded::bounded::BoundedVec;
use forms::lists::{RuleNames, Uses};
use forms::rule::RuleLine;
use text::placed::Placed;

// Stays: the names of the rule lines are a list of their own, since the public `names` answers them as one slice, and a slice
// of names cannot be had from a list of lines with their names.
#[derive(Drop)]
pub struct Book<'a> {
    pub(crate) materials: BoundedVec<Placed<&'a [u8]>, 15>,
    pub(crate) names: RuleNames<'a>,
    pub(crate) lines: BoundedVec<RuleLine, 64>,
    pub(crate) uses: Uses<'a>,
    pub(crate) parts: usize,
}
