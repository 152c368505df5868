// One line of text: a start and an end by its kind, and numbers with spaces between.
use bounded::inline::InlineVec;

#[derive(Clone, Copy, PartialEq, Eq)]
pub enum LineKind {
    Group,
    Vertex,
    Face,
    Material,
    Sum,
    Done,
    Spent,
    Stop,
    RulesRefused,
    LotsRefused,
    Block,
}

// A line with at most N numbers after the first.
#[derive(Clone, Copy)]
pub struct Line<const N: usize> {
    pub kind: LineKind,
    pub first: u64,
    pub others: InlineVec<u64, N>,
}
