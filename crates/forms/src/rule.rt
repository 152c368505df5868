// A rule line as it is read, without its names: its guards and its body; the names that the body uses stand in the book's
// list of used names, from the index `from` on.
// Stays: an index, since the memory for all names of a book is one list that is reserved when the book is made.
use crate::shape::Shape;
use book::guard::Guard;
use bounded::inline::InlineVec;

#[derive(Clone, Copy)]
pub struct RuleLine {
    pub guards: InlineVec<Guard, 3>,
    pub body: Shape,
    pub from: usize,
}
