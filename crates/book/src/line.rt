// A rule line: its guards, its body, and the number of its line in the file.
use crate::body::Body;
use crate::guard::Guard;
use bounded::inline::InlineVec;

#[derive(Clone, Copy)]
pub struct Line {
    pub guards: InlineVec<Guard, 3>,
    pub body: Body,
    pub number: u32,
}
