// The guards of a rule line, and the word that begins its body.
use crate::words::Head;
use book::guard::Guard;
use bounded::inline::InlineVec;

#[derive(Clone, Copy)]
pub(crate) struct Front {
    pub(crate) guards: InlineVec<Guard, 3>,
    pub(crate) head: Head,
}
