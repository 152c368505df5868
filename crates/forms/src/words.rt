// The words that begin a part, those that begin a guard or a body, and the bracket after a part.
// Stays: the grammar asks what may come after a word, the readers here what a word says, so each matches it; and reading
// one answers an Option like the other readers, with no error to name.
#[derive(Clone, Copy)]
pub(crate) enum Kind {
    Fix,
    Float,
}

#[derive(Clone, Copy)]
pub(crate) enum Head {
    Make,
    Use,
    Repeat,
    Split,
}

#[derive(Clone, Copy)]
pub(crate) enum Item {
    Guard,
    Body(Head),
}

#[derive(Clone, Copy)]
pub(crate) enum Bracket {
    Open,
    Close,
}
