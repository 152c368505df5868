// Why an entry is not taken: the list holds as many as it may.
#[derive(Clone, Copy, PartialEq, Eq, Debug)]
pub struct Full;
