// A cell of a grid of some edge: from i * edge to (i + 1) * edge on x, and likewise by j on y and by k on z.
#[derive(Clone, Copy, PartialEq, Eq)]
pub struct Cell {
    pub i: u32,
    pub j: u32,
    pub k: u32,
}
