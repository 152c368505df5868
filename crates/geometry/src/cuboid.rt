// A box of the site, by its stretch on each axis.
use crate::span::Span;

#[derive(Clone, Copy)]
pub struct Cuboid {
    pub x: Span,
    pub y: Span,
    pub z: Span,
}
