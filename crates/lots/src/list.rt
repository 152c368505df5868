// The lots of a lot file in its order. Memory for all that a list may hold is reserved when it is made.
use bounded::bounded::BoundedVec;
use geometry::cuboid::Cuboid;
use text::placed::Placed;

// The box of a lot, and the name of the rule that it begins with.
#[derive(Clone, Copy)]
pub struct Lot<'a> {
    pub cuboid: Cuboid,
    pub name: Placed<&'a [u8]>,
}

#[derive(Drop)]
pub struct LotList<'a> {
    pub(crate) lots: BoundedVec<Lot<'a>, 16>,
}
