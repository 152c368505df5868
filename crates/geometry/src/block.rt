// A box with a material number; 0 is void, a place left open. Sinks refuse a number above 15.
use crate::cuboid::Cuboid;

#[derive(Clone, Copy)]
pub struct Block {
    pub cuboid: Cuboid,
    pub material: u8,
}
