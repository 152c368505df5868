// A lot as it is read: its corner, its sizes and the name of the rule that it begins with.
use geometry::triple::Triple;
use text::placed::Placed;

#[derive(Clone, Copy)]
pub struct LotLine<'a> {
    pub corner: Triple,
    pub size: Triple,
    pub name: Placed<&'a [u8]>,
}
