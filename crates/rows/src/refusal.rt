// Why a body gives no row.
#[derive(Clone, Copy, PartialEq, Eq)]
pub enum RowRefusal {
    // the fixed lengths are longer than the scope
    FixedTooLong,
    // something is left and no part floats
    NothingFloats,
    // this part, counted from 1, would be too short
    Vanishes(u32),
    // more tiles than a row can have
    TooManyTiles,
    // millimetres are left though every floating part has one more
    SpareLeft,
}
