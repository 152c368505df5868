// The edge of the site, the least size of a box on an axis, the most rule lines of a book, the greatest weight of a part, and
// the number of materials: they are numbered below it.
pub const SITE: u32 = 16_384;

pub const LEAST: u32 = 1;

pub const MOST_LINES: u8 = 64;

pub const MOST_WEIGHT: u32 = 1_000;

pub const MATERIALS: u8 = 16;
