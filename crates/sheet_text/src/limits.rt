// Buffers of these lengths are never short: for a whole sheet, and for one line.
pub const SHEET_BYTES: usize = 2_048;

pub const LINE_BYTES: usize = 192;
