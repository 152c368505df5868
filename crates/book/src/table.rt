// The places for lines of a checked book; places after the book's own lines hold lines without a guard.
ghost use Rattle.std.specs.Prelude.{◌≡◌, true, length};
ghost use Rattle.book.specs.Checks.{ok_lines};

use crate::line::Line;
use geometry::limits::MOST_LINES;

// How many lines a table has.
pub const PLACES: usize = MOST_LINES as usize;

#[derive(Clone, Copy)]
pub struct RuleTable {
    pub(crate) lines: [Line; PLACES],
    ghost full: { length lines ≡ 64 },
    ghost checked: { ok_lines lines ≡ true },
}
