// Lines one after the other.
ghost use Rattle.std.specs.Prelude.{◌≡◌, ◌<◌, length, nat_lt};
ghost use Rattle.std.specs.Iterator.{item_count};
ghost use Rattle.text.specs.Lines.{Cut, lines_of, lines_left, NextLine, file_limit, Rejoins};

use crate::bytes::index_from;
use crate::lines::{Line, Lines};

// The most bytes that a file may have.
pub const FILE_LIMIT: usize = 32768;

// Whether a file has too many bytes.
pub fn is_too_long(text: &[u8]) -> bool
    ensures { result ≡ nat_lt file_limit (length text.now) }
{
    text.len() > FILE_LIMIT
}

// The first line, up to its line feed or the end, and what follows it.
fn first_line<'a>(text: &'a [u8]) -> (&'a [u8], &'a [u8])
    requires { 0 < length text.now }
    ensures { Cut text.now result.0.now result.1.now }
{
    match index_from(text, 0, |b| b == b'\n') {
        Some(end) => (&text[..end], &text[end + 1..]),
        None => (text, &[]),
    }
}

impl<'a> Lines<'a> {
    // All lines of a file. They have no line feed in them, and joined by line feeds they are the file.
    pub fn of(text: &'a [u8]) -> Lines<'a>
        ensures all { lines_left result ≡ lines_of text.now }
        ensures first { result.before ≡ 0 }
        ensures law { Rejoins text.now (lines_left result) }
    {
        Lines {
            rest: text,
            before: 0,
        }
    }
}

// The lines with their numbers, one after the other.
impl<'a> Iterator for Lines<'a> {
    type Item = Line<'a>;

    ghost next_gives = { λ s r t. NextLine s t r };

    ghost remaining = { item_count lines_left };

    fn next(&mut self) -> Option<Line<'a>> {
        if self.rest.is_empty() {
            return None;
        }
        let (bytes, rest) = first_line(self.rest);
        let number = self.before + 1;
        self.rest = rest;
        self.before = number;
        Some(Line { bytes, number })
    }
}
