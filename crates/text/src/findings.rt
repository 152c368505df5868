// What can be wrong with the bytes of a line; each finding is answered by its leftmost column.
ghost use Rattle.std.specs.Prelude.{◌≡◌, ℕ};
ghost use Rattle.stack.specs.Held.{entries, capacity};
ghost use Rattle.text.specs.Findings.{too_long, not_allowed, is_fault, First, unbalanced, levels, Bracketed};
ghost use Rattle.text.specs.Scans.{Goes};

use crate::bytes::{index_from, is_allowed};
use stack::Stack;

// The most bytes that a line may have, and the most brackets that may be open at once.
pub const LINE_LIMIT: usize = 240;

pub const LEVELS: usize = 8;

// A line that is too long: the column of the first byte past the longest line.
pub fn find_too_long(line: &[u8]) -> Option<usize>
    ensures { result ≡ too_long line.now }
{
    (line.len() > LINE_LIMIT).then_some(LINE_LIMIT + 1)
}

// A byte that may not stand in a line.
pub fn find_not_allowed(line: &[u8]) -> Option<usize>
    ensures value { result ≡ not_allowed line.now }
    ensures first { First is_fault line.now result }
{
    index_from(line, 0, |b| !is_allowed(b)).map(|i| i + 1)
}

// One byte of a line, where the columns of the open brackets are stacked: the column where the brackets cannot go on after it.
fn bracket_step(opened: &mut Stack<usize>, b: u8, column: usize) -> Result<(), usize>
    requires { capacity opened.old ≡ levels }
    ensures goes { Goes column (entries opened.old) b (entries opened.new) result }
    ensures size { capacity opened.new ≡ levels }
{
    match b as char {
        '(' => opened.push(column).map_err(|_| column),
        ')' => opened.pop().map(|_| ()).ok_or(column),
        _ => Ok(()),
    }
}

// A bracket that cannot stand where it does: a closing one with none open, one that opens a level too many, or,
// where there is none of these, the innermost one that is open at the end.
pub fn find_unbalanced(line: &[u8]) -> Option<usize>
    ensures value { result ≡ unbalanced line.now }
    ensures plain { Bracketed line.now result }
{
    let mut memory = [0; LEVELS];
    let mut opened = Stack::new(&mut memory);
    for (i, b) in line.iter().enumerate() {
        if let Err(column) = bracket_step(&mut opened, *b, i + 1) {
            return Some(column);
        }
    }
    opened.top()
}
