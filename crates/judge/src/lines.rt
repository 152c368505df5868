// The judgement of a line by itself.
ghost use Rattle.std.specs.Prelude.{◌≡◌, Some, None};
ghost use Rattle.std.specs.Result.{result_err};
ghost use Rattle.text.specs.Tokens.{tokens_of};
ghost use Rattle.judge.specs.Files.{column_of};
ghost use Rattle.judge.specs.Judged.{found, judged, Least, Acceptable};

use crate::faults::Fault;
use grammar::passes::{find_bad_name, find_bad_number, find_misplaced};
use grammar::state::FileKind;
use text::findings::{find_not_allowed, find_too_long, find_unbalanced};
use text::lines::Line;
use text::placed::Placed;
use text::tokens::Tokens;

// A fault with its place.
pub fn fault_at(fault: Fault, line: usize, column: usize) -> Placed<Fault>
    ensures { Some result ≡ found fault line (Some column) }
{
    Placed {
        value: fault,
        line,
        column,
    }
}

// A fault at a column of a line refuses it.
pub fn refuse(at: Option<usize>, fault: Fault, line: usize) -> Result<(), Placed<Fault>>
    ensures { result_err result ≡ found fault line at }
{
    match at {
        Some(column) => Err(fault_at(fault, line, column)),
        None => Ok(()),
    }
}

// The findings of a line by itself, one after the other by their numbers.
fn find_fault(file: FileKind, line: Line) -> Result<(), Placed<Fault>>
    ensures value { result_err result ≡ judged file line.entry.number line.entry.bytes.now }
    ensures least { Least file line.entry.number line.entry.bytes.now (result_err result) }
{
    let number = line.number;
    refuse(find_too_long(line.bytes), Fault::LineTooLong, number)?;
    refuse(find_not_allowed(line.bytes), Fault::ByteNotAllowed, number)?;
    refuse(find_unbalanced(line.bytes), Fault::Brackets, number)?;
    refuse(find_misplaced(file, line), Fault::Misplaced, number)?;
    refuse(find_bad_number(file, line), Fault::BadNumber, number)?;
    refuse(find_bad_name(file, line), Fault::BadName, number)
}

// Of what is wrong with a line by itself the fault with the least number, at its leftmost place; readers of files begin here.
// It passes just if the line is acceptable.
pub fn first_fault(file: FileKind, line: Line) -> Result<(), Placed<Fault>>
    ensures value { result_err result ≡ judged file line.entry.number line.entry.bytes.now }
    ensures least { Least file line.entry.number line.entry.bytes.now (result_err result) }
    ensures accepts { (result_err result ≡ None → Acceptable file line.entry.bytes.now) × (Acceptable file line.entry.bytes.now → result_err result ≡ None) }
{
    find_fault(file, line)
}

// The judgement of a line by itself: the fault with the least number at its leftmost place, or nothing just if the line is
// not too long, has allowed bytes only, and is blank or one form of the file with its numbers and names in order.
// Stays: an Option over first_fault, since a judgement is asked and alters nothing, and says in plain words what passes.
pub fn judge_line(file: FileKind, line: Line) -> Option<Placed<Fault>>
    ensures value { result ≡ judged file line.entry.number line.entry.bytes.now }
    ensures least { Least file line.entry.number line.entry.bytes.now result }
    ensures accepts { (result ≡ None → Acceptable file line.entry.bytes.now) × (Acceptable file line.entry.bytes.now → result ≡ None) }
{
    first_fault(file, line).err()
}

// The column of the first token of a line.
pub fn first_column(line: Line) -> Option<usize>
    ensures { result ≡ column_of 0 (tokens_of line.entry.bytes.now) }
{
    Tokens::of(line).next().map(|t| t.column)
}
