// The lines of a book with numbers for names.
ghost use Rattle.std.specs.Prelude.{◌≡◌, ◌≤◌, min, true, map, length, take, Some, None};
ghost use Rattle.book.specs.Lines.{lines_of};
ghost use Rattle.rules.specs.Holds.{complete};
ghost use Rattle.forms.specs.Told.{uses_of};
ghost use Rattle.book_check.specs.Resolved.{accepted, meanings, Meant, target_of, shape_of, targets_of, last_number, LineOf, Filler, Resolved};

use crate::kind::Kind;
use crate::names::{kind_of, meaning, used_by};
use book::body::Body;
use book::guard::Guard;
use book::line::Line;
use book::table::RuleTable;
use bounded::inline::InlineVec;
use forms::rule::RuleLine;
use forms::shape::Shape;
use geometry::axis::Axis;
use geometry::units::Mm;
use rules::rule_book::Book;
use text::placed::Placed;

// The number for a name that has this meaning.
fn target_of(meant: Option<usize>) -> u8
    ensures { result ≡ target_of meant }
{
    meant.map_or(0, |n| u8::try_from(n).unwrap_or(u8::MAX))
}

// The numbers for used names.
fn targets(book: &Book, kind: Kind, used: &[Placed<&[u8]>]) -> [u8; 16]
    requires { length used.now ≤ 16 }
    ensures { take (length used.now) result ≡ map target_of (meanings book.now kind used.now) }
{
    let mut numbers = [0; 16];
    // Stays: written by index, since after a loop over `iter_mut` under `zip` nothing is known of what it wrote.
    for (i, name) in used.iter().enumerate() {
        numbers[i] = target_of(meaning(book, kind, name.value));
    }
    numbers
}

// A body of that shape with the first of these numbers.
fn body_of(shape: &Shape, numbers: [u8; 16]) -> Body
    ensures shape { shape_of result ≡ shape.now }
    ensures targets { targets_of result ≡ take (uses_of shape.now) numbers }
{
    match *shape {
        Shape::Make => Body::Make(numbers[0]),
        Shape::Use => Body::Use(numbers[0]),
        Shape::Repeat(axis, tile) => Body::Repeat(axis, tile, numbers[0]),
        Shape::Split(axis, parts) => Body::Split(axis, parts, numbers),
    }
}

// The number of a line in the file, as a line of a table holds it.
fn line_number(line: usize) -> u32
    ensures { result ≡ min line last_number }
{
    u32::try_from(line).unwrap_or(u32::MAX)
}

// A line that fills a place of a table.
fn filler() -> Line
    ensures { Filler result }
{
    let guard = Guard {
        axis: Axis::X,
        low: Mm(0),
        high: Mm(0),
    };
    Line {
        guards: InlineVec::new(guard),
        body: Body::Make(0),
        number: 0,
    }
}

// A rule line with the number that each of its names stands for.
fn line_of(book: &Book, name: &Placed<&[u8]>, line: &RuleLine) -> Line
    requires whole { complete book.now.uses line.now ≡ true }
    requires meant { Meant book.now line.now }
    ensures { LineOf book.now name.now line.now result }
{
    let used = used_by(book.uses(), line);
    let numbers = targets(book, kind_of(&line.body), used);
    Line {
        guards: line.guards,
        body: body_of(&line.body, numbers),
        number: line_number(name.line),
    }
}

// The book's lines, with fillers up to the 64th.
fn resolve(book: &Book) -> [Line; 64]
    requires { accepted book.now ≡ true }
    ensures { Resolved book.now result }
{
    let names = book.names();
    let rules = book.lines();
    let mut lines = [filler(); 64];
    // Stays: written by index, since after a loop over `iter_mut` under `zip` nothing is known of what it wrote.
    for (i, (name, rule)) in names.iter().zip(rules).enumerate() {
        lines[i] = line_of(book, name, rule);
    }
    lines
}

// The table of an accepted book.
pub(crate) fn table_of(book: &Book) -> RuleTable
    requires { accepted book.now ≡ true }
    ensures { Resolved book.now (lines_of result) }
{
    RuleTable::new(resolve(book)).unwrap()
}
