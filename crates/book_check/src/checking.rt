// The check of a book.
ghost use Rattle.std.specs.Prelude.{◌≡◌, if◌then◌else◌};
ghost use Rattle.book.specs.Checks.{every};
ghost use Rattle.rules.specs.Pages.{no_pages};
ghost use Rattle.book_check.specs.Checked.{pages_in, lines_in};
ghost use Rattle.book_check.specs.Resolved.{accepted, Resolved};
ghost use Rattle.rules.specs.Holds.{complete, fits as fitting};

use crate::checked::CheckedBook;
use crate::judging::judge_book;
use crate::names::{used_by, uses_of};
use crate::resolving::table_of;
use by_lines::files::Grow;
use forms::rule::RuleLine;
use geometry::limits::MOST_LINES;
use rules::judging::MOST_MATERIALS;
use rules::rule_book::Book;
use text::placed::Placed;

// Whether all names that a rule line uses are there.
fn is_complete(uses: &[Placed<&[u8]>], line: &RuleLine) -> bool
    ensures { result ≡ complete uses.now line.now }
{
    used_by(uses, line).len() == uses_of(&line.body)
}

// The same for all rule lines.
fn all_complete(uses: &[Placed<&[u8]>], lines: &[RuleLine]) -> bool
    ensures { result ≡ every (complete uses.now) lines.now }
{
    lines.iter().all(|line| is_complete(uses, line))
}

// Whether a book is as reading leaves it.
fn fits(book: &Book) -> bool
    ensures { result ≡ fitting book.now }
{
    book.names().len() == book.lines().len()
        && book.lines().len() <= MOST_LINES as usize
        && book.materials().len() <= MOST_MATERIALS
        && all_complete(book.uses(), book.lines())
}

// Whether a book fits and has no fault.
fn is_accepted(book: &Book) -> bool
    ensures { result ≡ accepted book.now }
{
    fits(book) && judge_book(book).is_none()
}

// Checks a book; one that is not accepted comes out empty.
pub fn check<'a>(book: Book<'a>) -> CheckedBook<'a>
    ensures pages { pages_in result ≡ (if accepted book.entry then book.entry else no_pages) }
    ensures means { Resolved (pages_in result) (lines_in result) }
{
    let mut book = book;
    if !is_accepted(&book) {
        book.clear();
    }
    let table = table_of(&book);
    CheckedBook { book, table }
}
