// Questions to a checked book.
ghost use Rattle.std.specs.Prelude.{◌≡◌};
ghost use Rattle.geometry.specs.Limits.{most_lines};
ghost use Rattle.book.specs.Lines.{lines_of};
ghost use Rattle.book_check.specs.Checked.{pages_in, lines_in};
ghost use Rattle.book_check.specs.Faults.{first_named, Under};
ghost use Rattle.book_check.specs.Resolved.{Resolved, StaysInRule};

use crate::checked::CheckedBook;
use crate::names::find;
use book::table::RuleTable;
use rules::rule_book::Book;

impl<'a> CheckedBook<'a> {
    // The book as it was read, or an empty one.
    pub fn book(&self) -> &Book<'a>
        ensures { result.now ≡ pages_in self.now }
    {
        &self.book
    }

    // The index of the first line of the rule with this name.
    pub fn rule_of(&self, name: &[u8]) -> Option<u8>
        ensures value { result ≡ first_named name.now (pages_in self.now).names }
        ensures known { Under most_lines result }
    {
        let i = find(self.book.names(), name)?;
        Some(i as u8)
    }

    // The table of its lines.
    pub fn table(&self) -> RuleTable
        ensures lines { lines_of result ≡ lines_in self.now }
        ensures means { ∥ Resolved (pages_in self.now) (lines_of result) ∥₁ }
        ensures stays { StaysInRule (pages_in self.now) (lines_of result) }
    {
        self.table
    }
}
