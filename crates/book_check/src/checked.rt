// A book that was checked, with the table of its lines; made by `check` only.
ghost use Rattle.std.specs.Prelude.{◌≡◌, true};
ghost use Rattle.book.specs.Lines.{lines_of};
ghost use Rattle.book_check.specs.Resolved.{accepted, Resolved};

use book::table::RuleTable;
use rules::rule_book::Book;

#[derive(Drop)]
pub struct CheckedBook<'a> {
    pub(crate) book: Book<'a>,
    pub(crate) table: RuleTable,
    ghost sound: { accepted book ≡ true },
    ghost means: { ∥ Resolved book (lines_of table) ∥₁ },
}
