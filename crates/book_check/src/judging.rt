// The judgement of a book: in each line first the guards of a rule's last line, then the names from left to right.
ghost use Rattle.std.specs.Prelude.{◌≡◌, ◌+◌, ◌<◌, length, drop, None};
ghost use Rattle.std.specs.Result.{result_err};
ghost use Rattle.book_check.specs.Faults.{meant_fault, name_fault, used_fault, ends, guard_fault, line_fault, book_fault, AllInOrder, FirstFault};

use crate::kind::Kind;
use crate::names::{kind_of, meaning, used_by};
use forms::rule::RuleLine;
use judge::faults::Fault;
use rules::rule_book::Book;
use text::placed::Placed;

// What is wrong with a name that line i uses, by its kind and its meaning.
fn meant_fault(
    i: usize,
    kind: Kind,
    name: &Placed<&[u8]>,
    meant: Option<usize>,
) -> Result<(), Placed<Fault>>
    ensures { result_err result ≡ meant_fault i kind name.now meant }
{
    match (kind, meant) {
        (_, None) => Err(name.with(Fault::UnknownName)),
        (Kind::Below, Some(j)) if i >= j => Err(name.with(Fault::NotFurtherDown)),
        _ => Ok(()),
    }
}

// What is wrong with a name that line i uses.
fn name_fault(book: &Book, i: usize, kind: Kind, name: &Placed<&[u8]>) -> Result<(), Placed<Fault>>
    ensures { result_err result ≡ name_fault book.now i kind name.now }
{
    meant_fault(i, kind, name, meaning(book, kind, name.value))
}

// The first fault of the names that line i uses.
fn used_fault(
    book: &Book,
    i: usize,
    kind: Kind,
    used: &[Placed<&[u8]>],
) -> Result<(), Placed<Fault>>
    ensures { result_err result ≡ used_fault book.now i kind used.now }
{
    for name in used {
        name_fault(book, i, kind, name)?;
    }
    Ok(())
}

// Whether the rule `word` ends before index k: the name there is another, or there is none.
fn ends_at(names: &[Placed<&[u8]>], k: usize, word: &[u8]) -> bool
    ensures { result ≡ ends word.now (drop k names.now) }
{
    names.get(k).is_none_or(|name| name.value != word)
}

// A guard in the last line of a rule.
fn guard_fault(
    names: &[Placed<&[u8]>],
    i: usize,
    name: &Placed<&[u8]>,
    line: &RuleLine,
) -> Result<(), Placed<Fault>>
    requires { i < length names.now }
    ensures { result_err result ≡ guard_fault name.now (drop (i + 1) names.now) line.now }
{
    if line.guards.len() > 0 && ends_at(names, i + 1, name.value) {
        return Err(name.with(Fault::LastLineGuarded));
    }
    Ok(())
}

// The first fault of line i.
fn line_fault(
    book: &Book,
    i: usize,
    name: &Placed<&[u8]>,
    line: &RuleLine,
) -> Result<(), Placed<Fault>>
    requires { i < length book.now.names }
    ensures { result_err result ≡ line_fault book.now i name.now (drop (i + 1) book.now.names) line.now }
{
    guard_fault(book.names(), i, name, line)?;
    used_fault(book, i, kind_of(&line.body), used_by(book.uses(), line))
}

// The first fault of a book, line by line.
fn first_fault(book: &Book) -> Result<(), Placed<Fault>>
    ensures { result_err result ≡ book_fault book.now }
{
    let names = book.names();
    let lines = book.lines();
    for (i, (name, line)) in names.iter().zip(lines).enumerate() {
        line_fault(book, i, name, line)?;
    }
    Ok(())
}

// The first fault of a book, or nothing just if all its lines are in order; the book stays as it is.
// Stays: an Option over first_fault, since a judgement is asked and alters nothing, and says in plain words what passes.
pub fn judge_book(book: &Book) -> Option<Placed<Fault>>
    ensures value { result ≡ book_fault book.now }
    ensures first { FirstFault book.now result }
    ensures accepts { AllInOrder book.now → result ≡ None }
{
    first_fault(book).err()
}
