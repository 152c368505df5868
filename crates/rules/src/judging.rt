// The judgement of a line of a rule file after the lines before it, which a book holds.
ghost use Rattle.std.specs.Prelude.{◌≡◌, [], ◌∷◌};
ghost use Rattle.std.specs.Result.{result_err};
ghost use Rattle.text.specs.Tokens.{tokens_of};
ghost use Rattle.grammar.specs.Wants.{form, first_at};
ghost use Rattle.grammar.specs.declared.state.FileKind.TheVariants.{Rules};
ghost use Rattle.judge.specs.Files.{column_of};
ghost use Rattle.rules.specs.Before.{left_by};
ghost use Rattle.rules.specs.Verdicts.{redeclared, reused, part_room, material_too_many, line_too_many, too_many, line_fault};

use crate::passes::{
    declares, has, is_redeclared, is_reused, last_guarded, names_itself, opens_part, pick,
};
use crate::rule_book::Book;
use geometry::limits::MOST_LINES;
use grammar::passes::first_at;
use grammar::state::FileKind;
use judge::faults::Fault;
use judge::lines::{first_column, first_fault, refuse};
use rows::making::MOST_PARTS;
use text::lines::Line;
use text::placed::Placed;

// The most declared materials, and the most parts of all rule lines.
pub const MOST_MATERIALS: usize = 15;

pub const ALL_PARTS: usize = 256;

// Stays: a line and the book are passed side by side, since each is asked alone too.
// A material that was declared before.
fn find_redeclared(line: Line, book: &Book) -> Option<usize>
    ensures { result ≡ first_at (redeclared (left_by book.now).materials) (form Rules ∷ []) (tokens_of line.entry.bytes.now) }
{
    let declared = book.materials.as_slice();
    first_at(|s, t| is_redeclared(s, t, declared), FileKind::Rules, line)
}

// A rule line's name that was used before.
fn find_reused(line: Line, book: &Book) -> Option<usize>
    ensures { result ≡ first_at (reused (left_by book.now).names (left_by book.now).guarded) (form Rules ∷ []) (tokens_of line.entry.bytes.now) }
{
    let names = book.names.as_slice();
    let guarded = last_guarded(book.lines.as_slice());
    first_at(
        |s, t| is_reused(s, t, names, guarded),
        FileKind::Rules,
        line,
    )
}

// Whether a line declares a material though there are as many as may be.
fn is_material_too_many(line: Line, book: &Book) -> bool
    ensures { result ≡ material_too_many (left_by book.now) line.entry.bytes.now }
{
    has(declares, line) && book.materials.len() >= MOST_MATERIALS
}

// Whether a line is a rule line though there are as many as may be.
fn is_line_too_many(line: Line, book: &Book) -> bool
    ensures { result ≡ line_too_many (left_by book.now) line.entry.bytes.now }
{
    has(names_itself, line) && book.names.len() >= MOST_LINES as usize
}

// How many parts the next line may have.
pub(crate) fn part_room(book: &Book) -> usize
    ensures { result ≡ part_room (left_by book.now) }
{
    MOST_PARTS.min(ALL_PARTS.saturating_sub(book.parts))
}

// The opening bracket of a form too many.
fn find_too_many(line: Line, book: &Book) -> Option<usize>
    ensures { result ≡ too_many (left_by book.now) line.entry.bytes.now }
{
    if is_material_too_many(line, book) || is_line_too_many(line, book) {
        first_column(line)
    } else {
        pick(opens_part, line, part_room(book))
    }
}

// Of what is wrong with a line after those that the book holds the fault with the least number, at its leftmost place.
pub(crate) fn line_fault(line: Line, book: &Book) -> Result<(), Placed<Fault>>
    ensures { result_err result ≡ line_fault (left_by book.now) line.entry.number line.entry.bytes.now }
{
    let number = line.number;
    first_fault(FileKind::Rules, line)?;
    refuse(find_redeclared(line, book), Fault::BadName, number)?;
    refuse(find_reused(line, book), Fault::RuleNameUsed, number)?;
    refuse(find_too_many(line, book), Fault::TooMany, number)
}
