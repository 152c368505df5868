// A rule file read into a book.
ghost use Rattle.std.specs.Prelude.{◌≡◌, true, IsOk, refl};
ghost use Rattle.std.specs.Result.{result_err};
ghost use Rattle.rules.specs.Holds.{parts_of, has_room, MaterialTaken, RuleTaken, FormTaken, Fitting, fitting_nothing, Grown, verdict_after, FileTaken, fits};
ghost use Rattle.rules.specs.Pages.{no_pages};
ghost use Rattle.rules.specs.Verdicts.{verdict, RulesInOrder};

use crate::judging::{ALL_PARTS, line_fault, part_room};
use crate::passes::{declares, has};
use crate::rule_book::Book;
use by_lines::files::{Grow, TakeLines, read_file};
use forms::material::read_material;
use forms::rules::read_rule;
use forms::shape::Shape;
use geometry::limits::MOST_LINES;
use judge::faults::Fault;
use text::lines::Line;
use text::placed::Placed;
use text::tokens::is_blank;

// The material that a line declares, at the end of the book; None where it declares none or there is no room.
// Stays: nobody asks which of the two it was, so that this, add_rule and add_form answer an Option.
fn add_material<'a>(line: Line<'a>, book: &mut Book<'a>) -> Option<()>
    ensures { MaterialTaken line.entry.number line.entry.bytes.now book.old book.new result }
{
    let name = read_material(line)?;
    book.materials.push(name).ok()
}

// How many parts a body has.
fn part_count(body: Shape) -> usize
    ensures { result ≡ parts_of body }
{
    match body {
        Shape::Split(_, parts) => parts.len(),
        Shape::Make | Shape::Use | Shape::Repeat(_, _) => 0,
    }
}

// Whether a book has room for another rule line and its parts can be counted.
fn has_room(book: &Book) -> bool
    ensures { result ≡ has_room book.now }
{
    book.lines.len() < MOST_LINES as usize && book.parts <= ALL_PARTS
}

// The rule line that a line is, at the end of the book; None where it is none or there is no room.
fn add_rule<'a>(line: Line<'a>, book: &mut Book<'a>) -> Option<()>
    ensures { RuleTaken line.entry.number line.entry.bytes.now book.old book.new result }
{
    if !has_room(book) {
        return None;
    }
    let room = part_room(book);
    let read = read_rule(line, room, &mut book.names, &mut book.uses)?;
    book.parts += part_count(read.body);
    book.lines.push(read).ok()
}

// What a line that is not blank says, at the end of the book.
fn add_form<'a>(line: Line<'a>, book: &mut Book<'a>) -> Option<()>
    ensures { FormTaken line.entry.number line.entry.bytes.now book.old book.new result }
{
    if has(declares, line) {
        add_material(line, book)
    } else {
        add_rule(line, book)
    }
}

impl<'a> Grow for Book<'a> {
    ghost verdict = { λ p n ls. verdict_after p n ls };

    ghost grown = { λ n l p q. Grown n l p q };

    ghost fits = { λ p. Fitting p };

    ghost empty = { no_pages };

    // Empties the book; the memory stays.
    fn clear(&mut self) {
        self.materials.clear();
        self.names.clear();
        self.lines.clear();
        self.uses.clear();
        self.parts = 0;
    }

    ghost begins = { fitting_nothing };

    ghost ends = { λ p n. refl };
}

impl<'a> TakeLines<'a> for Book<'a> {
    // Judges a line after those that the book holds, and adds what it says.
    fn take_line(&mut self, line: Line<'a>) -> Result<(), Placed<Fault>> {
        line_fault(line, self)?;
        if !is_blank(line.bytes) {
            // Stays: the answer is no news, since a line that is judged to be in order is added.
            let _ = add_form(line, self);
        }
        Ok(())
    }
}

impl<'a> Book<'a> {
    // Reads a rule file into the book, in place of what it held. A file is taken just if it is in order; the book then holds its
    // lines, one after the other. After a refusal the book is empty.
    pub fn read(&mut self, text: &'a [u8]) -> Result<(), Placed<Fault>>
        ensures verdict { result_err result ≡ verdict text.now }
        ensures order { (IsOk result → RulesInOrder text.now) × (RulesInOrder text.now → IsOk result) }
        ensures holds { FileTaken text.now self.new result }
        ensures fits { fits self.new ≡ true }
    {
        read_file(text, self)
    }
}
