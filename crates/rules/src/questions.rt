// Making a book, and questions to it.
ghost use Rattle.std.specs.Prelude.{◌≡◌, ◌≤◌, length, IfOk};
ghost use Rattle.rules.specs.Pages.{no_pages};

use crate::rule_book::Book;
use bounded::bounded::BoundedVec;
use forms::rule::RuleLine;
use std::alloc::{AllocError, Global};
use text::placed::Placed;

impl<'a> Book<'a> {
    // An empty book with its memory reserved.
    pub fn new(heap: Global) -> Result<Book<'a>, AllocError>
        ensures { IfOk result (λ b. b ≡ no_pages) }
    {
        let materials = BoundedVec::new(heap)?;
        let names = BoundedVec::new(heap)?;
        let lines = BoundedVec::new(heap)?;
        let uses = BoundedVec::new(heap)?;
        Ok(Book {
            materials,
            names,
            lines,
            uses,
            parts: 0,
        })
    }

    // The names of the declared materials, in the order of their numbers from 1 on.
    pub fn materials(&self) -> &[Placed<&'a [u8]>]
        ensures { result.now ≡ self.now.materials }
    {
        self.materials.as_slice()
    }

    // The names of the rule lines.
    pub fn names(&self) -> &[Placed<&'a [u8]>]
        ensures { result.now ≡ self.now.names }
    {
        self.names.as_slice()
    }

    // The rule lines without their names.
    pub fn lines(&self) -> &[RuleLine]
        ensures { result.now ≡ self.now.lines }
    {
        self.lines.as_slice()
    }

    // The names that the bodies of the rule lines use.
    pub fn uses(&self) -> &[Placed<&'a [u8]>]
        ensures { result.now ≡ self.now.uses }
    {
        self.uses.as_slice()
    }

    // How many parts the splits have, all together.
    pub fn part_count(&self) -> usize
        ensures { result ≡ self.now.parts }
    {
        self.parts
    }
}
