// Making parts and tiles, and questions to rows and refusals.
ghost use Rattle.std.specs.Prelude.{◌≡◌, ◌<◌, ◌≤◌, [], length, MatchOption};
ghost use Rattle.geometry.specs.Limits.{least, site};
ghost use Rattle.rows.specs.Sizes.{amount, lowest, highest, InRange};
ghost use Rattle.rows.specs.Rows.{sizes, parts_of, segments_of, number, part_named};
ghost use Rattle.rows.specs.Parts.{Pushed};

use crate::part::Part;
use crate::parts::Parts;
use crate::refusal::RowRefusal;
use crate::row::{Row, Segment};
use crate::size::Size;
use crate::tile::Tile;
use bounded::full::Full;
use bounded::inline::InlineVec;
pub use geometry::limits::MOST_WEIGHT;
use geometry::limits::{LEAST, SITE};
use geometry::units::{Mm, Weight};

// The most parts of a split.
pub const MOST_PARTS: usize = 16;

// The least and the most that a part of this kind may ask for.
// Stays: a pair that is taken apart at once.
fn range(size: Size) -> (u32, u32)
    ensures { (result.0 ≡ lowest size) × (result.1 ≡ highest size) }
{
    match size {
        Size::Fix(_) => (LEAST, SITE),
        Size::Float(_) => (1, MOST_WEIGHT),
    }
}

// The number that a part asks for.
fn amount_of(size: Size) -> u32
    ensures { result ≡ amount size }
{
    match size {
        Size::Fix(length) => length.0,
        Size::Float(weight) => weight.0,
    }
}

impl Part {
    // None where the length or weight is out of range.
    // Stays: a maker answers None where there is no such value, and there is one reason.
    pub fn new(size: Size) -> Option<Part>
        ensures { MatchOption result (lowest size ≤ amount size → amount size ≤ highest size → ⊥) (λ p. p.size ≡ size) }
    {
        let (low, high) = range(size);
        let n = amount_of(size);
        if (low..=high).contains(&n) {
            Some(Part { size })
        } else {
            None
        }
    }
}

impl Parts {
    pub fn new() -> Parts
        ensures { parts_of result ≡ [] }
    {
        let blank = Part {
            size: Size::Float(Weight(1)),
        };
        Parts {
            parts: InlineVec::new(blank),
        }
    }

    // One part more at the end; refused, and nothing altered, where there are 16.
    pub fn push(&mut self, part: Part) -> Result<(), Full>
        ensures { Pushed self.old part self.new result }
    {
        self.parts.push(part)
    }

    // The parts that ask for these sizes; None where one is out of range or there are more than 16.
    // Stays: a maker answers None where there is no such value; nobody asks which of the two it was.
    pub fn from_sizes(wanted: &[Size]) -> Option<Parts>
        ensures { MatchOption result (InRange wanted.now → length wanted.now ≤ 16 → ⊥) (λ p. sizes (parts_of p) ≡ wanted.now) }
    {
        let mut parts = Parts::new();
        for size in wanted {
            parts.push(Part::new(*size)?).ok()?;
        }
        Some(parts)
    }

    pub fn len(&self) -> usize
        ensures { (result ≡ length (parts_of self.now)) × (result ≤ 16) }
    {
        self.parts.len()
    }

    pub fn as_slice(&self) -> &[Part]
        ensures { (result.now ≡ parts_of self.now) × (length result.now ≤ 16) }
    {
        self.parts.as_slice()
    }
}

impl Tile {
    // None where no box has that length.
    // Stays: a maker answers None where there is no such value, and there is one reason.
    pub fn new(length: Mm) -> Option<Tile>
        ensures { MatchOption result (least ≤ length.0 → length.0 ≤ site → ⊥) (λ t. t.length ≡ length) }
    {
        if (LEAST..=SITE).contains(&length.0) {
            Some(Tile { length })
        } else {
            None
        }
    }
}

impl Row {
    pub fn as_slice(&self) -> &[Segment]
        ensures { (result.now ≡ segments_of self.now) × (length result.now ≤ 64) }
    {
        self.segments.as_slice()
    }
}

impl RowRefusal {
    // The number under which the refusal is told.
    // Stays: a variant holds a part, so the numbers cannot be discriminants.
    pub fn number(self) -> u32
        ensures { result ≡ number self }
    {
        match self {
            RowRefusal::FixedTooLong => 31,
            RowRefusal::NothingFloats => 32,
            RowRefusal::Vanishes(_) => 33,
            RowRefusal::TooManyTiles => 34,
            RowRefusal::SpareLeft => 36,
        }
    }

    // The part that the refusal names, counted from 1; 0 if none.
    // Stays: a stop tells its part as a number, 0 if none.
    pub fn part(self) -> u32
        ensures { result ≡ part_named self }
    {
        match self {
            RowRefusal::Vanishes(part) => part,
            _ => 0,
        }
    }
}
