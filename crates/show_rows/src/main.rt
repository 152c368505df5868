// The rows of a harbour front of 14,000 mm, as the saw would cut them.
#![tactic(auto)]

ghost use Rattle.std.specs.Prelude.{◌≡◌, sum_by};
ghost use Rattle.rows.specs.Rows.{segments_of};

use anyhow::{Context, Result};
use geometry::units::{Mm, Weight};
use rows::parts::Parts;
use rows::refusal::RowRefusal;
use rows::repeat::repeat;
use rows::row::Row;
use rows::size::Size;
use rows::split::split;
use rows::tile::Tile;
use std::fmt;

// A refused row as the crew reads it.
#[derive(Clone, Copy)]
struct Refused(RowRefusal);

impl fmt::Display for Refused {
    fn fmt<W: fmt::Write>(&self, f: &mut fmt::Formatter<W>) -> fmt::Result {
        let number = self.0.number();
        let part = self.0.part();
        let meaning = match self.0 {
            RowRefusal::FixedTooLong => "the fixed parts are longer than the scope",
            RowRefusal::NothingFloats => "the fixed parts leave a rest and no part floats",
            RowRefusal::Vanishes(_) => "a floating part would be too short",
            RowRefusal::TooManyTiles => "a row has at most 64 tiles",
            RowRefusal::SpareLeft => "millimetres are left though every floating part has one more",
        };
        write!(f, "refused with {number} at part {part}: {meaning}")
    }
}

fn sum(row: &Row) -> u64
    ensures { result ≡ sum_by (λ s. s.length.0) (segments_of row.now) }
{
    row.as_slice()
        .iter()
        .map(|segment| segment.length.0 as u64)
        .sum()
}

fn show(rt: &HostRuntime, title: &str, answer: Result<Row, RowRefusal>) -> Result<()> {
    println!(rt; "{title}")?;
    match answer {
        Ok(row) => {
            for segment in row.as_slice() {
                let length = segment.length.0;
                print!(rt; " {length}")?;
            }
            let sum = sum(&row);
            println!(rt; " = {sum}")?;
        }
        Err(refusal) => {
            let refused = Refused(refusal);
            println!(rt; " {refused}")?;
        }
    }
    Ok(())
}

// Stays: a line for each, as in the program that compares; a library for two programs would be longer.
fn fix(length: u32) -> Size {
    Size::Fix(Mm(length))
}

fn float(weight: u32) -> Size {
    Size::Float(Weight(weight))
}

// The parts of a split; a length or weight out of range is an error of this program.
fn parts(sizes: &[Size]) -> Result<Parts> {
    Parts::from_sizes(sizes).context("a part out of range")
}

fn run(rt: &HostRuntime) -> Result<()> {
    let front = parts(&[fix(200), float(1), float(1), float(1), fix(200)])?;
    let window = Tile::new(Mm(900)).context("a tile out of range")?;
    let posts = parts(&[fix(200), float(1), fix(200)])?;
    show(
        rt,
        "front of 14000 mm: a post of 200 mm at each end, three panels share the rest",
        split(Mm(14_000), &front),
    )?;
    show(
        rt,
        "panel of 4534 mm: windows near 900 mm",
        repeat(Mm(4_534), window),
    )?;
    show(
        rt,
        "panel of 4533 mm: windows near 900 mm",
        repeat(Mm(4_533), window),
    )?;
    show(
        rt,
        "gap of 400 mm: a post at each end and a panel between",
        split(Mm(400), &posts),
    )
}

fn main(rt: HostRuntime) -> Result<()> {
    run(&rt)
}
