// Compares the rows of the library with those of a second apportioner, written another way.
#![tactic(auto)]

mod bodies;
mod second;
mod tally;

use anyhow::{Context, Result};
use bodies::{LISTED, Random, STEPS, TILES, mixed, rising};
use bounded::inline::InlineVec;
use geometry::units::Mm;
use rows::parts::Parts;
use rows::refusal::RowRefusal;
use rows::repeat::repeat;
use rows::row::Row;
use rows::size::Size;
use rows::split::split;
use rows::tile::Tile;
use second::{Refused, Told, second_repeat, second_split};
use tally::Tally;

// What the library answers, in the words of the second apportioner.
fn told(answer: Result<Row, RowRefusal>) -> Told {
    match answer {
        Ok(row) => {
            let mut lengths = InlineVec::new(0);
            for segment in row.as_slice() {
                let _ = lengths.push(segment.length.0 as u64);
            }
            Ok(lengths)
        }
        Err(refusal) => Err(Refused {
            number: refusal.number(),
            part: refusal.part(),
        }),
    }
}

// The answers compared so far.
#[derive(Drop)]
struct Comparison {
    tally: Tally,
}

impl Comparison {
    fn split(&mut self, length: u32, sizes: &[Size], parts: &Parts) {
        let first = told(split(Mm(length), parts));
        let second = second_split(length as u64, sizes);
        self.tally.count(&first, &second);
    }

    fn repeat(&mut self, length: u32, tile: Tile) {
        let first = told(repeat(Mm(length), tile));
        let second = second_repeat(length as u64, tile.length.0 as u64);
        self.tally.count(&first, &second);
    }

    // A body in every length from 1 to 2,000.
    fn body(&mut self, sizes: &[Size]) -> Result<()> {
        let parts = parts(sizes)?;
        for length in 1..2_001 {
            self.split(length, sizes, &parts);
        }
        Ok(())
    }

    // Every body and every tile of the tables.
    fn tables(&mut self) -> Result<()> {
        for sizes in LISTED {
            self.body(sizes)?;
        }
        for step in STEPS {
            self.body(rising(step).as_slice())?;
        }
        for k in 22..30 {
            self.body(mixed(k).as_slice())?;
        }
        for tile in TILES {
            let tile = tile_of(tile)?;
            for length in 1..2_001 {
                self.repeat(length, tile);
            }
        }
        Ok(())
    }

    // Bodies and lengths at random over their whole ranges.
    fn at_random(&mut self) -> Result<()> {
        let mut random = Random::new();
        for _ in 0..60_000u32 {
            let body = random.next_body();
            let sizes = body.as_slice();
            let parts = parts(sizes)?;
            let length = random.up_to(16_384);
            self.split(length, sizes, &parts);
            let tile = tile_of(random.up_to(16_384))?;
            self.repeat(random.up_to(16_384), tile);
        }
        Ok(())
    }
}

fn parts(sizes: &[Size]) -> Result<Parts> {
    Parts::from_sizes(sizes).context("a part out of range")
}

fn tile_of(length: u32) -> Result<Tile> {
    Tile::new(Mm(length)).context("a tile out of range")
}

fn main(rt: HostRuntime) -> Result<()> {
    let mut comparison = Comparison {
        tally: Tally::new(),
    };
    comparison.tables()?;
    comparison.at_random()?;
    comparison.tally.print(&rt)
}
