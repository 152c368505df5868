// The raster as a sink.
ghost use Rattle.std.specs.Prelude.{◌≡◌, ℕ, ◌+◌, ◌%◌, ◌<◌, ◌≤◌, true, [], length, refl};
ghost use Rattle.geometry.specs.declared.block.Block.{Block};
ghost use Rattle.geometry.specs.declared.cell.Cell.{Cell};
ghost use Rattle.sinks.specs.Meaning.{Empty, in_grid, limit};
ghost use Rattle.geometry.specs.Boxes.{shared_with};
ghost use Rattle.sinks.specs.Rasters.{place_of, first_of, after_of, SharedIn, SmallFrom, raster_parts};

use super::Raster;
use crate::grid::in_grid;
use crate::refusal::SinkRefusal;
use crate::sink::Sink;
use crate::tally::Tallies;
use geometry::block::Block;
use geometry::cell::Cell;
use geometry::cuboid::Cuboid;
use geometry::span::Span;

// The place where a cell is kept.
fn place_of(cell: Cell) -> usize
    requires { in_grid 1024 cell ≡ true }
    ensures { (result ≡ place_of cell) × (result < 4096) }
{
    (cell.i + 16 * cell.j + 256 * cell.k) as usize
}

// The first stretch of the grid that a stretch reaches, and the one after the last.
fn reach(span: Span) -> (u32, u32)
    ensures first { result.0 ≡ first_of span }
    ensures after { result.1 ≡ after_of span }
    ensures inside { (result.0 ≤ result.1) × (result.1 ≤ 16) }
{
    let at = span.at.0;
    (at / 1024, (at + span.size.0 - 1) / 1024 + 1)
}

// Adds to the number of each cell the volume that it shares with the box; cells that the box does not reach are not
// touched.
fn add_box(cells: &mut [u64], cuboid: Cuboid)
    requires { (length cells.old ≡ 4096) × (SmallFrom 0 cells.old) }
    ensures { SharedIn 0 4096 cuboid cells.old cells.new }
{
    let (west, east) = reach(cuboid.x);
    let (south, north) = reach(cuboid.y);
    let (low, high) = reach(cuboid.z);
    for k in low..high {
        for j in south..north {
            for i in west..east {
                let cell = Cell { i, j, k };
                cells[place_of(cell)] += cuboid.shared(1024, cell);
            }
        }
    }
}

impl Raster {
    // A raster whose numbers are all zero.
    pub fn new() -> Raster
        ensures { Empty (raster_parts result) }
    {
        Raster {
            cells: [0; 4096],
            tallies: Tallies::new(),
        }
    }
}

impl Sink for Raster {
    const EDGE: u32 = 1024;

    ghost edge = { 1024 };

    ghost parts = { raster_parts };

    ghost took = { λ _ _ _. Unit {0} };

    ghost kept = { λ s t. t ≡ s };

    ghost text = { λ _. [] };

    fn edge_of() -> u32 {
        Self::EDGE
    }

    fn take(&mut self, block: Block) -> Result<(), SinkRefusal> {
        let mut tallies = self.tallies;
        tallies.receive(block, true)?;
        add_box(&mut self.cells, block.cuboid);
        self.tallies = tallies;
        Ok(())
    }

    fn count(&mut self, material: u8) -> Result<u64, SinkRefusal> {
        self.tallies.count_of(material)
    }

    fn volume(&mut self, material: u8) -> Result<u64, SinkRefusal> {
        self.tallies.volume_of(material)
    }

    fn cell(&mut self, cell: Cell) -> Result<u64, SinkRefusal> {
        if !in_grid(Self::EDGE, cell) {
            return Err(SinkRefusal::NoSuch);
        }
        Ok(self.cells[place_of(cell)])
    }

    fn drain(&mut self, _out: &mut [u8]) -> Result<usize, SinkRefusal> {
        Ok(0)
    }

    ghost power = { refl };
}
