// A sink that draws the blocks as an OBJ text in the caller's buffer.
ghost use Rattle.std.specs.Prelude.{◌≡◌, ◌<◌, ◌^◌, [], length, nat_le, refl};
ghost use Rattle.geometry.specs.Limits.{site};
ghost use Rattle.geometry.specs.declared.block.Block.{Block};
ghost use Rattle.sinks.specs.Meaning.{Empty};
ghost use Rattle.texts.specs.Drawings.{block_text};
ghost use Rattle.texts.specs.Objs.{obj_text, obj_parts, Drawn, Begun};

use crate::bill::site_cell;
use crate::bytes::hand_out;
use crate::obj_lines::BlockLines;
use crate::writing::{measure, write_at};
use geometry::block::Block;
use geometry::cell::Cell;
use geometry::limits::SITE;
use sinks::refusal::SinkRefusal;
use sinks::sink::Sink;
use sinks::tally::Tallies;

#[derive(Drop)]
pub struct ObjText<'b> {
    // Stays: the text lies in memory that the caller lends, and the buffer is passed whole.
    out: &'b mut [u8],
    used: usize,
    tallies: Tallies,
}

impl<'b> ObjText<'b> {
    // An empty text in the caller's memory, which stays as it is.
    pub fn new(out: &'b mut [u8]) -> ObjText<'b>
        ensures empty { Empty (obj_parts result) }
        ensures none { result.used ≡ 0 }
        ensures out { (result.out.now ≡ out.old) × (result.out.ghost_name ≡ out.entry.ghost_name) }
    {
        ObjText {
            out,
            used: 0,
            tallies: Tallies::new(),
        }
    }

    // The next block's lines begin the text; the face numbers go on.
    fn begin_text(&mut self)
        ensures { Begun self.old self.new }
    {
        self.used = 0;
    }
}

// Whether the lines of a block fit in so many bytes.
fn fits(lines: &BlockLines, rest: usize) -> bool
    requires { rest < 2 ^ 63 }
    ensures { result ≡ nat_le (length (block_text lines.now.drawn lines.now.block)) rest }
{
    measure(lines) <= rest
}

impl<'b> Sink for ObjText<'b> {
    const EDGE: u32 = SITE;

    ghost edge = { site };

    ghost parts = { obj_parts };

    ghost took = { Drawn };

    ghost kept = { λ s t. t ≡ s };

    ghost text = { obj_text };

    fn edge_of() -> u32
        ensures { result ≡ site }
    {
        Self::EDGE
    }

    fn take(&mut self, block: Block) -> Result<(), SinkRefusal> {
        let at = self.used.min(self.out.len());
        let drawn = self.tallies.drawn();
        let lines = BlockLines { drawn, block };
        let room = fits(&lines, self.out.len() - at);
        self.tallies.receive(block, room)?;
        self.used = write_at(self.out, at, &lines);
        Ok(())
    }

    fn count(&mut self, material: u8) -> Result<u64, SinkRefusal> {
        self.tallies.count_of(material)
    }

    fn volume(&mut self, material: u8) -> Result<u64, SinkRefusal> {
        self.tallies.volume_of(material)
    }

    fn cell(&mut self, cell: Cell) -> Result<u64, SinkRefusal> {
        site_cell(&self.tallies, cell)
    }

    fn drain(&mut self, out: &mut [u8]) -> Result<usize, SinkRefusal> {
        let n = self.used.min(self.out.len());
        if n == 0 {
            return Ok(0);
        }
        let written = hand_out(self.out, n, out)?;
        self.begin_text();
        Ok(written)
    }

    ghost power = { refl };
}
