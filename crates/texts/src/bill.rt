// A sink that keeps counts and volumes only, and can tell them as text.
ghost use Rattle.std.specs.Prelude.{◌≡◌, ◌+◌, ◌*◌, ◌≤◌, true, [], ◌++◌, length, refl};
ghost use Rattle.geometry.specs.Limits.{site};
ghost use Rattle.geometry.specs.declared.block.Block.{Block};
ghost use Rattle.sinks.specs.Meaning.{HandsOut, Empty, Tells, in_grid};
ghost use Rattle.sinks.specs.Tallied.{count_of, volume_held};
ghost use Rattle.texts.specs.Lines.{text_of, lent_text, up_to};
ghost use Rattle.texts.specs.Bills.{material_line, sum_line, bill_text, tallies_text, site_cell, bill_parts};

use crate::line::{Line, LineKind};
use crate::lines::{LentLine, put_line};
use crate::out::Out;
use crate::writing::{Text, write};
use geometry::block::Block;
use geometry::cell::Cell;
use geometry::limits::{MATERIALS, SITE};
use sinks::grid::in_grid;
use sinks::refusal::SinkRefusal;
use sinks::sink::Sink;
use sinks::tally::Tallies;

// Puts the line of a material; none for one without a block.
fn put_material<W: Out>(out: &mut W, tallies: &Tallies, m: usize)
    requires { W.fits out.old (material_line (count_of tallies.now) (volume_held tallies.now) m) }
    ensures { W.wrote out.old (material_line (count_of tallies.now) (volume_held tallies.now) m) out.new }
{
    let (count, volume) = tallies.tally(m);
    if count > 0 {
        put_line(out, LineKind::Material, m as u64, &[count, volume]);
    }
}

// Puts the lines of the materials, lowest first.
fn put_materials<W: Out>(out: &mut W, tallies: &Tallies)
    requires { W.fits out.old (up_to (material_line (count_of tallies.now) (volume_held tallies.now)) 16) }
    ensures { W.wrote out.old (up_to (material_line (count_of tallies.now) (volume_held tallies.now)) 16) out.new }
{
    for m in 0..MATERIALS as usize {
        put_material(out, tallies, m);
    }
}

// Puts the line of all counts and volumes.
fn put_sum<W: Out>(out: &mut W, tallies: &Tallies)
    requires { W.fits out.old (sum_line (count_of tallies.now) (volume_held tallies.now)) }
    ensures { W.wrote out.old (sum_line (count_of tallies.now) (volume_held tallies.now)) out.new }
{
    let volume = tallies.volume_all();
    put_line(out, LineKind::Sum, tallies.count_all(), &[volume]);
}

impl Text for Tallies {
    ghost text = { tallies_text };

    fn put<W: Out>(&self, out: &mut W) {
        put_materials(out, self);
        put_sum(out, self);
    }
}

// Writes the text of tallies over the start of a buffer; nothing where the buffer is shorter.
pub fn write_tallies(tallies: &Tallies, out: &mut [u8]) -> Result<usize, SinkRefusal>
    ensures { HandsOut (bill_text (count_of tallies.now) (volume_held tallies.now)) out.old out.new result }
{
    write(tallies, out)
}

// A bill and then a line.
#[derive(Clone, Copy)]
struct Sheet<'a> {
    tallies: &'a Tallies,
    last: LentLine<'a>,
}

impl<'a> Text for Sheet<'a> {
    ghost text = { λ s. tallies_text s.tallies.now ++ lent_text s.last };

    fn put<W: Out>(&self, out: &mut W) {
        self.tallies.put(out);
        self.last.put(out);
    }
}

#[derive(Drop)]
pub struct Bill {
    tallies: Tallies,
}

impl Bill {
    pub fn new() -> Bill
        ensures { Empty (bill_parts result) }
    {
        Bill {
            tallies: Tallies::new(),
        }
    }

    // The text of the bill, in the caller's buffer.
    pub fn text(&self, out: &mut [u8]) -> Result<usize, SinkRefusal>
        ensures { HandsOut (bill_text (bill_parts self.now).count (bill_parts self.now).volume) out.old out.new result }
    {
        write_tallies(&self.tallies, out)
    }

    // The text of the bill and then a line.
    pub fn text_and_line<const N: usize>(
        &self,
        last: &Line<N>,
        out: &mut [u8],
    ) -> Result<usize, SinkRefusal>
        ensures hands { HandsOut (bill_text (bill_parts self.now).count (bill_parts self.now).volume ++ text_of last.now) out.old out.new result }
        ensures fits { length (bill_text (bill_parts self.now).count (bill_parts self.now).volume ++ text_of last.now) ≤ 1700 + (37 + 21 * N) }
    {
        let sheet = Sheet {
            tallies: &self.tallies,
            last: last.lend(),
        };
        write(&sheet, out)
    }
}

// The volume in the one cell of a sink whose cells have the edge of the site.
pub(crate) fn site_cell(tallies: &Tallies, cell: Cell) -> Result<u64, SinkRefusal>
    ensures { Tells (in_grid site cell ≡ true) (site_cell tallies.now cell) result }
{
    if !in_grid(SITE, cell) {
        return Err(SinkRefusal::NoSuch);
    }
    Ok(tallies.volume_all())
}

impl Sink for Bill {
    const EDGE: u32 = SITE;

    ghost edge = { site };

    ghost parts = { bill_parts };

    ghost took = { λ _ _ _. Unit {0} };

    ghost kept = { λ s t. t ≡ s };

    ghost text = { λ _. [] };

    fn edge_of() -> u32 {
        Self::EDGE
    }

    fn take(&mut self, block: Block) -> Result<(), SinkRefusal> {
        self.tallies.receive(block, true)?;
        Ok(())
    }

    fn count(&mut self, material: u8) -> Result<u64, SinkRefusal> {
        self.tallies.count_of(material)
    }

    fn volume(&mut self, material: u8) -> Result<u64, SinkRefusal> {
        self.tallies.volume_of(material)
    }

    fn cell(&mut self, cell: Cell) -> Result<u64, SinkRefusal> {
        site_cell(&self.tallies, cell)
    }

    fn drain(&mut self, _out: &mut [u8]) -> Result<usize, SinkRefusal> {
        Ok(0)
    }

    ghost power = { refl };
}
