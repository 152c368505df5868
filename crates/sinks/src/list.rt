// A sink that keeps the blocks in the caller's list, in the order of taking.
ghost use Rattle.std.specs.Prelude.{◌≡◌, ℕ, ◌+◌, ◌<◌, ◌≤◌, List, [], ◌∷◌, ◌++◌, length, take, nat_lt, slice_set, refl};
ghost use Rattle.geometry.specs.Boxes.{shared_with};
ghost use Rattle.sinks.specs.Meaning.{Empty, shared_by};
ghost use Rattle.sinks.specs.Lists.{listed, list_parts, Listed};

use crate::grid::in_grid;
use crate::refusal::SinkRefusal;
use crate::sink::Sink;
use crate::tally::Tallies;
use geometry::block::Block;
use geometry::cell::Cell;

// Stays: it is no stack, since its blocks are told in the order of taking and a stack's entries from the top down, and
// a stack's questions would take the list for writing.
#[derive(Drop)]
pub struct BlockList<'s> {
    // Stays: a run allocates nothing, so the caller lends the memory.
    slots: &'s mut [Block],
    len: usize,
    tallies: Tallies,
}

// Writes a block into a list.
fn put(slots: &mut [Block], at: usize, block: Block)
    requires { at < length slots.old }
    ensures { slots.new ≡ slice_set slots.old at block }
{
    slots[at] = block;
}

impl<'s> BlockList<'s> {
    // An empty list in the caller's memory, which stays as it is.
    pub fn new(slots: &'s mut [Block]) -> BlockList<'s>
        ensures empty { Empty (list_parts result) }
        ensures none { result.len ≡ 0 }
        ensures slots { (result.slots.now ≡ slots.old) × (result.slots.ghost_name ≡ slots.entry.ghost_name) }
    {
        BlockList {
            slots,
            len: 0,
            tallies: Tallies::new(),
        }
    }

    fn has_room(&self) -> bool
        ensures { result ≡ nat_lt self.now.len (length self.now.slots.now) }
    {
        self.len < self.slots.len()
    }

    // The blocks of the list.
    fn blocks(&self) -> &[Block]
        ensures { result.now ≡ listed self.now }
    {
        &self.slots[..self.len.min(self.slots.len())]
    }
}

// The volume that blocks share with a cell of edge 1.
fn shared_of(blocks: &[Block], cell: Cell) -> u64
    ensures { result ≡ shared_by 1 cell blocks.now }
{
    blocks
        .iter()
        .map(|block| block.cuboid.shared(1, cell))
        .sum()
}

impl<'s> Sink for BlockList<'s> {
    const EDGE: u32 = 1;

    ghost edge = { 1 };

    ghost parts = { list_parts };

    ghost took = { Listed };

    ghost kept = { λ s t. t ≡ s };

    ghost text = { λ _. [] };

    fn edge_of() -> u32
        ensures { result ≡ 1 }
    {
        Self::EDGE
    }

    fn take(&mut self, block: Block) -> Result<(), SinkRefusal> {
        let at = self.len;
        let room = self.has_room();
        self.tallies.receive(block, room)?;
        put(self.slots, at, block);
        self.len = at + 1;
        Ok(())
    }

    fn count(&mut self, material: u8) -> Result<u64, SinkRefusal> {
        self.tallies.count_of(material)
    }

    fn volume(&mut self, material: u8) -> Result<u64, SinkRefusal> {
        self.tallies.volume_of(material)
    }

    fn cell(&mut self, cell: Cell) -> Result<u64, SinkRefusal> {
        if !in_grid(Self::EDGE, cell) {
            return Err(SinkRefusal::NoSuch);
        }
        Ok(shared_of(self.blocks(), cell))
    }

    fn drain(&mut self, _out: &mut [u8]) -> Result<usize, SinkRefusal> {
        Ok(0)
    }

    ghost power = { refl };
}
