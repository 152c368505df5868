// A sink takes blocks. What it means are four parts: a count and a volume for each material, the received volume in
// each cell of its grid, and a yes or no to room for a block.
ghost use Rattle.std.specs.Prelude.{◌≡◌, ℕ, ◌<◌, true, List};
ghost use Rattle.geometry.specs.declared.block.Block.{Block};
ghost use Rattle.sinks.specs.Meaning.{Parts, PowerOfTwo, Offering, Asking, Draining, materials, in_grid};

use crate::refusal::SinkRefusal;
use geometry::block::Block;
use geometry::cell::Cell;

// Stays: clauses name these members one by one, since a question speaks of two of them, a drain of three, a law of others.
pub trait Sink {
    // The edge of the sink's cells.
    const EDGE: u32;

    ghost edge: { ℕ };

    ghost parts: { Self → Parts };

    // What an implementation promises of a taken block beyond the four parts.
    ghost took: { Self → Block → Self → Type 0 };

    // What an implementation promises, beyond the four parts, where nothing is taken or handed out: of a refusal and of
    // a question.
    ghost kept: { Self → Self → Type 0 };

    // What a drain hands out: nothing for a sink that has none.
    ghost text: { Self → List ℕ };

    // The edge that the meaning uses is the constant.
    // Stays: a ghost `EDGE` beside the constant is not proved where an impl has a lifetime, as that of the block list.
    fn edge_of() -> u32
        ensures { result ≡ edge };

    // Offers a block.
    fn take(&mut self, block: Block) -> Result<(), SinkRefusal>
        ensures { Offering edge parts took kept self.old self.new block result };

    // Stays: `count`, `volume` and an idle `drain` are one line in each sink; a body here would need a member for the
    // tallies and laws that tie it to `parts` and `kept`.
    fn count(&mut self, material: u8) -> Result<u64, SinkRefusal>
        ensures { Asking parts kept (material < materials) ((parts self.old).count material) self.old self.new result };

    fn volume(&mut self, material: u8) -> Result<u64, SinkRefusal>
        ensures { Asking parts kept (material < materials) ((parts self.old).volume material) self.old self.new result };

    fn cell(&mut self, cell: Cell) -> Result<u64, SinkRefusal>
        ensures { Asking parts kept (in_grid edge cell ≡ true) ((parts self.old).cell cell) self.old self.new result };

    // Hands out the text and empties it.
    fn drain(&mut self, out: &mut [u8]) -> Result<usize, SinkRefusal>
        ensures { Draining parts text kept self.old self.new out.old out.new result };

    // The edge is a power of two.
    ghost power: { PowerOfTwo edge };
}
