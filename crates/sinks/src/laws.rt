// What holds of every sink and of every list of blocks that it took.
ghost use Rattle.sinks.specs.Laws.{BlocksTold, GridsAddUp, CellsAddUp, SinksAgree};

use crate::sink::Sink;

// Counts, volumes and cells have grown by the sums over the blocks.
pub fn blocks_told<S: Sink>()
    ensures { BlocksTold S.Sink.edge S.Sink.parts }
{}

// The cells of any grid share with blocks, together, the blocks' volume.
pub fn grids_add_up()
    ensures { GridsAddUp }
{}

// The cells of a sink that began empty add up to all its volumes.
pub fn cells_add_up<S: Sink>()
    ensures { CellsAddUp S.Sink.edge S.Sink.parts }
{}

// Two sinks that began empty and took the same blocks tell the same; the cells of the finer one that lie in a cell of the
// coarser one add up to it.
pub fn sinks_agree<S: Sink, T: Sink>()
    ensures { SinksAgree S.Sink.edge S.Sink.parts T.Sink.edge T.Sink.parts }
{}
