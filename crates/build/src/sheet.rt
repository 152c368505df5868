// One run of lots from open to close: what the programs do.
ghost use Rattle.std.specs.Prelude.{length};
ghost use Rattle.build.specs.Builds.{lots_of, joined_lines, passed};
ghost use Rattle.build.specs.Sheets.{CutsSheet};

use crate::build::{Closed, Opened};
use crate::joined::JoinedLots;
use crate::opening::open;
use geometry::scope::Scope;
use sinks::sink::Sink;
use steps::stop::Outcome;

// What the run answered, and what the build was closed with.
#[derive(Clone, Copy)]
pub struct Sheet {
    pub outcome: Outcome,
    pub closed: Closed,
}

pub fn cut_sheet<S: Sink>(
    joined: JoinedLots,
    slots: &mut [Scope],
    sink: &mut S,
    budget: u32,
) -> Sheet
    ensures { CutsSheet S.Sink.edge S.Sink.parts S.Sink.took S.Sink.kept (joined_lines joined) (passed (length slots.old) (lots_of joined)) (length slots.old) sink.old sink.new budget result }
{
    let Opened { mut build, slip } = open(joined, slots);
    let outcome = build.run(sink, budget);
    let closed = build.close(slip);
    Sheet { outcome, closed }
}
