// Calls as data, carried out one after another.
// Stays: the laws speak of lists of calls, so a call is data and no closure; sink and buffer are lent apart by the caller.
ghost use Rattle.std.specs.Prelude.{◌≡◌, length};
ghost use Rattle.sinks.specs.Meaning.{Empty};
ghost use Rattle.build.specs.Builds.{waiting_in, space_of, lines_in, steps_of, lots_of, joined_lines, passed};
ghost use Rattle.build.specs.Carried.{OneMore, SinkOneMore, GoesOn, SinkGoesOn, Carried};

use crate::build::{Build, Closed, Opened};
use crate::joined::JoinedLots;
use crate::opening::open;
use geometry::cell::Cell;
use geometry::scope::Scope;
use sinks::sink::Sink;

// A call on a sink: a drain, or the question for a material's count, its volume, or a cell.
#[derive(Clone, Copy)]
pub enum SinkCall {
    Drain,
    Count(u8),
    Volume(u8),
    Look(Cell),
}

// A call on an opened build and its sink.
#[derive(Clone, Copy)]
pub enum Call {
    Run(u32),
    Waiting,
    Sink(SinkCall),
}

fn ask<S: Sink>(sink: &mut S, out: &mut [u8], call: SinkCall)
    ensures { SinkOneMore S.Sink.edge S.Sink.parts S.Sink.took S.Sink.kept S.Sink.text call sink.old sink.new }
{
    match call {
        SinkCall::Drain => {
            let _ = sink.drain(out);
        }
        SinkCall::Count(material) => {
            let _ = sink.count(material);
        }
        SinkCall::Volume(material) => {
            let _ = sink.volume(material);
        }
        SinkCall::Look(cell) => {
            let _ = sink.cell(cell);
        }
    }
}

fn carry<S: Sink>(build: &mut Build, sink: &mut S, out: &mut [u8], call: Call)
    ensures more { OneMore S.Sink.edge S.Sink.parts S.Sink.took S.Sink.kept S.Sink.text (lines_in build.old) (space_of build.old) call (waiting_in build.old) (steps_of build.old) sink.old (waiting_in build.new) (steps_of build.new) sink.new }
    ensures space { space_of build.new ≡ space_of build.old }
    ensures lines { lines_in build.new ≡ lines_in build.old }
{
    match call {
        Call::Run(budget) => {
            let _ = build.run(sink, budget);
        }
        Call::Waiting => {
            let _ = build.waiting();
        }
        Call::Sink(call) => ask(sink, out, call),
    }
}

fn ask_all<S: Sink>(sink: &mut S, out: &mut [u8], calls: &[SinkCall])
    ensures { SinkGoesOn S.Sink.edge S.Sink.parts S.Sink.took S.Sink.kept S.Sink.text calls.now sink.old sink.new }
{
    for call in calls {
        ask(sink, out, *call);
    }
}

fn carry_all<S: Sink>(build: &mut Build, sink: &mut S, out: &mut [u8], calls: &[Call])
    ensures more { GoesOn S.Sink.edge S.Sink.parts S.Sink.took S.Sink.kept S.Sink.text (lines_in build.old) (space_of build.old) calls.now (waiting_in build.old) (steps_of build.old) sink.old (waiting_in build.new) (steps_of build.new) sink.new }
    ensures space { space_of build.new ≡ space_of build.old }
    ensures lines { lines_in build.new ≡ lines_in build.old }
{
    for call in calls {
        carry(build, sink, out, *call);
    }
}

// Opens a build, carries out the calls, closes it, and carries out the calls on the sink alone. Beside a sink that was
// empty the laws hold at the start and after every one of them.
pub fn carry_out<S: Sink>(
    joined: JoinedLots,
    slots: &mut [Scope],
    sink: &mut S,
    out: &mut [u8],
    calls: &[Call],
    after: &[SinkCall],
) -> Closed
    ensures { Empty (S.Sink.parts sink.old) → Carried S.Sink.edge S.Sink.parts (joined_lines joined) (passed (length slots.old) (lots_of joined)) calls.now result after.now (S.Sink.parts sink.new) }
{
    let Opened { mut build, slip } = open(joined, slots);
    carry_all(&mut build, sink, out, calls);
    let closed = build.close(slip);
    ask_all(sink, out, after);
    closed
}
