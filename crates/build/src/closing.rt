// Runs of a build, the question what waits, and close.
ghost use Rattle.std.specs.Prelude.{◌≡◌, ℕ, ◌+◌, ◌-◌, ◌^◌, min, length};
ghost use Rattle.stack.specs.Held.{held};
ghost use Rattle.steps.specs.Acting.{Ran};
ghost use Rattle.build.specs.Builds.{waiting_in, space_of, lines_in, steps_of, Tells};

use crate::build::{Build, Closed, Slip, Waiting};
use geometry::scope::Scope;
use sinks::sink::Sink;
use stack::Stack;
use steps::running::run;
use steps::stop::Outcome;

// How many scopes wait on the slots of a stack with that mark, and their volume.
fn volume_over(slots: &mut [Scope], mark: usize) -> Waiting
    ensures tells { Tells (held slots.old mark) result }
    ensures same { slots.new ≡ slots.old }
{
    let mut stack = Stack::resume(slots, mark);
    let volume = stack.fold(0u64, |sum: u64, scope: Scope| {
        sum.saturating_add(scope.cuboid.volume())
    });
    let count = stack.len();
    Waiting { count, volume }
}

// Stays: that a call leaves the size of the stack and the book as they were is said of each call by name, here and in
// the calls as data; it is no fact of one build that a struct could keep.
impl<'s> Build<'s> {
    // Makes steps into the sink, at most as many as the budget: how many were made, and how the run ended.
    pub fn run<S: Sink>(&mut self, sink: &mut S, budget: u32) -> Outcome
        ensures ran { Ran S.Sink.edge S.Sink.parts S.Sink.took S.Sink.kept (lines_in self.old) (waiting_in self.old) (waiting_in self.new) (space_of self.old) sink.old sink.new budget result.steps result.ending }
        ensures space { space_of self.new ≡ space_of self.old }
        ensures lines { lines_in self.new ≡ lines_in self.old }
        ensures steps { steps_of self.new ≡ min (steps_of self.old + result.steps) (2 ^ 64 - 1) }
    {
        let mut stack = Stack::resume(self.slots, self.mark);
        let outcome = run(&self.table, &mut stack, sink, budget);
        self.mark = stack.mark();
        self.steps = self.steps.saturating_add(outcome.steps as u64);
        outcome
    }

    // How many scopes wait, and their volume; nothing is altered.
    pub fn waiting(&mut self) -> Waiting
        ensures tells { Tells (waiting_in self.old) result }
        ensures same { waiting_in self.new ≡ waiting_in self.old }
        ensures space { space_of self.new ≡ space_of self.old }
        ensures lines { lines_in self.new ≡ lines_in self.old }
        ensures steps { steps_of self.new ≡ steps_of self.old }
    {
        volume_over(self.slots, self.mark)
    }

    // Takes the build and its slip back: what waited, and all steps counted.
    pub fn close(self, slip: Slip) -> Closed
        ensures waited { Tells (waiting_in self.entry) result.waiting }
        ensures steps { result.steps ≡ steps_of self.entry }
    {
        let Slip { lots: _ } = slip;
        let Build {
            slots,
            mark,
            steps,
            table: _,
        } = self;
        let waiting = volume_over(slots, mark);
        Closed { waiting, steps }
    }
}
