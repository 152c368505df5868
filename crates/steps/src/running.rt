// Runs: steps up to a budget, over a stack of waiting scopes.
ghost use Rattle.std.specs.Prelude.{◌≡◌, length};
ghost use Rattle.stack.specs.Held.{entries, capacity, held};
ghost use Rattle.book.specs.Lines.{lines_of};
ghost use Rattle.steps.specs.Laying.{SameSlice};
ghost use Rattle.steps.specs.Acting.{Ran};

use crate::acting::step;
use crate::stop::{Ending, Outcome};
use book::table::RuleTable;
use geometry::scope::Scope;
use sinks::sink::Sink;
use stack::Stack;

// A run over the waiting scopes: the steps made, and how it ended.
pub fn run<S: Sink>(
    table: &RuleTable,
    stack: &mut Stack<'_, Scope>,
    sink: &mut S,
    budget: u32,
) -> Outcome
    ensures ran { Ran S.Sink.edge S.Sink.parts S.Sink.took S.Sink.kept (lines_of table.now) (entries stack.old) (entries stack.new) (capacity stack.old) sink.old sink.new budget result.steps result.ending }
    ensures slice { SameSlice stack.old stack.new }
{
    for steps in 0..budget {
        let Some(scope) = stack.top() else {
            let ending = Ending::Done;
            return Outcome { steps, ending };
        };
        if let Err(stop) = step(table, stack, sink, scope) {
            let ending = Ending::Stopped(stop);
            return Outcome { steps, ending };
        }
    }
    let ending = match stack.top() {
        None => Ending::Done,
        Some(_) => Ending::Spent,
    };
    Outcome {
        steps: budget,
        ending,
    }
}
