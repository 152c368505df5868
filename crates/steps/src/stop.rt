// Why a step was refused, and where.
ghost use Rattle.std.specs.Prelude.{◌≡◌};

use geometry::axis::Axis;
use geometry::scope::Scope;
use geometry::units::Mm;
use rows::refusal::RowRefusal;
use sinks::refusal::SinkRefusal;

#[derive(Clone, Copy)]
pub enum Reason {
    // the body gives no row along this axis in a scope of this length
    Row(RowRefusal, Axis, Mm),
    // the stack has too few free entries for the row
    Full(Axis, Mm),
    // the sink refused the block
    Sink(SinkRefusal),
}

// A sink's refusal is a reason as it is.
impl From<SinkRefusal> for Reason {
    ghost use Rattle.steps.specs.declared.stop.Reason.TheVariants.{Sink};

    ghost from_gives = { λ e r. r ≡ Sink e };

    fn from(refusal: SinkRefusal) -> Reason {
        Reason::Sink(refusal)
    }
}

// The line is that of the rules file; the scope is the one on top.
#[derive(Clone, Copy)]
pub struct Stop {
    pub reason: Reason,
    pub line: u32,
    pub scope: Scope,
}

// How a run ended: nothing waits, the budget is spent, or the next step was refused.
#[derive(Clone, Copy)]
pub enum Ending {
    Done,
    Spent,
    Stopped(Stop),
}

// What a run answers: the steps made, and how it ended.
#[derive(Clone, Copy)]
pub struct Outcome {
    pub steps: u32,
    pub ending: Ending,
}
