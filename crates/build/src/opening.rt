// Opening a build.
ghost use Rattle.std.specs.Prelude.{◌≡◌, ℕ, ◌≤◌, Bool, [], length, nat_le};
ghost use Rattle.stack.specs.Held.{entries, capacity, held};
ghost use Rattle.steps.specs.Laying.{SameSlice};
ghost use Rattle.build.specs.Builds.{waiting_in, space_of, lines_in, steps_of, lots_of, joined_lines, passed};

use crate::build::{Build, Opened, Slip};
use crate::joined::JoinedLots;
use geometry::scope::Scope;
use stack::Stack;

// The number under which open refuses a stack with fewer entries than lots.
// Stays: opening cannot fail, so its refusal is no error but a question, `fit`, and this number by which it is told.
pub const FEW_ENTRIES: u32 = 52;

impl JoinedLots {
    // Whether a stack of that many entries has room for the lots.
    pub fn fit(&self, entries: usize) -> bool
        ensures { result ≡ nat_le (length (lots_of self.now)) entries }
    {
        self.lots.len() <= entries
    }
}

// The lots on an empty stack, the first on top.
fn put_lots(stack: &mut Stack<'_, Scope>, lots: &[Scope])
    requires none { entries stack.old ≡ [] }
    requires room { length lots.now ≤ capacity stack.old }
    ensures wait { entries stack.new ≡ lots.now }
    ensures slice { SameSlice stack.old stack.new }
{
    for lot in lots.iter().rev() {
        let _ = stack.push(*lot);
    }
}

// The lots on the slots of an empty stack, the first on top; the mark then.
fn fill(slots: &mut [Scope], lots: &[Scope]) -> usize
    requires { length lots.now ≤ length slots.old }
    ensures { held slots.new result ≡ lots.now }
{
    let mut stack = Stack::new(slots);
    put_lots(&mut stack, lots);
    stack.mark()
}

// At first the lots wait, the first on top; where they do not fit, nothing waits.
pub fn open<'s>(joined: JoinedLots, slots: &'s mut [Scope]) -> Opened<'s>
    ensures waits { waiting_in result.build ≡ passed (length slots.old) (lots_of joined) }
    ensures space { space_of result.build ≡ length slots.old }
    ensures lines { lines_in result.build ≡ joined_lines joined }
    ensures steps { steps_of result.build ≡ 0 }
{
    let fits = joined.fit(slots.len());
    let JoinedLots { table, lots } = joined;
    let mark = if fits {
        fill(slots, lots.as_slice())
    } else {
        0
    };
    Opened {
        build: Build {
            slots,
            mark,
            steps: 0,
            table,
        },
        slip: Slip { lots: lots.len() },
    }
}
