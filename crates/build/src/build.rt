// A build keeps its waiting scopes on a stack in the caller's memory. Neither a build nor its slip may be let go:
// only close takes them.
use book::table::RuleTable;
use geometry::scope::Scope;

// Stays: the slots and the mark lie here, and not a stack, since a struct that holds a stack cannot be taken by value, as
// close takes a build (there is no proof rule for it).
pub struct Build<'s> {
    pub(crate) slots: &'s mut [Scope],
    pub(crate) mark: usize,
    pub(crate) steps: u64,
    pub(crate) table: RuleTable,
}

// Owed for an opened build, and spent by close.
pub struct Slip {
    pub(crate) lots: usize,
}

pub struct Opened<'s> {
    pub build: Build<'s>,
    pub slip: Slip,
}

// How many scopes wait, and their volume.
#[derive(Clone, Copy)]
pub struct Waiting {
    pub count: usize,
    pub volume: u64,
}

// What waited when a build was closed, and all steps counted.
#[derive(Clone, Copy)]
pub struct Closed {
    pub waiting: Waiting,
    pub steps: u64,
}
