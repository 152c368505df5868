// A stack over a slice that the caller lends. It passes its slice whole to the functions below, which read and write it.
// Stays: a question takes the stack for writing, and alters nothing, as the slice is passed on; and the slots lie beside
// their mark in place of a list that grows, since the memory is the caller's, a rule of the project.
#![tactic(auto)]

ghost use Rattle.std.specs.Prelude.{◌≡◌, ℕ, ◌-◌, ◌<◌, min, [], length};
ghost use Rattle.std.specs.List.{FoldsTo};
ghost use Rattle.stack.specs.Held.{held, entries, capacity, top_of, Put, LastOf};
ghost use Rattle.stack.specs.Moves.{Kept, Pushed, Popped};

pub use bounded::full::Full;

// The first `mark` slots are in use and the last of them is the top; a mark past the end counts as the end.
// Stays: no model, since clauses speak of its size, its slice and the lender besides the entries.
#[derive(Drop)]
pub struct Stack<'s, T> {
    slots: &'s mut [T],
    mark: usize,
}

// How many slots are in use.
fn in_use<T>(slots: &mut [T], mark: usize) -> usize
    ensures count { result ≡ min mark (length slots.old) }
    ensures same { slots.new ≡ slots.old }
{
    mark.min(slots.len())
}

// How many slots are not in use.
fn unused<T>(slots: &mut [T], mark: usize) -> usize
    ensures count { result ≡ length slots.old - mark }
    ensures same { slots.new ≡ slots.old }
{
    slots.len().saturating_sub(mark)
}

// Writes `x` at a place of the slice; refused, and nothing is altered, where it has no such place.
fn put<T: Copy>(slots: &mut [T], at: usize, x: T) -> Result<(), Full>
    ensures { Put slots.old at x slots.new result }
{
    if at >= slots.len() {
        return Err(Full);
    }
    slots[at] = x;
    Ok(())
}

// The last entry in use and its place; nothing is altered.
fn last_of<T: Copy>(slots: &mut [T], mark: usize) -> Option<(T, usize)>
    ensures last { LastOf slots.old mark result }
    ensures same { slots.new ≡ slots.old }
{
    let n = in_use(slots, mark);
    if n == 0 {
        return None;
    }
    Some((slots[n - 1], n - 1))
}

// The entries in use joined to `init` one after another, the last first; nothing is altered.
fn fold_of<T: Copy, A, F: Fn(A, T) -> A>(slots: &mut [T], mark: usize, init: A, f: F) -> A
    requires { F.IsAlwaysCallable f }
    ensures folded { FoldsTo (λ a x b. F.post f a x b) init (held slots.old mark) result }
    ensures same { slots.new ≡ slots.old }
{
    let n = in_use(slots, mark);
    let mut all = init;
    for x in slots[..n].iter().rev() {
        all = f(all, *x);
    }
    all
}

impl<'s, T: Copy> Stack<'s, T> {
    // An empty stack.
    pub fn new(slots: &'s mut [T]) -> Stack<'s, T>
        ensures empty { entries result ≡ [] }
        ensures slots { result.slots.now ≡ slots.old }
        ensures lender { result.slots.ghost_name ≡ slots.entry.ghost_name }
    {
        Stack { slots, mark: 0 }
    }

    // The stack over slots that were a stack's before, with the mark that it then had.
    pub fn resume(slots: &'s mut [T], mark: usize) -> Stack<'s, T>
        ensures holds { entries result ≡ held slots.old mark }
        ensures mark { result.mark ≡ mark }
        ensures slots { result.slots.now ≡ slots.old }
        ensures lender { result.slots.ghost_name ≡ slots.entry.ghost_name }
    {
        Stack { slots, mark }
    }

    // What `resume` takes to go on with the same entries.
    pub fn mark(&mut self) -> usize
        ensures value { result ≡ self.old.mark }
        ensures holds { held self.new.slots.now result ≡ entries self.old }
        ensures kept { Kept self.old self.new }
    {
        self.mark
    }

    // How many entries it holds.
    pub fn len(&mut self) -> usize
        ensures value { result ≡ length (entries self.old) }
        ensures kept { Kept self.old self.new }
    {
        let mark = self.mark;
        in_use(self.slots, mark)
    }

    // How many entries more it has room for.
    pub fn free(&mut self) -> usize
        ensures value { result ≡ capacity self.old - length (entries self.old) }
        ensures kept { Kept self.old self.new }
    {
        let mark = self.mark;
        unused(self.slots, mark)
    }

    // The top entry, which stays.
    pub fn top(&mut self) -> Option<T>
        ensures value { result ≡ top_of (entries self.old) }
        ensures kept { Kept self.old self.new }
    {
        let mark = self.mark;
        let (x, _) = last_of(self.slots, mark)?;
        Some(x)
    }

    // One entry more on top; refused, and nothing is altered, where every slot is in use.
    pub fn push(&mut self, x: T) -> Result<(), Full>
        ensures { Pushed self.old x self.new result }
    {
        let mark = self.mark;
        put(self.slots, mark, x)?;
        self.mark = mark + 1;
        Ok(())
    }

    // The top entry, which leaves; its slot stays as it was.
    pub fn pop(&mut self) -> Option<T>
        ensures value { result ≡ top_of (entries self.old) }
        ensures popped { Popped self.old self.new }
    {
        let mark = self.mark;
        let (x, below) = last_of(self.slots, mark)?;
        self.mark = below;
        Some(x)
    }

    // The entries joined to `init` one after another, the top first.
    pub fn fold<A, F: Fn(A, T) -> A>(&mut self, init: A, f: F) -> A
        requires { F.IsAlwaysCallable f }
        ensures folded { FoldsTo (λ a x b. F.post f a x b) init (entries self.old) result }
        ensures kept { Kept self.old self.new }
    {
        let mark = self.mark;
        fold_of(self.slots, mark, init, f)
    }
}
