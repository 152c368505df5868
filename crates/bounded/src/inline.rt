// A list of at most N entries in the value itself: the first `count` of `items`.
ghost use Rattle.std.specs.Prelude.{◌≡◌, ◌≤◌, [], length, OnErr, ⊤};

use crate::full::Full;
use std::alloc::AllocError;

pub struct InlineVec<T, const N: usize> {
    items: [T; N],
    count: usize,
    ghost few: { count ≤ N },
    ghost full: { length items ≡ N },
}

// Stays: Clone is not derived over a ghost field where T may be any copied type; and a model, by which a clause would see
// the list itself, asks a copied struct to give its fields back, which the blanks of unused places forbid.
impl<T: Copy, const N: usize> Clone for InlineVec<T, N> {
    ghost is_clone = { λ x y. y ≡ x };

    ghost is_infallible = { λ _. ⊤ };

    fn clone(&self) -> Result<InlineVec<T, N>, AllocError> {
        Ok(*self)
    }
}

impl<T: Copy, const N: usize> Copy for InlineVec<T, N> {}

impl<T: Copy, const N: usize> InlineVec<T, N> {
    ghost use Rattle.bounded.specs.Held.{Pushed};
    ghost use Rattle.bounded.specs.Listed.{listed};

    // An empty list; the places that are not used hold the blank.
    pub fn new(blank: T) -> InlineVec<T, N>
        ensures { listed result ≡ [] }
    {
        InlineVec {
            items: [blank; N],
            count: 0,
        }
    }

    // One entry more at the end; refused, and nothing altered, where there are N.
    pub fn push(&mut self, x: T) -> Result<(), Full>
        ensures pushed { Pushed N (listed self.old) x (listed self.new) result }
        ensures kept { OnErr result (self.new ≡ self.old) }
    {
        if self.count >= N {
            return Err(Full);
        }
        self.items[self.count] = x;
        self.count += 1;
        Ok(())
    }

    pub fn len(&self) -> usize
        ensures value { result ≡ length (listed self.now) }
        ensures few { result ≤ N }
    {
        self.as_slice().len()
    }

    pub fn as_slice(&self) -> &[T]
        ensures value { result.now ≡ listed self.now }
        ensures few { length result.now ≤ N }
    {
        &self.items[..self.count]
    }
}

// A full list.
impl<T: Copy, const N: usize> From<[T; N]> for InlineVec<T, N> {
    ghost use Rattle.bounded.specs.Listed.{listed};

    ghost from_gives = { λ items v. listed v ≡ items };

    fn from(items: [T; N]) -> InlineVec<T, N> {
        InlineVec { items, count: N }
    }
}
