// Making, filling and reading bounded vectors.
ghost use Rattle.std.specs.Prelude.{◌≡◌, [], length, take, IfOk};
ghost use Rattle.bounded.specs.Held.{Pushed};

use crate::bounded::BoundedVec;
use crate::full::Full;
use std::alloc::{AllocError, Global};

impl<T: Drop, const N: usize> BoundedVec<T, N> {
    // An empty vector with its memory reserved.
    pub fn new(heap: Global) -> Result<BoundedVec<T, N>, AllocError>
        ensures { IfOk result (λ v. v ≡ []) }
    {
        let items = Vec::with_capacity(heap, N)?;
        Ok(BoundedVec { items })
    }

    // One entry more at the end; refused, and nothing altered, where there are N.
    pub fn push(&mut self, x: T) -> Result<(), Full>
        ensures { Pushed N self.old x self.new result }
    {
        if self.items.len() >= N {
            return Err(Full);
        }
        self.items.push_reserved(x);
        Ok(())
    }

    // Only the first n entries stay.
    pub fn truncate(&mut self, n: usize)
        ensures { self.new ≡ take n self.old }
    {
        self.items.truncate(n);
    }

    // Nothing stays.
    pub fn clear(&mut self)
        ensures { self.new ≡ [] }
    {
        self.items.clear();
    }

    pub fn len(&self) -> usize
        ensures { result ≡ length self.now }
    {
        self.items.len()
    }

    pub fn as_slice(&self) -> &[T]
        ensures { result.now ≡ self.now }
    {
        self.items.as_slice()
    }
}
