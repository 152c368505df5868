// A vector of at most N entries.
use std::marker::Model;

#[derive(Drop)]
pub struct BoundedVec<T, const N: usize> {
    pub(crate) items: Vec<T>,
}

// Clauses see the entries, and room for N of them stays reserved.
impl<T, const N: usize> Model for BoundedVec<T, N> {
    ghost use Rattle.std.specs.Prelude.{◌≤◌, List, vec_items, vec_capacity};
    ghost use Rattle.std.specs.Coded.{coded_list};

    ghost Value = { List T };

    ghost coded = { coded_list T.code };

    ghost view = { λ v. vec_items v.items };

    ghost invariant = { λ v. N ≤ vec_capacity v.items };
}
