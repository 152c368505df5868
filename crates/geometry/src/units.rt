// Millimetres and weights. A weight has no unit: each is a struct around a number, so that neither is added to the other.
ghost use Rattle.std.specs.Prelude.{◌≡◌, ◌+◌, ◌-◌, ◌^◌, ◌<◌, ◌≤◌};

use std::ops::{Add, Sub};

#[derive(Clone, Copy, PartialEq, Eq)]
pub struct Mm(pub u32);

#[derive(Clone, Copy, PartialEq, Eq)]
pub struct Weight(pub u32);

// Stays: the operators are written for each kind, so that millimetres and weights add up within themselves alone.
impl Add<Mm> for Mm {
    type Output = Mm;

    ghost can_add = { λ a b. a.0 + b.0 < 2 ^ 32 };

    ghost add_gives = { λ a b r. r.0 ≡ a.0 + b.0 };

    fn add(self, rhs: Mm) -> Mm {
        Mm(self.0 + rhs.0)
    }
}

impl Sub<Mm> for Mm {
    type Output = Mm;

    ghost can_sub = { λ a b. b.0 ≤ a.0 };

    ghost sub_gives = { λ a b r. r.0 ≡ a.0 - b.0 };

    fn sub(self, rhs: Mm) -> Mm {
        Mm(self.0 - rhs.0)
    }
}

impl Add<Weight> for Weight {
    type Output = Weight;

    ghost can_add = { λ a b. a.0 + b.0 < 2 ^ 32 };

    ghost add_gives = { λ a b r. r.0 ≡ a.0 + b.0 };

    fn add(self, rhs: Weight) -> Weight {
        Weight(self.0 + rhs.0)
    }
}
