// Bodies to compare: a table that covers every kind, and bodies at random.
use bounded::inline::InlineVec;
use geometry::units::{Mm, Weight};
use rows::size::Size;
use rows::size::Size::{Fix, Float};

// Stays: a line for each, as in the program that shows rows; a library for two programs would be longer.
fn fix(length: u32) -> Size {
    Fix(Mm(length))
}

fn float(weight: u32) -> Size {
    Float(Weight(weight))
}

// What the parts of each split ask for.
pub const LISTED: [&[Size]; 18] = [
    &[
        Fix(Mm(200)),
        Float(Weight(1)),
        Float(Weight(1)),
        Float(Weight(1)),
    ],
    &[Float(Weight(1)), Float(Weight(2)), Float(Weight(4))],
    &[Float(Weight(1)), Float(Weight(9))],
    &[Float(Weight(1)), Float(Weight(1))],
    &[Fix(Mm(200)), Float(Weight(1))],
    &[Fix(Mm(200))],
    &[Float(Weight(1))],
    &[Float(Weight(1_000))],
    &[
        Float(Weight(1)),
        Fix(Mm(100)),
        Float(Weight(1)),
        Fix(Mm(100)),
        Float(Weight(1)),
    ],
    &[Float(Weight(1_000)), Float(Weight(1))],
    &[Float(Weight(1)), Float(Weight(1_000))],
    &[Fix(Mm(1)), Fix(Mm(2)), Fix(Mm(3))],
    &[Fix(Mm(1_000)), Fix(Mm(999)), Float(Weight(7))],
    &[
        Float(Weight(3)),
        Float(Weight(3)),
        Float(Weight(3)),
        Float(Weight(2)),
        Float(Weight(2)),
        Float(Weight(1)),
    ],
    &[Float(Weight(999)), Float(Weight(998)), Float(Weight(997))],
    &[Fix(Mm(16_384)), Float(Weight(1))],
    &[
        Float(Weight(2)),
        Fix(Mm(500)),
        Float(Weight(2)),
        Float(Weight(1)),
    ],
    &[
        Fix(Mm(10)),
        Float(Weight(1)),
        Fix(Mm(10)),
        Float(Weight(1)),
        Fix(Mm(10)),
        Float(Weight(1)),
        Fix(Mm(10)),
        Float(Weight(1)),
        Fix(Mm(10)),
    ],
];

// By how much the weights of sixteen floating parts rise.
pub const STEPS: [u32; 4] = [0, 1, 2, 60];

pub const TILES: [u32; 12] = [1, 2, 3, 7, 15, 16, 31, 64, 100, 900, 1_999, 16_384];

// What the parts of a split ask for, in the value itself: a comparison asks for no memory.
pub type Body = InlineVec<Size, 16>;

fn no_parts() -> Body {
    InlineVec::new(float(1))
}

// Sixteen floating parts of rising weights.
pub fn rising(step: u32) -> Body {
    let mut body = no_parts();
    for i in 0..16u32 {
        let _ = body.push(float(i.wrapping_mul(step).saturating_add(1)));
    }
    body
}

// Fixed and floating parts by turns, fewer or more of them.
pub fn mixed(k: u32) -> Body {
    let mut body = no_parts();
    for i in 0..k.saturating_sub(20).min(16) {
        let _ = body.push(if i % 3 == 0 {
            fix(i.wrapping_mul(k).saturating_add(1))
        } else {
            float(i.wrapping_mul(7) % 5 + 1)
        });
    }
    body
}

// Numbers from a linear congruence of 64 bits, its high half.
#[derive(Drop)]
pub struct Random {
    state: u64,
}

impl Random {
    pub fn new() -> Random {
        Random { state: 20_061_115 }
    }

    // A number from 1 to n, or 1 where n is 0.
    pub fn up_to(&mut self, n: u32) -> u32 {
        self.state = self
            .state
            .wrapping_mul(6_364_136_223_846_793_005)
            .wrapping_add(1_442_695_040_888_963_407);
        let high = (self.state >> 32) as u32;
        high % n.max(1) + 1
    }

    fn size(&mut self, longest: u32) -> Size {
        if self.up_to(3) == 1 {
            fix(self.up_to(longest))
        } else {
            float(self.up_to(1_000))
        }
    }

    pub fn next_body(&mut self) -> Body {
        let longest = self.up_to(4_000);
        let count = self.up_to(16);
        let mut body = no_parts();
        for _ in 0..count {
            let _ = body.push(self.size(longest));
        }
        body
    }
}
