// What a split needs of its parts: the sum of the fixed lengths, and the weights of the floating parts with their sum.
ghost use Rattle.std.specs.Prelude.{◌≡◌};
ghost use Rattle.bounded.specs.Listed.{listed};
ghost use Rattle.rows.specs.Rows.{sizes, parts_of, fixed_sum, floats, weight_sum};

use crate::parts::Parts;
use crate::size::Size;
use bounded::inline::InlineVec;
use geometry::units::{Mm, Weight};

// The sum of the fixed lengths.
pub(crate) fn fixed_sum(parts: &Parts) -> Mm
    ensures { result.0 ≡ fixed_sum (sizes (parts_of parts.now)) }
{
    let mut fixed = Mm(0);
    for part in parts.as_slice() {
        if let Size::Fix(length) = part.size {
            fixed = fixed + length;
        }
    }
    fixed
}

// The weights of the floating parts in order, and their sum.
#[derive(Clone, Copy)]
pub(crate) struct Weights {
    pub list: InlineVec<Weight, 16>,
    pub sum: Weight,
    ghost sums: { sum.0 ≡ weight_sum (listed list) },
}

pub(crate) fn floating(parts: &Parts) -> Weights
    ensures { listed result.list ≡ floats (sizes (parts_of parts.now)) }
{
    let mut list = InlineVec::new(Weight(0));
    let mut sum = Weight(0);
    for part in parts.as_slice() {
        if let Size::Float(weight) = part.size {
            let _ = list.push(weight);
            sum = sum + weight;
        }
    }
    Weights { list, sum }
}
