// Whole shares, remainders, ranks and lengths of floating parts.
ghost use Rattle.std.specs.Prelude.{◌≡◌, ℕ, ◌+◌, ◌-◌, ◌*◌, ◌/◌, ◌%◌, ◌<◌, ◌≤◌, length, map};
ghost use Rattle.geometry.specs.Sums.{count};
ghost use Rattle.bounded.specs.Listed.{listed};
ghost use Rattle.rows.specs.Apportion.{whole, left_over, tie, comes, extra as extra_of, floating as length_of};
ghost use Rattle.rows.specs.Rows.{weight_at};
ghost use Rattle.rows.specs.Lengths.{length_at};
ghost use Rattle.rows.specs.Quotas.{quota, ahead};

use crate::gather::Weights;
use bounded::inline::InlineVec;
use geometry::units::{Mm, Weight};

// The whole share of a part and its remainder, told together: quotient and remainder of the rest times the weight by the weight sum.
// Stays: a pair, since quotient and remainder of one division are told as one.
pub(crate) fn share(rest: Mm, weight: Weight, sum: Weight) -> (u32, u32)
    requires { (0 < sum.0) × (weight.0 ≤ sum.0) }
    ensures { (result.0 ≡ (rest.0 * weight.0) / sum.0) × (result.1 ≡ (rest.0 * weight.0) % sum.0) }
{
    let product = rest.0 as u64 * weight.0 as u64;
    let sum = sum.0 as u64;
    ((product / sum) as u32, (product % sum) as u32)
}

// The rule for ties: of equal remainders the earlier part comes first.
pub(crate) fn ties(_n: usize, j: usize, i: usize) -> bool
    ensures { result ≡ tie _n j i }
{
    j < i
}

// Whether part j, of remainder a, comes before part i, of remainder b.
// Stays: two plain tests, since a match on `a.cmp(&b)` costs half as much again for each pair of parts.
fn comes_before(n: usize, a: u32, j: usize, b: u32, i: usize) -> bool
    ensures { result ≡ comes tie n a j b i }
{
    a > b || a == b && ties(n, j, i)
}

// The whole share of a part and its remainder.
#[derive(Clone, Copy)]
struct Quota {
    whole: Mm,
    remainder: u32,
}

// How many of the parts with these quotas come before part i, of this remainder.
// Stays: a loop, since a chain of `filter` and `count` took twice the time for a split of 16 floating parts.
fn rank_of(quotas: &InlineVec<Quota, 16>, remainder: u32, i: usize) -> u32
    ensures { result ≡ ahead (listed quotas.now) remainder i }
{
    let n = quotas.len();
    let mut rank = 0u32;
    for (j, other) in quotas.as_slice().iter().enumerate() {
        if comes_before(n, other.remainder, j, remainder, i) {
            rank += 1;
        }
    }
    rank
}

// One more millimetre for a part of a rank below the millimetres left.
pub(crate) fn extra(rank: u32, left: u32) -> Mm
    ensures { (result.0 ≡ extra_of rank left) × (result.0 ≤ left) }
{
    if rank < left { Mm(1) } else { Mm(0) }
}

// The whole shares and remainders of the floating parts in order, and the millimetres left.
#[derive(Clone, Copy)]
struct Shares {
    quotas: InlineVec<Quota, 16>,
    left: u32,
}

fn share_out(rest: Mm, weights: &Weights) -> Shares
    requires { 0 < weights.now.sum.0 }
    ensures quotas { listed result.quotas ≡ map (quota rest.0 weights.now.sum.0) (listed weights.now.list) }
    ensures room { (k : ℕ) → k < length (listed weights.now.list) → whole rest.0 (weight_at (listed weights.now.list)) weights.now.sum.0 k + result.left ≤ rest.0 }
    ensures left { result.left ≡ left_over rest.0 (weight_at (listed weights.now.list)) weights.now.sum.0 (length (listed weights.now.list)) }
{
    let blank = Quota {
        whole: Mm(0),
        remainder: 0,
    };
    let mut quotas = InlineVec::new(blank);
    let mut given = 0u64;
    for weight in weights.list.as_slice() {
        let (quotient, remainder) = share(rest, *weight, weights.sum);
        let whole = Mm(quotient);
        let _ = quotas.push(Quota { whole, remainder });
        given += quotient as u64;
    }
    let left = (rest.0 as u64).saturating_sub(given) as u32;
    Shares { quotas, left }
}

// The lengths of the floating parts in order, and the millimetres that were left when each had its whole share.
#[derive(Clone, Copy)]
pub(crate) struct Apportioned {
    pub lengths: InlineVec<Mm, 16>,
    pub left: u32,
}

pub(crate) fn apportion(rest: Mm, weights: &Weights) -> Apportioned
    requires { 0 < weights.now.sum.0 }
    ensures lengths { (k : ℕ) → k < length (listed weights.now.list) → length_at (listed result.lengths) k ≡ length_of rest.0 (weight_at (listed weights.now.list)) weights.now.sum.0 (length (listed weights.now.list)) k }
    ensures count { length (listed result.lengths) ≡ length (listed weights.now.list) }
    ensures left { result.left ≡ left_over rest.0 (weight_at (listed weights.now.list)) weights.now.sum.0 (length (listed weights.now.list)) }
{
    let Shares { quotas, left } = share_out(rest, weights);
    let mut lengths = InlineVec::new(Mm(0));
    for (i, quota) in quotas.as_slice().iter().enumerate() {
        let rank = rank_of(&quotas, quota.remainder, i);
        let _ = lengths.push(quota.whole + extra(rank, left));
    }
    Apportioned { lengths, left }
}
