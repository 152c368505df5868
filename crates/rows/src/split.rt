// The row of a split.
ghost use Rattle.std.specs.Prelude.{◌≡◌, ℕ, ◌+◌, ◌<◌, ◌≤◌, length, IfOk, MatchResult};
ghost use Rattle.std.specs.Slice.Iter.{iter_rest};
ghost use Rattle.geometry.specs.Limits.{least};
ghost use Rattle.rows.specs.Lengths.{length_at};
ghost use Rattle.rows.specs.Rows.{sizes, parts_of, filled, split_row, told, told_of};
ghost use Rattle.rows.specs.Laws.{Lawful};

use crate::gather::{fixed_sum, floating};
use crate::parts::Parts;
use crate::refusal::RowRefusal;
use crate::row::{Row, Segment};
use crate::shares::apportion;
use crate::size::Size;
use bounded::inline::InlineVec;
use geometry::limits::LEAST;
use geometry::units::Mm;
use std::slice::Iter;

// The length of part i, counted from 0; refused where it is too short.
pub(crate) fn long_enough(length: Mm, i: usize) -> Result<Mm, RowRefusal>
    requires { i < 64 }
    ensures { MatchResult result (λ m. (m ≡ length) × (least ≤ m.0)) (λ e. (length.0 < least) × (e ≡ RowRefusal.Vanishes (i + 1))) }
{
    if length.0 < LEAST {
        return Err(RowRefusal::Vanishes(i as u32 + 1));
    }
    Ok(length)
}

// The next of some lengths, and no millimetre past their end.
fn next_length(lengths: &mut Iter<'_, Mm>) -> Mm
    ensures next { result.0 ≡ length_at (iter_rest lengths.old) 0 }
    ensures rest { (k : ℕ) → length_at (iter_rest lengths.old) (k + 1) ≡ length_at (iter_rest lengths.new) k }
{
    lengths.next().copied().unwrap_or(Mm(0))
}

// The row in which the floating parts have the given lengths in order; refused where one of them is too short.
fn fill(parts: &Parts, lengths: &[Mm]) -> Result<Row, RowRefusal>
    ensures { told_of result ≡ filled (length_at lengths.now) (sizes (parts_of parts.now)) }
{
    let mut floating = lengths.iter();
    let mut segments = InlineVec::new(Segment { length: Mm(0) });
    for (i, part) in parts.as_slice().iter().enumerate() {
        let length = match part.size {
            Size::Fix(length) => length,
            Size::Float(_) => long_enough(next_length(&mut floating), i)?,
        };
        let _ = segments.push(Segment { length });
    }
    Ok(Row { segments })
}

// The row of a split in a scope of that length.
pub fn split(extent: Mm, parts: &Parts) -> Result<Row, RowRefusal>
    ensures row { told_of result ≡ split_row extent.0 (sizes (parts_of parts.now)) }
    ensures laws { IfOk result (λ row. Lawful extent.0 (sizes (parts_of parts.now)) (told row)) }
{
    let fixed = fixed_sum(parts);
    if fixed.0 > extent.0 {
        return Err(RowRefusal::FixedTooLong);
    }
    let rest = extent - fixed;
    let weights = floating(parts);
    let n = weights.list.len();
    if n == 0 {
        if rest.0 > 0 {
            return Err(RowRefusal::NothingFloats);
        }
        return fill(parts, &[]);
    }
    let shared = apportion(rest, &weights);
    if shared.left as usize > n {
        return Err(RowRefusal::SpareLeft);
    }
    fill(parts, shared.lengths.as_slice())
}
