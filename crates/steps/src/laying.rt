// Replacing the top scope by the scopes of a row, or by one with another rule.
// Stays: the functions that are given the stack ask that the scope lies on top, and say that the slice is the same. As a ghost
// field of a struct with the stack the first would have to hold after the step too, when that scope is gone; the second
// compares two states of the stack, which no field of one state can. Scope and axis go together from the row to its pieces,
// but each clause and body speaks of the two apart, so a struct of both would be taken apart at once; that a rule is below
// the number of lines is asked where a scope is made of it, and is a ghost field of the scope then.
ghost use Rattle.std.specs.Prelude.{◌≡◌, ℕ, ◌<◌, ◌≤◌, ◌∷◌, length, take, drop, IfOk};
ghost use Rattle.geometry.specs.Boxes.{span_on, Within, Piece};
ghost use Rattle.geometry.specs.Limits.{most_lines};
ghost use Rattle.rows.specs.Rows.{told, lengths_of, segments_of};
ghost use Rattle.stack.specs.Held.{entries, capacity};
ghost use Rattle.derivation.specs.Derive.{length_on};
ghost use Rattle.steps.specs.Laying.{Filling, Lays, Cuts, OnTop, Relabelled, SameSlice};

use crate::stop::Reason;
use bounded::full::Full;
use geometry::axis::Axis;
use geometry::cuboid::Cuboid;
use geometry::scope::Scope;
use geometry::units::Mm;
use rows::refusal::RowRefusal;
use rows::row::{Row, Segment};
use stack::Stack;

fn scope_at(cuboid: Cuboid, rule: u8) -> Scope
    requires { rule < most_lines }
    ensures { (result.cuboid ≡ cuboid) × (result.rule ≡ rule) }
{
    Scope { cuboid, rule }
}

// The scope of a piece.
fn piece(scope: Scope, axis: Axis, offset: Mm, length: Mm, rule: u8) -> Scope
    requires within { Within (span_on axis scope.cuboid) offset.0 length.0 }
    requires known { rule < most_lines }
    ensures cuboid { Piece scope.cuboid axis offset.0 length.0 result.cuboid }
    ensures rule { result.rule ≡ rule }
{
    let Some(cuboid) = scope.cuboid.piece(axis, offset, length) else {
        unreachable!()
    };
    scope_at(cuboid, rule)
}

// The top scope is replaced by the scopes of a row, the lowest on top; refused, and nothing altered, where entries lack.
fn lay(
    stack: &mut Stack<'_, Scope>,
    scope: Scope,
    axis: Axis,
    segments: &[Segment],
    rules: &[u8],
) -> Result<(), Full>
    requires top { OnTop stack.old scope }
    requires row { Filling (length_on axis scope) (lengths_of segments.now) rules.now }
    ensures lays { Lays (entries stack.old) (entries stack.new) (capacity stack.old) scope axis (lengths_of segments.now) rules.now result }
    ensures slice { SameSlice stack.old stack.new }
{
    if stack.free() < segments.len() - 1 {
        return Err(Full);
    }
    let _ = stack.pop();
    let mut end = scope.cuboid.on(axis).size;
    for (segment, rule) in segments.iter().rev().zip(rules.iter().rev()) {
        end = end - segment.length;
        let _ = stack.push(piece(scope, axis, end, segment.length, *rule));
    }
    Ok(())
}

// The scopes of a row take the place of the top scope.
pub(crate) fn cut(
    stack: &mut Stack<'_, Scope>,
    scope: Scope,
    axis: Axis,
    row: Result<Row, RowRefusal>,
    rules: &[u8],
) -> Result<(), Reason>
    requires top { OnTop stack.old scope }
    requires row { IfOk row (λ r. Filling (length_on axis scope) (told r) (take (length (segments_of r)) rules.now)) }
    ensures cuts { Cuts scope axis row rules.now (entries stack.old) (entries stack.new) (capacity stack.old) result }
    ensures slice { SameSlice stack.old stack.new }
{
    let length = scope.cuboid.on(axis).size;
    let row = row.map_err(|refusal| Reason::Row(refusal, axis, length))?;
    let segments = row.as_slice();
    lay(stack, scope, axis, segments, &rules[..segments.len()]).or(Err(Reason::Full(axis, length)))
}

// The top scope goes on with another rule.
pub(crate) fn relabel(stack: &mut Stack<'_, Scope>, scope: Scope, rule: u8)
    requires top { OnTop stack.old scope }
    requires known { rule < most_lines }
    ensures left { Relabelled scope rule (entries stack.old) (entries stack.new) }
    ensures slice { SameSlice stack.old stack.new }
{
    let _ = stack.pop();
    let _ = stack.push(scope_at(scope.cuboid, rule));
}
