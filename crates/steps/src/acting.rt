// What the body of the line that applies does with the top scope.
ghost use Rattle.std.specs.Prelude.{◌≡◌, ℕ, ◌<◌, ◌∷◌, length, drop, replicate};
ghost use Rattle.geometry.specs.Limits.{most_lines};
ghost use Rattle.rows.specs.Rows.{sizes, parts_of, split_row, repeat_row};
ghost use Rattle.stack.specs.Held.{entries, capacity};
ghost use Rattle.book.specs.Checks.{part_rules};
ghost use Rattle.book.specs.Lines.{lines_of, Known, BodyOk};
ghost use Rattle.derivation.specs.Derive.{length_on, block_of};
ghost use Rattle.steps.specs.Laying.{Divides, OnTop, SameSlice};
ghost use Rattle.steps.specs.Acting.{Acts, Stepped};

use crate::laying::{cut, relabel};
use crate::stop::{Reason, Stop};
use book::body::Body;
use book::line::Line;
use book::table::RuleTable;
use geometry::axis::Axis;
use geometry::block::Block;
use geometry::scope::Scope;
use rows::parts::Parts;
use rows::repeat::repeat;
use rows::split::split;
use rows::tile::Tile;
use sinks::sink::Sink;
use stack::Stack;

// One rule for every tile that a row can have.
fn same_rule(rule: u8) -> [u8; 64]
    ensures { result ≡ replicate 64 rule }
{
    [rule; 64]
}

fn tile_out(
    stack: &mut Stack<'_, Scope>,
    scope: Scope,
    axis: Axis,
    tile: Tile,
    rule: u8,
) -> Result<(), Reason>
    requires top { OnTop stack.old scope }
    requires known { rule < most_lines }
    ensures divides { Divides scope axis (repeat_row (length_on axis scope) tile.length.0) (λ ns. replicate (length ns) rule) (entries stack.old) (entries stack.new) (capacity stack.old) result }
    ensures slice { SameSlice stack.old stack.new }
{
    let row = repeat(scope.cuboid.on(axis).size, tile);
    cut(stack, scope, axis, row, &same_rule(rule))
}

fn split_up(
    stack: &mut Stack<'_, Scope>,
    scope: Scope,
    axis: Axis,
    parts: &Parts,
    rules: &[u8; 16],
) -> Result<(), Reason>
    requires top { OnTop stack.old scope }
    requires known { Known (part_rules parts.now rules.now) }
    ensures divides { Divides scope axis (split_row (length_on axis scope) (sizes (parts_of parts.now))) (λ _. part_rules parts.now rules.now) (entries stack.old) (entries stack.new) (capacity stack.old) result }
    ensures slice { SameSlice stack.old stack.new }
{
    let row = split(scope.cuboid.on(axis).size, parts);
    cut(stack, scope, axis, row, rules)
}

fn block_of(scope: Scope, material: u8) -> Block
    ensures { result ≡ block_of scope material }
{
    Block {
        cuboid: scope.cuboid,
        material,
    }
}

// The block is offered, and the scope leaves once it is taken.
fn make<S: Sink>(
    stack: &mut Stack<'_, Scope>,
    sink: &mut S,
    scope: Scope,
    material: u8,
) -> Result<(), Reason>
    requires top { OnTop stack.old scope }
    ensures acts { Acts S.Sink.edge S.Sink.parts S.Sink.took S.Sink.kept (Body.Make material) scope (entries stack.old) (entries stack.new) (capacity stack.old) sink.old sink.new result }
    ensures slice { SameSlice stack.old stack.new }
{
    sink.take(block_of(scope, material))?;
    let _ = stack.pop();
    Ok(())
}

fn act<S: Sink>(
    stack: &mut Stack<'_, Scope>,
    sink: &mut S,
    scope: Scope,
    body: &Body,
) -> Result<(), Reason>
    requires top { OnTop stack.old scope }
    requires ok { (i : ℕ) × BodyOk i body.now }
    ensures acts { Acts S.Sink.edge S.Sink.parts S.Sink.took S.Sink.kept body.now scope (entries stack.old) (entries stack.new) (capacity stack.old) sink.old sink.new result }
    ensures slice { SameSlice stack.old stack.new }
{
    match *body {
        Body::Make(material) => make(stack, sink, scope, material),
        Body::Use(rule) => {
            relabel(stack, scope, rule);
            Ok(())
        }
        Body::Repeat(axis, tile, rule) => tile_out(stack, scope, axis, tile, rule),
        Body::Split(axis, parts, rules) => split_up(stack, scope, axis, &parts, &rules),
    }
}

fn stop_at(reason: Reason, line: &Line, scope: Scope) -> Stop
    ensures reason { result.reason ≡ reason }
    ensures line { result.line ≡ line.now.number }
    ensures scope { result.scope ≡ scope }
{
    Stop {
        reason,
        line: line.number,
        scope,
    }
}

// One step, on the top scope.
pub(crate) fn step<S: Sink>(
    table: &RuleTable,
    stack: &mut Stack<'_, Scope>,
    sink: &mut S,
    scope: Scope,
) -> Result<(), Stop>
    requires { OnTop stack.old scope }
    ensures steps { Stepped S.Sink.edge S.Sink.parts S.Sink.took S.Sink.kept (lines_of table.now) (entries stack.old) (entries stack.new) (capacity stack.old) sink.old sink.new result }
    ensures slice { SameSlice stack.old stack.new }
{
    let (_, line) = table.choose_ref(scope);
    act(stack, sink, scope, &line.body).map_err(|reason| stop_at(reason, line, scope))
}
