// A rule line read from its line of the file.
ghost use Rattle.forms.specs.Reads.{RuleLineRead};
ghost use Rattle.forms.specs.RuleLines.{Joins, TookItems, TookRule, RuleIn};

use crate::body::read_body;
use crate::front::Front;
use crate::guards::read_guards;
use crate::lists::{RuleNames, Uses};
use crate::rule::RuleLine;
use crate::shape::Shape;
use crate::tokens::{expect_close, expect_end, expect_head, expect_name};
use rows::making::MOST_PARTS;
use text::lines::Line;
use text::placed::Placed;
use text::tokens::Tokens;

fn rule_line(front: Front, body: Shape, from: usize) -> RuleLine
    ensures { Joins front body from result }
{
    RuleLine {
        guards: front.guards,
        body,
        from,
    }
}

// The guards and the body of a rule line, up to the end of the line.
fn read_items<'a>(room: usize, tokens: &mut Tokens<'a>, uses: &mut Uses<'a>) -> Option<RuleLine>
    ensures { TookItems room uses.old uses.new tokens.old result }
{
    let front = read_guards(tokens)?;
    let from = uses.len();
    let body = read_body(front.head, room, tokens, uses)?;
    expect_close(tokens)?;
    expect_end(tokens)?;
    Some(rule_line(front, body, from))
}

// A rule line after its first word; its own name is added last.
fn rest_of_rule<'a>(
    room: usize,
    tokens: &mut Tokens<'a>,
    names: &mut RuleNames<'a>,
    uses: &mut Uses<'a>,
) -> Option<RuleLine>
    ensures { TookRule room names.old names.new uses.old uses.new tokens.old result }
{
    let own = expect_name(tokens)?;
    let line = read_items(room, tokens, uses)?;
    names.push(own).ok()?;
    Some(line)
}

// A rule line; where there is none, names may be left at the end of `uses`.
fn rule_in<'a>(
    line: Line<'a>,
    room: usize,
    names: &mut RuleNames<'a>,
    uses: &mut Uses<'a>,
) -> Option<RuleLine>
    ensures { RuleIn line.entry.number line.entry.bytes.now room names.old names.new uses.old uses.new result }
{
    let mut tokens = Tokens::of(line);
    expect_head(&mut tokens, b"rule")?;
    rest_of_rule(room.min(MOST_PARTS), &mut tokens, names, uses)
}

// What a rule line says, of at most `room` parts: its own name is added to `names`, those that its body uses to `uses`. None,
// and nothing altered, where it is no rule line with good numbers or there is no room.
pub fn read_rule<'a>(
    line: Line<'a>,
    room: usize,
    names: &mut RuleNames<'a>,
    uses: &mut Uses<'a>,
) -> Option<RuleLine>
    ensures { RuleLineRead line.entry.number line.entry.bytes.now room names.old names.new uses.old uses.new result }
{
    let from = uses.len();
    let read = rule_in(line, room, names, uses);
    if read.is_none() {
        uses.truncate(from);
    }
    read
}
