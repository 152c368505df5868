// The parts of a split.
ghost use Rattle.forms.specs.Splits.{TookMore, AddedPart, TookParts};

use crate::lists::Uses;
use crate::part::{PartLine, read_part};
use crate::words::Bracket;
use rows::part::Part;
use rows::parts::Parts;
use text::placed::Placed;
use text::takes::take;
use text::tokens::{Token, Tokens};

// The bracket that begins a further part or ends the split.
fn expect_more(tokens: &mut Tokens) -> Option<Placed<Bracket>>
    ensures { TookMore tokens.old tokens.new result }
{
    take(tokens, |t| match t {
        Token::Open => Some(Bracket::Open),
        Token::Close => Some(Bracket::Close),
        _ => None,
    })
}

// One part more, and its name; None, and no name more, where there is no room.
fn add_part<'a>(line: PartLine<'a>, parts: &mut Parts, uses: &mut Uses<'a>) -> Option<()>
    ensures { AddedPart line.entry parts.old parts.new uses.old uses.new result }
{
    let part = Part::new(line.size)?;
    parts.push(part).ok()?;
    uses.push(line.name).ok()
}

// The parts of a split, the bracket of the first just read, up to the bracket that ends the split: at most `room`.
pub(crate) fn read_parts<'a>(
    room: usize,
    tokens: &mut Tokens<'a>,
    uses: &mut Uses<'a>,
) -> Option<Parts>
    ensures { TookParts room uses.old uses.new tokens.old tokens.new result }
{
    let mut parts = Parts::new();
    loop {
        if parts.len() >= room {
            return None;
        }
        let line = read_part(tokens)?;
        add_part(line, &mut parts, uses)?;
        match expect_more(tokens)?.value {
            Bracket::Open => {}
            Bracket::Close => return Some(parts),
        }
    }
}
