// The guards of a rule line, up to the word that begins its body.
ghost use Rattle.forms.specs.Fronts.{TookGuard, ItemIn, TookItem, TookGuards};

use crate::front::Front;
use crate::tokens::{expect_axis, expect_close, expect_number};
use crate::words::{Head, Item};
use book::guard::Guard;
use bounded::inline::InlineVec;
use geometry::axis::Axis;
use geometry::limits::SITE;
use geometry::units::Mm;
use text::takes::take;
use text::tokens::{Token, Tokens};

// What a word begins.
// Stays: an Option, like the other readers, with no error to name.
fn item_of(word: &[u8]) -> Option<Item>
    ensures { ItemIn word.now result }
{
    match word {
        b"when" => Some(Item::Guard),
        b"make" => Some(Item::Body(Head::Make)),
        b"use" => Some(Item::Body(Head::Use)),
        b"repeat" => Some(Item::Body(Head::Repeat)),
        b"split" => Some(Item::Body(Head::Split)),
        _ => None,
    }
}

// The bracket and the first word of a guard or a body.
fn expect_item(tokens: &mut Tokens) -> Option<Item>
    ensures { TookItem tokens.old tokens.new result }
{
    take(tokens, Token::opening)?;
    let word = take(tokens, Token::word)?;
    item_of(word.value)
}

// A guard after its first word.
fn read_guard(tokens: &mut Tokens) -> Option<Guard>
    ensures { TookGuard tokens.old tokens.new result }
{
    let axis = expect_axis(tokens)?;
    let low = expect_number(tokens, 1, SITE)?;
    let high = expect_number(tokens, low.value, SITE)?;
    expect_close(tokens)?;
    Some(Guard {
        axis: axis.value,
        low: Mm(low.value),
        high: Mm(high.value),
    })
}

// Guards, and the bracket and the first word of the body after them.
pub(crate) fn read_guards(tokens: &mut Tokens) -> Option<Front>
    ensures { TookGuards tokens.old tokens.new result }
{
    let mut guards = InlineVec::new(Guard {
        axis: Axis::X,
        low: Mm(1),
        high: Mm(1),
    });
    loop {
        match expect_item(tokens)? {
            Item::Guard => guards.push(read_guard(tokens)?).ok()?,
            Item::Body(head) => return Some(Front { guards, head }),
        }
    }
}
