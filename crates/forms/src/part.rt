// A part of a split, read after its bracket.
ghost use Rattle.std.specs.Prelude.{◌≡◌};
ghost use Rattle.forms.specs.Pieces.{KindIn, TookKind, low_of_kind, high_of_kind, size_of, TookPart};

use crate::tokens::{expect_last_name, expect_number};
use crate::words::Kind;
use geometry::limits::{LEAST, SITE};
use geometry::units::{Mm, Weight};
use grammar::steps::WEIGHT_LIMIT;
use rows::size::Size;
use text::placed::Placed;
use text::takes::take;
use text::tokens::{Token, Tokens};

// What a part asks for, and the rule that it goes on with.
#[derive(Clone, Copy)]
pub(crate) struct PartLine<'a> {
    pub(crate) size: Size,
    pub(crate) name: Placed<&'a [u8]>,
}

// The kind of part that a word begins.
// Stays: an Option, like the other readers, with no error to name.
fn kind_of(word: &[u8]) -> Option<Kind>
    ensures { KindIn word.now result }
{
    match word {
        b"fix" => Some(Kind::Fix),
        b"float" => Some(Kind::Float),
        _ => None,
    }
}

// Stays: `expect_axis` is much the same, but says of None that no axis can follow, where this says that no part can.
fn expect_kind(tokens: &mut Tokens) -> Option<Placed<Kind>>
    ensures { TookKind tokens.old tokens.new result }
{
    let word = take(tokens, Token::word)?;
    let kind = kind_of(word.value)?;
    Some(word.with(kind))
}

// The least and the most that a part of this kind may ask for.
// Stays: a pair that is taken apart at once; and rows asks it of a size, where here no number is read yet.
fn range_of(kind: Kind) -> (u32, u32)
    ensures { (result.0 ≡ low_of_kind kind) × (result.1 ≡ high_of_kind kind) }
{
    match kind {
        Kind::Fix => (LEAST, SITE),
        Kind::Float => (1, WEIGHT_LIMIT),
    }
}

fn size_of(kind: Kind, n: u32) -> Size
    ensures { result ≡ size_of kind n }
{
    match kind {
        Kind::Fix => Size::Fix(Mm(n)),
        Kind::Float => Size::Float(Weight(n)),
    }
}

// A part after its bracket.
pub(crate) fn read_part<'a>(tokens: &mut Tokens<'a>) -> Option<PartLine<'a>>
    ensures { TookPart tokens.old tokens.new result }
{
    let kind = expect_kind(tokens)?;
    let (low, high) = range_of(kind.value);
    let amount = expect_number(tokens, low, high)?;
    let name = expect_last_name(tokens)?;
    Some(PartLine {
        size: size_of(kind.value, amount.value),
        name,
    })
}
