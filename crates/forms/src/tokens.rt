// Tokens of a line as a form wants them, taken one after the other.
// Stays: None says that what is wanted does not stand there, with nothing more to tell, so that readers answer an Option.
ghost use Rattle.forms.specs.Taken.{TookOpen, TookClose, TookName, TookNumber, AxisIn, TookAxis, TookHead, TookEnd, TookLastName, TookTriple};

use geometry::axis::Axis;
use geometry::triple::Triple;
use geometry::units::Mm;
use text::numbers::number_in;
use text::placed::Placed;
use text::takes::take;
use text::tokens::{Token, Tokens};

// The opening bracket of a first part.
// Stays: the contracts of this and the next two say of None with what the form cannot go on, which differs for the three;
// that of `take` cannot.
pub(crate) fn expect_open(tokens: &mut Tokens) -> Option<Placed<()>>
    ensures { TookOpen tokens.old tokens.new result }
{
    take(tokens, Token::opening)
}

pub(crate) fn expect_close(tokens: &mut Tokens) -> Option<Placed<()>>
    ensures { TookClose tokens.old tokens.new result }
{
    take(tokens, Token::closing)
}

// Any word, where a name is wanted.
pub(crate) fn expect_name<'a>(tokens: &mut Tokens<'a>) -> Option<Placed<&'a [u8]>>
    ensures { TookName tokens.old tokens.new result }
{
    take(tokens, Token::word)
}

// A number from `low` to `high`.
pub(crate) fn expect_number(tokens: &mut Tokens, low: u32, high: u32) -> Option<Placed<u32>>
    ensures { TookNumber low high tokens.old tokens.new result }
{
    let word = take(tokens, Token::number)?;
    let value = number_in(word.value, low, high)?;
    Some(word.with(value))
}

// The axis that a word is.
// Stays: an Option, like the other readers, with no error to name.
fn axis_of(word: &[u8]) -> Option<Axis>
    ensures { AxisIn word.now result }
{
    let [b] = word else { return None };
    match *b as char {
        'x' => Some(Axis::X),
        'y' => Some(Axis::Y),
        'z' => Some(Axis::Z),
        _ => None,
    }
}

pub(crate) fn expect_axis(tokens: &mut Tokens) -> Option<Placed<Axis>>
    ensures { TookAxis tokens.old tokens.new result }
{
    let word = take(tokens, Token::word)?;
    let axis = axis_of(word.value)?;
    Some(word.with(axis))
}

// An opening bracket and then the word `text`.
pub(crate) fn expect_head(tokens: &mut Tokens, text: &[u8]) -> Option<()>
    ensures { TookHead text.now tokens.old tokens.new result }
{
    take(tokens, Token::opening)?;
    let word = take(tokens, Token::word)?;
    (word.value == text).then_some(())
}

// No token is left.
pub(crate) fn expect_end(tokens: &mut Tokens) -> Option<()>
    ensures { TookEnd tokens.old result }
{
    tokens.next().is_none().then_some(())
}

// A name and the bracket that closes after it.
pub(crate) fn expect_last_name<'a>(tokens: &mut Tokens<'a>) -> Option<Placed<&'a [u8]>>
    ensures { TookLastName tokens.old tokens.new result }
{
    let name = expect_name(tokens)?;
    expect_close(tokens)?;
    Some(name)
}

// Three numbers from `low` to `high`.
pub(crate) fn expect_triple(tokens: &mut Tokens, low: u32, high: u32) -> Option<Triple>
    ensures { TookTriple low high tokens.old tokens.new result }
{
    let x = expect_number(tokens, low, high)?;
    let y = expect_number(tokens, low, high)?;
    let z = expect_number(tokens, low, high)?;
    Some(Triple {
        x: Mm(x.value),
        y: Mm(y.value),
        z: Mm(z.value),
    })
}
