// Tokens that are wanted, taken one after the other.
ghost use Rattle.text.specs.Takes.{TookBy, Reads, Took};
ghost use Rattle.text.specs.Tokens.{Lexeme};

use crate::placed::Placed;
use crate::tokens::{Token, Tokens};

// What `want` reads of the next token, with the token's place; a token of which it reads nothing is passed over.
pub fn take<'a, T, F: FnOnce(Token<'a>) -> Option<T>>(
    tokens: &mut Tokens<'a>,
    want: F,
) -> Option<Placed<T>>
    requires { F.IsAlwaysCallable want }
    ensures read { TookBy (F.post want) tokens.old tokens.new result }
    ensures took { (kind : T → Lexeme) → Reads (F.post want) kind → Took kind tokens.old tokens.new result }
{
    let t = tokens.next()?;
    let value = want(t.value)?;
    Some(t.with(value))
}
