// What can be wrong with the tokens of a line; each finding is answered by its leftmost column.
ghost use Rattle.std.specs.Prelude.{◌≡◌, ℕ, Bool, List, [], ◌∷◌};
ghost use Rattle.text.specs.Tokens.{Lexeme, told, tokens_of};
ghost use Rattle.grammar.specs.Forms.{FirstStuck};
ghost use Rattle.grammar.specs.Orders.{FirstWrong, Tells, good_numbers, good_names};
ghost use Rattle.grammar.specs.States.{expects, TestedBy};
ghost use Rattle.grammar.specs.Wants.{Want, form, first_at, misplaced, bad_number, bad_name, naming, ranging};

use crate::state::{FileKind, Naming, State};
use crate::steps::{WEIGHT_LIMIT, advance};
use geometry::limits::{LEAST, SITE};
use text::lines::Line;
use text::numbers::number_in;
use text::tokens::{Token, Tokens};
use text::words::is_name;

// The column of the first token at which `wrong` holds of what may come there and of the token; nothing is looked for past a
// token that does not fit.
pub fn first_at<F: Fn(State, Token) -> bool>(wrong: F, file: FileKind, line: Line) -> Option<usize>
    requires { F.IsAlwaysCallable wrong }
    ensures { (test : List Want → Lexeme → Bool) → TestedBy (F.post wrong) test → result ≡ first_at test (form file ∷ []) (tokens_of line.entry.bytes.now) }
{
    let mut state = State::Start(file);
    for t in Tokens::of(line) {
        if wrong(state, t.value) {
            return Some(t.column);
        }
        state = advance(state, &t.value)?;
    }
    None
}

// Whether no form can go on at a token.
pub fn is_misplaced(state: State, t: Token) -> bool
    ensures { result ≡ misplaced (expects state) (told t.entry) }
{
    advance(state, &t).is_none()
}

// The range of the number that is wanted next, if one is.
// Stays: a pair, as its definition has it; it is taken apart at once, so that a struct or a range would be no plainer.
pub fn wanted_range(state: State) -> Option<(u32, u32)>
    ensures { result ≡ ranging (expects state) }
{
    match state {
        State::GuardLow(_) => Some((1, SITE)),
        State::GuardHigh(_, low) => Some((low, SITE)),
        State::RepeatTile | State::PartLength => Some((LEAST, SITE)),
        State::PartWeight => Some((1, WEIGHT_LIMIT)),
        State::CornerX | State::CornerY | State::CornerZ => Some((0, SITE - 1)),
        State::SizeX | State::SizeY | State::SizeZ => Some((LEAST, SITE)),
        _ => None,
    }
}

// What name is wanted next, if one is.
pub fn wanted_name(state: State) -> Option<Naming>
    ensures { result ≡ naming (expects state) }
{
    match state {
        State::MaterialName => Some(Naming::Declared),
        State::RuleName => Some(Naming::Own),
        State::BodyName(n) => Some(n),
        State::PartName | State::LotName => Some(Naming::Rule),
        _ => None,
    }
}

// Whether a token is a number that is malformed or out of its range.
pub fn is_bad_number(state: State, t: Token) -> bool
    ensures { result ≡ bad_number (expects state) (told t.entry) }
{
    match (t, wanted_range(state)) {
        (Token::Number(w), Some((low, high))) => number_in(w, low, high).is_none(),
        _ => false,
    }
}

// Whether a token is a word that is no good name where a name is wanted.
pub fn is_bad_name(state: State, t: Token) -> bool
    ensures { result ≡ bad_name (expects state) (told t.entry) }
{
    match t {
        Token::Word(w) => wanted_name(state).is_some() && !is_name(w),
        _ => false,
    }
}

// A token at which no form of the file can go on.
pub fn find_misplaced(file: FileKind, line: Line) -> Option<usize>
    ensures value { result ≡ first_at misplaced (form file ∷ []) (tokens_of line.entry.bytes.now) }
    ensures first { FirstStuck file (tokens_of line.entry.bytes.now) result }
{
    first_at(is_misplaced, file, line)
}

// A number that is malformed or out of its range, a HIGH below its LOW among them.
pub fn find_bad_number(file: FileKind, line: Line) -> Option<usize>
    ensures first { FirstWrong bad_number (form file ∷ []) (tokens_of line.entry.bytes.now) result }
    ensures tells { Tells good_numbers file (tokens_of line.entry.bytes.now) result }
    ensures value { result ≡ first_at bad_number (form file ∷ []) (tokens_of line.entry.bytes.now) }
{
    first_at(is_bad_number, file, line)
}

// A word that is no good name where a name is wanted.
pub fn find_bad_name(file: FileKind, line: Line) -> Option<usize>
    ensures first { FirstWrong bad_name (form file ∷ []) (tokens_of line.entry.bytes.now) result }
    ensures tells { Tells good_names file (tokens_of line.entry.bytes.now) result }
    ensures value { result ≡ first_at bad_name (form file ∷ []) (tokens_of line.entry.bytes.now) }
{
    first_at(is_bad_name, file, line)
}
