// What can be wrong with a line of a rule file after the lines before it.
ghost use Rattle.std.specs.Prelude.{◌≡◌, ℕ, Bool, true, false, List, [], ◌∷◌, map};
ghost use Rattle.std.specs.List.{list_any};
ghost use Rattle.std.specs.Str.{bytes_eq};
ghost use Rattle.text.specs.Tokens.{Lexeme, told, tokens_of};
ghost use Rattle.grammar.specs.States.{expects, TestedBy};
ghost use Rattle.grammar.specs.Wants.{Want, form};
ghost use Rattle.grammar.specs.declared.state.FileKind.TheVariants.{Rules};
ghost use Rattle.forms.specs.Met.{met};
ghost use Rattle.forms.specs.Told.{bytes_of};
ghost use Rattle.judge.specs.Files.{column_of, some};
ghost use Rattle.rules.specs.Before.{last_guarded, looks};
ghost use Rattle.rules.specs.Verdicts.{last_is, redeclared, reused};

use forms::rule::RuleLine;
use grammar::passes::wanted_name;
use grammar::state::{FileKind, Naming, State};
use grammar::steps::advance;
use text::lines::Line;
use text::placed::Placed;
use text::tokens::{Token, Tokens};

// Whether a name stands in a list.
pub fn is_among(name: &[u8], names: &[Placed<&[u8]>]) -> bool
    ensures { result ≡ list_any (λ p. bytes_eq (bytes_of p) name.now) names.now }
{
    names.iter().any(|p| p.value == name)
}

// Whether a name is the last of a list.
fn is_last(name: &[u8], names: &[Placed<&[u8]>]) -> bool
    ensures { result ≡ last_is name.now (map bytes_of names.now) }
{
    match names {
        [.., last] => last.value == name,
        [] => false,
    }
}

// Whether the last rule line has a guard.
pub(crate) fn last_guarded(lines: &[RuleLine]) -> bool
    ensures { result ≡ last_guarded lines.now }
{
    match lines {
        [.., last] => last.guards.len() > 0,
        [] => false,
    }
}

// Whether a token declares a material that was declared before; void counts as declared.
#[tactic(auto, using(crate::proofs::Lists::among_any))]
pub(crate) fn is_redeclared(state: State, t: Token, declared: &[Placed<&[u8]>]) -> bool
    ensures { result ≡ redeclared (map bytes_of declared.now) (expects state) (told t.entry) }
{
    match (t, wanted_name(state)) {
        (Token::Word(w), Some(Naming::Declared)) => {
            w == b"void".as_slice() || is_among(w, declared)
        }
        _ => false,
    }
}

// Whether a token is a rule line's name that was used before, unless the nearest earlier rule line has it and a guard.
#[tactic(auto, using(crate::proofs::Lists::among_any))]
pub(crate) fn is_reused(state: State, t: Token, names: &[Placed<&[u8]>], guarded: bool) -> bool
    ensures { result ≡ reused (map bytes_of names.now) guarded (expects state) (told t.entry) }
{
    match (t, wanted_name(state)) {
        (Token::Word(w), Some(Naming::Own)) => {
            is_among(w, names) && !(is_last(w, names) && guarded)
        }
        _ => false,
    }
}

// Whether a word names the material that its line declares.
pub(crate) fn declares(state: State, _t: Token) -> bool
    ensures { result ≡ looks false false true false (expects state) (told _t.entry) }
{
    matches!(
        state,
        State::MaterialName | State::BodyName(Naming::Declared)
    )
}

// Whether a word names the rule line itself.
pub(crate) fn names_itself(state: State, _t: Token) -> bool
    ensures { result ≡ looks false false false true (expects state) (told _t.entry) }
{
    matches!(state, State::RuleName | State::BodyName(Naming::Own))
}

// Whether a token is the opening bracket of a part.
pub(crate) fn opens_part(state: State, t: Token) -> bool
    ensures { result ≡ looks false true false false (expects state) (told t.entry) }
{
    matches!((state, t), (State::Parts | State::More, Token::Open))
}

// The column of the k-th token, from 0, of those that a test picks.
// Stays: `first_at` of the grammar is much the same for the first such token, but lies below what speaks of the k-th.
pub(crate) fn pick<F: Fn(State, Token) -> bool>(picks: F, line: Line, k: usize) -> Option<usize>
    requires { F.IsAlwaysCallable picks }
    ensures { (test : List Want → Lexeme → Bool) → TestedBy (F.post picks) test → result ≡ column_of k (met test (form Rules ∷ []) (tokens_of line.entry.bytes.now)) }
{
    let mut state = State::Start(FileKind::Rules);
    // Stays: the counter goes down at picked tokens alone, so it is no index of the loop.
    let mut left = k;
    for t in Tokens::of(line) {
        if picks(state, t.value) {
            if left == 0 {
                return Some(t.column);
            }
            left -= 1;
        }
        state = advance(state, &t.value)?;
    }
    None
}

// Whether a test picks a token of the line.
pub(crate) fn has<F: Fn(State, Token) -> bool>(picks: F, line: Line) -> bool
    requires { F.IsAlwaysCallable picks }
    ensures { (test : List Want → Lexeme → Bool) → TestedBy (F.post picks) test → result ≡ some (met test (form Rules ∷ []) (tokens_of line.entry.bytes.now)) }
{
    pick(picks, line, 0).is_some()
}
