// One token more of a line.
ghost use Rattle.std.specs.Prelude.{◌≡◌, ℕ, [], ◌∷◌, if◌then◌else◌, Some, None};
ghost use Rattle.text.specs.Tokens.{told, opening, closing, number, word};
ghost use Rattle.text.specs.Words.{is_axis};
ghost use Rattle.grammar.specs.States.{expects, wanted};
ghost use Rattle.grammar.specs.Wants.{step, onto, low_of, head_wants, item_wants, part_wants, shut, more};

use crate::state::{FileKind, Naming, State};
// the greatest weight
pub use geometry::limits::MOST_WEIGHT as WEIGHT_LIMIT;
use geometry::limits::SITE;
use text::numbers::number_in;
use text::tokens::Token;
use text::words::is_axis;

fn on_open(state: State) -> Option<State>
    ensures { wanted result ≡ step (expects state) opening }
{
    match state {
        State::Start(file) => Some(State::Head(file)),
        State::Items(k) => Some(State::Item(k)),
        State::Parts | State::More => Some(State::Part),
        _ => None,
    }
}

fn on_close(state: State) -> Option<State>
    ensures { wanted result ≡ step (expects state) closing }
{
    match state {
        State::FormEnd => Some(State::Done),
        State::GuardEnd(k) => Some(State::Items(k)),
        State::BodyEnd | State::More => Some(State::FormEnd),
        State::PartEnd => Some(State::More),
        _ => None,
    }
}

// The least HIGH after a LOW: the LOW where it is a good one.
fn low_of(w: &[u8]) -> u32
    ensures { result ≡ low_of w.now }
{
    number_in(w, 1, SITE).unwrap_or(1)
}

fn on_number(state: State, w: &[u8]) -> Option<State>
    ensures { wanted result ≡ step (expects state) (number w.now) }
{
    match state {
        State::GuardLow(k) => Some(State::GuardHigh(k, low_of(w))),
        State::GuardHigh(k, _) => Some(State::GuardEnd(k)),
        State::RepeatTile => Some(State::BodyName(Naming::Rule)),
        State::PartLength | State::PartWeight => Some(State::PartName),
        State::CornerX => Some(State::CornerY),
        State::CornerY => Some(State::CornerZ),
        State::CornerZ => Some(State::SizeX),
        State::SizeX => Some(State::SizeY),
        State::SizeY => Some(State::SizeZ),
        State::SizeZ => Some(State::LotName),
        _ => None,
    }
}

// The word that begins a form.
fn on_head(file: FileKind, w: &[u8]) -> Option<State>
    ensures { wanted result ≡ head_wants file w.now }
{
    match (file, w) {
        (FileKind::Rules, b"material") => Some(State::MaterialName),
        (FileKind::Rules, b"rule") => Some(State::RuleName),
        (FileKind::Lots, b"lot") => Some(State::CornerX),
        _ => None,
    }
}

// The word that begins a guard or a body, where `k` guards may still come.
fn on_item(k: u8, w: &[u8]) -> Option<State>
    ensures { wanted result ≡ onto (item_wants k w.now) (shut ∷ []) }
{
    match w {
        b"when" => k.checked_sub(1).map(State::GuardAxis),
        b"make" => Some(State::BodyName(Naming::Material)),
        b"use" => Some(State::BodyName(Naming::Rule)),
        b"repeat" => Some(State::RepeatAxis),
        b"split" => Some(State::SplitAxis),
        _ => None,
    }
}

fn on_axis(next: State, w: &[u8]) -> Option<State>
    ensures { wanted result ≡ (if is_axis w.now then Some (expects next) else None) }
{
    is_axis(w).then_some(next)
}

// The word that begins a part.
fn on_part(w: &[u8]) -> Option<State>
    ensures { wanted result ≡ onto (part_wants w.now) (more ∷ shut ∷ []) }
{
    match w {
        b"fix" => Some(State::PartLength),
        b"float" => Some(State::PartWeight),
        _ => None,
    }
}

fn on_word(state: State, w: &[u8]) -> Option<State>
    ensures { wanted result ≡ step (expects state) (word w.now) }
{
    match state {
        State::Head(file) => on_head(file, w),
        State::MaterialName | State::LotName => Some(State::FormEnd),
        State::RuleName => Some(State::Items(3)),
        State::Item(k) => on_item(k, w),
        State::GuardAxis(k) => on_axis(State::GuardLow(k), w),
        State::BodyName(_) => Some(State::BodyEnd),
        State::RepeatAxis => on_axis(State::RepeatTile, w),
        State::SplitAxis => on_axis(State::Parts, w),
        State::Part => on_part(w),
        State::PartName => Some(State::PartEnd),
        _ => None,
    }
}

// What must come after one token more, or `None` where no form can go on.
pub fn advance(state: State, t: &Token) -> Option<State>
    ensures { wanted result ≡ step (expects state) (told t.now) }
{
    match t {
        Token::Open => on_open(state),
        Token::Close => on_close(state),
        Token::Number(w) => on_number(state, w),
        Token::Word(w) => on_word(state, w),
    }
}
