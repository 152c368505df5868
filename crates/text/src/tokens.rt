// The tokens of a line: round brackets, numbers and words.
ghost use Rattle.std.specs.Prelude.{◌≡◌, ℕ, ◌+◌, ◌<◌, ◌≤◌, false, [], length, Decides, slice_index};
ghost use Rattle.std.specs.Iterator.{item_count};
ghost use Rattle.text.specs.Bytes.{is_space};
ghost use Rattle.text.specs.Lines.{is_blank};
ghost use Rattle.text.specs.Takes.{OfKind, open_at, close_at, number_at, word_at};
ghost use Rattle.text.specs.Tokens.{Skipped, RunTo, TokenAt, tokens_of, tokens_left, NextToken, Tokenized};

use crate::bytes::{Kind, index_from, is_separator};
use crate::lines::Line;
use crate::placed::Placed;

// A number is a run of bytes without space or bracket that begins with a digit; a word is any other run.
#[derive(Clone, Copy)]
pub enum Token<'a> {
    Open,
    Close,
    Number(&'a [u8]),
    Word(&'a [u8]),
}

impl<'a> Token<'a> {
    // Whether it is an opening bracket.
    pub fn opening(self) -> Option<()>
        ensures { OfKind open_at self.entry result }
    {
        matches!(self, Token::Open).then_some(())
    }

    // Whether it is a closing bracket.
    pub fn closing(self) -> Option<()>
        ensures { OfKind close_at self.entry result }
    {
        matches!(self, Token::Close).then_some(())
    }

    // The bytes of a number.
    pub fn number(self) -> Option<&'a [u8]>
        ensures { OfKind number_at self.entry result }
    {
        if let Token::Number(w) = self {
            Some(w)
        } else {
            None
        }
    }

    // The bytes of a word.
    pub fn word(self) -> Option<&'a [u8]>
        ensures { OfKind word_at self.entry result }
    {
        if let Token::Word(w) = self {
            Some(w)
        } else {
            None
        }
    }
}

// The tokens of a line from the index `at` on.
#[derive(Clone, Copy)]
pub struct Tokens<'a> {
    line: Line<'a>,
    at: usize,
}

// Whether a line has only spaces, or nothing: then it has no token.
pub fn is_blank(bytes: &[u8]) -> bool
    ensures value { result ≡ is_blank bytes.now }
    ensures decides { Decides result (tokens_of bytes.now ≡ []) }
{
    bytes.iter().all(|b| *b == b' ')
}

// The first index from `at` on that holds no space.
fn skip_spaces(bytes: &[u8], at: usize) -> Option<usize>
    ensures { Skipped bytes.now at result }
{
    index_from(bytes, at, |b| b != b' ')
}

// The end of the run that begins at `at`.
fn run_end(bytes: &[u8], at: usize) -> usize
    requires { at ≤ length bytes.now }
    ensures { RunTo bytes.now at result }
{
    index_from(bytes, at, is_separator).unwrap_or(bytes.len())
}

// The token that begins at `at`, where no space stands, and its end.
#[tactic(auto, using(crate::proofs::Lexed::first_token))]
fn token_at<'a>(bytes: &'a [u8], at: usize) -> (Token<'a>, usize)
    requires { (at < length bytes.now) × (is_space (slice_index bytes.now at) ≡ false) }
    ensures { TokenAt bytes.now at result }
{
    match Kind::from(bytes[at]) {
        Kind::Open => (Token::Open, at + 1),
        Kind::Close => (Token::Close, at + 1),
        Kind::Digit => {
            let end = run_end(bytes, at);
            (Token::Number(&bytes[at..end]), end)
        }
        _ => {
            let end = run_end(bytes, at);
            (Token::Word(&bytes[at..end]), end)
        }
    }
}

impl<'a> Tokens<'a> {
    // All tokens of a line. Laid out at their columns they are the line, and each run is whole.
    pub fn of(line: Line<'a>) -> Tokens<'a>
        ensures all { tokens_left result ≡ tokens_of line.entry.bytes.now }
        ensures place { result.line.number ≡ line.entry.number }
        ensures law { Tokenized line.entry.bytes.now (tokens_left result) }
    {
        Tokens { line, at: 0 }
    }
}

// The tokens with their places, one after the other.
impl<'a> Iterator for Tokens<'a> {
    type Item = Placed<Token<'a>>;

    ghost next_gives = { λ s r t. NextToken s t r };

    ghost remaining = { item_count tokens_left };

    fn next(&mut self) -> Option<Placed<Token<'a>>> {
        let bytes = self.line.bytes;
        let at = skip_spaces(bytes, self.at)?;
        let (value, end) = token_at(bytes, at);
        self.at = end;
        Some(Placed {
            value,
            line: self.line.number,
            column: at + 1,
        })
    }
}
