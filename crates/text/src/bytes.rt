// The kinds of bytes that a line is made of, and the first byte that passes a test.
ghost use Rattle.std.specs.Prelude.{◌≡◌, ℕ, ◌<◌, Bool, length, IfSome};
ghost use Rattle.text.specs.Bytes.{kind_of, allowed, separates, Answers, FirstFrom};

#[derive(Clone, Copy, PartialEq, Eq, Debug)]
pub(crate) enum Kind {
    Letter,
    Digit,
    Hyphen,
    Space,
    Open,
    Close,
    Other,
}

impl From<u8> for Kind {
    ghost from_gives = { λ b k. k ≡ kind_of b };

    fn from(b: u8) -> Kind {
        match b as char {
            'a'..='z' | 'A'..='Z' => Kind::Letter,
            '0'..='9' => Kind::Digit,
            '-' => Kind::Hyphen,
            ' ' => Kind::Space,
            '(' => Kind::Open,
            ')' => Kind::Close,
            _ => Kind::Other,
        }
    }
}

// Whether a byte may stand in a line.
pub(crate) fn is_allowed(b: u8) -> bool
    ensures { result ≡ allowed b }
{
    !matches!(Kind::from(b), Kind::Other)
}

// Whether a byte ends a run.
pub(crate) fn is_separator(b: u8) -> bool
    ensures { result ≡ separates b }
{
    matches!(b as char, ' ' | '(' | ')')
}

// The index of the first byte from `at` on that passes a test.
pub(crate) fn index_from<F: Fn(u8) -> bool>(bytes: &[u8], at: usize, test: F) -> Option<usize>
    requires { F.IsAlwaysCallable test }
    ensures first { (p : ℕ → Bool) → Answers (F.post test) p → FirstFrom p bytes.now at result }
    ensures within { IfSome result (λ i. i < length bytes.now) }
{
    bytes.iter().skip(at).position(|b| test(*b)).map(|n| at + n)
}
