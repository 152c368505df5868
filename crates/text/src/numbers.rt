// Numbers in decimal.
ghost use Rattle.std.specs.Prelude.{◌≡◌, ◌≤◌, IfSome};
ghost use Rattle.text.specs.Numbers.{good_start, digit_more, reading, number_in, NumberIn};

// Whether a word has a byte, and the digit 0 at its start only where it has no other.
fn has_good_start(word: &[u8]) -> bool
    ensures { result ≡ good_start word.now }
{
    !matches!(word, [] | [b'0', _, ..])
}

// The value of a number and one digit more, if it is at most `high`.
fn one_more(n: u32, b: u8, high: u32) -> Option<u32>
    ensures value { result ≡ digit_more high n b }
    ensures below { IfSome result (λ m. m ≤ high) }
{
    if !b.is_ascii_digit() {
        return None;
    }
    let more = n as u64 * 10 + (b - b'0') as u64;
    u32::try_from(more).ok().filter(|m| *m <= high)
}

// The value of a word of digits, if it is at most `high`.
fn value_of(word: &[u8], high: u32) -> Option<u32>
    ensures { result ≡ reading high 0 word.now }
{
    let mut n = 0;
    for b in word {
        n = one_more(n, *b, high)?;
    }
    Some(n)
}

// The number that a word is in decimal, without a leading zero, if it lies from `low` to `high`.
pub fn number_in(word: &[u8], low: u32, high: u32) -> Option<u32>
    ensures value { result ≡ number_in low high word.now }
    ensures plain { NumberIn low high word.now result }
{
    if !has_good_start(word) {
        return None;
    }
    value_of(word, high).filter(|n| *n >= low)
}
