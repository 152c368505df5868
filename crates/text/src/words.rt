// Words: names and axes.
ghost use Rattle.std.specs.Prelude.{◌≡◌};
ghost use Rattle.text.specs.Words.{good_name, is_axis};

// The most bytes of a name.
pub const NAME_LIMIT: usize = 16;

// Whether a word of bytes that may stand in a line is a good name: 1 to 16 bytes, the first a letter.
pub fn is_name(word: &[u8]) -> bool
    ensures { result ≡ good_name word.now }
{
    word.len() <= NAME_LIMIT && word.first().is_some_and(|b| b.is_ascii_alphabetic())
}

// Whether a word is an axis: x, y or z.
pub fn is_axis(word: &[u8]) -> bool
    ensures { result ≡ is_axis word.now }
{
    match word {
        [b] => matches!(*b as char, 'x' | 'y' | 'z'),
        _ => false,
    }
}
