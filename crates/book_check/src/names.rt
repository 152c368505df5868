// What names stand for.
ghost use Rattle.std.specs.Prelude.{◌≡◌, length};
ghost use Rattle.forms.specs.Told.{uses_of, used_by};
ghost use Rattle.book_check.specs.Faults.{first_named, Under, material_number, kind_of, meaning as meaning_of};

use crate::kind::Kind;
use forms::rule::RuleLine;
use forms::shape::Shape;
use rules::rule_book::Book;
use text::placed::Placed;

// The index of the first name with these bytes.
pub(crate) fn find(names: &[Placed<&[u8]>], word: &[u8]) -> Option<usize>
    ensures value { result ≡ first_named word.now names.now }
    ensures within { Under (length names.now) result }
{
    names.iter().position(|name| name.value == word)
}

// The number of a material: 0 for void, else from 1 on in the order of the declarations.
fn material_number(materials: &[Placed<&[u8]>], word: &[u8]) -> Option<usize>
    ensures { result ≡ material_number materials.now word.now }
{
    if word == b"void".as_slice() {
        return Some(0);
    }
    let i = find(materials, word)?;
    Some(i + 1)
}

// Where the names that a body uses are looked for.
pub(crate) fn kind_of(shape: &Shape) -> Kind
    ensures { result ≡ kind_of shape.now }
{
    match *shape {
        Shape::Make => Kind::Material,
        Shape::Use | Shape::Repeat(_, _) => Kind::Below,
        Shape::Split(_, parts) if parts.len() == 1 => Kind::Below,
        Shape::Split(_, _) => Kind::Anywhere,
    }
}

// What a name stands for: the number of a material, or the index of the first line of a rule.
pub(crate) fn meaning(book: &Book, kind: Kind, word: &[u8]) -> Option<usize>
    ensures { result ≡ meaning_of book.now kind word.now }
{
    match kind {
        Kind::Material => material_number(book.materials(), word),
        Kind::Below | Kind::Anywhere => find(book.names(), word),
    }
}

// How many names a body uses.
pub(crate) fn uses_of(shape: &Shape) -> usize
    ensures { result ≡ uses_of shape.now }
{
    match *shape {
        Shape::Make | Shape::Use | Shape::Repeat(_, _) => 1,
        Shape::Split(_, parts) => parts.len(),
    }
}

// The names that a rule line uses, as far as they are there.
pub(crate) fn used_by<'b, 'a>(
    uses: &'b [Placed<&'a [u8]>],
    line: &RuleLine,
) -> &'b [Placed<&'a [u8]>]
    ensures { result.now ≡ used_by uses.now line.now }
{
    let rest = &uses[line.from.min(uses.len())..];
    &rest[0..uses_of(&line.body).min(rest.len())]
}
