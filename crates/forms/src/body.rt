// The body of a rule line after its first word; the names that it uses are added to a list.
ghost use Rattle.std.specs.Prelude.{ℕ};
ghost use Rattle.forms.specs.Bodies.{TookUse, TookBody};
ghost use Rattle.forms.specs.declared.words.Head.TheVariants.{Repeat, Split};

use crate::lists::Uses;
use crate::shape::Shape;
use crate::split::read_parts;
use crate::tokens::{expect_axis, expect_last_name, expect_number, expect_open};
use crate::words::Head;
use geometry::limits::{LEAST, SITE};
use geometry::units::Mm;
use rows::tile::Tile;
use text::placed::Placed;
use text::tokens::Tokens;

// The name that ends a body, and its bracket.
fn read_use<'a>(tokens: &mut Tokens<'a>, uses: &mut Uses<'a>) -> Option<()>
    ensures { TookUse uses.old uses.new tokens.old tokens.new result }
{
    let name = expect_last_name(tokens)?;
    uses.push(name).ok()
}

// A repeat after its first word.
fn read_repeat<'a>(tokens: &mut Tokens<'a>, uses: &mut Uses<'a>) -> Option<Shape>
    ensures { (room : ℕ) → TookBody Repeat room uses.old uses.new tokens.old tokens.new result }
{
    let axis = expect_axis(tokens)?;
    let length = expect_number(tokens, LEAST, SITE)?;
    let tile = Tile::new(Mm(length.value))?;
    read_use(tokens, uses)?;
    Some(Shape::Repeat(axis.value, tile))
}

// A split of at most `room` parts after its first word.
fn read_split<'a>(room: usize, tokens: &mut Tokens<'a>, uses: &mut Uses<'a>) -> Option<Shape>
    ensures { TookBody Split room uses.old uses.new tokens.old tokens.new result }
{
    let axis = expect_axis(tokens)?;
    expect_open(tokens)?;
    let parts = read_parts(room, tokens, uses)?;
    Some(Shape::Split(axis.value, parts))
}

// A body of at most `room` parts after its first word.
pub(crate) fn read_body<'a>(
    head: Head,
    room: usize,
    tokens: &mut Tokens<'a>,
    uses: &mut Uses<'a>,
) -> Option<Shape>
    ensures { TookBody head room uses.old uses.new tokens.old tokens.new result }
{
    match head {
        Head::Make => {
            read_use(tokens, uses)?;
            Some(Shape::Make)
        }
        Head::Use => {
            read_use(tokens, uses)?;
            Some(Shape::Use)
        }
        Head::Repeat => read_repeat(tokens, uses),
        Head::Split => read_split(room, tokens, uses),
    }
}
