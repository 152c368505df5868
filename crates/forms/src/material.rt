// A material read from its line.
ghost use Rattle.forms.specs.Reads.{MaterialRead};
ghost use Rattle.forms.specs.Taken.{MaterialRest};

use crate::tokens::{expect_end, expect_head, expect_last_name};
use text::lines::Line;
use text::placed::Placed;
use text::tokens::Tokens;

// The name of a material, up to the end of the line.
fn rest_of_material<'a>(tokens: &mut Tokens<'a>) -> Option<Placed<&'a [u8]>>
    ensures { MaterialRest tokens.old result }
{
    let name = expect_last_name(tokens)?;
    expect_end(tokens)?;
    Some(name)
}

// The name of the material that a line declares; None where it declares none.
pub fn read_material<'a>(line: Line<'a>) -> Option<Placed<&'a [u8]>>
    ensures { MaterialRead line.entry.number line.entry.bytes.now result }
{
    let mut tokens = Tokens::of(line);
    expect_head(&mut tokens, b"material")?;
    rest_of_material(&mut tokens)
}
