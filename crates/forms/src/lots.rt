// A lot read from its line.
ghost use Rattle.forms.specs.Reads.{LotRead};
ghost use Rattle.forms.specs.Taken.{LotRest};

use crate::lot::LotLine;
use crate::tokens::{expect_end, expect_head, expect_last_name, expect_triple};
use geometry::limits::{LEAST, SITE};
use text::lines::Line;
use text::tokens::Tokens;

// A lot after its first word, up to the end of the line.
fn rest_of_lot<'a>(tokens: &mut Tokens<'a>) -> Option<LotLine<'a>>
    ensures { LotRest tokens.old result }
{
    let corner = expect_triple(tokens, 0, SITE - 1)?;
    let size = expect_triple(tokens, LEAST, SITE)?;
    let name = expect_last_name(tokens)?;
    expect_end(tokens)?;
    Some(LotLine { corner, size, name })
}

// What a line of the lot file says; None where it is no lot with good numbers.
// Stays: three lines, as of a material and of a rule; one function with a closure for the rest of the line would be no
// shorter.
pub fn read_lot<'a>(line: Line<'a>) -> Option<LotLine<'a>>
    ensures { LotRead line.entry.number line.entry.bytes.now result }
{
    let mut tokens = Tokens::of(line);
    expect_head(&mut tokens, b"lot")?;
    rest_of_lot(&mut tokens)
}
