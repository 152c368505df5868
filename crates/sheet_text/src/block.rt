// The line of a block.
ghost use Rattle.std.specs.Prelude.{◌≡◌, ◌≤◌, length};
ghost use Rattle.sinks.specs.Meaning.{HandsOut};
ghost use Rattle.texts.specs.Lines.{text_of};
ghost use Rattle.sheet_text.specs.Told.{block_line};

use crate::boxes::box_numbers;
use crate::limits::LINE_BYTES;
use bounded::inline::InlineVec;
use geometry::block::Block;
use sinks::refusal::SinkRefusal;
use texts::line::{Line, LineKind};

fn block_line(block: Block) -> Line<6>
    ensures { text_of result ≡ block_line block }
{
    Line {
        kind: LineKind::Block,
        first: u64::from(block.material),
        others: InlineVec::from(box_numbers(block.cuboid)),
    }
}

// Writes the line of a block over the start of a buffer; nothing where the buffer is shorter.
pub fn block_text(block: Block, out: &mut [u8]) -> Result<usize, SinkRefusal>
    ensures hands { HandsOut (block_line block) out.old out.new result }
    ensures fits { length (block_line block) ≤ LINE_BYTES }
{
    block_line(block).text(out)
}
