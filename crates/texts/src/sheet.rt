// The drawing and the bill of a list of blocks.
ghost use Rattle.geometry.specs.Limits.{site};
ghost use Rattle.sinks.specs.Meaning.{Empty};
ghost use Rattle.sinks.specs.Laws.{count_in, volume_in};
ghost use Rattle.texts.specs.Bills.{bill_text, bill_parts};
ghost use Rattle.texts.specs.Objs.{obj_parts, blocks_text, Drawn, Drained, Sheet, BeginsIn};

use crate::bill::Bill;
use crate::drawing::ObjText;
use geometry::block::Block;
use sinks::offers::offer_all;
use sinks::refusal::SinkRefusal;
use sinks::sink::Sink;

// Offers the blocks to a drawing and drains it, or passes the refusal of a block up.
fn drain_blocks(
    drawing: &mut ObjText,
    blocks: &[Block],
    out: &mut [u8],
) -> Result<usize, SinkRefusal>
    ensures { Drained drawing.old blocks.now out.old out.new result }
{
    offer_all(drawing, blocks)?;
    drawing.drain(out)
}

// Draws the blocks in the caller's memory and hands their text out.
pub fn draw_blocks(
    blocks: &[Block],
    memory: &mut [u8],
    out: &mut [u8],
) -> Result<usize, SinkRefusal>
    ensures { Sheet site obj_parts Drawn (BeginsIn memory.old) blocks.now (blocks_text 0 blocks.now) out.old out.new result }
{
    let mut drawing = ObjText::new(memory);
    drain_blocks(&mut drawing, blocks, out)
}

// Writes the bill of the blocks.
pub fn bill_blocks(blocks: &[Block], out: &mut [u8]) -> Result<usize, SinkRefusal>
    ensures { Sheet site bill_parts (λ _ _ _. Unit {0}) (λ s. Empty (bill_parts s)) blocks.now (bill_text (count_in blocks.now) (volume_in blocks.now)) out.old out.new result }
{
    let mut bill = Bill::new();
    offer_all(&mut bill, blocks)?;
    bill.text(out)
}
