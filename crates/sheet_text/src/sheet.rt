// A sheet: the bill and then the last line.
ghost use Rattle.std.specs.Prelude.{◌≤◌, length};
ghost use Rattle.sinks.specs.Meaning.{HandsOut};
ghost use Rattle.texts.specs.Bills.{bill_parts};
ghost use Rattle.sheet_text.specs.Told.{sheet_text};

use crate::ending::ending_line;
use crate::limits::SHEET_BYTES;
use sinks::refusal::SinkRefusal;
use steps::stop::Outcome;
use texts::bill::Bill;

// Writes a sheet over the start of a buffer; nothing where the buffer is shorter.
pub fn sheet_text(bill: &Bill, outcome: Outcome, out: &mut [u8]) -> Result<usize, SinkRefusal>
    ensures hands { HandsOut (sheet_text (bill_parts bill.now).count (bill_parts bill.now).volume outcome.steps outcome.ending) out.old out.new result }
    ensures fits { length (sheet_text (bill_parts bill.now).count (bill_parts bill.now).volume outcome.steps outcome.ending) ≤ SHEET_BYTES }
{
    bill.text_and_line(&ending_line(outcome), out)
}
