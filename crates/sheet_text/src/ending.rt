// The last line of a sheet.
ghost use Rattle.std.specs.Prelude.{◌≡◌, ◌≤◌, [], length};
ghost use Rattle.sinks.specs.Meaning.{HandsOut};
ghost use Rattle.steps.specs.declared.stop.Ending.TheVariants.{Stopped};
ghost use Rattle.texts.specs.Lines.{line_text, text_of};
ghost use Rattle.sheet_text.specs.Told.{ending_text};

use crate::boxes::box_numbers;
use crate::limits::LINE_BYTES;
use bounded::inline::InlineVec;
use sinks::refusal::SinkRefusal;
use steps::stop::{Ending, Outcome, Stop};
use texts::line::{Line, LineKind};

// A line with the number of steps.
fn steps_line(kind: LineKind, steps: u32) -> Line<7>
    ensures { text_of result ≡ line_text kind steps [] }
{
    Line {
        kind,
        first: u64::from(steps),
        others: InlineVec::new(0),
    }
}

fn stop_line(stop: Stop) -> Line<7>
    ensures { text_of result ≡ ending_text 0 (Stopped stop) }
{
    let [x, y, z, dx, dy, dz] = box_numbers(stop.scope.cuboid);
    Line {
        kind: LineKind::Stop,
        first: u64::from(stop.number()),
        others: InlineVec::from([u64::from(stop.line), x, y, z, dx, dy, dz]),
    }
}

// The last line of a sheet.
pub(crate) fn ending_line(outcome: Outcome) -> Line<7>
    ensures { text_of result ≡ ending_text outcome.steps outcome.ending }
{
    let steps = outcome.steps;
    match outcome.ending {
        Ending::Done => steps_line(LineKind::Done, steps),
        Ending::Spent => steps_line(LineKind::Spent, steps),
        Ending::Stopped(stop) => stop_line(stop),
    }
}

// Writes the last line over the start of a buffer; nothing where the buffer is shorter.
pub fn ending_text(outcome: Outcome, out: &mut [u8]) -> Result<usize, SinkRefusal>
    ensures hands { HandsOut (ending_text outcome.steps outcome.ending) out.old out.new result }
    ensures fits { length (ending_text outcome.steps outcome.ending) ≤ LINE_BYTES }
{
    ending_line(outcome).text(out)
}
