// The line of a refused file.
ghost use Rattle.std.specs.Prelude.{◌≡◌, ◌≤◌, length};
ghost use Rattle.sinks.specs.Meaning.{HandsOut};
ghost use Rattle.texts.specs.Lines.{text_of};
ghost use Rattle.sheet_text.specs.Told.{refused_kind, refused_text};

use crate::limits::LINE_BYTES;
use bounded::inline::InlineVec;
use grammar::state::FileKind;
use judge::faults::Fault;
use sinks::refusal::SinkRefusal;
use text::placed::Placed;
use texts::line::{Line, LineKind};

fn refused_kind(file: FileKind) -> LineKind
    ensures { result ≡ refused_kind file }
{
    match file {
        FileKind::Rules => LineKind::RulesRefused,
        FileKind::Lots => LineKind::LotsRefused,
    }
}

fn refused_line(file: FileKind, refusal: Placed<Fault>) -> Line<2>
    ensures { text_of result ≡ refused_text file refusal }
{
    let place = [refusal.line as u64, refusal.column as u64];
    Line {
        kind: refused_kind(file),
        first: u64::from(refusal.value.number()),
        others: InlineVec::from(place),
    }
}

// Writes the line of a refused file over the start of a buffer; nothing where the buffer is shorter.
pub fn refused_text(
    file: FileKind,
    refusal: Placed<Fault>,
    out: &mut [u8],
) -> Result<usize, SinkRefusal>
    ensures hands { HandsOut (refused_text file refusal) out.old out.new result }
    ensures fits { length (refused_text file refusal) ≤ LINE_BYTES }
{
    refused_line(file, refusal).text(out)
}
