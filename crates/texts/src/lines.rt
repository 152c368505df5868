// Putting lines where they go.
ghost use Rattle.std.specs.Prelude.{◌≡◌, ◌+◌, ◌*◌, ◌≤◌, length, decimal};
ghost use Rattle.sinks.specs.Meaning.{HandsOut};
ghost use Rattle.texts.specs.Lines.{start_of, end_of, spaced, line_text, text_of, lent_text};

use crate::line::{Line, LineKind};
use crate::out::Out;
use crate::writing::{Text, write};
use itoa::Buffer;
use sinks::refusal::SinkRefusal;

fn start_of(kind: LineKind) -> &'static [u8]
    ensures { result.now ≡ start_of kind }
{
    match kind {
        LineKind::Group => b"g m",
        LineKind::Vertex => b"v ",
        LineKind::Face => b"f ",
        LineKind::Material => b"(m",
        LineKind::Sum => b"(total ",
        LineKind::Done => b"(done ",
        LineKind::Spent => b"(spent ",
        LineKind::Stop => b"(stop ",
        LineKind::RulesRefused => b"(refused rules ",
        LineKind::LotsRefused => b"(refused lots ",
        LineKind::Block => b"(block ",
    }
}

fn end_of(kind: LineKind) -> &'static [u8]
    ensures { result.now ≡ end_of kind }
{
    match kind {
        LineKind::Group | LineKind::Vertex | LineKind::Face => b"\n",
        _ => b")\n",
    }
}

// Puts a number in decimal.
fn put_number<W: Out>(out: &mut W, n: u64)
    requires { W.fits out.old (decimal n) }
    ensures { W.wrote out.old (decimal n) out.new }
{
    out.put(Buffer::new().format(n).as_bytes());
}

// Puts numbers, each after a space.
fn put_spaced<W: Out>(out: &mut W, numbers: &[u64])
    requires { W.fits out.old (spaced numbers.now) }
    ensures { W.wrote out.old (spaced numbers.now) out.new }
{
    for n in numbers {
        out.put(b" ");
        put_number(out, *n);
    }
}

// Puts a line of numbers.
pub(crate) fn put_line<W: Out>(out: &mut W, kind: LineKind, first: u64, others: &[u64])
    requires { W.fits out.old (line_text kind first others.now) }
    ensures { W.wrote out.old (line_text kind first others.now) out.new }
{
    out.put(start_of(kind));
    put_number(out, first);
    put_spaced(out, others);
    out.put(end_of(kind));
}

// A line whose numbers after the first are lent.
// Stays: beside `Line`, so that lines of any number of numbers are put by one function.
#[derive(Clone, Copy)]
pub(crate) struct LentLine<'a> {
    kind: LineKind,
    first: u64,
    others: &'a [u64],
}

impl<'a> LentLine<'a> {
    // The numbers are below 2^64, so the text is short.
    #[tactic(auto, using(crate::proofs::Texts::line_few))]
    fn new(kind: LineKind, first: u64, others: &'a [u64]) -> LentLine<'a>
        ensures same { lent_text result ≡ line_text kind first others.now }
        ensures short { length (lent_text result) ≤ 37 + 21 * length others.now }
    {
        LentLine {
            kind,
            first,
            others,
        }
    }
}

impl<'a> Text for LentLine<'a> {
    ghost text = { lent_text };

    fn put<W: Out>(&self, out: &mut W) {
        put_line(out, self.kind, self.first, self.others);
    }
}

impl<const N: usize> Line<N> {
    pub(crate) fn lend(&self) -> LentLine<'_>
        ensures same { lent_text result ≡ text_of self.now }
        ensures short { length (text_of self.now) ≤ 37 + 21 * N }
    {
        LentLine::new(self.kind, self.first, self.others.as_slice())
    }

    // The text of the line, in the caller's buffer.
    pub fn text(&self, out: &mut [u8]) -> Result<usize, SinkRefusal>
        ensures hands { HandsOut (text_of self.now) out.old out.new result }
        ensures fits { length (text_of self.now) ≤ 37 + 21 * N }
    {
        write(&self.lend(), out)
    }
}
