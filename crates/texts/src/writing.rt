// A text that can be put anywhere: so it is measured, written from a place of a buffer on, or handed out.
ghost use Rattle.std.specs.Prelude.{◌≡◌, ℕ, ◌+◌, ◌≤◌, List, length};
ghost use Rattle.sinks.specs.Meaning.{over, HandsOut};
ghost use Rattle.texts.specs.Outs.{counted};
ghost use Rattle.texts.specs.Writing.{Wrote};

use crate::out::{Cursor, Measure, Out};
use sinks::refusal::SinkRefusal;

// Stays: it is no `Display`, whose text goes into a `fmt::Write`: that may fail, and says nothing of two texts in a row.
pub(crate) trait Text {
    ghost text: { Self → List ℕ };

    fn put<W: Out>(&self, out: &mut W)
        requires { W.fits out.old (text self.now) }
        ensures { W.wrote out.old (text self.now) out.new };
}

// How many bytes a text has.
pub(crate) fn measure<T: Text>(text: &T) -> usize
    ensures { result ≡ counted (length (T.text text.now)) }
{
    let mut measure = Measure { bytes: 0 };
    text.put(&mut measure);
    measure.bytes
}

// Writes a text over the start of a buffer, and answers its length.
fn write_over<T: Text>(out: &mut [u8], text: &T) -> usize
    requires { length (T.text text.now) ≤ length out.old }
    ensures after { out.new ≡ over out.old (T.text text.now) }
    ensures value { result ≡ length (T.text text.now) }
{
    let mut cursor = Cursor { out, at: 0 };
    text.put(&mut cursor);
    cursor.at
}

// Writes a text from a place of the buffer on, and answers where it ends. What writes lines and numbers is lent the rest
// of the buffer alone.
pub(crate) fn write_at<T: Text>(out: &mut [u8], at: usize, text: &T) -> usize
    requires { at + length (T.text text.now) ≤ length out.old }
    ensures { Wrote out.old at (T.text text.now) out.new result }
{
    at + write_over(&mut out[at..], text)
}

// Writes a text over the start of a buffer; nothing where the buffer is shorter.
pub(crate) fn write<T: Text>(text: &T, out: &mut [u8]) -> Result<usize, SinkRefusal>
    ensures { HandsOut (T.text text.now) out.old out.new result }
{
    if out.len() < measure(text) {
        return Err(SinkRefusal::ShortBuffer);
    }
    Ok(write_over(out, text))
}
