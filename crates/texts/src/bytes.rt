// Writing bytes into a lent buffer.
ghost use Rattle.std.specs.Prelude.{◌≡◌, ◌+◌, ◌≤◌, length, take};
ghost use Rattle.sinks.specs.Meaning.{over, HandsOut};
ghost use Rattle.texts.specs.Writing.{Wrote};

use sinks::refusal::SinkRefusal;

// Writes a text over the start of a buffer.
fn put_bytes(out: &mut [u8], text: &[u8]) -> usize
    requires { length text.now ≤ length out.old }
    ensures after { out.new ≡ over out.old text.now }
    ensures value { result ≡ length text.now }
{
    let n = text.len();
    out[..n].copy_from_slice(text);
    n
}

// Writes a text from a place of the buffer on, and answers where it ends.
pub(crate) fn text_at(out: &mut [u8], at: usize, text: &[u8]) -> usize
    requires { at + length text.now ≤ length out.old }
    ensures { Wrote out.old at text.now out.new result }
{
    at + put_bytes(&mut out[at..], text)
}

// Copies the front of a buffer, which is lent for writing and stays as it is, over the start of another; nothing where
// that one is shorter.
pub(crate) fn hand_out(from: &mut [u8], n: usize, to: &mut [u8]) -> Result<usize, SinkRefusal>
    requires { n ≤ length from.old }
    ensures hands { HandsOut (take n from.old) to.old to.new result }
    ensures same { from.new ≡ from.old }
{
    if to.len() < n {
        return Err(SinkRefusal::ShortBuffer);
    }
    Ok(put_bytes(to, &from[..n]))
}
