// Where a text goes: it is measured, or written into a lent buffer.
ghost use Rattle.std.specs.Prelude.{ℕ, List};
ghost use Rattle.texts.specs.Outs.{OutLaws, Counted, is_counted, has_room, CursorWrote};

use crate::bytes::text_at;

// Stays: it is no `fmt::Write`, which takes `str` and may fail, and says nothing of two texts in a row; here bytes are
// put where they fit, and the laws say what one text after another leaves.
pub(crate) trait Out {
    // Whether there is room for a text.
    ghost fits: { Self → List ℕ → Type 0 };

    // What a text does that is put here.
    ghost wrote: { Self → List ℕ → Self → Type 0 };

    ghost laws: { OutLaws fits wrote };

    fn put(&mut self, text: &[u8])
        requires { fits self.old text.now }
        ensures { wrote self.old text.now self.new };
}

// How many bytes came; it stays at 2^64 - 1 where it would pass it.
#[derive(Drop)]
pub(crate) struct Measure {
    pub(crate) bytes: usize,
}

impl Out for Measure {
    ghost use Rattle.texts.specs.Laws.{measure_laws};

    ghost fits = { is_counted };

    ghost wrote = { Counted };

    ghost laws = { measure_laws };

    fn put(&mut self, text: &[u8]) {
        self.bytes = self.bytes.saturating_add(text.len());
    }
}

// A place in a lent buffer.
// Stays: buffer and place side by side, since the memory is the caller's.
#[derive(Drop)]
pub(crate) struct Cursor<'b> {
    pub(crate) out: &'b mut [u8],
    pub(crate) at: usize,
}

impl<'b> Out for Cursor<'b> {
    ghost use Rattle.texts.specs.Laws.{cursor_laws};

    ghost fits = { has_room };

    ghost wrote = { CursorWrote };

    ghost laws = { cursor_laws };

    fn put(&mut self, text: &[u8]) {
        self.at = text_at(self.out, self.at, text);
    }
}
