// Why a sink refuses: no such material or cell; no room; all volumes together too large; a buffer shorter than the text.
ghost use Rattle.std.specs.Prelude.{◌≡◌};
ghost use Rattle.sinks.specs.Refusals.{number};

// Each is told by its number.
#[derive(Clone, Copy, PartialEq, Eq)]
pub enum SinkRefusal {
    NoSuch = 35,
    NoRoom = 53,
    OverLimit,
    ShortBuffer,
}

impl SinkRefusal {
    // The number that is told to people.
    pub fn number(self) -> u8
        ensures { result ≡ number self }
    {
        self as u8
    }
}
