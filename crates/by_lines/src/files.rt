// A file read into what grows by its lines.
ghost use Rattle.std.specs.Prelude.{◌≡◌, ℕ, List, [], Option, None};
ghost use Rattle.text.specs.declared.placed.Placed.{Placed};
ghost use Rattle.judge.specs.declared.faults.Fault.{Fault};
ghost use Rattle.by_lines.specs.Taken.{Taken, LinesTaken, FileTaken};

use judge::faults::Fault;
use judge::lines::fault_at;
use text::lines::split::is_too_long;
use text::lines::{Line, Lines};
use text::placed::Placed;

// What grows by lines, one after the other.
pub trait Grow {
    // The verdict on lines from this number on.
    ghost verdict: { Self → ℕ → List (List ℕ) → Option (Placed Fault) };

    // What a line of this number adds.
    ghost grown: { ℕ → List ℕ → Self → Self → Type 0 };

    // What holds while it is read.
    ghost fits: { Self → Type 0 };

    ghost empty: { Self };

    fn clear(&mut self)
        ensures { self.new ≡ empty };

    // What is empty fits.
    ghost begins: { fits empty };

    // Where no line is left there is no fault.
    ghost ends: { (p : Self) (n : ℕ) → verdict p n [] ≡ None };
}

// What takes the lines of a file.
pub trait TakeLines<'a>: Grow {
    // Judges a line after those before it, and adds what it says.
    fn take_line(&mut self, line: Line<'a>) -> Result<(), Placed<Fault>>
        ensures { Self.fits self.old → Taken Self.verdict Self.grown Self.fits line.entry.number line.entry.bytes.now self.old self.new result };
}

// The lines of a file into what is empty, and is empty again where one is refused.
fn read_lines<'a, T: TakeLines<'a>>(lines: Lines<'a>, to: &mut T) -> Result<(), Placed<Fault>>
    requires { to.old ≡ T.empty }
    ensures { LinesTaken T.verdict T.grown T.fits T.empty lines.entry to.old to.new result }
{
    for line in lines {
        if let Err(refusal) = to.take_line(line) {
            to.clear();
            return Err(refusal);
        }
    }
    Ok(())
}

// Reads a file in place of what was read before; nothing is left of a file that is refused.
pub fn read_file<'a, T: TakeLines<'a>>(text: &'a [u8], to: &mut T) -> Result<(), Placed<Fault>>
    ensures { FileTaken T.verdict T.grown T.fits T.empty text.now to.new result }
{
    to.clear();
    if is_too_long(text) {
        return Err(fault_at(Fault::FileTooLong, 0, 0));
    }
    read_lines(Lines::of(text), to)
}
