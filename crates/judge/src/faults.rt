// Why a file is refused.
ghost use Rattle.std.specs.Prelude.{◌≡◌};
ghost use Rattle.judge.specs.Faults.{number_of};

// Each refusal is told by its number, from 10 on.
#[derive(Clone, Copy, PartialEq, Eq, Debug)]
pub enum Fault {
    FileTooLong = 10,
    LineTooLong,
    ByteNotAllowed,
    Brackets,
    Misplaced,
    BadNumber,
    BadName,
    RuleNameUsed,
    TooMany,
    LastLineGuarded,
    UnknownName,
    NotFurtherDown,
    OutOfSite,
    SharesCube,
    NoLot,
}

impl Fault {
    // The number by which a refusal is told.
    pub fn number(self) -> u32
        ensures { result ≡ number_of self }
    {
        self as u32
    }
}
