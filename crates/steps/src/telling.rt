// What a stop carries.
ghost use Rattle.std.specs.Prelude.{◌≡◌};
ghost use Rattle.steps.specs.Stops.{reason_number, reason_part, reason_along};

use crate::stop::{Reason, Stop};
use geometry::axis::Axis;
use geometry::units::Mm;

impl Reason {
    // The number under which it is told; that of a sink is passed up as it is.
    // Stays: a stop is told by its number and its part, 0 if none, as the rules of the project say.
    pub fn number(self) -> u32
        ensures { result ≡ reason_number self }
    {
        match self {
            Reason::Row(refusal, _, _) => refusal.number(),
            Reason::Full(_, _) => 51,
            Reason::Sink(refusal) => refusal.number() as u32,
        }
    }

    // The part of the line that is meant, counted from 1; 0 if none.
    pub fn part(self) -> u32
        ensures { result ≡ reason_part self }
    {
        match self {
            Reason::Row(refusal, _, _) => refusal.part(),
            _ => 0,
        }
    }

    // For a row the axis and the length that was to be cut.
    pub fn along(self) -> Option<(Axis, Mm)>
        ensures { result ≡ reason_along self }
    {
        match self {
            Reason::Row(_, axis, length) | Reason::Full(axis, length) => Some((axis, length)),
            Reason::Sink(_) => None,
        }
    }
}

impl Stop {
    pub fn number(&self) -> u32
        ensures { result ≡ reason_number self.now.reason }
    {
        self.reason.number()
    }
}
