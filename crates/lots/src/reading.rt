// Lots read from their lines.
ghost use Rattle.std.specs.Prelude.{◌≡◌, ◌≤◌, length, IsOk, refl};
ghost use Rattle.std.specs.Result.{result_err};
ghost use Rattle.std.proofs.Common.{rules};
ghost use Rattle.lots.specs.Holds.{left_by, Sized, BoxMade, LotPlaced, LotTaken, Fitting, Grown, verdict_after, FileTaken};
ghost use Rattle.std.specs.List.{list_any};
ghost use Rattle.lots.specs.Lists.{no_lots, box_of, boxed};
ghost use Rattle.lots.specs.Shares.{shares};
ghost use Rattle.lots.specs.Verdicts.{most_lots, too_many, no_lot, verdict, LotsInOrder};

use crate::list::{Lot, LotList};
use crate::sharing::share;
use by_lines::files::{Grow, TakeLines, read_file};
use forms::lot::LotLine;
use forms::lots::read_lot;
use geometry::cuboid::Cuboid;
use grammar::state::FileKind;
use judge::faults::Fault;
use judge::lines::{fault_at, first_column, first_fault, refuse};
use text::lines::Line;
use text::placed::Placed;
use text::tokens::is_blank;

// The most lots of a file.
pub const MOST_LOTS: usize = 16;

// The box of a lot; None where it reaches out of the site.
fn lot_box(lot: &LotLine) -> Option<Cuboid>
    requires { Sized lot.now }
    ensures { BoxMade lot.now result }
{
    Cuboid::new(lot.corner, lot.size)
}

// Whether a box shares a cube with that of a lot of the list.
fn shares_with_lot(a: Cuboid, list: &LotList) -> bool
    ensures { result ≡ list_any (λ lot. shares (box_of a) (boxed lot)) list.now.lots }
{
    list.lots.as_slice().iter().any(|lot| share(a, lot.cuboid))
}

// A lot whose box lies in the site and shares no cube with those before it stands at the end of the list.
fn place_lot<'a>(
    lot: LotLine<'a>,
    number: usize,
    list: &mut LotList<'a>,
) -> Result<(), Placed<Fault>>
    requires { Sized lot }
    ensures { LotPlaced number lot.entry list.old list.new result }
{
    let cuboid = lot_box(&lot).ok_or(fault_at(Fault::OutOfSite, number, 1))?;
    if shares_with_lot(cuboid, list) {
        return Err(fault_at(Fault::SharesCube, number, 1));
    }
    // Stays: the answer is no news, since a list without room was refused before.
    let _ = list.lots.push(Lot {
        cuboid,
        name: lot.name,
    });
    Ok(())
}

// The lot of a line that is not blank, at the end of the list.
fn add_lot<'a>(line: Line<'a>, list: &mut LotList<'a>) -> Result<(), Placed<Fault>>
    ensures { LotTaken line.entry.number line.entry.bytes.now list.old list.new result }
{
    match read_lot(line) {
        Some(lot) => place_lot(lot, line.number, list),
        None => Ok(()),
    }
}

// The opening bracket of a lot too many.
fn find_too_many(line: Line, list: &LotList) -> Option<usize>
    ensures { result ≡ too_many (left_by list.now) line.entry.bytes.now }
{
    if list.lots.len() >= MOST_LOTS {
        first_column(line)
    } else {
        None
    }
}

impl<'a> Grow for LotList<'a> {
    ghost verdict = { λ p n ls. verdict_after p n ls };

    ghost grown = { λ n l p q. Grown n l p q };

    ghost fits = { λ p. Fitting p };

    ghost empty = { no_lots };

    // Empties the list; the memory stays.
    fn clear(&mut self) {
        self.lots.clear();
    }

    ghost begins = { Prim.search rules };

    ghost ends = { λ p n. refl };
}

impl<'a> TakeLines<'a> for LotList<'a> {
    // Judges a line after those that the list holds, and adds its lot.
    fn take_line(&mut self, line: Line<'a>) -> Result<(), Placed<Fault>> {
        first_fault(FileKind::Lots, line)?;
        refuse(find_too_many(line, self), Fault::TooMany, line.number)?;
        if is_blank(line.bytes) {
            return Ok(());
        }
        add_lot(line, self)
    }
}

// What is wrong with a list that was read: it has no lot.
fn find_no_lot(list: &LotList) -> Result<(), Placed<Fault>>
    ensures { result_err result ≡ no_lot (left_by list.now) }
{
    if list.lots.len() == 0 {
        return Err(fault_at(Fault::NoLot, 0, 0));
    }
    Ok(())
}

impl<'a> LotList<'a> {
    // Reads a lot file into the list, in place of what it held. A file is taken just if it is in order; the list then holds its
    // lots, one after the other. After a refusal the list is empty.
    pub fn read(&mut self, text: &'a [u8]) -> Result<(), Placed<Fault>>
        ensures verdict { result_err result ≡ verdict text.now }
        ensures order { (IsOk result → LotsInOrder text.now) × (LotsInOrder text.now → IsOk result) }
        ensures holds { FileTaken text.now self.new result }
        ensures fits { length self.new.lots ≤ most_lots }
    {
        read_file(text, self)?;
        find_no_lot(self)
    }
}
