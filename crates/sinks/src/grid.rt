// The cells of a grid.
ghost use Rattle.std.specs.Prelude.{◌≡◌};
ghost use Rattle.sinks.specs.Meaning.{in_grid};

use geometry::cell::Cell;
use geometry::limits::SITE;

// Whether a grid of that edge has the cell.
pub fn in_grid(edge: u32, cell: Cell) -> bool
    ensures { result ≡ in_grid edge cell }
{
    let n = SITE.checked_div(edge).unwrap_or(0);
    cell.i < n && cell.j < n && cell.k < n
}
