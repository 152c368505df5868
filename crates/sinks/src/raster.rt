// A sink with its own grid of 16 × 16 × 16 cells of edge 1,024: a number for the volume in each.
ghost use Rattle.std.specs.Prelude.{ℕ, ◌≤◌, slice_index};
ghost use Rattle.sinks.specs.Meaning.{over_materials};
ghost use Rattle.sinks.specs.Tallied.{volume_held};

use crate::tally::Tallies;

#[derive(Drop)]
pub struct Raster {
    cells: [u64; 4096],
    tallies: Tallies,
    ghost small: { (n : ℕ) → slice_index cells n ≤ over_materials (volume_held tallies) },
}

pub mod raster_sink;
