// How many blocks of each material came, and their volumes.
ghost use Rattle.std.specs.Prelude.{◌≡◌, ℕ, ◌≤◌, slice_index};
ghost use Rattle.sinks.specs.Meaning.{over_materials, limit};

// A number for each material, and their sum.
#[derive(Clone, Copy)]
pub struct MaterialSums {
    each: [u64; 16],
    all: u64,
    ghost summed: { over_materials (λ m. slice_index each m) ≡ all },
}

// A block has at least one cubic millimetre, and all volumes together stay within the limit, so no sum wraps.
#[derive(Clone, Copy)]
pub struct Tallies {
    counts: MaterialSums,
    volumes: MaterialSums,
    ghost some: { counts.all ≤ volumes.all },
    ghost limited: { volumes.all ≤ limit },
}

pub mod tallying;
