// The row of a repeat.
ghost use Rattle.std.specs.Prelude.{◌≡◌, ◌+◌, ◌<◌, ◌≤◌, replicate, IfOk, nat_lt};
ghost use Rattle.rows.specs.Rows.{split_row, repeat_row, tiles, most_tiles, tile_size, told, told_of};
ghost use Rattle.rows.specs.Tiles.{tile_rank, tile_length};
ghost use Rattle.rows.specs.Laws.{Lawful};

use crate::refusal::RowRefusal;
use crate::row::{Row, Segment};
use crate::shares::{extra, share};
use crate::split::long_enough;
use crate::tile::Tile;
use bounded::inline::InlineVec;
use geometry::units::{Mm, Weight};

// The most tiles of a row.
pub const MOST_TILES: u64 = 64;

// The number of tiles in a scope of that length: rounded to the nearest, halves up, and at least 1.
fn tile_count(extent: Mm, tile: Tile) -> u64
    ensures { (result ≡ tiles extent.0 tile.length.0) × (1 ≤ result) }
{
    ((2 * extent.0 as u64 + tile.length.0 as u64) / (2 * tile.length.0 as u64)).max(1)
}

// More tiles than a row can have.
fn too_many(n: u64) -> bool
    ensures { result ≡ nat_lt most_tiles n }
{
    n > MOST_TILES
}

// How many of n tiles come before tile i. All remainders are equal, so this is the rule for ties alone.
fn tile_rank(_n: u32, i: u32) -> u32
    ensures { result ≡ tile_rank _n i }
{
    i
}

// The length of tile i of n.
fn tile_length(extent: Mm, n: u32, i: u32) -> Mm
    requires { i < n }
    ensures { result.0 ≡ tile_length extent.0 n i }
{
    let (whole, left) = share(extent, Weight(1), Weight(n));
    Mm(whole) + extra(tile_rank(n, i), left)
}

// The row of n tiles; refused where one is too short.
fn tile_row(extent: Mm, n: u32) -> Result<Row, RowRefusal>
    requires { (1 ≤ n) × (n ≤ 64) }
    ensures { told_of result ≡ split_row extent.0 (replicate n tile_size) }
{
    let mut segments = InlineVec::new(Segment { length: Mm(0) });
    for i in 0..n {
        let length = long_enough(tile_length(extent, n, i), i as usize)?;
        let _ = segments.push(Segment { length });
    }
    Ok(Row { segments })
}

// The row of a repeat in a scope of that length: equal tiles, as near as can be to the tile as drawn.
pub fn repeat(extent: Mm, tile: Tile) -> Result<Row, RowRefusal>
    ensures row { told_of result ≡ repeat_row extent.0 tile.length.0 }
    ensures laws { IfOk result (λ row. Lawful extent.0 (replicate (tiles extent.0 tile.length.0) tile_size) (told row)) }
{
    let n = tile_count(extent, tile);
    if too_many(n) {
        return Err(RowRefusal::TooManyTiles);
    }
    tile_row(extent, n as u32)
}
