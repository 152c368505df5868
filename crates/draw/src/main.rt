// Draws a small wall: its blocks go into all four sinks, and the OBJ text and then the bill are printed.
#![tactic(auto)]

ghost use Rattle.std.specs.Prelude.{◌≡◌, IfOk, MatchOption, OnOk};
ghost use Rattle.draw.specs.Entries.{NoBlock, IsBlock, AreBlocks, TakesAll};

use anyhow::{Context, anyhow};
use geometry::block::Block;
use geometry::cuboid::Cuboid;
use geometry::triple::Triple;
use geometry::units::Mm;
use sinks::list::BlockList;
use sinks::offers::offer_all;
use sinks::raster::Raster;
use sinks::refusal::SinkRefusal;
use sinks::sink::Sink;
use std::alloc::Global;
use std::io::Write;
use texts::sheet::{bill_blocks, draw_blocks};

// A block of the wall.
#[derive(Drop)]
struct Entry {
    corner: Triple,
    size: Triple,
    material: u8,
}

fn triple(x: u32, y: u32, z: u32) -> Triple
    ensures { (result.x.0 ≡ x) × (result.y.0 ≡ y) × (result.z.0 ≡ z) }
{
    Triple {
        x: Mm(x),
        y: Mm(y),
        z: Mm(z),
    }
}

// A post, a sill, an opening, a lintel across two cells of the raster, and another post.
fn wall() -> [Entry; 5] {
    [
        Entry {
            corner: triple(0, 0, 0),
            size: triple(200, 100, 300),
            material: 1,
        },
        Entry {
            corner: triple(200, 0, 0),
            size: triple(800, 100, 90),
            material: 2,
        },
        Entry {
            corner: triple(200, 0, 90),
            size: triple(800, 100, 160),
            material: 0,
        },
        Entry {
            corner: triple(200, 0, 250),
            size: triple(900, 100, 50),
            material: 2,
        },
        Entry {
            corner: triple(1000, 0, 0),
            size: triple(100, 100, 250),
            material: 1,
        },
    ]
}

// The entry as a block; none where it reaches out of the site.
fn block_of(entry: &Entry) -> Option<Block>
    ensures { MatchOption result (NoBlock entry.now) (IsBlock entry.now) }
{
    let cuboid = Cuboid::new(entry.corner, entry.size)?;
    Some(Block {
        cuboid,
        material: entry.material,
    })
}

// The entries as blocks, in their order; an error where one reaches out of the site.
fn blocks_of(heap: Global, entries: &[Entry]) -> anyhow::Result<Vec<Block>>
    ensures { IfOk result (λ v. AreBlocks entries.now v.items) }
{
    let mut blocks = Vec::new(heap);
    for entry in entries {
        let block = block_of(entry).context("an entry reaches out of the site")?;
        blocks.push(block)?;
    }
    Ok(blocks)
}

// Offers all blocks; an error where one is refused.
fn fill<S: Sink>(sink: &mut S, blocks: &[Block]) -> anyhow::Result<()>
    ensures { OnOk result (TakesAll S.Sink.edge S.Sink.parts S.Sink.took sink.old blocks.now sink.new) }
{
    offer_all(sink, blocks).map_err(|_| anyhow!("a block was refused"))
}

// The blocks into the list and the raster, which are asked nothing here.
fn keep(heap: Global, blocks: &[Block]) -> anyhow::Result<()> {
    let mut memory = Vec::from_slice(heap, blocks)?;
    let mut list = BlockList::new(&mut memory);
    fill(&mut list, blocks)?;
    let mut raster = Raster::new();
    fill(&mut raster, blocks)
}

// Prints the first n bytes of a text.
fn print(rt: &HostRuntime, text: &[u8], n: Result<usize, SinkRefusal>) -> anyhow::Result<()> {
    let n = n.map_err(|_| anyhow!("a text was refused"))?;
    let text = text.get(..n).context("no such text")?;
    rt.stdout().write_all(text)?;
    Ok(())
}

fn main(rt: HostRuntime) -> anyhow::Result<()> {
    let blocks = blocks_of(rt.alloc(), &wall())?;
    keep(rt.alloc(), &blocks)?;
    let mut memory = vec![in rt.alloc(); 0u8; 4096]?;
    let mut out = vec![in rt.alloc(); 0u8; 4096]?;
    let n = draw_blocks(&blocks, &mut memory, &mut out);
    print(&rt, &out, n)?;
    let n = bill_blocks(&blocks, &mut out);
    print(&rt, &out, n)
}
