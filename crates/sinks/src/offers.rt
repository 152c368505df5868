// Offering a list of blocks to any sink, in order up to the first refusal.
ghost use Rattle.std.specs.Prelude.{◌≡◌};
ghost use Rattle.sinks.specs.Laws.{Offers, OffersAfter};

use crate::refusal::SinkRefusal;
use crate::sink::Sink;
use geometry::block::Block;

// Why a block was refused, and how many were taken before it.
#[derive(Clone, Copy, PartialEq, Eq)]
pub struct Refused {
    pub taken: usize,
    pub refusal: SinkRefusal,
}

impl From<Refused> for SinkRefusal {
    ghost from_gives = { λ refused refusal. refusal ≡ refused.refusal };

    fn from(refused: Refused) -> SinkRefusal {
        refused.refusal
    }
}

// Offers a block after so many that were taken.
fn offer<S: Sink>(sink: &mut S, taken: usize, block: Block) -> Result<(), Refused>
    ensures { OffersAfter S.Sink.edge S.Sink.parts S.Sink.took S.Sink.kept sink.old sink.new taken block result }
{
    sink.take(block)
        .map_err(|refusal| Refused { taken, refusal })
}

pub fn offer_all<S: Sink>(sink: &mut S, blocks: &[Block]) -> Result<(), Refused>
    ensures { Offers S.Sink.edge S.Sink.parts S.Sink.took S.Sink.kept sink.old sink.new blocks.now result }
{
    for (taken, block) in blocks.iter().enumerate() {
        offer(sink, taken, *block)?;
    }
    Ok(())
}
