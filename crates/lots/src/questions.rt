// Making a list of lots, and questions to it.
ghost use Rattle.std.specs.Prelude.{◌≡◌, IfOk};
ghost use Rattle.lots.specs.Lists.{no_lots};

use crate::list::{Lot, LotList};
use bounded::bounded::BoundedVec;
use std::alloc::{AllocError, Global};

impl<'a> LotList<'a> {
    // An empty list with its memory reserved.
    pub fn new(heap: Global) -> Result<LotList<'a>, AllocError>
        ensures { IfOk result (λ l. l ≡ no_lots) }
    {
        let lots = BoundedVec::new(heap)?;
        Ok(LotList { lots })
    }

    // The lots, each with its box and the name of its rule.
    pub fn lots(&self) -> &[Lot<'a>]
        ensures { result.now ≡ self.now.lots }
    {
        self.lots.as_slice()
    }
}
