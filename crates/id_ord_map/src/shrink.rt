// Shrinking a map, so that no slot in use is vacant.
ghost use Rattle.std.specs.Prelude.{◌≡◌, length};
ghost use Rattle.id_ord_law.specs.Law.{Onward};
ghost use Rattle.id_ord_law.specs.Parts.{Sound};
ghost use Rattle.id_ord_law.specs.Standing.{Call.shrink_to_fit as ShrinkToFit, Answer.shrunk as Shrunk};
ghost use Rattle.id_ord_law.specs.Step.{Meets};
ghost use Rattle.id_ord_map.specs.Shrink.{shrunk_scratch};
ghost use Rattle.id_ord_map.specs.View.{view, SameMemory};

use crate::map::IdOrdMap;
use id_ord_item::IdOrdItem;
use item_set::{CompactRefusal, IndexRemap, ItemIndex};

impl<'a, T: IdOrdItem> IdOrdMap<'a, T> {
    /// Moves the items together, in the order of their slots, and takes the vacant slots out of use.
    ///
    /// Where no slot is vacant, nothing is written and the answer is `Identity`. Else the scratch gets the new
    /// number of each slot, `SENTINEL` for a vacant one. A scratch with fewer places than slots are in use is refused.
    pub fn shrink_to_fit(&mut self, scratch: &mut [ItemIndex]) -> Result<IndexRemap, CompactRefusal>
        requires sound { Sound T.IdOrdItem.order (view self.old) }
        ensures does { Meets T.IdOrdItem.order (ShrinkToFit (length scratch.old)) (view self.old) (Shrunk result) (view self.new) }
        ensures stands { Onward T.IdOrdItem.order (ShrinkToFit (length scratch.old)) (view self.old) (view self.new) }
        ensures scratch { scratch.new ≡ shrunk_scratch (view self.old) scratch.old }
        ensures memory { SameMemory self.old self.new }
        ensures sound { Sound T.IdOrdItem.order (view self.new) }
    {
        let len = self.items.len as usize;
        let remap = self.items.compact(self.slots, scratch)?;
        // the scratch gives the new numbers, so the entries follow only when every item has moved
        if let IndexRemap::Permuted { .. } = remap {
            index_table::remap_indexes(self.table, len, &remap, scratch);
        }
        Ok(remap)
    }
}
