// Making a map over memory, and the numbers by which its memory can be adopted again.
ghost use Rattle.std.specs.Prelude.{◌≡◌, []};
ghost use Rattle.item_set.specs.Store.{cleared};
ghost use Rattle.id_ord_law.specs.Law.{Begins, RunLaw};
ghost use Rattle.id_ord_law.specs.Parts.{Sound, parts, capacity};
ghost use Rattle.id_ord_law.specs.Reading.{ReadLaw};
ghost use Rattle.id_ord_map.specs.View.{view};

use crate::map::IdOrdMap;
use id_ord_item::IdOrdItem;
use id_ord_law::{reads_hold, runs_hold};
use index_table::Index;
use item_set::{ItemSet, ItemSlot};

impl<'a, T: IdOrdItem> IdOrdMap<'a, T> {
    /// An empty map over this memory, of which nothing is written.
    pub fn new(slots: &'a mut [ItemSlot<T>], table: &'a mut [Index]) -> IdOrdMap<'a, T>
        ensures after { view result ≡ parts slots.old table.old cleared }
        ensures begins { Begins T.IdOrdItem.order (capacity (view result)) (view result) [] }
        ensures law { RunLaw T.IdOrdItem.order T.IdOrdItem.equal }
        ensures reads { ReadLaw T.IdOrdItem.order }
        ensures memory { (result.slots.ghost_name ≡ slots.entry.ghost_name) × (result.table.ghost_name ≡ table.entry.ghost_name) }
        ensures sound { Sound T.IdOrdItem.order (view result) }
    {
        runs_hold::<T>();
        reads_hold::<T>();
        IdOrdMap {
            slots,
            table,
            items: ItemSet::new(),
        }
    }

    /// The map's numbers: how many slots are in use, how many items there are, and the free head.
    ///
    /// Who keeps them, with the memory, can have it adopted again.
    pub fn items(&self) -> ItemSet
        ensures { result ≡ self.now.items }
    {
        self.items
    }
}
