// Adding items, and putting items in the place of others.
ghost use Rattle.std.specs.Prelude.{◌≡◌, false};
ghost use Rattle.id_ord_law.specs.Law.{Onward};
ghost use Rattle.id_ord_law.specs.Parts.{Sound, walk};
ghost use Rattle.id_ord_law.specs.Standing.{Answer.done as done, Call.insert_unique as InsertUnique, Call.insert_overwrite as InsertOverwrite, Call.occupied_insert as OccupiedInsert, stands};
ghost use Rattle.id_ord_law.specs.Step.{Meets, adding};
ghost use Rattle.id_ord_map.specs.Answers.{added, inserted, overwritten, replaced};
ghost use Rattle.id_ord_map.specs.View.{view, SameMemory};

use crate::looking::same_key;
use crate::map::IdOrdMap;
use id_ord_errors::{DuplicateItem, InsertRefusal, KeyChanged, MapFull, ReplaceRefusal};
use id_ord_item::IdOrdItem;

impl<'a, T: IdOrdItem> IdOrdMap<'a, T> {
    /// Adds an item whose key does not stand.
    pub fn insert_unique(&mut self, item: T) -> Result<(), InsertRefusal<T>>
        requires sound { Sound T.IdOrdItem.order (view self.old) }
        ensures does { Meets T.IdOrdItem.order (InsertUnique item) (view self.old) (inserted result) (view self.new) }
        ensures stands { Onward T.IdOrdItem.order (InsertUnique item) (view self.old) (view self.new) }
        ensures memory { SameMemory self.old self.new }
        ensures sound { Sound T.IdOrdItem.order (view self.new) }
    {
        if let Some(slot) = self.find_index(&item) {
            return Err(InsertRefusal::Duplicate(DuplicateItem { item, slot }));
        }
        self.add_new(item).map_err(InsertRefusal::Full)
    }

    /// Puts an item in the place of the one with its key, and answers that; where the key does not stand, adds it and answers none.
    pub fn insert_overwrite(&mut self, item: T) -> Result<Option<T>, MapFull<T>>
        requires sound { Sound T.IdOrdItem.order (view self.old) }
        ensures does { Meets T.IdOrdItem.order (InsertOverwrite item) (view self.old) (overwritten result) (view self.new) }
        ensures stands { Onward T.IdOrdItem.order (InsertOverwrite item) (view self.old) (view self.new) }
        ensures memory { SameMemory self.old self.new }
        ensures sound { Sound T.IdOrdItem.order (view self.new) }
    {
        if let Some(index) = self.find_index(&item) {
            return Ok(Some(self.replace_in(index, item)));
        }
        self.add_new(item)?;
        Ok(None)
    }

    /// Adds an item whose key does not stand, if there is room for it.
    // part of both inserts, so that no large item is copied on its way
    #[inline(always)]
    fn add_new(&mut self, item: T) -> Result<(), MapFull<T>>
        requires sound { Sound T.IdOrdItem.order (view self.old) }
        requires absent { stands T.IdOrdItem.order item (walk (view self.old)) ≡ false }
        ensures does { (added result ≡ (adding T.IdOrdItem.order item done (view self.old)).0) × (view self.new ≡ (adding T.IdOrdItem.order item done (view self.old)).1) }
        ensures memory { SameMemory self.old self.new }
        ensures sound { Sound T.IdOrdItem.order (view self.new) }
    {
        if self.is_full() {
            return Err(MapFull { item });
        }
        let place = self.find_place(&item);
        self.add_at(place, item);
        Ok(())
    }

    /// Puts an item in the place of the one with its key, if it has the key of the item that was taken, and answers the old one.
    pub(crate) fn replace_taken(&mut self, taken: &T, item: T) -> Result<T, ReplaceRefusal<T>>
        requires sound { Sound T.IdOrdItem.order (view self.old) }
        ensures does { Meets T.IdOrdItem.order (OccupiedInsert taken.now item) (view self.old) (replaced result) (view self.new) }
        ensures memory { SameMemory self.old self.new }
        ensures sound { Sound T.IdOrdItem.order (view self.new) }
    {
        if !same_key(taken, &item) {
            return Err(ReplaceRefusal::KeyChanged(KeyChanged { item }));
        }
        let Some(index) = self.find_index(&item) else {
            return Err(ReplaceRefusal::Stale { item });
        };
        Ok(self.replace_in(index, item))
    }
}
