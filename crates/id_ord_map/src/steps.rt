// The single steps that the calls are made of: one item read, added, taken out or replaced at a place of the walk.
// That a place is below `len`, or that a key does not stand, holds of some only, so each step that needs it asks for it.
ghost use Rattle.std.specs.Prelude.{◌≡◌, ◌<◌, true, false, Some, ◌≢◌};
ghost use Rattle.std.specs.Ordering.{is_eq};
ghost use Rattle.std.specs.List.{slice_get};
ghost use Rattle.item_set.specs.Slots.{index_of};
ghost use Rattle.index_table.specs.Walk.{smaller};
ghost use Rattle.id_ord_law.specs.Parts.{Sound, walk, capacity, name_at};
ghost use Rattle.id_ord_law.specs.Standing.{found, stands};
ghost use Rattle.id_ord_law.specs.Step.{add_at, remove_at, write_at};
ghost use Rattle.id_ord_map.specs.Looking.{Standing};
ghost use Rattle.id_ord_map.specs.View.{view, SameMemory};

use crate::map::IdOrdMap;
use id_ord_item::IdOrdItem;
use index_table::{Index, close_place, open_place};
use item_set::ItemIndex;

impl<'a, T: IdOrdItem> IdOrdMap<'a, T> {
    /// The slot that a place of the walk names.
    pub(crate) fn index_at(&self, place: usize) -> ItemIndex
        requires sound { Sound T.IdOrdItem.order (view self.now) }
        requires place { place < self.now.items.len }
        ensures { result ≡ index_of (name_at (view self.now) place) }
    {
        self.table[place].value()
    }

    /// The item at a place of the walk.
    pub(crate) fn item_at(&self, place: usize) -> T
        requires sound { Sound T.IdOrdItem.order (view self.now) }
        requires place { place < self.now.items.len }
        ensures { slice_get (walk (view self.now)) place ≡ Some result }
    {
        let Some(item) = self.items.get(self.slots, self.index_at(place)) else {
            unreachable()
        };
        item
    }

    /// Adds an item whose key does not stand, at the place of its key.
    pub(crate) fn add_at(&mut self, place: usize, item: T)
        requires sound { Sound T.IdOrdItem.order (view self.old) }
        requires absent { stands T.IdOrdItem.order item (walk (view self.old)) ≡ false }
        requires place { place ≡ smaller T.IdOrdItem.order item (walk (view self.old)) }
        requires room { self.old.items.len ≢ capacity (view self.old) }
        ensures after { view self.new ≡ add_at place item (view self.old) }
        ensures memory { SameMemory self.old self.new }
        ensures sound { Sound T.IdOrdItem.order (view self.new) }
    {
        let len = self.items.len as usize;
        let Ok(index) = self.items.insert(self.slots, item) else {
            unreachable()
        };
        let Ok(entry) = Index::new(index) else {
            unreachable()
        };
        open_place(self.table, len, place, entry);
    }

    /// Takes out the item at a place of the walk, and answers it.
    pub(crate) fn take_out(&mut self, place: usize) -> T
        requires sound { Sound T.IdOrdItem.order (view self.old) }
        requires place { place < self.old.items.len }
        ensures answer { slice_get (walk (view self.old)) place ≡ Some result }
        ensures after { view self.new ≡ remove_at place (view self.old) }
        ensures memory { SameMemory self.old self.new }
        ensures sound { Sound T.IdOrdItem.order (view self.new) }
    {
        let index = self.index_at(place);
        let len = self.items.len as usize;
        let Some(item) = self.items.remove(self.slots, index) else {
            unreachable()
        };
        close_place(self.table, len, place);
        item
    }

    /// Puts an item in the place of one with its key, at a place of the walk.
    pub(crate) fn replace_at(&mut self, place: usize, item: T)
        requires sound { Sound T.IdOrdItem.order (view self.old) }
        requires place { place < self.old.items.len }
        requires key { (old : T) → slice_get (walk (view self.old)) place ≡ Some old → is_eq (T.IdOrdItem.order old item) ≡ true }
        ensures after { view self.new ≡ write_at place item (view self.old) }
        ensures memory { SameMemory self.old self.new }
        ensures sound { Sound T.IdOrdItem.order (view self.new) }
    {
        let index = self.index_at(place);
        let _ = self.items.replace(self.slots, index, item);
    }

    /// Puts an item in the place of the one with its key, in the slot where that was found, and answers the old one.
    pub(crate) fn replace_in(&mut self, index: ItemIndex, item: T) -> T
        requires sound { Sound T.IdOrdItem.order (view self.old) }
        requires stands { Standing T.IdOrdItem.order item (view self.old) index }
        ensures answer { found T.IdOrdItem.order item (walk (view self.old)) ≡ Some result }
        ensures after { view self.new ≡ write_at (smaller T.IdOrdItem.order item (walk (view self.old))) item (view self.old) }
        ensures memory { SameMemory self.old self.new }
        ensures sound { Sound T.IdOrdItem.order (view self.new) }
    {
        let Ok(old) = self.items.replace(self.slots, index, item) else {
            unreachable()
        };
        old
    }
}
