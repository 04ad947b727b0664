// Looking for a key: its slot if it stands, and its place.
ghost use Rattle.std.specs.Prelude.{◌≡◌, ◌==◌};
ghost use Rattle.std.specs.Ordering.{is_eq};
ghost use Rattle.index_table.specs.Walk.{smaller};
ghost use Rattle.id_ord_law.specs.Parts.{Sound, live, entries, walk, capacity};
ghost use Rattle.id_ord_map.specs.Looking.{Looked};
ghost use Rattle.id_ord_map.specs.View.{view};

use crate::map::{CAPACITY_LIMIT, IdOrdMap};
use id_ord_item::{Comparable, IdOrdItem};
use index_table::Index;
use item_set::{ItemIndex, ItemSlot};

/// Whether two items have one key.
pub(crate) fn same_key<T: IdOrdItem>(left: &T, right: &T) -> bool
    ensures { result ≡ is_eq (T.IdOrdItem.order left.now right.now) }
{
    left.compare(right).is_eq()
}

impl<'a, T: IdOrdItem> IdOrdMap<'a, T> {
    /// The slots and the table entries in use.
    fn in_use(&self) -> (&[ItemSlot<T>], &[Index])
        requires sound { Sound T.IdOrdItem.order (view self.now) }
        ensures slots { result.0.now ≡ live (view self.now) }
        ensures entries { result.1.now ≡ entries (view self.now) }
    {
        (
            &self.slots[0..self.items.used as usize],
            &self.table[0..self.items.len as usize],
        )
    }

    /// The slot of a key, if it stands.
    pub(crate) fn find_index<Q: Comparable<T>>(&self, query: &Q) -> Option<ItemIndex>
        requires sound { Sound T.IdOrdItem.order (view self.now) }
        ensures { Looked T.IdOrdItem.order (Q.Comparable.meant query.now) (view self.now) result }
    {
        let (slots, entries) = self.in_use();
        index_table::find_index(slots, entries, query)
    }

    /// The place of a key: how many of the items have smaller keys.
    pub(crate) fn find_place<Q: Comparable<T>>(&self, query: &Q) -> usize
        requires sound { Sound T.IdOrdItem.order (view self.now) }
        ensures { result ≡ smaller T.IdOrdItem.order (Q.Comparable.meant query.now) (walk (view self.now)) }
    {
        let (slots, entries) = self.in_use();
        index_table::find_place(slots, entries, query)
    }

    /// How many items the map's memory can hold.
    pub(crate) fn capacity(&self) -> usize
        ensures { result ≡ capacity (view self.now) }
    {
        self.slots.len().min(self.table.len()).min(CAPACITY_LIMIT)
    }

    /// Whether the map holds as many items as its memory can.
    pub(crate) fn is_full(&self) -> bool
        ensures { result ≡ (self.now.items.len == capacity (view self.now)) }
    {
        self.items.len as usize == self.capacity()
    }
}
