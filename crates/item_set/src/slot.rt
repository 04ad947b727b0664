// A slot, and what can be read of it.
ghost use Rattle.std.specs.Prelude.{◌≡◌, ◌<◌, length, slice_set};
ghost use Rattle.item_set.specs.Slots.{at, held, vacant_next};

use crate::index::ItemIndex;

// An enum of the Rust, whose cases have names that say more than those of `Result`.
// Slots are named by number, and the free ones form a chain through lent memory, with no heap.
/// A slot: it holds an item, or it is free and names the next free slot, `SENTINEL` if there is none.
#[derive(Clone, Copy, PartialEq, Eq, Debug)]
pub enum ItemSlot<T> {
    Occupied(T),
    Vacant { next: ItemIndex },
}

/// The item in a slot of the given slots: none where there is no such slot, or it is vacant.
pub fn item_at<T: Copy>(slots: &[ItemSlot<T>], index: ItemIndex) -> Option<T>
    ensures { result ≡ held (at slots.now index.0) }
{
    match slots.get(index.as_u32() as usize)? {
        ItemSlot::Occupied(item) => Some(*item),
        ItemSlot::Vacant { .. } => None,
    }
}

// It looks like `item_at`, but each reads the case that the other passes over.
/// The free slot that a vacant slot of the given slots names: none where there is no such slot, or it holds an item.
pub(crate) fn next_at<T: Copy>(slots: &[ItemSlot<T>], index: ItemIndex) -> Option<ItemIndex>
    ensures { result ≡ vacant_next slots.now index.0 }
{
    match slots.get(index.as_u32() as usize)? {
        ItemSlot::Occupied(_) => None,
        ItemSlot::Vacant { next } => Some(*next),
    }
}

/// Writes one slot.
pub(crate) fn put<T: Copy>(slots: &mut [ItemSlot<T>], index: ItemIndex, slot: ItemSlot<T>)
    requires { index.0 < length slots.old }
    ensures { slots.new ≡ slice_set slots.old index.0 slot }
{
    slots[index.as_u32() as usize] = slot;
}
