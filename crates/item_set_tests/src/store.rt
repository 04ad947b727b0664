// Short ways to write a store in a test: its numbers, its slots and a scratch.
// The crates of tests have no helpers in common, so that each can be read by itself.
use item_set::{ItemIndex, ItemSet, ItemSlot};

/// The number that names no slot.
pub const S: u32 = 4294967295;

/// The numbers of a store and its four slots, so that one comparison covers both.
#[derive(Clone, Copy, PartialEq, Debug)]
pub struct Store {
    pub numbers: ItemSet,
    pub slots: [ItemSlot<u32>; 4],
}

impl Store {
    pub fn new(used: u32, len: u32, free_head: u32, slots: [ItemSlot<u32>; 4]) -> Store {
        Store {
            numbers: numbers(used, len, free_head),
            slots,
        }
    }
}

/// The numbers of a store.
pub fn numbers(used: u32, len: u32, free_head: u32) -> ItemSet {
    ItemSet {
        used,
        len,
        free_head: ItemIndex::new(free_head),
    }
}

/// A slot that holds an item.
pub fn held(item: u32) -> ItemSlot<u32> {
    ItemSlot::Occupied(item)
}

/// A vacant slot that names the next free one.
pub fn vacant(next: u32) -> ItemSlot<u32> {
    ItemSlot::Vacant {
        next: ItemIndex::new(next),
    }
}

/// A scratch of four places.
pub fn scratch(places: [u32; 4]) -> [ItemIndex; 4] {
    places.map(ItemIndex::new)
}
