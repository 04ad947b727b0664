// The memory of a board, made once and lent to it.
use id_ord_item::IdOrdItem;
use index_table::Index;
use item_set::{ItemIndex, ItemSlot};
use std::alloc::{AllocError, Global};

// Three Vecs, made once: the map and its board are lent them as slices.
/// The memory that a board is lent: slots and a table for its map, and scratch for shrinking it.
#[derive(Drop)]
pub struct Memory<T> {
    pub slots: Vec<ItemSlot<T>>,
    pub table: Vec<Index>,
    pub scratch: Vec<ItemIndex>,
}

impl<T: IdOrdItem> Memory<T> {
    /// Memory for so many items.
    pub fn new(heap: Global, places: u32) -> Result<Memory<T>, AllocError> {
        let vacant = ItemSlot::Vacant {
            next: ItemIndex::SENTINEL,
        };
        Ok(Memory {
            slots: vec![in heap; vacant; places as usize]?,
            // Only SENTINEL has no entry, and no slot is so high.
            table: (0..places)
                .filter_map(|slot| Index::new(ItemIndex::new(slot)).ok())
                .collect(heap)?,
            scratch: vec![in heap; ItemIndex::SENTINEL; places as usize]?,
        })
    }
}
