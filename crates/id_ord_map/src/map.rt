// The map: the memory that it is lent, and its numbers.
use id_ord_item::IdOrdItem;
use index_table::Index;
use item_set::{ItemSet, ItemSlot};

/// The most items that a map can hold, however long its memory is.
pub(crate) const CAPACITY_LIMIT: usize = 4096;

/// Items in the order of their keys, in memory that the caller lends.
// What a call does, and that the map is lent the same memory after it, is of two maps and so stands in each contract.
// That the map is sound stands there too, and not in a ghost field: with one, a generic struct that holds a map of items
// would be refused where only a generic `impl` makes them items.
// The memory is lent, with no heap, so items are named by the number of their slot, and the table is an array that is kept sorted.
#[derive(Drop)]
pub struct IdOrdMap<'a, T: IdOrdItem> {
    pub(crate) slots: &'a mut [ItemSlot<T>],
    pub(crate) table: &'a mut [Index],
    pub(crate) items: ItemSet,
}
