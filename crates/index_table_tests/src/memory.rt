// Short ways to write stays, slots, entries and a scratch in a test.
// The crates of tests have no helpers in common, so that each can be read by itself.
use index_table::Index;
use item_set::{ItemIndex, ItemSlot};
use panel_items::Stay;
use std::array;
use std::test::*;

/// The number that names no slot.
pub const S: u32 = 4294967295;

/// The largest number that names a slot.
pub const LARGEST: u32 = 4294967294;

/// A stay with this key.
pub fn stay(berth: u16, from: u32) -> Stay {
    Stay {
        berth,
        from,
        to: 900,
        vessel: 7,
    }
}

/// A slot that holds a stay with this key.
pub fn held(berth: u16, from: u32) -> ItemSlot<Stay> {
    ItemSlot::Occupied(stay(berth, from))
}

/// A vacant slot.
pub fn vacant() -> ItemSlot<Stay> {
    ItemSlot::Vacant {
        next: ItemIndex::SENTINEL,
    }
}

/// The entry that names a slot.
pub fn entry(slot: u32) -> Result<Index, Fail> {
    Ok(Index::new(ItemIndex::new(slot))?)
}

// Filled in a loop, since an array's `try_map` and `try_from_fn` ask for a bound on N.
/// The entries that name some slots.
pub fn entries<const N: usize>(slots: [u32; N]) -> Result<[Index; N], Fail> {
    let mut made = [entry(0)?; N];
    for (place, slot) in made.iter_mut().zip(&slots) {
        *place = entry(*slot)?;
    }
    Ok(made)
}

/// A scratch of such numbers.
pub fn scratch<const N: usize>(numbers: [u32; N]) -> [ItemIndex; N] {
    array::from_fn(|at| ItemIndex::new(numbers[at]))
}
