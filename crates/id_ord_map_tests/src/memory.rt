// Short ways to write stays and faults, and the memory and numbers of a map, in a test.
// The crates of tests have no helpers in common, so that each can be read by itself.
ghost use Rattle.id_ord_law.specs.Parts.{Sound};
ghost use Rattle.id_ord_map.specs.View.{view, SameMemory};
ghost use Rattle.panel_items.specs.Stay.{by_berth_then_from};

use id_ord_errors::{Layer, ValidationError};
use id_ord_map::IdOrdMap;
use index_table::Index;
use item_set::{ItemIndex, ItemSet, ItemSlot};
use panel_items::{Sailing, Stay, StayAt};
use std::array;
use std::test::Fail;

/// The number that names no slot.
pub const S: u32 = 4294967295;

/// The numbers of a map, its four slots and its four table entries, so that one comparison covers them.
#[derive(Clone, Copy, PartialEq, Debug)]
pub struct Memory {
    pub numbers: ItemSet,
    pub slots: [ItemSlot<Stay>; 4],
    pub table: [Index; 4],
}

impl Memory {
    /// A memory with these numbers: the slots in use, the items, the free head.
    pub fn new(
        (used, len, free_head): (u32, u32, u32),
        slots: [ItemSlot<Stay>; 4],
        table: [u32; 4],
    ) -> Result<Memory, Fail> {
        Ok(Memory {
            numbers: numbers(used, len, free_head),
            slots,
            table: entries(table)?,
        })
    }

    /// The memory of a map that no call was made on: no slot names another, and the entries are 9.
    pub fn unused() -> Result<Memory, Fail> {
        Memory::new((0, 0, S), [vacant(S); 4], [9; 4])
    }

    /// The memory that `insert_three` leaves.
    pub fn three_stays() -> Result<Memory, Fail> {
        let slots = [held(4, 540), held(2, 600), held(4, 530), vacant(S)];
        Memory::new((3, 3, S), slots, [1, 2, 0, 9])
    }
}

/// The numbers of a map.
pub fn numbers(used: u32, len: u32, free_head: u32) -> ItemSet {
    ItemSet {
        used,
        len,
        free_head: ItemIndex::new(free_head),
    }
}

/// A stay with this key.
pub fn stay(berth: u16, from: u32) -> Stay {
    of_vessel(berth, from, 7)
}

/// A stay of a vessel with this key.
pub fn of_vessel(berth: u16, from: u32, vessel: u64) -> Stay {
    Stay {
        berth,
        from,
        to: 900,
        vessel,
    }
}

/// A sailing with this code.
pub fn sailing(code: u64) -> Sailing {
    Sailing {
        code,
        berth: 4,
        due: 540,
    }
}

/// The query for a key.
pub fn at(berth: u16, from: u32) -> StayAt {
    StayAt { berth, from }
}

/// A slot that holds a stay with this key.
pub fn held(berth: u16, from: u32) -> ItemSlot<Stay> {
    ItemSlot::Occupied(stay(berth, from))
}

/// A vacant slot that names the next free one.
pub fn vacant<T>(next: u32) -> ItemSlot<T> {
    ItemSlot::Vacant {
        next: ItemIndex::new(next),
    }
}

// Filled in a loop, since an array's `try_map` and `try_from_fn` ask for a bound on N.
/// The entries that name some slots.
pub fn entries<const N: usize>(slots: [u32; N]) -> Result<[Index; N], Fail> {
    let mut made = [Index::new(ItemIndex::new(0))?; N];
    for (entry, slot) in made.iter_mut().zip(&slots) {
        *entry = Index::new(ItemIndex::new(*slot))?;
    }
    Ok(made)
}

/// A scratch of such numbers.
pub fn scratch<const N: usize>(numbers: [u32; N]) -> [ItemIndex; N] {
    array::from_fn(|at| ItemIndex::new(numbers[at]))
}

// A plain triple, since the number, the layer and the place are what is tested.
/// What a fault tells: its number, its layer and its place.
pub fn told(answer: Result<(), ValidationError>) -> Result<(), (u8, Layer, usize)> {
    answer.map_err(|fault| (fault.number(), fault.layer(), fault.place()))
}

/// Inserts the stays (4,540), (2,600), (4,530), in this order.
pub fn insert_three(map: &mut IdOrdMap<'_, Stay>) -> Result<(), Fail>
    requires sound { Sound by_berth_then_from (view map.old) }
    ensures memory { SameMemory map.old map.new }
    ensures sound { Sound by_berth_then_from (view map.new) }
{
    map.insert_unique(stay(4, 540))?;
    map.insert_unique(stay(2, 600))?;
    map.insert_unique(stay(4, 530))?;
    Ok(())
}
