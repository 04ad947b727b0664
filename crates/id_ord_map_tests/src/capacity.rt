// The capacity of a map: the least of its slots, its table entries and 4,096.
ghost use Rattle.id_ord_law.specs.Parts.{Sound};
ghost use Rattle.id_ord_map.specs.View.{view};
ghost use Rattle.panel_items.specs.Sailing.{by_code};

use crate::memory::{S, entries, sailing, stay, vacant};
use id_ord_errors::{InsertRefusal, MapFull};
use id_ord_map::IdOrdMap;
use index_table::Index;
use item_set::{ItemIndex, ItemSlot};
use panel_items::{Sailing, Stay};
use std::process::Abort;
use std::test::Fail;

/// Inserts the sailings with the codes below a number.
fn insert_below(map: &mut IdOrdMap<'_, Sailing>, codes: u64) -> Result<(), Fail>
    requires sound { Sound by_code (view map.old) }
    ensures sound { Sound by_code (view map.new) }
{
    for code in 0..codes {
        map.insert_unique(sailing(code))?;
    }
    Ok(())
}

#[test]
fn however_long_the_memory_the_limit_is_4096(rt: HostRuntime) -> Result<(), Fail> {
    let mut slots = vec![in rt.alloc(); vacant(S); 5000]?;
    let mut table = vec![in rt.alloc(); Index::new(ItemIndex::new(9))?; 5000]?;
    let mut map = IdOrdMap::new(slots.as_mut_slice(), table.as_mut_slice());
    insert_below(&mut map, 4096)?;
    assert_eq!(rt; map.len(), 4096);
    let item = sailing(4096);
    assert_eq!(rt;
        map.insert_unique(item),
        Err(InsertRefusal::Full(MapFull { item }))
    );
    assert_eq!(rt; map.last(), Some(sailing(4095)));
    Ok(())
}

/// Over this many slots and table entries, so many stays are accepted and the next is refused as FULL.
fn holds<const SLOTS: usize, const ENTRIES: usize>(
    rt: &impl Abort,
    mut slots: [ItemSlot<Stay>; SLOTS],
    table: [u32; ENTRIES],
    capacity: u32,
) -> Result<(), Fail> {
    let mut table = entries(table)?;
    let mut map = IdOrdMap::new(&mut slots, &mut table);
    for from in 0..capacity {
        map.insert_unique(stay(4, from))?;
    }
    let item = stay(4, capacity);
    assert_eq!(rt;
        map.insert_unique(item),
        Err(InsertRefusal::Full(MapFull { item }))
    );
    assert_eq!(rt; map.insert_overwrite(item), Err(MapFull { item }));
    Ok(())
}

#[test]
fn the_shorter_of_slots_and_table_is_the_capacity(rt: HostRuntime) -> Result<(), Fail> {
    let slot = vacant(S);
    holds(&rt, [slot; 3], [9; 3], 3)?;
    holds(&rt, [slot; 2], [9; 3], 2)?;
    holds(&rt, [slot; 3], [9; 1], 1)?;
    holds(&rt, [slot; 3], [], 0)?;
    holds(&rt, [], [9; 3], 0)?;
    holds(&rt, [], [], 0)
}
