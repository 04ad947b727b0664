// KEY_CHANGED and STALE, refusals 3 and 4, by every call of an entry or a `RefMut` that gives them.
use crate::lookup::{occupied_entry, taken};
use crate::memory::{Memory, at, insert_three, stay};
use id_ord_errors::{KeyChanged, OrInsertRefusal, ReplaceRefusal, StaleEntry};
use id_ord_map::{Entry, IdOrdMap};
use panel_items::Stay;
use std::test::Fail;

fn key_changed(item: Stay) -> ReplaceRefusal<Stay> {
    ReplaceRefusal::KeyChanged(KeyChanged { item })
}

/// A stay that ends at minute 700.
fn ending(berth: u16, from: u32) -> Stay {
    Stay {
        to: 700,
        ..stay(berth, from)
    }
}

#[test]
fn the_numbers_are_3_and_4(rt: HostRuntime) {
    let item = stay(4, 541);
    assert_eq!(rt; KeyChanged { item }.number(), 3);
    assert_eq!(rt; key_changed(item).number(), 3);
    assert_eq!(rt; ReplaceRefusal::Stale { item }.number(), 4);
    assert_eq!(rt; OrInsertRefusal::Stale { item }.number(), 4);
    assert_eq!(rt; StaleEntry.number(), 4);
}

#[test]
fn a_changed_key_comes_back_with_the_item_as_changed(rt: HostRuntime) -> Result<(), Fail> {
    let mut memory = Memory::unused()?;
    let mut map = IdOrdMap::new(&mut memory.slots, &mut memory.table);
    insert_three(&mut map)?;
    let mut item = taken(&map, 4, 540)?;
    item.set(ending(4, 541));
    assert_eq!(rt; item.put_back(&mut map), Err(key_changed(ending(4, 541))));
    let entry = occupied_entry(&map, 4, 540)?;
    assert_eq!(rt;
        entry.insert(&mut map, ending(4, 541)),
        Err(key_changed(ending(4, 541)))
    );
    // not even another key that stands
    assert_eq!(rt;
        entry.insert(&mut map, ending(4, 530)),
        Err(key_changed(ending(4, 530)))
    );
    memory.numbers = map.items();
    assert_eq!(rt; memory, Memory::three_stays()?);
    Ok(())
}

#[test]
fn what_was_removed_in_between_is_stale(rt: HostRuntime) -> Result<(), Fail> {
    let mut memory = Memory::unused()?;
    let mut map = IdOrdMap::new(&mut memory.slots, &mut memory.table);
    insert_three(&mut map)?;
    let mut item = taken(&map, 2, 600)?;
    item.set(ending(2, 600));
    let entry = occupied_entry(&map, 2, 600)?;
    map.remove(&at(2, 600));
    let stale = ReplaceRefusal::Stale {
        item: ending(2, 600),
    };
    assert_eq!(rt; item.put_back(&mut map), Err(stale));
    assert_eq!(rt; entry.insert(&mut map, ending(2, 600)), Err(stale));
    assert_eq!(rt; entry.remove(&mut map), Err(StaleEntry));
    assert_eq!(rt; map.len(), 2);
    Ok(())
}

#[test]
fn an_entry_of_a_cleared_map_is_stale(rt: HostRuntime) -> Result<(), Fail> {
    let mut memory = Memory::unused()?;
    let mut map = IdOrdMap::new(&mut memory.slots, &mut memory.table);
    insert_three(&mut map)?;
    let first = occupied_entry(&map, 4, 530)?;
    let second = Entry::Occupied(occupied_entry(&map, 4, 530)?);
    map.clear();
    let answer = first.into_mut(&map).err();
    assert_eq!(rt; answer, Some(StaleEntry));
    // the item offered has another key, which does not matter
    let item = ending(5, 10);
    let answer = second.or_insert(&mut map, item).err();
    assert_eq!(rt; answer, Some(OrInsertRefusal::Stale { item }));
    assert_eq!(rt; map.len(), 0);
    Ok(())
}

#[test]
fn a_changed_key_is_told_before_a_stale_one(rt: HostRuntime) -> Result<(), Fail> {
    let mut memory = Memory::unused()?;
    let mut map = IdOrdMap::new(&mut memory.slots, &mut memory.table);
    insert_three(&mut map)?;
    let mut item = taken(&map, 4, 540)?;
    item.set(stay(4, 541));
    let entry = occupied_entry(&map, 4, 540)?;
    map.remove(&at(4, 540));
    assert_eq!(rt;
        entry.insert(&mut map, stay(4, 541)),
        Err(key_changed(stay(4, 541)))
    );
    assert_eq!(rt; item.put_back(&mut map), Err(key_changed(stay(4, 541))));
    Ok(())
}
