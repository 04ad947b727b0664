// DUPLICATE and FULL, refusals 1 and 2, by every way of adding an item.
use crate::lookup::vacant_entry;
use crate::memory::{Memory, S, at, held, insert_three, of_vessel, stay};
use id_ord_errors::{DuplicateItem, InsertRefusal, MapFull, OrInsertRefusal};
use id_ord_map::{Entry, IdOrdMap};
use item_set::{ItemIndex, ItemSlot};
use panel_items::Stay;
use std::test::Fail;

fn duplicate(item: Stay, slot: u32) -> DuplicateItem<Stay> {
    let slot = ItemIndex::new(slot);
    DuplicateItem { item, slot }
}

/// The memory of four stays, which fill it.
fn four_stays() -> Result<Memory, Fail> {
    let slots = [held(4, 540), held(2, 600), held(4, 530), held(5, 10)];
    Memory::new((4, 4, S), slots, [1, 2, 0, 3])
}

#[test]
fn the_numbers_are_1_and_2(rt: HostRuntime) {
    let duplicate = duplicate(stay(4, 530), 2);
    let full = MapFull { item: stay(5, 10) };
    assert_eq!(rt; duplicate.number(), 1);
    assert_eq!(rt; InsertRefusal::Duplicate(duplicate).number(), 1);
    assert_eq!(rt; OrInsertRefusal::Duplicate(duplicate).number(), 1);
    assert_eq!(rt; full.number(), 2);
    assert_eq!(rt; InsertRefusal::Full(full).number(), 2);
    assert_eq!(rt; OrInsertRefusal::Full(full).number(), 2);
}

#[test]
fn a_key_that_stands_comes_back_with_its_slot(rt: HostRuntime) -> Result<(), Fail> {
    let mut memory = Memory::unused()?;
    let mut map = IdOrdMap::new(&mut memory.slots, &mut memory.table);
    insert_three(&mut map)?;
    // the stay (4,530) is at place 1, in slot 2
    let item = of_vessel(4, 530, 8);
    assert_eq!(rt;
        map.insert_unique(item),
        Err(InsertRefusal::Duplicate(duplicate(item, 2)))
    );
    let item = of_vessel(2, 600, 8);
    assert_eq!(rt;
        map.insert_unique(item),
        Err(InsertRefusal::Duplicate(duplicate(item, 1)))
    );
    memory.numbers = map.items();
    assert_eq!(rt; memory, Memory::three_stays()?);
    Ok(())
}

#[test]
fn a_vacant_entry_refuses_a_key_that_stands(rt: HostRuntime) -> Result<(), Fail> {
    let mut memory = Memory::unused()?;
    let mut map = IdOrdMap::new(&mut memory.slots, &mut memory.table);
    insert_three(&mut map)?;
    let item = of_vessel(4, 530, 8);
    let refusal = duplicate(item, 2);
    let answer = vacant_entry(&map)?.insert(&mut map, item).err();
    assert_eq!(rt; answer, Some(InsertRefusal::Duplicate(refusal)));
    let answer = vacant_entry(&map)?.insert_entry(&mut map, item).err();
    assert_eq!(rt; answer, Some(InsertRefusal::Duplicate(refusal)));
    let entry = Entry::Vacant(vacant_entry(&map)?);
    let answer = entry.or_insert(&mut map, item).err();
    assert_eq!(rt; answer, Some(OrInsertRefusal::Duplicate(refusal)));
    memory.numbers = map.items();
    assert_eq!(rt; memory, Memory::three_stays()?);
    Ok(())
}

#[test]
fn a_full_map_refuses_a_new_key(rt: HostRuntime) -> Result<(), Fail> {
    let mut memory = Memory::unused()?;
    let mut map = IdOrdMap::new(&mut memory.slots, &mut memory.table);
    insert_three(&mut map)?;
    map.insert_unique(stay(5, 10))?;
    let item = stay(6, 1);
    let full = MapFull { item };
    assert_eq!(rt; map.insert_unique(item), Err(InsertRefusal::Full(full)));
    assert_eq!(rt; map.insert_overwrite(item), Err(full));
    // a key that stands is a duplicate, although the map is full
    let item = of_vessel(5, 10, 8);
    assert_eq!(rt;
        map.insert_unique(item),
        Err(InsertRefusal::Duplicate(duplicate(item, 3)))
    );
    memory.numbers = map.items();
    assert_eq!(rt; memory, four_stays()?);
    Ok(())
}

#[test]
fn a_vacant_entry_of_a_full_map_refuses_a_new_key(rt: HostRuntime) -> Result<(), Fail> {
    let mut memory = Memory::unused()?;
    let mut map = IdOrdMap::new(&mut memory.slots, &mut memory.table);
    insert_three(&mut map)?;
    map.insert_unique(stay(5, 10))?;
    let item = stay(6, 1);
    let full = MapFull { item };
    let answer = vacant_entry(&map)?.insert(&mut map, item).err();
    assert_eq!(rt; answer, Some(InsertRefusal::Full(full)));
    let answer = vacant_entry(&map)?.insert_entry(&mut map, item).err();
    assert_eq!(rt; answer, Some(InsertRefusal::Full(full)));
    let entry = Entry::Vacant(vacant_entry(&map)?);
    let answer = entry.or_insert(&mut map, item).err();
    assert_eq!(rt; answer, Some(OrInsertRefusal::Full(full)));
    memory.numbers = map.items();
    assert_eq!(rt; memory, four_stays()?);
    Ok(())
}

#[test]
fn a_full_map_replaces_an_item_and_takes_one_after_a_removal(rt: HostRuntime) -> Result<(), Fail> {
    let mut memory = Memory::unused()?;
    let mut map = IdOrdMap::new(&mut memory.slots, &mut memory.table);
    insert_three(&mut map)?;
    map.insert_unique(stay(5, 10))?;
    let item = of_vessel(4, 540, 8);
    assert_eq!(rt; map.insert_overwrite(item), Ok(Some(stay(4, 540))));
    assert_eq!(rt; map.remove(&at(2, 600)), Some(stay(2, 600)));
    assert_eq!(rt; map.insert_overwrite(stay(6, 1)), Ok(None));
    memory.numbers = map.items();
    let changed = ItemSlot::Occupied(item);
    let slots = [changed, held(6, 1), held(4, 530), held(5, 10)];
    assert_eq!(rt; memory, Memory::new((4, 4, S), slots, [2, 0, 3, 1])?);
    Ok(())
}
