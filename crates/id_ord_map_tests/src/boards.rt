// The boards that the rules of the map name, each as a test.
use crate::memory::{Memory, S, at, entries, held, insert_three, sailing, scratch, stay, vacant};
use id_ord_errors::{DuplicateItem, InsertRefusal, MapFull};
use id_ord_item::KeepFirst;
use id_ord_map::{Entry, IdOrdMap};
use index_table::Index;
use item_set::{IndexRemap, ItemIndex};
use panel_items::{CodeText, Stay};
use std::test::Fail;

#[test]
fn an_empty_map_gives_nothing(rt: HostRuntime) -> Result<(), Fail> {
    let mut memory = Memory::unused()?;
    let mut map = IdOrdMap::new(&mut memory.slots, &mut memory.table);
    assert_eq!(rt; map.first(), None);
    assert_eq!(rt; map.pop_last(), None);
    assert_eq!(rt; map.shrink_to_fit(&mut []), Ok(IndexRemap::Identity));
    memory.numbers = map.items();
    assert_eq!(rt; memory, Memory::unused()?);
    Ok(())
}

#[test]
fn a_map_of_one_slot_is_full_or_has_the_key(rt: HostRuntime) -> Result<(), Fail> {
    let mut slots = [vacant(S)];
    let mut table = entries([9])?;
    let mut map = IdOrdMap::new(&mut slots, &mut table);
    assert_eq!(rt; map.insert_unique(stay(4, 540)), Ok(()));
    let full = MapFull { item: stay(4, 541) };
    assert_eq!(rt;
        map.insert_unique(stay(4, 541)),
        Err(InsertRefusal::Full(full))
    );
    let duplicate = DuplicateItem {
        item: stay(4, 540),
        slot: ItemIndex::new(0),
    };
    assert_eq!(rt;
        map.insert_unique(stay(4, 540)),
        Err(InsertRefusal::Duplicate(duplicate))
    );
    Ok(())
}

#[test]
fn three_stays_in_the_order_of_arrival_have_a_table_in_key_order(
    rt: HostRuntime,
) -> Result<(), Fail> {
    let mut memory = Memory::unused()?;
    let mut map = IdOrdMap::new(&mut memory.slots, &mut memory.table);
    insert_three(&mut map)?;
    memory.numbers = map.items();
    let slots = [held(4, 540), held(2, 600), held(4, 530), vacant(S)];
    assert_eq!(rt; memory, Memory::new((3, 3, S), slots, [1, 2, 0, 9])?);
    Ok(())
}

#[test]
fn a_freed_slot_is_taken_first(rt: HostRuntime) -> Result<(), Fail> {
    let mut memory = Memory::unused()?;
    let mut map = IdOrdMap::new(&mut memory.slots, &mut memory.table);
    insert_three(&mut map)?;
    assert_eq!(rt; map.remove(&at(2, 600)), Some(stay(2, 600)));
    assert_eq!(rt; map.insert_unique(stay(1, 1)), Ok(()));
    memory.numbers = map.items();
    let slots = [held(4, 540), held(1, 1), held(4, 530), vacant(S)];
    assert_eq!(rt; memory, Memory::new((3, 3, S), slots, [1, 2, 0, 9])?);
    Ok(())
}

#[test]
fn shrinking_moves_the_item_and_its_entry(rt: HostRuntime) -> Result<(), Fail> {
    let mut memory = Memory::unused()?;
    let mut places = scratch([7; 4]);
    let mut map = IdOrdMap::new(&mut memory.slots, &mut memory.table);
    insert_three(&mut map)?;
    map.remove(&at(4, 540));
    map.remove(&at(2, 600));
    assert_eq!(rt;
        map.shrink_to_fit(&mut places),
        Ok(IndexRemap::Permuted { used: 3 })
    );
    memory.numbers = map.items();
    assert_eq!(rt; places, scratch([S, S, 0, 7]));
    let slots = [held(4, 530), vacant(S), vacant(S), vacant(S)];
    assert_eq!(rt; memory, Memory::new((1, 1, S), slots, [0, 2, 0, 9])?);
    Ok(())
}

#[test]
fn keeping_the_first_frees_the_others_in_key_order(rt: HostRuntime) -> Result<(), Fail> {
    let mut memory = Memory::unused()?;
    let mut map = IdOrdMap::new(&mut memory.slots, &mut memory.table);
    insert_three(&mut map)?;
    map.retain(&mut KeepFirst { left: 1 })?;
    memory.numbers = map.items();
    let slots = [vacant(2), held(2, 600), vacant(S), vacant(S)];
    assert_eq!(rt; memory, Memory::new((3, 1, 0), slots, [1, 0, 0, 9])?);
    Ok(())
}

#[test]
fn a_vacant_entry_takes_an_item_with_another_key(rt: HostRuntime) -> Result<(), Fail> {
    let mut memory = Memory::unused()?;
    let mut map = IdOrdMap::new(&mut memory.slots, &mut memory.table);
    insert_three(&mut map)?;
    let Entry::Vacant(entry) = map.entry(&at(1, 1)) else {
        return Err(Fail::new("the key stands"));
    };
    let added = entry.insert(&mut map, stay(9, 9))?;
    assert_eq!(rt; added.taken(), stay(9, 9));
    assert_eq!(rt; map.last(), Some(stay(9, 9)));
    assert_eq!(rt; map.get(&at(1, 1)), None);
    Ok(())
}

#[test]
fn the_largest_slot_number_makes_an_entry(rt: HostRuntime) -> Result<(), Fail> {
    let entry = Index::new(ItemIndex::new(4294967294))?;
    assert_eq!(rt; entry.value(), ItemIndex::new(4294967294));
    Ok(())
}

#[test]
fn letters_find_a_sailing(rt: HostRuntime) -> Result<(), Fail> {
    let mut slots = [vacant(S); 2];
    let mut table = entries([9, 9])?;
    let mut map = IdOrdMap::new(&mut slots, &mut table);
    map.insert_unique(sailing(0x4142_4344_4546_4748))?;
    map.insert_unique(sailing(0))?;
    let mut text = CodeText::new();
    assert_eq!(rt; map.get(&text), Some(sailing(0)));
    text.fill(b"ABCDEFGH")?;
    assert_eq!(rt; map.get(&text), Some(sailing(0x4142_4344_4546_4748)));
    text.fill(b"ABCDEFG")?;
    assert_eq!(rt; map.get(&text), None);
    Ok(())
}
