// Tests of looking for a key in tables that are out of order, repeat entries or name no item.
use crate::memory::{LARGEST, entries, held, vacant};
use index_table::{Index, find_index, find_place};
use item_set::{ItemIndex, ItemSlot, item_at};
use panel_items::{Stay, StayAt};
use std::process::Abort;
use std::test::*;

/// Entries that name an item, a vacant slot or no slot.
const NUMBERS: [u32; 7] = [0, 1, 2, 3, 4, 5, LARGEST];

/// Three keys in order, one of them a second time, and a vacant slot.
fn slots() -> [ItemSlot<Stay>; 5] {
    [held(4, 10), held(4, 20), vacant(), held(4, 30), held(4, 20)]
}

fn is_named(entries: &[Index], slot: ItemIndex) -> bool {
    entries.iter().any(|entry| entry.value() == slot)
}

/// A slot that is found is named by an entry and holds the key, and a place is one of the entries or past the last.
fn check_promise(
    rt: &impl Abort,
    slots: &[ItemSlot<Stay>],
    entries: &[Index],
    query: StayAt,
) -> Result<(), Fail> {
    assert!(rt;
        find_place(slots, entries, &query) <= entries.len(),
        "{query:?} in {entries:?}"
    );
    let Some(slot) = find_index(slots, entries, &query) else {
        return Ok(());
    };
    assert!(rt; is_named(entries, slot), "{query:?} in {entries:?}");
    let item = item_at(slots, slot).ok_or("a slot was found that holds no item")?;
    assert_eq!(rt; StayAt::from(&item), query, "in {entries:?}");
    Ok(())
}

fn check_each_query<const N: usize>(rt: &impl Abort, numbers: [u32; N]) -> Result<(), Fail> {
    let table = entries(numbers)?;
    for from in [5, 10, 15, 20, 25, 30, 35] {
        check_promise(rt, &slots(), &table, StayAt { berth: 4, from })?;
    }
    Ok(())
}

#[test]
fn any_two_entries(rt: HostRuntime) -> Result<(), Fail> {
    for a in NUMBERS {
        for b in NUMBERS {
            check_each_query(&rt, [a, b])?;
        }
    }
    Ok(())
}

#[test]
fn any_three_entries(rt: HostRuntime) -> Result<(), Fail> {
    for a in NUMBERS {
        for b in NUMBERS {
            for c in NUMBERS {
                check_each_query(&rt, [a, b, c])?;
            }
        }
    }
    Ok(())
}
