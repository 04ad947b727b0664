// Tests of the fault that is found in a table's entries.
use crate::memory::{LARGEST, entries, held, vacant};
use index_table::{TableFault, validate};
use item_set::ItemSlot;
use panel_items::Stay;
use std::process::Abort;
use std::test::*;

// The numbers of the faults, written out: a fault is told by its number.
const TABLE_LENGTH: u8 = 16;

const REPEATED: u8 = 17;

const NOT_HELD: u8 = 18;

/// The stays (2,600), (4,530) and (4,540), and a vacant slot.
fn slots() -> [ItemSlot<Stay>; 4] {
    [held(2, 600), held(4, 530), held(4, 540), vacant()]
}

/// The answer is this fault at this place.
fn is_fault(
    rt: &impl Abort,
    numbers: &[u32],
    answer: Result<(), TableFault>,
    number: u8,
    place: usize,
) -> Result<(), Fail> {
    let fault = answer.err().ok_or("no fault was found")?;
    assert_eq!(rt; fault.number(), number, "{numbers:?}");
    assert_eq!(rt; fault.place(), place, "{numbers:?}");
    Ok(())
}

/// The entries have this fault at this place, where there are to be `len` of them.
fn finds<const N: usize>(
    rt: &impl Abort,
    numbers: [u32; N],
    len: usize,
    number: u8,
    place: usize,
) -> Result<(), Fail> {
    let answer = validate(&slots(), &entries(numbers)?, len);
    is_fault(rt, &numbers, answer, number, place)
}

fn passes<const N: usize>(rt: &impl Abort, numbers: [u32; N]) -> Result<(), Fail> {
    let answer = validate(&slots(), &entries(numbers)?, N);
    assert_eq!(rt; answer, Ok(()), "{numbers:?}");
    Ok(())
}

#[test]
fn entries_that_are_not_as_many_as_the_items(rt: HostRuntime) -> Result<(), Fail> {
    finds(&rt, [], 1, TABLE_LENGTH, 0)?;
    finds(&rt, [], usize::MAX, TABLE_LENGTH, 0)?;
    finds(&rt, [0], 0, TABLE_LENGTH, 1)?;
    finds(&rt, [0, 1], 3, TABLE_LENGTH, 2)?;
    finds(&rt, [0, 1, 2], 2, TABLE_LENGTH, 3)
}

#[test]
fn an_entry_that_names_the_slot_of_an_earlier_one(rt: HostRuntime) -> Result<(), Fail> {
    finds(&rt, [0, 0], 2, REPEATED, 1)?;
    finds(&rt, [0, 1, 0], 3, REPEATED, 2)?;
    finds(&rt, [0, 1, 1], 3, REPEATED, 2)?;
    // the first of several
    finds(&rt, [1, 0, 0, 1], 4, REPEATED, 2)?;
    finds(&rt, [2, 2, 2], 3, REPEATED, 1)?;
    // an entry that names no item is repeated like any other
    finds(&rt, [7, 7], 2, REPEATED, 1)?;
    finds(&rt, [3, 3], 2, REPEATED, 1)?;
    finds(&rt, [0, LARGEST, LARGEST], 3, REPEATED, 2)
}

#[test]
fn an_entry_that_names_no_item(rt: HostRuntime) -> Result<(), Fail> {
    // a vacant slot
    finds(&rt, [3], 1, NOT_HELD, 0)?;
    finds(&rt, [0, 3], 2, NOT_HELD, 1)?;
    // no slot
    finds(&rt, [4], 1, NOT_HELD, 0)?;
    finds(&rt, [0, LARGEST], 2, NOT_HELD, 1)?;
    // the first of several, whatever the order of the items
    finds(&rt, [0, 1, 5, 3], 4, NOT_HELD, 2)?;
    finds(&rt, [2, 0, 3], 3, NOT_HELD, 2)
}

#[test]
fn the_faults_are_found_in_the_order_of_their_numbers(rt: HostRuntime) -> Result<(), Fail> {
    finds(&rt, [0, 0], 3, TABLE_LENGTH, 2)?;
    finds(&rt, [7], 0, TABLE_LENGTH, 1)?;
    finds(&rt, [7, 7], 1, TABLE_LENGTH, 2)?;
    finds(&rt, [7, 0, 0], 3, REPEATED, 2)?;
    finds(&rt, [3, 7, 3], 3, REPEATED, 2)
}

#[test]
fn distinct_entries_that_name_items_pass_in_any_order(rt: HostRuntime) -> Result<(), Fail> {
    passes(&rt, [])?;
    passes(&rt, [0])?;
    passes(&rt, [0, 1, 2])?;
    passes(&rt, [0, 2])?;
    // the items do not ascend
    passes(&rt, [1, 0])?;
    passes(&rt, [2, 1, 0])?;
    passes(&rt, [0, 2, 1])
}

#[test]
fn equal_keys_in_two_slots_pass(rt: HostRuntime) -> Result<(), Fail> {
    let twice = [held(4, 540), held(4, 540)];
    assert_eq!(rt; validate(&twice, &entries([0, 1])?, 2), Ok(()));
    Ok(())
}

#[test]
fn without_slots_only_an_empty_table_passes(rt: HostRuntime) -> Result<(), Fail> {
    let none: [ItemSlot<Stay>; 0] = [];
    assert_eq!(rt; validate(&none, &[], 0), Ok(()));
    is_fault(&rt, &[0], validate(&none, &entries([0])?, 1), NOT_HELD, 0)
}
