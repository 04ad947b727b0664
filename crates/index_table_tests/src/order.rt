// Tests of whether the items of a table ascend, and of the first place where they do not.
use crate::memory::{LARGEST, entries, held, vacant};
use index_table::{ascends, first_unordered};
use item_set::ItemSlot;
use panel_items::Stay;
use std::process::Abort;
use std::test::*;

/// The stays (2,600), (4,530), (4,540) and (4,530) again, and a vacant slot.
fn slots() -> [ItemSlot<Stay>; 5] {
    [
        held(2, 600),
        held(4, 530),
        held(4, 540),
        held(4, 530),
        vacant(),
    ]
}

/// Whether the items ascend, and the first place whose item is not Greater than the one before.
fn answers<const N: usize>(
    rt: &impl Abort,
    numbers: [u32; N],
    ascending: bool,
    unordered: Option<usize>,
) -> Result<(), Fail> {
    let table = entries(numbers)?;
    let answer = (ascends(&slots(), &table), first_unordered(&slots(), &table));
    assert_eq!(rt; answer, (ascending, unordered), "{numbers:?}");
    Ok(())
}

fn ascend<const N: usize>(rt: &impl Abort, numbers: [u32; N]) -> Result<(), Fail> {
    answers(rt, numbers, true, None)
}

fn break_at<const N: usize>(rt: &impl Abort, numbers: [u32; N], place: usize) -> Result<(), Fail> {
    answers(rt, numbers, false, Some(place))
}

/// An entry names no item, and no item comes straight after one that is not Less.
fn name_no_item<const N: usize>(rt: &impl Abort, numbers: [u32; N]) -> Result<(), Fail> {
    answers(rt, numbers, false, None)
}

#[test]
fn items_that_ascend(rt: HostRuntime) -> Result<(), Fail> {
    ascend(&rt, [])?;
    ascend(&rt, [2])?;
    ascend(&rt, [0, 1])?;
    ascend(&rt, [0, 2])?;
    ascend(&rt, [0, 1, 2])?;
    ascend(&rt, [0, 3, 2])
}

#[test]
fn items_that_descend(rt: HostRuntime) -> Result<(), Fail> {
    break_at(&rt, [1, 0], 1)?;
    break_at(&rt, [2, 1, 0], 1)?;
    break_at(&rt, [0, 2, 1], 2)?;
    break_at(&rt, [1, 2, 0], 2)?;
    // the first of several
    break_at(&rt, [1, 0, 2, 1], 1)?;
    // neighbours are compared, and no others
    break_at(&rt, [2, 0, 1], 1)
}

#[test]
fn neighbours_with_equal_keys(rt: HostRuntime) -> Result<(), Fail> {
    break_at(&rt, [1, 3], 1)?;
    break_at(&rt, [3, 1], 1)?;
    break_at(&rt, [0, 1, 3], 2)?;
    break_at(&rt, [0, 1, 3, 2], 2)?;
    break_at(&rt, [1, 3, 0], 1)?;
    // a slot that is named twice
    break_at(&rt, [0, 0], 1)?;
    break_at(&rt, [0, 2, 2], 2)
}

#[test]
fn an_entry_that_names_no_item_is_out_of_no_order(rt: HostRuntime) -> Result<(), Fail> {
    name_no_item(&rt, [4])?;
    name_no_item(&rt, [LARGEST])?;
    name_no_item(&rt, [0, 4])?;
    name_no_item(&rt, [4, 0])?;
    name_no_item(&rt, [0, 5, 1])?;
    name_no_item(&rt, [4, 4])?;
    // the items beside it are no neighbours
    name_no_item(&rt, [2, 4, 0])?;
    name_no_item(&rt, [0, LARGEST, 0])?;
    break_at(&rt, [2, 4, 2, 1], 3)
}

#[test]
fn without_slots_no_entry_names_an_item(rt: HostRuntime) -> Result<(), Fail> {
    let none: [ItemSlot<Stay>; 0] = [];
    assert!(rt; ascends(&none, &[]));
    assert_eq!(rt; first_unordered(&none, &[]), None);
    let table = entries([1, 0])?;
    assert!(rt; !ascends(&none, &table));
    assert_eq!(rt; first_unordered(&none, &table), None);
    Ok(())
}
