// Tests of looking for a key in small tables.
use crate::lookup::check_found;
use crate::memory::{entries, held, vacant};
use item_set::ItemSlot;
use panel_items::Stay;
use std::test::*;

/// The stays (4,540), (2,600) and (4,530), in the order of their arrival.
fn three_stays() -> [ItemSlot<Stay>; 4] {
    [held(4, 540), held(2, 600), held(4, 530), vacant()]
}

#[test]
fn in_an_empty_table_nothing_is_found(rt: HostRuntime) -> Result<(), Fail> {
    for key in [(0, 0), (4, 530), (4, 540), (u16::MAX, u32::MAX)] {
        check_found(&rt, &three_stays(), &[], key, (None, 0))?;
        check_found(&rt, &[], &[], key, (None, 0))?;
    }
    Ok(())
}

#[test]
fn in_a_table_of_one_entry_a_key_is_before_it_at_it_or_after_it(
    rt: HostRuntime,
) -> Result<(), Fail> {
    let table = entries([2])?;
    let cases = [
        ((0, 0), (None, 0)),
        ((3, 900), (None, 0)),
        ((4, 529), (None, 0)),
        ((4, 530), (Some(2), 0)),
        ((4, 531), (None, 1)),
        ((5, 0), (None, 1)),
        ((u16::MAX, u32::MAX), (None, 1)),
        // slots that no entry names
        ((2, 600), (None, 0)),
        ((4, 540), (None, 1)),
    ];
    for (key, answer) in cases {
        check_found(&rt, &three_stays(), &table, key, answer)?;
    }
    Ok(())
}

#[test]
fn keys_go_by_berth_and_then_by_beginning(rt: HostRuntime) -> Result<(), Fail> {
    let table = entries([1, 2, 0])?;
    let cases = [
        ((0, 0), (None, 0)),
        ((1, u32::MAX), (None, 0)),
        ((2, 599), (None, 0)),
        ((2, 600), (Some(1), 0)),
        ((2, 601), (None, 1)),
        ((3, 535), (None, 1)),
        ((4, 529), (None, 1)),
        ((4, 530), (Some(2), 1)),
        ((4, 535), (None, 2)),
        ((4, 540), (Some(0), 2)),
        ((4, 541), (None, 3)),
        ((5, 0), (None, 3)),
        ((u16::MAX, u32::MAX), (None, 3)),
    ];
    for (key, answer) in cases {
        check_found(&rt, &three_stays(), &table, key, answer)?;
    }
    Ok(())
}

#[test]
fn in_a_table_with_an_entry_for_each_slot_every_item_is_found(rt: HostRuntime) -> Result<(), Fail> {
    let slots = [held(0, 0), held(u16::MAX, u32::MAX), held(7, 1), held(7, 0)];
    let table = entries([0, 3, 2, 1])?;
    let cases = [
        ((0, 0), (Some(0), 0)),
        ((0, 1), (None, 1)),
        ((7, 0), (Some(3), 1)),
        ((7, 1), (Some(2), 2)),
        ((7, 2), (None, 3)),
        ((u16::MAX, 4294967294), (None, 3)),
        ((u16::MAX, u32::MAX), (Some(1), 3)),
    ];
    for (key, answer) in cases {
        check_found(&rt, &slots, &table, key, answer)?;
    }
    Ok(())
}
