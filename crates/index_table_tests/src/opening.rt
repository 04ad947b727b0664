// Tests of opening a place of the table.
use crate::memory::{entries, entry};
use index_table::{Index, open_place};
use std::process::Abort;
use std::test::*;

/// Puts 7 at a place of the first `len` entries.
fn opens(
    rt: &impl Abort,
    before: [u32; 5],
    len: usize,
    place: usize,
    after: [u32; 5],
) -> Result<(), Fail> {
    let mut table = entries(before)?;
    open_place(&mut table, len, place, entry(7)?);
    assert_eq!(rt; table, entries(after)?, "place {place} of {len}");
    Ok(())
}

#[test]
fn the_entries_from_the_place_on_go_one_up(rt: HostRuntime) -> Result<(), Fail> {
    let cases = [
        // no entry is in use
        ([9, 9, 9, 9, 9], 0, 0, [7, 9, 9, 9, 9]),
        // first, middle and last
        ([5, 9, 9, 9, 9], 1, 0, [7, 5, 9, 9, 9]),
        ([5, 9, 9, 9, 9], 1, 1, [5, 7, 9, 9, 9]),
        ([1, 2, 0, 9, 8], 3, 0, [7, 1, 2, 0, 8]),
        ([1, 2, 0, 9, 8], 3, 1, [1, 7, 2, 0, 8]),
        ([1, 2, 0, 9, 8], 3, 2, [1, 2, 7, 0, 8]),
        ([1, 2, 0, 9, 8], 3, 3, [1, 2, 0, 7, 8]),
        // the table becomes full
        ([1, 2, 0, 3, 9], 4, 0, [7, 1, 2, 0, 3]),
        ([1, 2, 0, 3, 9], 4, 4, [1, 2, 0, 3, 7]),
        // entries past `len` stay, but for the next one
        ([1, 2, 0, 3, 4], 2, 1, [1, 7, 2, 3, 4]),
    ];
    for (before, len, place, after) in cases {
        opens(&rt, before, len, place, after)?;
    }
    Ok(())
}

#[test]
fn without_room_or_past_the_entries_nothing_is_written(rt: HostRuntime) -> Result<(), Fail> {
    let before = [1, 2, 0, 3, 4];
    let cases = [
        // the table is full
        (5, 0),
        (5, 2),
        (5, 5),
        // more are in use than there are
        (6, 0),
        (6, 6),
        (usize::MAX, 0),
        (usize::MAX, usize::MAX),
        // the place is past the entries in use
        (3, 4),
        (4, 5),
        (0, 1),
        (3, usize::MAX),
    ];
    for (len, place) in cases {
        opens(&rt, before, len, place, before)?;
    }
    Ok(())
}

#[test]
fn a_table_without_entries_has_no_room(rt: HostRuntime) -> Result<(), Fail> {
    let mut table: [Index; 0] = [];
    open_place(&mut table, 0, 0, entry(7)?);
    assert_eq!(rt; table, []);
    Ok(())
}

#[test]
fn three_keys_that_arrive_out_of_order(rt: HostRuntime) -> Result<(), Fail> {
    let mut table = entries([9, 9, 9, 9])?;
    open_place(&mut table, 0, 0, entry(0)?);
    assert_eq!(rt; table, entries([0, 9, 9, 9])?);
    open_place(&mut table, 1, 0, entry(1)?);
    assert_eq!(rt; table, entries([1, 0, 9, 9])?);
    open_place(&mut table, 2, 1, entry(2)?);
    assert_eq!(rt; table, entries([1, 2, 0, 9])?);
    Ok(())
}
