// Tests of closing a place of the table.
use crate::memory::entries;
use index_table::{Index, close_place};
use std::process::Abort;
use std::test::*;

/// Takes a place out of the first `len` entries.
fn closes(
    rt: &impl Abort,
    before: [u32; 4],
    len: usize,
    place: usize,
    after: [u32; 4],
) -> Result<(), Fail> {
    let mut table = entries(before)?;
    close_place(&mut table, len, place);
    assert_eq!(rt; table, entries(after)?, "place {place} of {len}");
    Ok(())
}

#[test]
fn the_entries_after_the_place_go_one_down(rt: HostRuntime) -> Result<(), Fail> {
    let cases = [
        // first, middle and last, and the last place in use keeps its entry
        ([1, 2, 0, 9], 3, 0, [2, 0, 0, 9]),
        ([1, 2, 0, 9], 3, 1, [1, 0, 0, 9]),
        ([1, 2, 0, 9], 3, 2, [1, 2, 0, 9]),
        // a full table
        ([1, 2, 0, 3], 4, 0, [2, 0, 3, 3]),
        ([1, 2, 0, 3], 4, 2, [1, 2, 3, 3]),
        ([1, 2, 0, 3], 4, 3, [1, 2, 0, 3]),
        // one entry, two entries
        ([5, 9, 8, 7], 1, 0, [5, 9, 8, 7]),
        ([5, 6, 9, 8], 2, 0, [6, 6, 9, 8]),
    ];
    for (before, len, place, after) in cases {
        closes(&rt, before, len, place, after)?;
    }
    Ok(())
}

#[test]
fn past_the_entries_nothing_is_written(rt: HostRuntime) -> Result<(), Fail> {
    let before = [1, 2, 0, 3];
    let cases = [
        // no entry is in use
        (0, 0),
        (0, 1),
        // the place is past the entries in use
        (3, 3),
        (3, 4),
        (4, 4),
        (3, usize::MAX),
        // more are in use than there are
        (5, 0),
        (5, 4),
        (usize::MAX, 0),
    ];
    for (len, place) in cases {
        closes(&rt, before, len, place, before)?;
    }
    Ok(())
}

#[test]
fn a_table_without_entries_has_no_place(rt: HostRuntime) -> Result<(), Fail> {
    let mut table: [Index; 0] = [];
    close_place(&mut table, 0, 0);
    close_place(&mut table, 1, 0);
    assert_eq!(rt; table, []);
    Ok(())
}

#[test]
fn closing_the_first_and_then_the_last_place(rt: HostRuntime) -> Result<(), Fail> {
    let mut table = entries([1, 2, 0])?;
    close_place(&mut table, 3, 0);
    assert_eq!(rt; table, entries([2, 0, 0])?);
    close_place(&mut table, 2, 1);
    assert_eq!(rt; table, entries([2, 0, 0])?);
    Ok(())
}

#[test]
fn closing_every_place_from_the_first(rt: HostRuntime) -> Result<(), Fail> {
    let mut table = entries([1, 2, 0, 9])?;
    close_place(&mut table, 3, 0);
    assert_eq!(rt; table, entries([2, 0, 0, 9])?);
    close_place(&mut table, 2, 0);
    assert_eq!(rt; table, entries([0, 0, 0, 9])?);
    close_place(&mut table, 1, 0);
    assert_eq!(rt; table, entries([0, 0, 0, 9])?);
    Ok(())
}
