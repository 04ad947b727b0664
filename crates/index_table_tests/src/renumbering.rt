// Tests of giving the entries the new numbers of their slots.
use crate::memory::{LARGEST, S, entries, scratch};
use index_table::{Index, remap_indexes};
use item_set::IndexRemap;
use std::process::Abort;
use std::test::*;

/// Rewrites the first `len` entries, where three slots were in use, by a scratch of four places.
fn rewrites(
    rt: &impl Abort,
    numbers: [u32; 4],
    before: [u32; 4],
    len: usize,
    after: [u32; 4],
) -> Result<(), Fail> {
    let mut table = entries(before)?;
    let remap = IndexRemap::Permuted { used: 3 };
    remap_indexes(&mut table, len, &remap, &scratch(numbers));
    assert_eq!(rt; table, entries(after)?, "{len} entries");
    Ok(())
}

#[test]
fn each_entry_in_use_gets_its_new_number(rt: HostRuntime) -> Result<(), Fail> {
    let cases = [
        ([0, S, 1, 7], [2, 0, 0, 9], 2, [1, 0, 0, 9]),
        // the marker after the entries in use stays, although its slot has a new number
        ([0, S, 1, 7], [2, 0, 2, 9], 2, [1, 0, 2, 9]),
        ([0, S, 1, 7], [2, 0, 2, 9], 1, [1, 0, 2, 9]),
        ([0, S, 1, 7], [2, 2, 2, 2], 1, [1, 2, 2, 2]),
        ([S, S, 0, 7], [2, 2, 0, 9], 1, [0, 2, 0, 9]),
        // no entry is in use
        ([0, S, 1, 7], [2, 0, 2, 9], 0, [2, 0, 2, 9]),
        // all are, or more than there are
        ([0, S, 1, 7], [2, 0, 0, 2], 4, [1, 0, 0, 1]),
        ([0, S, 1, 7], [2, 0, 0, 2], 5, [1, 0, 0, 1]),
        ([0, S, 1, 7], [2, 0, 0, 2], usize::MAX, [1, 0, 0, 1]),
    ];
    for (numbers, before, len, after) in cases {
        rewrites(&rt, numbers, before, len, after)?;
    }
    Ok(())
}

#[test]
fn each_entry_is_rewritten_once(rt: HostRuntime) -> Result<(), Fail> {
    let cases = [
        ([1, 2, 0, 7], [0, 1, 2, 9], 3, [1, 2, 0, 9]),
        ([2, 0, 1, 7], [0, 1, 2, 9], 3, [2, 0, 1, 9]),
        ([1, 0, 2, 7], [0, 0, 1, 1], 4, [1, 1, 0, 0]),
    ];
    for (numbers, before, len, after) in cases {
        rewrites(&rt, numbers, before, len, after)?;
    }
    Ok(())
}

#[test]
fn an_entry_whose_slot_has_no_new_number_stays(rt: HostRuntime) -> Result<(), Fail> {
    let cases = [
        // the slot was vacant
        ([0, S, 1, 7], [2, 1, 0, 1], 4, [1, 1, 0, 1]),
        // the slot was not in use
        ([0, S, 1, 7], [3, 2, 0, 3], 4, [3, 1, 0, 3]),
        // there is no such slot
        ([0, S, 1, 7], [4, 2, LARGEST, 9], 4, [4, 1, LARGEST, 9]),
    ];
    for (numbers, before, len, after) in cases {
        rewrites(&rt, numbers, before, len, after)?;
    }
    Ok(())
}

#[test]
fn an_entry_past_a_short_scratch_stays(rt: HostRuntime) -> Result<(), Fail> {
    let mut table = entries([2, 0, 1])?;
    let remap = IndexRemap::Permuted { used: 3 };
    remap_indexes(&mut table, 3, &remap, &scratch([5, 6]));
    assert_eq!(rt; table, entries([2, 5, 6])?);
    remap_indexes(&mut table, 3, &remap, &[]);
    assert_eq!(rt; table, entries([2, 5, 6])?);
    Ok(())
}

#[test]
fn where_nothing_moved_every_entry_stays(rt: HostRuntime) -> Result<(), Fail> {
    let mut table = entries([2, 0, 1, LARGEST])?;
    remap_indexes(&mut table, 4, &IndexRemap::Identity, &scratch([1, 2, 0]));
    assert_eq!(rt; table, entries([2, 0, 1, LARGEST])?);
    remap_indexes(&mut table, 4, &IndexRemap::Identity, &[]);
    assert_eq!(rt; table, entries([2, 0, 1, LARGEST])?);
    Ok(())
}

#[test]
fn a_table_without_entries_has_none_to_rewrite(rt: HostRuntime) -> Result<(), Fail> {
    let mut table: [Index; 0] = [];
    remap_indexes(
        &mut table,
        3,
        &IndexRemap::Permuted { used: 3 },
        &scratch([1, 2, 0]),
    );
    assert_eq!(rt; table, []);
    Ok(())
}
