// What `find_index` and `find_place` answer for a key.
use id_ord_item::Comparable;
use index_table::{Index, find_index, find_place};
use item_set::ItemSlot;
use panel_items::{Stay, StayAt};
use std::process::Abort;
use std::test::*;

/// The slot of the key, by its number, and its place.
fn found<Q: Comparable<Stay>>(
    slots: &[ItemSlot<Stay>],
    entries: &[Index],
    query: &Q,
) -> (Option<u32>, usize) {
    let slot = find_index(slots, entries, query).map(|index| index.as_u32());
    (slot, find_place(slots, entries, query))
}

/// A query finds this slot and this place, and so does an item that has the key and is else not as the stored ones.
pub fn check_found(
    rt: &impl Abort,
    slots: &[ItemSlot<Stay>],
    entries: &[Index],
    key: (u16, u32),
    answer: (Option<u32>, usize),
) -> Result<(), Fail> {
    let (berth, from) = key;
    let len = entries.len();
    let query = StayAt { berth, from };
    assert_eq!(rt;
        found(slots, entries, &query),
        answer,
        "query ({berth},{from}) of {len} entries"
    );
    let item = Stay {
        berth,
        from,
        to: 1,
        vessel: 1,
    };
    assert_eq!(rt;
        found(slots, entries, &item),
        answer,
        "item ({berth},{from}) of {len} entries"
    );
    Ok(())
}
