// Tests of moving the items of a store together.
use crate::store::{S, Store, held, scratch, vacant};
use item_set::{CompactRefusal, IndexRemap, ItemIndex, ValidateCompact};
use std::process::Abort;
use std::test::*;

/// A compaction over a scratch of four places that hold 7, and what it leaves.
#[derive(Clone, Copy)]
struct Case {
    before: Store,
    after: Store,
    scratch: [u32; 4],
}

fn compacts(rt: &impl Abort, case: Case) -> Result<(), Fail> {
    let mut store = case.before;
    let mut places = scratch([7, 7, 7, 7]);
    let used = store.numbers.used;
    let answer = store.numbers.compact(&mut store.slots, &mut places);
    assert_eq!(rt; answer, Ok(IndexRemap::Permuted { used }));
    assert_eq!(rt; store, case.after);
    assert_eq!(rt; places, scratch(case.scratch));
    assert_eq!(rt; store.numbers.validate(&store.slots), Ok(()));
    assert_eq!(rt;
        store.numbers.validate_compact(ValidateCompact::Compact),
        Ok(())
    );
    Ok(())
}

/// A compaction over a scratch of so many places changes nothing.
fn changes_nothing(
    rt: &impl Abort,
    before: Store,
    room: usize,
    answer: Result<IndexRemap, CompactRefusal>,
) -> Result<(), Fail> {
    let mut store = before;
    let mut places = scratch([7, 7, 7, 7]);
    assert!(rt; room <= 4);
    assert_eq!(rt;
        store
            .numbers
            .compact(&mut store.slots, &mut places[0..room]),
        answer
    );
    assert_eq!(rt; store, before);
    assert_eq!(rt; places, scratch([7, 7, 7, 7]));
    Ok(())
}

#[test]
fn items_move_down_and_what_is_past_used_stays(rt: HostRuntime) -> Result<(), Fail> {
    let cases = [
        Case {
            before: Store::new(3, 1, 1, [vacant(S), vacant(0), held(30), held(99)]),
            after: Store::new(1, 1, S, [held(30), vacant(S), vacant(S), held(99)]),
            scratch: [S, S, 0, 7],
        },
        Case {
            before: Store::new(3, 2, 1, [held(10), vacant(S), held(30), vacant(9)]),
            after: Store::new(2, 2, S, [held(10), held(30), vacant(S), vacant(9)]),
            scratch: [0, S, 1, 7],
        },
        Case {
            before: Store::new(4, 2, 2, [vacant(S), held(20), vacant(0), held(40)]),
            after: Store::new(2, 2, S, [held(20), held(40), vacant(S), vacant(S)]),
            scratch: [S, 0, S, 1],
        },
        // only the last slot in use is vacant, so no item moves
        Case {
            before: Store::new(3, 2, 2, [held(10), held(20), vacant(S), held(99)]),
            after: Store::new(2, 2, S, [held(10), held(20), vacant(S), held(99)]),
            scratch: [0, 1, S, 7],
        },
        // no item is left
        Case {
            before: Store::new(3, 0, 0, [vacant(1), vacant(2), vacant(S), held(99)]),
            after: Store::new(0, 0, S, [vacant(S), vacant(S), vacant(S), held(99)]),
            scratch: [S, S, S, 7],
        },
        // the items are counted, whatever `len` says
        Case {
            before: Store::new(2, 0, 1, [held(10), vacant(S), held(99), held(99)]),
            after: Store::new(1, 1, S, [held(10), vacant(S), held(99), held(99)]),
            scratch: [0, S, 7, 7],
        },
        Case {
            before: Store::new(3, 9, 7, [vacant(8), held(20), held(30), held(99)]),
            after: Store::new(2, 2, S, [held(20), held(30), vacant(S), held(99)]),
            scratch: [S, 0, 1, 7],
        },
    ];
    for case in cases {
        compacts(&rt, case)?;
    }
    Ok(())
}

#[test]
fn where_used_is_len_nothing_is_written(rt: HostRuntime) -> Result<(), Fail> {
    let slots = [held(10), held(20), held(30), vacant(9)];
    let cases = [
        (Store::new(3, 3, S, slots), 4),
        (Store::new(3, 3, S, slots), 2),
        (Store::new(3, 3, S, slots), 0),
        (Store::new(0, 0, S, slots), 0),
        // no slot is looked at
        (Store::new(4, 4, 3, slots), 0),
        (Store::new(S, S, 0, slots), 4),
    ];
    for (before, room) in cases {
        changes_nothing(&rt, before, room, Ok(IndexRemap::Identity))?;
    }
    Ok(())
}

#[test]
fn a_short_scratch_is_refused_before_anything_is_written(rt: HostRuntime) -> Result<(), Fail> {
    let slots = [held(10), vacant(S), held(30), vacant(1)];
    let cases = [
        (Store::new(3, 2, 1, slots), 2),
        (Store::new(3, 2, 1, slots), 0),
        (Store::new(4, 2, 3, slots), 3),
        (Store::new(2, 1, 1, slots), 1),
        (Store::new(1, 0, S, slots), 0),
        // a place for each slot is too few where more are in use than there are
        (Store::new(5, 2, 3, slots), 4),
        (Store::new(S, 0, S, slots), 4),
    ];
    for (before, room) in cases {
        changes_nothing(&rt, before, room, Err(CompactRefusal::Short))?;
    }
    Ok(())
}

#[test]
fn a_scratch_of_used_places_is_enough(rt: HostRuntime) -> Result<(), Fail> {
    let mut store = Store::new(3, 1, 1, [vacant(S), vacant(0), held(30), held(99)]);
    let mut places = [ItemIndex::new(7); 3];
    let answer = store.numbers.compact(&mut store.slots, &mut places);
    assert_eq!(rt; answer, Ok(IndexRemap::Permuted { used: 3 }));
    assert_eq!(rt;
        places,
        [ItemIndex::SENTINEL, ItemIndex::SENTINEL, ItemIndex::new(0)]
    );
    assert_eq!(rt;
        store,
        Store::new(1, 1, S, [held(30), vacant(S), vacant(S), held(99)])
    );
    Ok(())
}

#[test]
fn only_places_of_slots_are_written_where_more_are_in_use(rt: HostRuntime) -> Result<(), Fail> {
    let mut store = Store::new(5, 2, 3, [held(10), vacant(S), held(30), vacant(1)]);
    let mut places = [ItemIndex::new(7); 6];
    let answer = store.numbers.compact(&mut store.slots, &mut places);
    assert_eq!(rt; answer, Ok(IndexRemap::Permuted { used: 5 }));
    assert_eq!(rt; &places[0..4], &scratch([0, S, 1, S])[0..4]);
    assert_eq!(rt; places[4], ItemIndex::new(7));
    assert_eq!(rt; places[5], ItemIndex::new(7));
    assert_eq!(rt;
        store,
        Store::new(2, 2, S, [held(10), held(30), vacant(S), vacant(S)])
    );
    Ok(())
}
