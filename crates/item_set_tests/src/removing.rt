// Tests of taking an item out of its slot.
use crate::store::{S, Store, held, vacant};
use item_set::ItemIndex;
use std::process::Abort;
use std::test::*;

/// A removal, its answer, and the store after it.
#[derive(Clone, Copy)]
struct Case {
    before: Store,
    slot: u32,
    answer: Option<u32>,
    after: Store,
}

fn answers(rt: &impl Abort, case: Case) -> Result<(), Fail> {
    let mut store = case.before;
    let answer = store
        .numbers
        .remove(&mut store.slots, ItemIndex::new(case.slot));
    assert_eq!(rt; answer, case.answer);
    assert_eq!(rt; store, case.after);
    Ok(())
}

#[test]
fn a_freed_slot_becomes_the_head_and_names_the_old_head(rt: HostRuntime) -> Result<(), Fail> {
    let cases = [
        Case {
            before: Store::new(3, 3, S, [held(10), held(20), held(30), vacant(9)]),
            slot: 1,
            answer: Some(20),
            after: Store::new(3, 2, 1, [held(10), vacant(S), held(30), vacant(9)]),
        },
        Case {
            before: Store::new(3, 2, 1, [held(10), vacant(S), held(30), vacant(9)]),
            slot: 2,
            answer: Some(30),
            after: Store::new(3, 1, 2, [held(10), vacant(S), vacant(1), vacant(9)]),
        },
        Case {
            before: Store::new(3, 1, 2, [held(10), vacant(S), vacant(1), vacant(9)]),
            slot: 0,
            answer: Some(10),
            after: Store::new(3, 0, 0, [vacant(2), vacant(S), vacant(1), vacant(9)]),
        },
        // the old head is named as it is, even if it is no slot
        Case {
            before: Store::new(1, 1, 9, [held(10), held(20), held(30), held(40)]),
            slot: 0,
            answer: Some(10),
            after: Store::new(1, 0, 0, [vacant(9), held(20), held(30), held(40)]),
        },
        // more slots in use than there are
        Case {
            before: Store::new(9, 4, S, [held(10), held(20), held(30), held(40)]),
            slot: 3,
            answer: Some(40),
            after: Store::new(9, 3, 3, [held(10), held(20), held(30), vacant(S)]),
        },
        // a count of 0 stays 0
        Case {
            before: Store::new(2, 0, S, [held(10), held(20), held(30), held(40)]),
            slot: 1,
            answer: Some(20),
            after: Store::new(2, 0, 1, [held(10), vacant(S), held(30), held(40)]),
        },
    ];
    for case in cases {
        answers(&rt, case)?;
    }
    Ok(())
}

#[test]
fn a_slot_that_gives_no_item_stays_as_it_is(rt: HostRuntime) -> Result<(), Fail> {
    let before = Store::new(3, 2, 1, [held(10), vacant(S), held(30), held(40)]);
    // vacant, past `used`, no slot
    for slot in [1, 3, 4, 4294967294, S] {
        let case = Case {
            before,
            slot,
            answer: None,
            after: before,
        };
        answers(&rt, case)?;
    }
    Ok(())
}

#[test]
fn a_slot_gives_its_item_once(rt: HostRuntime) -> Result<(), Fail> {
    let mut store = Store::new(2, 2, S, [held(10), held(20), held(30), held(40)]);
    let slot = ItemIndex::new(1);
    assert_eq!(rt; store.numbers.remove(&mut store.slots, slot), Some(20));
    let once = store;
    assert_eq!(rt; store.numbers.remove(&mut store.slots, slot), None);
    assert_eq!(rt; store, once);
    assert_eq!(rt; store.numbers.get(&store.slots, slot), None);
    Ok(())
}
