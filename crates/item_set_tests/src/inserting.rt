// Tests of which slot takes an item, and of what no slot takes.
use crate::store::{S, Store, held, numbers, vacant};
use item_set::{ItemIndex, ItemSet, ItemSlot, NoSlot};
use std::process::Abort;
use std::test::*;

/// An insert of the item 70, the slot that takes it, and the store after it.
#[derive(Clone, Copy)]
struct Case {
    before: Store,
    slot: u32,
    after: Store,
}

fn takes(rt: &impl Abort, case: Case) -> Result<(), Fail> {
    let mut store = case.before;
    let answer = store.numbers.insert(&mut store.slots, 70);
    assert_eq!(rt; answer, Ok(ItemIndex::new(case.slot)));
    assert_eq!(rt; store, case.after);
    Ok(())
}

fn refuses(rt: &impl Abort, before: Store) -> Result<(), Fail> {
    let mut store = before;
    let answer = store.numbers.insert(&mut store.slots, 70);
    assert_eq!(rt; answer, Err(NoSlot { item: 70 }));
    assert_eq!(rt; store, before);
    Ok(())
}

#[test]
fn without_a_free_slot_the_first_not_in_use_is_taken(rt: HostRuntime) -> Result<(), Fail> {
    let cases = [
        Case {
            before: Store::new(0, 0, S, [vacant(S), vacant(S), vacant(S), vacant(S)]),
            slot: 0,
            after: Store::new(1, 1, S, [held(70), vacant(S), vacant(S), vacant(S)]),
        },
        Case {
            before: Store::new(1, 1, S, [held(10), vacant(9), vacant(9), vacant(9)]),
            slot: 1,
            after: Store::new(2, 2, S, [held(10), held(70), vacant(9), vacant(9)]),
        },
        Case {
            before: Store::new(3, 3, S, [held(10), held(20), held(30), vacant(S)]),
            slot: 3,
            after: Store::new(4, 4, S, [held(10), held(20), held(30), held(70)]),
        },
        // old items past `used` are overwritten only where a slot is taken
        Case {
            before: Store::new(0, 0, S, [held(10), held(20), held(30), held(40)]),
            slot: 0,
            after: Store::new(1, 1, S, [held(70), held(20), held(30), held(40)]),
        },
    ];
    for case in cases {
        takes(&rt, case)?;
    }
    Ok(())
}

#[test]
fn the_free_head_is_taken_and_its_next_becomes_the_head(rt: HostRuntime) -> Result<(), Fail> {
    let cases = [
        Case {
            before: Store::new(3, 1, 2, [vacant(S), held(20), vacant(0), vacant(9)]),
            slot: 2,
            after: Store::new(3, 2, 0, [vacant(S), held(20), held(70), vacant(9)]),
        },
        Case {
            before: Store::new(3, 2, 0, [vacant(S), held(20), held(30), vacant(9)]),
            slot: 0,
            after: Store::new(3, 3, S, [held(70), held(20), held(30), vacant(9)]),
        },
        Case {
            before: Store::new(4, 3, 3, [held(10), held(20), held(30), vacant(S)]),
            slot: 3,
            after: Store::new(4, 4, S, [held(10), held(20), held(30), held(70)]),
        },
        // the next is taken over as it is, even if it is no slot
        Case {
            before: Store::new(2, 1, 1, [held(10), vacant(9), vacant(S), vacant(S)]),
            slot: 1,
            after: Store::new(2, 2, 9, [held(10), held(70), vacant(S), vacant(S)]),
        },
        // more slots in use than there are
        Case {
            before: Store::new(9, 3, 3, [held(10), held(20), held(30), vacant(S)]),
            slot: 3,
            after: Store::new(9, 4, S, [held(10), held(20), held(30), held(70)]),
        },
        // the last count of items that can go up
        Case {
            before: Store::new(1, 4294967294, 0, [vacant(S), held(20), held(30), held(40)]),
            slot: 0,
            after: Store::new(1, 4294967295, S, [held(70), held(20), held(30), held(40)]),
        },
    ];
    for case in cases {
        takes(&rt, case)?;
    }
    Ok(())
}

#[test]
fn what_no_slot_takes_comes_back_and_changes_nothing(rt: HostRuntime) -> Result<(), Fail> {
    let full = [held(10), held(20), held(30), held(40)];
    let free = [vacant(S), held(20), vacant(0), vacant(S)];
    let cases = [
        // every slot is in use, and none is free
        Store::new(4, 4, S, full),
        Store::new(4, 1, S, free),
        // more slots in use than there are
        Store::new(5, 4, S, full),
        Store::new(S, 4, S, full),
        // no more items can be counted
        Store::new(0, S, S, free),
        Store::new(3, S, 2, free),
        // the free head is no slot
        Store::new(3, 1, 4, free),
        Store::new(3, 1, 4294967294, free),
        Store::new(9, 1, 4, free),
        // it is a slot that is not in use
        Store::new(3, 1, 3, free),
        Store::new(0, 0, 0, free),
        // it holds an item
        Store::new(3, 1, 1, free),
        Store::new(4, 4, 3, full),
    ];
    for case in cases {
        refuses(&rt, case)?;
    }
    Ok(())
}

#[test]
fn no_slots_take_no_item(rt: HostRuntime) -> Result<(), Fail> {
    let mut slots: [ItemSlot<u32>; 0] = [];
    let mut set = ItemSet::new();
    assert_eq!(rt; set.insert(&mut slots, 70), Err(NoSlot { item: 70 }));
    assert_eq!(rt; set, numbers(0, 0, S));
    Ok(())
}
