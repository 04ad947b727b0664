// Tests of putting an item in the place of another.
use crate::store::{S, Store, held, numbers, vacant};
use item_set::{ItemIndex, ItemSlot, NotHeld};
use std::test::*;

#[test]
fn the_old_item_is_answered_and_one_slot_is_written(rt: HostRuntime) -> Result<(), Fail> {
    let before = [held(10), vacant(S), held(30), held(40)];
    let cases = [
        (3, 0, 10, [held(70), vacant(S), held(30), held(40)]),
        (3, 2, 30, [held(10), vacant(S), held(70), held(40)]),
        (4, 3, 40, [held(10), vacant(S), held(30), held(70)]),
        // more slots in use than there are
        (9, 3, 40, [held(10), vacant(S), held(30), held(70)]),
    ];
    for (used, slot, old, after) in cases {
        let mut store = Store::new(used, 2, 1, before);
        let answer = store
            .numbers
            .replace(&mut store.slots, ItemIndex::new(slot), 70);
        assert_eq!(rt; answer, Ok(old));
        assert_eq!(rt; store, Store::new(used, 2, 1, after));
    }
    Ok(())
}

#[test]
fn where_no_item_is_held_the_item_comes_back(rt: HostRuntime) -> Result<(), Fail> {
    let before = Store::new(3, 2, 1, [held(10), vacant(S), held(30), held(40)]);
    // vacant, past `used`, no slot
    for slot in [1, 3, 4, 4294967294, S] {
        let mut store = before;
        let answer = store
            .numbers
            .replace(&mut store.slots, ItemIndex::new(slot), 70);
        assert_eq!(rt; answer, Err(NotHeld { item: 70 }), "slot {slot}");
        assert_eq!(rt; store, before);
    }
    Ok(())
}

#[test]
fn no_slots_hold_nothing_to_replace(rt: HostRuntime) -> Result<(), Fail> {
    let mut slots: [ItemSlot<u32>; 0] = [];
    let answer = numbers(1, 1, S).replace(&mut slots, ItemIndex::new(0), 70);
    assert_eq!(rt; answer, Err(NotHeld { item: 70 }));
    Ok(())
}
