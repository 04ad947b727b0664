// Tests of what a store gives of its slots, new, in use and cleared.
use crate::store::{S, Store, held, numbers, vacant};
use item_set::{ItemIndex, ItemSet, ItemSlot, item_at};
use std::test::*;

#[test]
fn a_new_store_has_no_slot_in_use(rt: HostRuntime) -> Result<(), Fail> {
    let new = ItemSet::new();
    assert_eq!(rt; new, numbers(0, 0, S));
    assert_eq!(rt; new.get(&[held(10)], ItemIndex::new(0)), None);
    Ok(())
}

#[test]
fn an_item_is_given_only_by_an_occupied_slot_in_use(rt: HostRuntime) -> Result<(), Fail> {
    let slots = [held(10), vacant(S), held(30), held(40)];
    let cases = [
        (3, 0, Some(10)),
        (3, 1, None),
        (3, 2, Some(30)),
        // slot 3 is past `used`
        (3, 3, None),
        (4, 3, Some(40)),
        (4, 4, None),
        (4, S, None),
        (0, 0, None),
        // more slots in use than there are
        (9, 3, Some(40)),
        (9, 4, None),
        (S, 0, Some(10)),
        (S, 4294967294, None),
    ];
    for (used, index, expected) in cases {
        let numbers = numbers(used, 2, 1);
        assert_eq!(rt;
            numbers.get(&slots, ItemIndex::new(index)),
            expected,
            "slot {index} of {used} in use"
        );
    }
    Ok(())
}

#[test]
fn no_slots_give_no_item(rt: HostRuntime) -> Result<(), Fail> {
    let slots: [ItemSlot<u32>; 0] = [];
    assert_eq!(rt; numbers(1, 1, S).get(&slots, ItemIndex::new(0)), None);
    assert_eq!(rt; item_at(&slots, ItemIndex::new(0)), None);
    Ok(())
}

#[test]
fn item_at_looks_at_every_slot_it_is_handed(rt: HostRuntime) -> Result<(), Fail> {
    let slots = [held(10), vacant(0), held(30), held(40)];
    let cases = [
        (0, Some(10)),
        (1, None),
        (2, Some(30)),
        (3, Some(40)),
        (4, None),
        (S, None),
    ];
    for (index, expected) in cases {
        assert_eq!(rt;
            item_at(&slots, ItemIndex::new(index)),
            expected,
            "slot {index}"
        );
    }
    Ok(())
}

#[test]
fn a_cleared_store_is_as_a_new_one(rt: HostRuntime) -> Result<(), Fail> {
    let slots = [held(10), vacant(S), held(30), held(40)];
    let cases = [
        Store::new(4, 3, 1, slots),
        Store::new(0, 0, S, slots),
        Store::new(S, S, 0, slots),
    ];
    for mut case in cases {
        case.numbers.clear();
        assert_eq!(rt; case.numbers, ItemSet::new());
        assert_eq!(rt; case.numbers.get(&case.slots, ItemIndex::new(0)), None);
        assert_eq!(rt; case.numbers.get(&case.slots, ItemIndex::new(3)), None);
    }
    Ok(())
}
