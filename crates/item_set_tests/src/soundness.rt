// Tests of the stores that are sound, and of those that are compact.
use crate::store::{S, Store, held, numbers, vacant};
use item_set::{ItemSet, ItemSetFault, ItemSlot, ValidateCompact};
use std::test::*;

#[test]
fn the_chain_of_a_sound_store_meets_every_vacant_slot_in_use(rt: HostRuntime) -> Result<(), Fail> {
    let cases = [
        // no slot in use, whatever the slots hold
        Store::new(0, 0, S, [vacant(S), vacant(S), vacant(S), vacant(S)]),
        Store::new(0, 0, S, [held(10), vacant(0), vacant(9), held(40)]),
        // every slot in use holds an item
        Store::new(4, 4, S, [held(10), held(20), held(30), held(40)]),
        Store::new(2, 2, S, [held(10), held(20), vacant(0), vacant(9)]),
        // items past `used` are not counted
        Store::new(1, 1, S, [held(10), held(20), held(30), held(40)]),
        // the chain goes through some slots, in any order
        Store::new(3, 1, 0, [vacant(2), held(20), vacant(S), vacant(S)]),
        Store::new(3, 1, 2, [vacant(S), held(20), vacant(0), vacant(S)]),
        Store::new(4, 0, 2, [vacant(3), vacant(S), vacant(0), vacant(1)]),
        // where more slots are in use than there are, all of them are
        Store::new(9, 3, 1, [held(10), vacant(S), held(30), held(40)]),
    ];
    for store in cases {
        assert_eq!(rt; store.numbers.validate(&store.slots), Ok(()));
    }
    Ok(())
}

#[test]
fn a_store_without_slots_is_sound_if_it_counts_none(rt: HostRuntime) -> Result<(), Fail> {
    let slots: [ItemSlot<u32>; 0] = [];
    assert_eq!(rt; ItemSet::new().validate(&slots), Ok(()));
    assert_eq!(rt; numbers(2, 0, S).validate(&slots), Ok(()));
    Ok(())
}

#[test]
fn only_a_store_that_is_to_be_compact_is_refused_its_vacant_slots(
    rt: HostRuntime,
) -> Result<(), Fail> {
    let cases = [
        (0, 0, Ok(())),
        (3, 3, Ok(())),
        (2, 1, Err(ItemSetFault::NotCompact { vacant: 1 })),
        (5, 3, Err(ItemSetFault::NotCompact { vacant: 2 })),
        (S, 0, Err(ItemSetFault::NotCompact { vacant: S })),
        // more items than slots in use
        (1, 3, Ok(())),
        (0, S, Ok(())),
    ];
    for (used, len, answer) in cases {
        let numbers = numbers(used, len, 1);
        assert_eq!(rt; numbers.validate_compact(ValidateCompact::Compact), answer);
        assert_eq!(rt;
            numbers.validate_compact(ValidateCompact::NonCompact),
            Ok(())
        );
    }
    Ok(())
}
