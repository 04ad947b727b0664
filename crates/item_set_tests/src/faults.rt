// Tests of the fault that is found where a store's numbers and slots do not agree.
use crate::store::{S, Store, held, numbers, vacant};
use item_set::{ItemSet, ItemSlot};
use std::process::Abort;
use std::test::*;

// a fault is named by its number here, since the numbers are what a caller goes by
const COUNT: u8 = 11;

const CHAIN_RANGE: u8 = 12;

const CHAIN_OCCUPIED: u8 = 13;

const CHAIN_LONG: u8 = 14;

const CHAIN_SHORT: u8 = 15;

fn finds(
    rt: &impl Abort,
    numbers: ItemSet,
    slots: &[ItemSlot<u32>],
    number: u8,
    place: u32,
) -> Result<(), Fail> {
    let Err(fault) = numbers.validate(slots) else {
        return Err(Fail::new("no fault was found"));
    };
    assert_eq!(rt; fault.number(), number);
    assert_eq!(rt; fault.place(), place);
    Ok(())
}

/// Each store has the fault, at the place that stands beside it.
fn finds_in_each(rt: &impl Abort, number: u8, cases: &[(Store, u32)]) -> Result<(), Fail> {
    for (store, place) in cases {
        finds(rt, store.numbers, &store.slots, number, *place)?;
    }
    Ok(())
}

#[test]
fn a_count_that_is_not_len(rt: HostRuntime) -> Result<(), Fail> {
    let full = [held(10), held(20), held(30), held(40)];
    finds_in_each(
        &rt,
        COUNT,
        &[
            (
                Store::new(3, 3, 2, [held(10), held(20), vacant(S), vacant(S)]),
                2,
            ),
            (
                Store::new(4, 1, S, [held(10), held(20), held(30), vacant(S)]),
                3,
            ),
            (
                Store::new(2, 1, 0, [vacant(1), vacant(S), vacant(S), vacant(S)]),
                0,
            ),
            // items past `used` are not counted
            (Store::new(1, 2, S, full), 1),
            (Store::new(3, 4, S, full), 3),
            // the count is tested before the chain
            (
                Store::new(3, 1, 7, [held(10), held(20), vacant(S), vacant(S)]),
                2,
            ),
            // where more slots are in use than there are, all of them are
            (Store::new(9, 9, S, full), 4),
            (Store::new(4, S, S, full), 4),
        ],
    )
}

#[test]
fn a_chain_that_reaches_no_slot_in_use(rt: HostRuntime) -> Result<(), Fail> {
    finds_in_each(
        &rt,
        CHAIN_RANGE,
        &[
            (
                Store::new(2, 1, 7, [held(10), vacant(S), vacant(S), vacant(S)]),
                7,
            ),
            (
                Store::new(4, 2, 1, [held(10), vacant(3), held(30), vacant(5)]),
                5,
            ),
            (
                Store::new(4, 3, 4294967294, [vacant(S), held(20), held(30), held(40)]),
                4294967294,
            ),
            // slot 2 is vacant, but not in use
            (
                Store::new(2, 1, 1, [held(10), vacant(2), vacant(S), vacant(S)]),
                2,
            ),
            // no slot is vacant
            (
                Store::new(4, 4, 4, [held(10), held(20), held(30), held(40)]),
                4,
            ),
            // more slots are in use than there are
            (
                Store::new(9, 3, 5, [held(10), held(20), held(30), vacant(S)]),
                5,
            ),
        ],
    )
}

#[test]
fn a_chain_that_reaches_an_item(rt: HostRuntime) -> Result<(), Fail> {
    finds_in_each(
        &rt,
        CHAIN_OCCUPIED,
        &[
            (
                Store::new(3, 1, 2, [vacant(1), vacant(S), held(30), vacant(S)]),
                2,
            ),
            (
                Store::new(4, 2, 0, [vacant(2), held(20), vacant(3), held(40)]),
                3,
            ),
            // no slot is vacant
            (
                Store::new(4, 4, 1, [held(10), held(20), held(30), held(40)]),
                1,
            ),
        ],
    )
}

#[test]
fn a_chain_that_meets_a_slot_too_many(rt: HostRuntime) -> Result<(), Fail> {
    finds_in_each(
        &rt,
        CHAIN_LONG,
        &[
            // 1, 3, then 3 again
            (
                Store::new(4, 2, 1, [held(10), vacant(3), held(30), vacant(3)]),
                3,
            ),
            // 2, 0, then 2 again
            (
                Store::new(3, 1, 2, [vacant(2), held(20), vacant(0), vacant(S)]),
                2,
            ),
            // 1, four times: three slots are vacant
            (
                Store::new(3, 0, 1, [vacant(S), vacant(1), vacant(S), vacant(S)]),
                1,
            ),
        ],
    )
}

#[test]
fn a_chain_that_misses_a_vacant_slot(rt: HostRuntime) -> Result<(), Fail> {
    finds_in_each(
        &rt,
        CHAIN_SHORT,
        &[
            (
                Store::new(4, 3, S, [held(10), held(20), vacant(S), held(40)]),
                0,
            ),
            (
                Store::new(4, 2, 0, [vacant(S), held(20), vacant(S), held(40)]),
                1,
            ),
            (
                Store::new(4, 0, 3, [vacant(S), vacant(0), vacant(1), vacant(1)]),
                3,
            ),
        ],
    )
}

#[test]
fn stores_of_every_size(rt: HostRuntime) -> Result<(), Fail> {
    finds(&rt, numbers(1, 1, S), &[], COUNT, 0)?;
    finds(&rt, numbers(1, 0, S), &[held(10)], COUNT, 1)?;
    finds(&rt, numbers(0, 0, 0), &[], CHAIN_RANGE, 0)?;
    finds(&rt, numbers(1, 0, 0), &[vacant(5)], CHAIN_RANGE, 5)?;
    finds(&rt, numbers(1, 1, 0), &[held(10)], CHAIN_OCCUPIED, 0)?;
    finds(&rt, numbers(1, 0, 0), &[vacant(0)], CHAIN_LONG, 0)?;
    let circle = [held(10), vacant(4), held(20), held(30), vacant(4)];
    finds(&rt, numbers(5, 3, 1), &circle, CHAIN_LONG, 4)?;
    finds(&rt, numbers(1, 0, S), &[vacant(S)], CHAIN_SHORT, 0)?;
    let apart = [vacant(S), vacant(0), vacant(S)];
    finds(&rt, numbers(3, 0, 1), &apart, CHAIN_SHORT, 2)
}
