// Tests of slots that are freed and taken again.
use crate::store::{S, Store, held, vacant};
use item_set::{ItemIndex, NoSlot};
use std::process::Abort;
use std::test::*;

/// A store into which the items 10, 20, 30 and 40 were put, in this order.
fn filled(rt: &impl Abort) -> Result<Store, Fail> {
    let mut store = Store::new(0, 0, S, [vacant(S), vacant(S), vacant(S), vacant(S)]);
    for (slot, item) in [(0, 10), (1, 20), (2, 30), (3, 40)] {
        put(rt, &mut store, item, slot)?;
    }
    Ok(store)
}

fn put(rt: &impl Abort, store: &mut Store, item: u32, slot: u32) -> Result<(), Fail> {
    let answer = store.numbers.insert(&mut store.slots, item);
    assert_eq!(rt; answer, Ok(ItemIndex::new(slot)));
    Ok(())
}

fn take(rt: &impl Abort, store: &mut Store, slot: u32, item: u32) -> Result<(), Fail> {
    let answer = store.numbers.remove(&mut store.slots, ItemIndex::new(slot));
    assert_eq!(rt; answer, Some(item));
    Ok(())
}

#[test]
fn slots_are_first_taken_from_0_on(rt: HostRuntime) -> Result<(), Fail> {
    let filled = filled(&rt)?;
    assert_eq!(rt;
        filled,
        Store::new(4, 4, S, [held(10), held(20), held(30), held(40)])
    );
    Ok(())
}

#[test]
fn the_slot_freed_last_is_taken_first(rt: HostRuntime) -> Result<(), Fail> {
    let mut churned = filled(&rt)?;
    take(&rt, &mut churned, 2, 30)?;
    take(&rt, &mut churned, 0, 10)?;
    assert_eq!(rt;
        churned,
        Store::new(4, 2, 0, [vacant(2), held(20), vacant(S), held(40)])
    );
    put(&rt, &mut churned, 50, 0)?;
    put(&rt, &mut churned, 60, 2)?;
    assert_eq!(rt;
        churned,
        Store::new(4, 4, S, [held(50), held(20), held(60), held(40)])
    );
    let answer = churned.numbers.insert(&mut churned.slots, 70);
    assert_eq!(rt; answer, Err(NoSlot { item: 70 }));
    Ok(())
}

#[test]
fn every_freed_slot_is_taken_before_a_further_one(rt: HostRuntime) -> Result<(), Fail> {
    let mut store = Store::new(3, 3, S, [held(10), held(20), held(30), vacant(S)]);
    for (slot, item) in [(1, 20), (0, 10), (2, 30)] {
        take(&rt, &mut store, slot, item)?;
    }
    assert_eq!(rt; store.numbers.len, 0);
    assert_eq!(rt; store.numbers.used, 3);
    for (slot, item) in [(2, 50), (0, 60), (1, 70), (3, 80)] {
        put(&rt, &mut store, item, slot)?;
    }
    assert_eq!(rt; store.numbers.used, 4);
    Ok(())
}

#[test]
fn one_item_that_comes_and_goes_stays_in_slot_0(rt: HostRuntime) -> Result<(), Fail> {
    let mut store = Store::new(0, 0, S, [vacant(S), vacant(S), vacant(S), vacant(S)]);
    for round in 0..100 {
        put(&rt, &mut store, round, 0)?;
        take(&rt, &mut store, 0, round)?;
    }
    assert_eq!(rt; store.numbers.used, 1);
    assert_eq!(rt; store.numbers.len, 0);
    Ok(())
}

#[test]
fn after_a_clear_the_slots_are_taken_from_0_again(rt: HostRuntime) -> Result<(), Fail> {
    let mut cleared = filled(&rt)?;
    take(&rt, &mut cleared, 2, 30)?;
    cleared.numbers.clear();
    assert_eq!(rt;
        cleared,
        Store::new(0, 0, S, [held(10), held(20), vacant(S), held(40)])
    );
    put(&rt, &mut cleared, 50, 0)?;
    assert_eq!(rt;
        cleared,
        Store::new(1, 1, S, [held(50), held(20), vacant(S), held(40)])
    );
    put(&rt, &mut cleared, 60, 1)?;
    put(&rt, &mut cleared, 70, 2)?;
    assert_eq!(rt;
        cleared,
        Store::new(3, 3, S, [held(50), held(60), held(70), held(40)])
    );
    Ok(())
}
