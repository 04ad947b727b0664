// A long run of inserts and removals, held to a plain array of what each slot should hold.
use crate::store::{S, vacant};
use item_set::{ItemIndex, ItemSet, ItemSlot};
use std::process::Abort;
use std::test::*;

const SLOTS: usize = 12;

/// A store, and beside it what each of its slots should hold.
#[derive(Clone, Copy)]
struct Churned {
    numbers: ItemSet,
    slots: [ItemSlot<u32>; SLOTS],
    // what each slot should hold: an array, since a slot's number is its place there
    model: [Option<u32>; SLOTS],
}

// As in the other long runs: the crates of tests have no helpers in common, so that each can be read by itself.
/// The next of a row of numbers that look like chance.
fn following(x: u32) -> u32 {
    x.wrapping_mul(1664525).wrapping_add(1013904223)
}

impl Churned {
    fn new() -> Churned {
        Churned {
            numbers: ItemSet::new(),
            slots: [vacant(S); SLOTS],
            model: [None; SLOTS],
        }
    }

    fn check_slots(&self, rt: &impl Abort) -> Result<(), Fail> {
        assert_eq!(rt; self.numbers.validate(&self.slots), Ok(()));
        for (n, item) in (0..).zip(&self.model) {
            let index = ItemIndex::new(n);
            assert_eq!(rt; self.numbers.get(&self.slots, index), *item);
        }
        Ok(())
    }

    fn insert_one(&mut self, rt: &impl Abort, item: u32) -> Result<(), Fail> {
        let full = self.numbers.len as usize == SLOTS;
        match self.numbers.insert(&mut self.slots, item) {
            Ok(index) => {
                let at = index.as_u32() as usize;
                assert!(rt; at < SLOTS);
                assert_eq!(rt; self.model[at], None);
                self.model[at] = Some(item);
                assert!(rt; !full);
            }
            Err(refused) => {
                assert_eq!(rt; refused.item, item);
                assert!(rt; full);
            }
        }
        Ok(())
    }

    fn remove_one(&mut self, rt: &impl Abort, n: u32) -> Result<(), Fail> {
        let at = n as usize;
        assert!(rt; at < SLOTS);
        let answer = self.numbers.remove(&mut self.slots, ItemIndex::new(n));
        assert_eq!(rt; answer, self.model[at]);
        self.model[at] = None;
        Ok(())
    }
}

#[test]
fn a_long_run_keeps_every_item_in_its_slot(rt: HostRuntime) -> Result<(), Fail> {
    let mut churned = Churned::new();
    let mut x = 7;
    for _ in 0..2000 {
        x = following(x);
        // more inserts than removals, so that the store is often full
        if x >> 24 < 150 {
            churned.insert_one(&rt, x)?;
        } else {
            churned.remove_one(&rt, (x >> 8) % SLOTS as u32)?;
        }
        churned.check_slots(&rt)?;
    }
    Ok(())
}
