// A long mixed run of calls, held at every step to the standard library's map of the stays that should stand.
ghost use Rattle.id_ord_law.specs.Parts.{Sound};
ghost use Rattle.id_ord_map.specs.View.{view};
ghost use Rattle.panel_items.specs.Stay.{by_berth_then_from};

use crate::memory::{S, at, entries, of_vessel, scratch, vacant};
use id_ord_item::KeepFirst;
use id_ord_map::IdOrdMap;
use panel_items::Stay;
use std::collections::BTreeMap;
use std::process::Abort;
use std::test::Fail;

/// How many keys there are: the minutes below 8 at berth 4.
const KEYS: u32 = 8;

/// How many stays the map can hold.
const CAPACITY: usize = 6;

// As in the other long runs: the crates of tests have no helpers in common, so that each can be read by itself.
/// The next of a row of numbers that look like chance.
fn following(x: u32) -> u32 {
    x.wrapping_mul(1664525).wrapping_add(1013904223)
}

/// A map, and the stays that should stand in it, each under the minute it begins.
///
/// Each call is made on both, and they must agree on the answer.
#[derive(Drop)]
struct Run<'a> {
    map: IdOrdMap<'a, Stay>,
    standing: BTreeMap<u32, Stay>,
}

impl Run<'_> {
    fn has_room(&self) -> bool {
        self.standing.len() < CAPACITY
    }

    fn insert_unique(&mut self, rt: &impl Abort, stay: Stay) -> Result<(), Fail>
        requires sound { Sound by_berth_then_from (view self.old.map) }
        ensures sound { Sound by_berth_then_from (view self.new.map) }
    {
        let fits = self.has_room() && !self.standing.contains_key(&stay.from);
        if fits {
            self.standing.insert(stay.from, stay)?;
        }
        assert_eq!(rt; self.map.insert_unique(stay).is_ok(), fits);
        Ok(())
    }

    fn or_insert(&mut self, rt: &impl Abort, stay: Stay) -> Result<(), Fail>
        requires sound { Sound by_berth_then_from (view self.old.map) }
        ensures sound { Sound by_berth_then_from (view self.new.map) }
    {
        let has_room = self.has_room();
        let stands = self.standing.contains_key(&stay.from);
        if has_room && !stands {
            self.standing.insert(stay.from, stay)?;
        }
        let entry = self.map.entry(&at(stay.berth, stay.from));
        let made = entry.or_insert(&mut self.map, stay);
        assert_eq!(rt; made.is_ok(), has_room || stands);
        Ok(())
    }

    fn insert_overwrite(&mut self, rt: &impl Abort, stay: Stay) -> Result<(), Fail>
        requires sound { Sound by_berth_then_from (view self.old.map) }
        ensures sound { Sound by_berth_then_from (view self.new.map) }
    {
        let fits = self.has_room() || self.standing.contains_key(&stay.from);
        let expected = if fits {
            Some(self.standing.insert(stay.from, stay)?)
        } else {
            None
        };
        assert_eq!(rt; self.map.insert_overwrite(stay).ok(), expected);
        Ok(())
    }

    fn pop_first(&mut self, rt: &impl Abort)
        requires sound { Sound by_berth_then_from (view self.old.map) }
        ensures sound { Sound by_berth_then_from (view self.new.map) }
    {
        let first = self.standing.pop_first().map(|(_, stay)| stay);
        assert_eq!(rt; self.map.pop_first(), first);
    }

    fn pop_last(&mut self, rt: &impl Abort)
        requires sound { Sound by_berth_then_from (view self.old.map) }
        ensures sound { Sound by_berth_then_from (view self.new.map) }
    {
        let last = self.standing.pop_last().map(|(_, stay)| stay);
        assert_eq!(rt; self.map.pop_last(), last);
    }

    fn remove(&mut self, rt: &impl Abort, from: u32)
        requires sound { Sound by_berth_then_from (view self.old.map) }
        ensures sound { Sound by_berth_then_from (view self.new.map) }
    {
        assert_eq!(rt; self.map.remove(&at(4, from)), self.standing.remove(&from));
    }

    fn keep_first(&mut self, most: u32) -> Result<(), Fail>
        requires sound { Sound by_berth_then_from (view self.old.map) }
        ensures sound { Sound by_berth_then_from (view self.new.map) }
    {
        let standing = &mut self.standing;
        for _ in most as usize..standing.len() {
            standing.pop_last();
        }
        self.map.retain(&mut KeepFirst { left: most })?;
        Ok(())
    }

    fn clear_and_adopt(&mut self) -> Result<(), Fail>
        requires sound { Sound by_berth_then_from (view self.old.map) }
        ensures sound { Sound by_berth_then_from (view self.new.map) }
    {
        let kept = self.map.items();
        self.map.clear();
        self.map
            .adopt(kept.used, kept.len, kept.free_head, kept.len)?;
        Ok(())
    }

    fn put_back(&mut self, rt: &impl Abort, stay: Stay) -> Result<(), Fail>
        requires sound { Sound by_berth_then_from (view self.old.map) }
        ensures sound { Sound by_berth_then_from (view self.new.map) }
    {
        let Some(mut item) = self.map.get_mut(&stay) else {
            assert_eq!(rt; self.standing.get(&stay.from), None);
            return Ok(());
        };
        self.standing.insert(stay.from, stay)?;
        item.set(stay);
        item.put_back(&mut self.map)?;
        Ok(())
    }

    /// One call, chosen by a number that looks like chance.
    fn make_one_call(&mut self, rt: &impl Abort, x: u32) -> Result<(), Fail>
        requires sound { Sound by_berth_then_from (view self.old.map) }
        ensures sound { Sound by_berth_then_from (view self.new.map) }
    {
        let from = (x >> 8) % KEYS;
        let stay = of_vessel(4, from, u64::from(x));
        // more stays are added than taken out, so that the map is often full
        match (x >> 28, (x >> 16) % 4) {
            (0..=7, 0) => self.insert_unique(rt, stay)?,
            (0..=7, 1) => self.or_insert(rt, stay)?,
            (0..=7, _) => self.insert_overwrite(rt, stay)?,
            (8..=11, 0) => self.pop_first(rt),
            (8..=11, 1) => self.pop_last(rt),
            (8..=11, _) => self.remove(rt, from),
            (_, 0) => {
                self.map.shrink_to_fit(&mut scratch([7; CAPACITY]))?;
            },
            (_, 1) => self.keep_first(4)?,
            (_, 2) => self.clear_and_adopt()?,
            _ => self.put_back(rt, stay)?,
        }
        Ok(())
    }

    /// The walk of the map is what should stand, after the call that this number chose.
    fn check_walk(&self, rt: &impl Abort, x: u32)
        requires sound { Sound by_berth_then_from (view self.now.map) }
    {
        for from in 0..KEYS {
            let stay = self.standing.get(&from).copied();
            assert_eq!(rt; self.map.get(&at(4, from)), stay, "after {x}");
        }
        for (place, stay) in self.standing.values().enumerate() {
            assert_eq!(rt; self.map.iter(place), Some(*stay), "after {x}");
        }
        let len = self.standing.len();
        assert_eq!(rt; self.map.iter(len), None, "after {x}");
        assert_eq!(rt; self.map.len() as usize, len, "after {x}");
    }
}

#[test]
fn a_long_run_keeps_to_the_array(rt: HostRuntime) -> Result<(), Fail> {
    let mut slots = [vacant(S); CAPACITY];
    let mut table = entries([9; CAPACITY])?;
    let mut run = Run {
        map: IdOrdMap::new(&mut slots, &mut table),
        standing: BTreeMap::new(rt.alloc()),
    };
    let mut x = 7;
    for _ in 0..2000 {
        x = following(x);
        run.make_one_call(&rt, x)?;
        run.check_walk(&rt, x);
    }
    Ok(())
}
