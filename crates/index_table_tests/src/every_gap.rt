// Tests of looking for every key, and in every gap, of tables of up to nine entries.
use crate::lookup::check_found;
use crate::memory::{entry, held, vacant};
use index_table::Index;
use item_set::ItemSlot;
use panel_items::Stay;
use std::process::Abort;
use std::test::*;

const MOST: usize = 9;

/// The key of each place, and one more that no slot holds.
const KEYS: [u32; 10] = [10, 20, 30, 40, 50, 60, 70, 80, 90, 100];

/// The slot of each place.
const SHUFFLED: [u32; MOST] = [4, 7, 0, 8, 2, 5, 1, 6, 3];

/// Nine stays at berth 4 in shuffled slots, and the table of them.
#[derive(Clone, Copy)]
struct Row {
    slots: [ItemSlot<Stay>; MOST],
    table: [Index; MOST],
}

impl Row {
    /// The row with each stay so many slots on.
    fn turned(by: u32) -> Result<Row, Fail> {
        let mut slots = [vacant(); MOST];
        let mut table = [entry(0)?; MOST];
        for (place, (shuffled, from)) in SHUFFLED.iter().zip(KEYS).enumerate() {
            let slot = shuffled.wrapping_add(by) % 9;
            slots[slot as usize] = held(4, from);
            table[place] = entry(slot)?;
        }
        Ok(Row { slots, table })
    }

    /// Looks for a key among the first `len` entries.
    fn finds(
        &self,
        rt: &impl Abort,
        len: usize,
        from: u32,
        answer: (Option<u32>, usize),
    ) -> Result<(), Fail> {
        assert!(rt; len <= MOST);
        check_found(rt, &self.slots, &self.table[0..len], (4, from), answer)
    }

    /// Looks for each key of the first `len` entries, and below, between and above them.
    fn has_each_key(&self, rt: &impl Abort, len: usize) -> Result<(), Fail> {
        assert!(rt; len <= MOST);
        for (place, (entry, from)) in self.table[0..len].iter().zip(KEYS).enumerate() {
            let slot = entry.value().as_u32();
            self.finds(rt, len, from.saturating_sub(5), (None, place))?;
            self.finds(rt, len, from, (Some(slot), place))?;
        }
        self.finds(rt, len, KEYS[len].saturating_sub(5), (None, len))?;
        // a slot may hold the next key, but no entry names it
        self.finds(rt, len, KEYS[len], (None, len))
    }
}

#[test]
fn every_key_and_every_gap(rt: HostRuntime) -> Result<(), Fail> {
    for by in 0..9 {
        let row = Row::turned(by)?;
        for len in 0..10 {
            row.has_each_key(&rt, len)?;
        }
    }
    Ok(())
}
