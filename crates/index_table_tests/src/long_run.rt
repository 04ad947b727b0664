// A long run of places opened and closed, held to a row of plain numbers.
use crate::memory::entry;
use index_table::{Index, close_place, open_place};
use std::process::Abort;
use std::test::*;

const PLACES: usize = 8;

// As in the other long runs: the crates of tests have no helpers in common, so that each can be read by itself.
/// The next of a row of numbers that look like chance.
fn following(x: u32) -> u32 {
    x.wrapping_mul(1664525).wrapping_add(1013904223)
}

/// A table, and beside it the slots that its places in use should name.
#[derive(Drop)]
struct Run {
    table: [Index; PLACES],
    row: Vec<u32>,
}

impl Run {
    /// Opens a place, if there is room for it.
    fn open_one(&mut self, place: usize, slot: u32) -> Result<(), Fail> {
        let len = self.row.len();
        open_place(&mut self.table, len, place, entry(slot)?);
        if len < PLACES && place <= len {
            self.row.insert(place, slot)?;
        }
        Ok(())
    }

    /// Closes a place, if it is in use.
    fn close_one(&mut self, place: usize) {
        let len = self.row.len();
        close_place(&mut self.table, len, place);
        if place < len {
            self.row.remove(place);
        }
    }

    /// The entries in use are those of the row, and the others are as they were.
    fn check_table(&self, rt: &impl Abort, before: &[Index; PLACES]) -> Result<(), Fail> {
        for (place, old) in before.iter().enumerate() {
            let expected = match self.row.get(place) {
                Some(slot) => entry(*slot)?,
                None => *old,
            };
            assert_eq!(rt; self.table[place], expected, "place {place}");
        }
        Ok(())
    }
}

#[test]
fn a_long_run_keeps_the_entries_in_order(rt: HostRuntime) -> Result<(), Fail> {
    let mut run = Run {
        table: [entry(99)?; PLACES],
        row: Vec::new(rt.alloc()),
    };
    let mut x = 7;
    for _ in 0..600 {
        x = following(x);
        let before = run.table;
        let place = ((x >> 8) % 10) as usize;
        // more places opened than closed, so that the table is often full
        if x >> 24 < 160 {
            run.open_one(place, x)?;
        } else {
            run.close_one(place);
        }
        run.check_table(&rt, &before)?;
    }
    Ok(())
}
