// Tests of compaction over every pattern of occupied and vacant slots.
ghost use Rattle.std.specs.Prelude.{◌<◌};

use crate::store::{S, vacant};
use item_set::{
    CompactRefusal, IndexRemap, ItemIndex, ItemSet, ItemSlot, RemapRefusal, ValidateCompact,
};
use std::process::Abort;
use std::test::*;

/// A store of six slots and what its compaction needs.
#[derive(Clone, Copy)]
struct Row {
    numbers: ItemSet,
    slots: [ItemSlot<u32>; 6],
    scratch: [ItemIndex; 6],
}

/// Whether the slot is one of the pattern.
fn contains(pattern: u32, slot: u32) -> bool
    requires { slot < 32 }
{
    pattern >> slot & 1 == 1
}

impl Row {
    /// The items 100 to 105 in the slots 0 to 5.
    fn full(rt: &impl Abort) -> Result<Row, Fail> {
        let mut row = Row {
            numbers: ItemSet::new(),
            slots: [vacant(S); 6],
            scratch: [ItemIndex::new(7); 6],
        };
        for at in 0..6 {
            let answer = row.numbers.insert(&mut row.slots, 100 + at);
            assert_eq!(rt; answer, Ok(ItemIndex::new(at)));
        }
        Ok(row)
    }

    /// Takes out the items of the slots that are not in the pattern.
    fn thin_out(&mut self, rt: &impl Abort, pattern: u32) -> Result<(), Fail> {
        for at in 0..6 {
            if !contains(pattern, at) {
                let answer = self.numbers.remove(&mut self.slots, ItemIndex::new(at));
                assert_eq!(rt; answer, Some(100 + at));
            }
        }
        Ok(())
    }

    fn compact(&mut self) -> Result<IndexRemap, CompactRefusal> {
        self.numbers.compact(&mut self.slots, &mut self.scratch)
    }

    /// The items of the pattern stand from slot 0 on, under the numbers that the remap answers.
    fn stand_in_order(&self, rt: &impl Abort, remap: IndexRemap, pattern: u32) -> Result<(), Fail> {
        // numbers the slots of the pattern alone, so it is no count of the rounds
        let mut new: u32 = 0;
        for at in 0..6 {
            let found = remap.remap(&self.scratch, ItemIndex::new(at));
            if contains(pattern, at) {
                assert_eq!(rt; found, Ok(ItemIndex::new(new)));
                let item = self.numbers.get(&self.slots, ItemIndex::new(new));
                assert_eq!(rt; item, Some(100 + at));
                new = new.wrapping_add(1);
            } else {
                assert_eq!(rt; found, Err(RemapRefusal::Gone));
            }
        }
        assert_eq!(rt; self.numbers.len, new);
        assert_eq!(rt; self.numbers.used, new);
        Ok(())
    }

    /// Each slot past the items is vacant and names no other.
    fn end_vacant(&self, rt: &impl Abort) -> Result<(), Fail> {
        for slot in self.slots.iter().skip(self.numbers.len as usize) {
            assert_eq!(rt; *slot, vacant(S));
        }
        Ok(())
    }

    fn is_sound(&self, rt: &impl Abort) -> Result<(), Fail> {
        assert_eq!(rt; self.numbers.validate(&self.slots), Ok(()));
        Ok(())
    }
}

#[test]
fn every_pattern_of_six_slots_is_compacted(rt: HostRuntime) -> Result<(), Fail> {
    let full = Row::full(&rt)?;
    for pattern in 0..64 {
        let mut row = full;
        row.thin_out(&rt, pattern)?;
        row.is_sound(&rt)?;
        let remap = row.compact()?;
        row.stand_in_order(&rt, remap, pattern)?;
        row.end_vacant(&rt)?;
        row.is_sound(&rt)?;
        assert_eq!(rt;
            row.numbers.validate_compact(ValidateCompact::Compact),
            Ok(())
        );
    }
    Ok(())
}
