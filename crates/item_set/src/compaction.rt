// Moving the items of a store together, so that no slot in use is vacant.
ghost use Rattle.std.specs.Prelude.{◌≡◌, ◌-◌, ◌^◌, ◌<◌, ◌≤◌, ◌++◌, length, drop, replicate};
ghost use Rattle.item_set.specs.Slots.{occupied, sentinel};
ghost use Rattle.item_set.specs.Compact.{new_numbers, packed, compact_answer, compacted_slots, compacted_scratch, compacted};
ghost use Rattle.item_set.specs.Refusal.{compact_number};

use crate::index::ItemIndex;
use crate::item_set::ItemSet;
use crate::remap::IndexRemap;
use crate::slot::ItemSlot;

/// Why a store was not compacted.
#[derive(Clone, Copy, PartialEq, Eq, Debug)]
pub enum CompactRefusal {
    /// SHORT, number 6: a slot is vacant, and the scratch has fewer places than slots are in use.
    Short,
}

impl CompactRefusal {
    /// The number of the refusal.
    // one row of numbers goes through all kinds of refusal, and callers go by it
    pub fn number(self) -> u8
        ensures { result ≡ compact_number self }
    {
        match self {
            CompactRefusal::Short => 6,
        }
    }
}

/// Moves the items together, in their order, and answers how many there are. The slots behind them
/// become vacant, naming no other. The scratch gets each slot's new number.
fn pack<T: Copy>(slots: &mut [ItemSlot<T>], scratch: &mut [ItemIndex]) -> u32
    requires scratch { length slots.old ≤ length scratch.old }
    requires few { length slots.old < 2 ^ 32 }
    ensures answer { result ≡ occupied slots.old }
    ensures slots { slots.new ≡ packed slots.old ++ replicate (length slots.old - occupied slots.old) (ItemSlot.Vacant sentinel) }
    ensures scratch { scratch.new ≡ new_numbers 0 slots.old ++ drop (length slots.old) scratch.old }
{
    // an item moves within the slice that is read, to the place that `count` says, so no iterator over it can stand here
    let mut count: u32 = 0;
    for at in 0..slots.len() {
        let slot = slots[at];
        match slot {
            ItemSlot::Occupied(_) => {
                slots[count as usize] = slot;
                scratch[at] = ItemIndex::new(count);
                count += 1;
            }
            ItemSlot::Vacant { .. } => scratch[at] = ItemIndex::SENTINEL,
        }
    }
    slots[count as usize..].fill(ItemSlot::Vacant {
        next: ItemIndex::SENTINEL,
    });
    count
}

impl ItemSet {
    /// Moves the items together, in the order of their slots, and takes the vacant slots out of use.
    ///
    /// Where no slot is vacant, nothing is written. Else the scratch gets each slot's new number, `SENTINEL`
    /// for a vacant one, and the slots that are no longer in use become vacant, naming no other. A scratch
    /// with fewer places than slots are in use is refused before anything is written.
    pub fn compact<T: Copy>(
        &mut self,
        slots: &mut [ItemSlot<T>],
        scratch: &mut [ItemIndex],
    ) -> Result<IndexRemap, CompactRefusal>
        ensures answer { result ≡ compact_answer self.old scratch.old }
        ensures slots { slots.new ≡ compacted_slots self.old slots.old scratch.old }
        ensures scratch { scratch.new ≡ compacted_scratch self.old slots.old scratch.old }
        ensures numbers { self.new ≡ compacted self.old slots.old scratch.old }
    {
        let used = self.used;
        if used == self.len {
            return Ok(IndexRemap::Identity);
        }
        if scratch.len() < used as usize {
            return Err(CompactRefusal::Short);
        }
        let end = (used as usize).min(slots.len());
        let count = pack(&mut slots[..end], scratch);
        *self = ItemSet {
            used: count,
            len: count,
            free_head: ItemIndex::SENTINEL,
        };
        Ok(IndexRemap::Permuted { used })
    }
}
