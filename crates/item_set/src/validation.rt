// The check of a store's parts.
ghost use Rattle.std.specs.Prelude.{◌≡◌, ◌^◌, ◌<◌, length, Ok, Some, Option, MatchResult};
ghost use Rattle.item_set.specs.Slots.{occupied};
ghost use Rattle.item_set.specs.Chain.{SoundSet, reached, follow, first_fault, unless};
ghost use Rattle.item_set.specs.Compact.{compact_fault};

use crate::fault::ItemSetFault;
use crate::index::ItemIndex;
use crate::item_set::ItemSet;
use crate::slot::ItemSlot;

/// Whether a check is to refuse vacant slots.
#[derive(Clone, Copy, PartialEq, Eq, Debug)]
pub enum ValidateCompact {
    Compact,
    NonCompact,
}

/// How many of the slots hold an item, counted one by one.
fn count_occupied<T>(slots: &[ItemSlot<T>]) -> u32
    requires { length slots.now < 2 ^ 32 }
    ensures { result ≡ occupied slots.now }
{
    let mut count = 0;
    for slot in slots {
        match slot {
            ItemSlot::Occupied(_) => count += 1,
            ItemSlot::Vacant { .. } => {}
        }
    }
    count
}

/// The free slot that one of the chain names, or the fault where it is no vacant slot.
// apart from next_at: an insert would name a fault only to drop it
fn next_free<T: Copy>(slots: &[ItemSlot<T>], slot: ItemIndex) -> Result<ItemIndex, ItemSetFault>
    ensures { (onward : ItemIndex → Option ItemSetFault) → MatchResult result (λ next. reached slots.now slot onward ≡ onward next) (λ fault. reached slots.now slot onward ≡ Some fault) }
{
    match slots.get(slot.as_u32() as usize) {
        Some(ItemSlot::Vacant { next }) => Ok(*next),
        Some(ItemSlot::Occupied(_)) => Err(ItemSetFault::ChainOccupied { slot }),
        None => Err(ItemSetFault::ChainRange { slot }),
    }
}

/// The fault of the chain that begins at `head`, which should meet `vacant` slots and then end.
fn check_chain<T: Copy>(
    slots: &[ItemSlot<T>],
    vacant: u32,
    head: ItemIndex,
) -> Result<(), ItemSetFault>
    ensures { result ≡ unless (follow slots.now vacant 0 head) }
{
    let mut slot = head;
    for steps in 0..vacant {
        if slot.is_sentinel() {
            return Err(ItemSetFault::ChainShort { steps });
        }
        slot = next_free(slots, slot)?;
    }
    if slot.is_sentinel() {
        return Ok(());
    }
    next_free(slots, slot)?;
    Err(ItemSetFault::ChainLong { slot })
}

impl ItemSet {
    /// Checks the numbers against the slots: first the count of items, then the chain of free slots.
    ///
    /// The answer is the first fault, with the place where it is; none says that the store is sound.
    pub fn validate<T: Copy>(&self, slots: &[ItemSlot<T>]) -> Result<(), ItemSetFault>
        ensures answer { result ≡ unless (first_fault self.now slots.now) }
        ensures sound { (result ≡ Ok tt → SoundSet self.now slots.now) × (SoundSet self.now slots.now → result ≡ Ok tt) }
    {
        let in_use = self.in_use(slots);
        let occupied = count_occupied(in_use);
        if occupied != self.len {
            return Err(ItemSetFault::Count { occupied });
        }
        check_chain(in_use, in_use.len() as u32 - occupied, self.free_head)
    }

    /// Checks that no slot in use is vacant, where that is asked for. It reads no slot: the store is taken to be sound.
    pub fn validate_compact(&self, compactness: ValidateCompact) -> Result<(), ItemSetFault>
        ensures { result ≡ unless (compact_fault compactness self.now) }
    {
        let vacant = self.used.saturating_sub(self.len);
        match compactness {
            ValidateCompact::Compact if vacant > 0 => Err(ItemSetFault::NotCompact { vacant }),
            _ => Ok(()),
        }
    }
}
