// What can be wrong with the parts of a slot store.
ghost use Rattle.std.specs.Prelude.{◌≡◌};
ghost use Rattle.item_set.specs.Fault.{number_of, place_of};

use crate::index::ItemIndex;

/// What is wrong with the numbers and slots of a store, and where.
#[derive(Clone, Copy, PartialEq, Eq, Debug)]
pub enum ItemSetFault {
    /// COUNT, number 11: the slots in use that hold an item are not `len` many, but this many.
    Count { occupied: u32 },
    /// CHAIN_RANGE, number 12: the chain of free slots reaches this number, which is no slot in use.
    ChainRange { slot: ItemIndex },
    /// CHAIN_OCCUPIED, number 13: the chain reaches this slot, which holds an item.
    ChainOccupied { slot: ItemIndex },
    /// CHAIN_LONG, number 14: the chain meets more slots than are vacant; this is the first too many.
    ChainLong { slot: ItemIndex },
    /// CHAIN_SHORT, number 15: the chain ends after this many slots, before all vacant ones.
    ChainShort { steps: u32 },
    /// NOT_COMPACT, number 20: this many slots in use are vacant.
    NotCompact { vacant: u32 },
}

impl ItemSetFault {
    /// The number of the refusal.
    // one row of numbers goes through all kinds of refusal, and callers go by it
    pub fn number(self) -> u8
        ensures { result ≡ number_of self }
    {
        match self {
            ItemSetFault::Count { .. } => 11,
            ItemSetFault::ChainRange { .. } => 12,
            ItemSetFault::ChainOccupied { .. } => 13,
            ItemSetFault::ChainLong { .. } => 14,
            ItemSetFault::ChainShort { .. } => 15,
            ItemSetFault::NotCompact { .. } => 20,
        }
    }

    /// The place of the fault: a slot, or a count.
    pub fn place(self) -> u32
        ensures { result ≡ place_of self }
    {
        match self {
            ItemSetFault::Count { occupied } => occupied,
            ItemSetFault::ChainRange { slot }
            | ItemSetFault::ChainOccupied { slot }
            | ItemSetFault::ChainLong { slot } => slot.as_u32(),
            ItemSetFault::ChainShort { steps } => steps,
            ItemSetFault::NotCompact { vacant } => vacant,
        }
    }
}
