// What became of the slot numbers at a compaction.
ghost use Rattle.std.specs.Prelude.{◌≡◌};
ghost use Rattle.item_set.specs.Compact.{remapped};
ghost use Rattle.item_set.specs.Refusal.{remap_number};

use crate::index::ItemIndex;

// An enum of the Rust, whose cases have names that say more than those of `Option`.
/// What a compaction did to the slot numbers.
#[derive(Clone, Copy, PartialEq, Eq, Debug)]
pub enum IndexRemap {
    /// No slot was vacant: every number is as it was.
    Identity,
    /// Items moved. The scratch has the new number of each of the first `used` slots, and `SENTINEL` for one that was vacant.
    Permuted { used: u32 },
}

/// Why an old slot number has no new one.
#[derive(Clone, Copy, PartialEq, Eq, Debug)]
pub enum RemapRefusal {
    /// GONE, number 7: the slot was vacant.
    Gone,
    /// RANGE, number 8: the number is not below the old `used`, or not below the scratch's length.
    Range,
}

impl RemapRefusal {
    /// The number of the refusal.
    // one row of numbers goes through all kinds of refusal, and callers go by it
    pub fn number(self) -> u8
        ensures { result ≡ remap_number self }
    {
        match self {
            RemapRefusal::Gone => 7,
            RemapRefusal::Range => 8,
        }
    }
}

impl IndexRemap {
    /// The new number of a slot, read from the scratch that the compaction filled.
    pub fn remap(&self, scratch: &[ItemIndex], old: ItemIndex) -> Result<ItemIndex, RemapRefusal>
        ensures { result ≡ remapped self.now scratch.now old }
    {
        match *self {
            IndexRemap::Identity => Ok(old),
            IndexRemap::Permuted { used } => {
                let end = (used as usize).min(scratch.len());
                let new = scratch[..end]
                    .get(old.as_u32() as usize)
                    .ok_or(RemapRefusal::Range)?;
                if new.is_sentinel() {
                    return Err(RemapRefusal::Gone);
                }
                Ok(*new)
            }
        }
    }
}
