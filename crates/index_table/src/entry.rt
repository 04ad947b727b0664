// A table entry.
ghost use Rattle.std.specs.Prelude.{◌≡◌};
ghost use Rattle.index_table.specs.Entry.{made, refusal_number};
ghost use Rattle.index_table.specs.Shift.{renumbered};

use item_set::{IndexRemap, ItemIndex};

// `new` and `value` are the names that the Rust has for what `TryFrom` and `From` would do.
/// A table entry: the number of a slot. It is never `SENTINEL`, since the one call that makes an entry refuses that.
#[derive(Clone, Copy, PartialEq, Eq, Debug)]
pub struct Index(ItemIndex);

/// Why a number is no table entry.
#[derive(Clone, Copy, PartialEq, Eq, Debug)]
pub enum IndexRefusal {
    /// SENTINEL, number 5: the number names no slot.
    Sentinel,
}

impl IndexRefusal {
    /// The number of the refusal.
    // one row of numbers goes through all kinds of refusal, and callers go by it
    pub fn number(self) -> u8
        ensures { result ≡ refusal_number self }
    {
        match self {
            IndexRefusal::Sentinel => 5,
        }
    }
}

impl Index {
    /// The entry that names a slot; `SENTINEL` is refused.
    pub fn new(value: ItemIndex) -> Result<Index, IndexRefusal>
        ensures { result ≡ made value }
    {
        if value.is_sentinel() {
            return Err(IndexRefusal::Sentinel);
        }
        Ok(Index(value))
    }

    /// The slot that the entry names.
    pub fn value(self) -> ItemIndex
        ensures { result ≡ self.0 }
    {
        self.0
    }

    /// The entry with its slot's new number, where it has one.
    pub(crate) fn remap(self, remap: &IndexRemap, scratch: &[ItemIndex]) -> Index
        ensures { result ≡ renumbered remap.now scratch.now self }
    {
        remap.remap(scratch, self.0).map_or(self, Index)
    }
}
