// The number of a slot.
ghost use Rattle.std.specs.Prelude.{◌≡◌, ◌==◌};
ghost use Rattle.item_set.specs.Slots.{index_of};

// `new` and `as_u32` are the names that the Rust has for what `From` would do.
/// The number of a slot. It is a type of its own, so that a place in a table is never taken for a slot.
#[derive(Clone, Copy, PartialEq, Eq, Debug)]
pub struct ItemIndex(u32);

impl ItemIndex {
    // A slot number takes the 32 bits that lent memory has for it; an `Option` would take more.
    /// The number that names no slot: it ends the chain of free slots.
    pub const SENTINEL: ItemIndex = ItemIndex(u32::MAX);

    pub fn new(value: u32) -> ItemIndex
        ensures { result ≡ index_of value }
    {
        ItemIndex(value)
    }

    pub fn as_u32(self) -> u32
        ensures { result ≡ self.0 }
    {
        self.0
    }

    /// Whether this is `SENTINEL`.
    pub fn is_sentinel(self) -> bool
        ensures { result ≡ (self.0 == 4294967295) }
    {
        self == ItemIndex::SENTINEL
    }
}
