// Why an item was not put in the place of another, or not found.
ghost use Rattle.std.specs.Prelude.{◌≡◌};
ghost use Rattle.id_ord_errors.specs.Refusal.{number_of, key_other, not_replaced, gone};

/// KEY_CHANGED, number 3: the key of an item as changed is not the key that it had. The item as changed comes back.
// apart from the other records of one item, so that the type of an answer says what was refused
#[derive(Clone, Copy, PartialEq, Eq, Debug)]
pub struct KeyChanged<T> {
    pub item: T,
}

/// Why an item was not put in the place of the one that was taken.
#[derive(Clone, Copy, PartialEq, Eq, Debug)]
pub enum ReplaceRefusal<T> {
    KeyChanged(KeyChanged<T>),
    /// STALE, number 4: the key does not stand. The item offered comes back.
    Stale { item: T },
}

/// STALE, number 4: the key of an entry does not stand. No item was offered, so none comes back.
#[derive(Clone, Copy, PartialEq, Eq, Debug)]
pub struct StaleEntry;

impl<T> KeyChanged<T> {
    /// The number of the refusal.
    // one row of numbers goes through all kinds of refusal, and callers go by it
    pub fn number(&self) -> u8
        ensures { result ≡ number_of (key_other self.now) }
    {
        3
    }
}

impl<T> ReplaceRefusal<T> {
    /// The number of the refusal.
    // one row of numbers goes through all kinds of refusal, and callers go by it
    pub fn number(&self) -> u8
        ensures { result ≡ number_of (not_replaced self.now) }
    {
        match self {
            ReplaceRefusal::KeyChanged(refusal) => refusal.number(),
            ReplaceRefusal::Stale { .. } => 4,
        }
    }
}

impl StaleEntry {
    /// The number of the refusal.
    // one row of numbers goes through all kinds of refusal, and callers go by it
    pub fn number(self) -> u8
        ensures { result ≡ number_of (gone {T = Unit {0}} self) }
    {
        4
    }
}
