// Why an item was not added.
ghost use Rattle.std.specs.Prelude.{◌≡◌};
ghost use Rattle.id_ord_errors.specs.Refusal.{number_of, duplicated, no_room, not_inserted, not_entered, as_entered};

use item_set::ItemIndex;

/// DUPLICATE, number 1: the key of an item to be added stands. The item offered comes back, with the slot of the one that stands.
#[derive(Clone, Copy, PartialEq, Eq, Debug)]
pub struct DuplicateItem<T> {
    pub item: T,
    pub slot: ItemIndex,
}

/// FULL, number 2: the key of an item to be added does not stand, and the map holds as many items as it can.
/// The item offered comes back.
// apart from the other records of one item, so that the type of an answer says what was refused
#[derive(Clone, Copy, PartialEq, Eq, Debug)]
pub struct MapFull<T> {
    pub item: T,
}

/// Why an item was not added.
#[derive(Clone, Copy, PartialEq, Eq, Debug)]
pub enum InsertRefusal<T> {
    Duplicate(DuplicateItem<T>),
    Full(MapFull<T>),
}

/// Why an entry gave no item that can be changed: the cases of `InsertRefusal`, beside its own, so that one match tells all.
#[derive(Clone, Copy, PartialEq, Eq, Debug)]
pub enum OrInsertRefusal<T> {
    Duplicate(DuplicateItem<T>),
    Full(MapFull<T>),
    /// STALE, number 4: the key of the entry does not stand. The item offered comes back.
    Stale { item: T },
}

impl<T> DuplicateItem<T> {
    /// The number of the refusal.
    // one row of numbers goes through all kinds of refusal, and callers go by it
    pub fn number(&self) -> u8
        ensures { result ≡ number_of (duplicated self.now) }
    {
        1
    }
}

impl<T> MapFull<T> {
    /// The number of the refusal.
    // one row of numbers goes through all kinds of refusal, and callers go by it
    pub fn number(&self) -> u8
        ensures { result ≡ number_of (no_room self.now) }
    {
        2
    }
}

impl<T> InsertRefusal<T> {
    /// The number of the refusal.
    // one row of numbers goes through all kinds of refusal, and callers go by it
    pub fn number(&self) -> u8
        ensures { result ≡ number_of (not_inserted self.now) }
    {
        match self {
            InsertRefusal::Duplicate(refusal) => refusal.number(),
            InsertRefusal::Full(refusal) => refusal.number(),
        }
    }
}

impl<T> OrInsertRefusal<T> {
    /// The number of the refusal.
    // one row of numbers goes through all kinds of refusal, and callers go by it
    pub fn number(&self) -> u8
        ensures { result ≡ number_of (not_entered self.now) }
    {
        match self {
            OrInsertRefusal::Duplicate(refusal) => refusal.number(),
            OrInsertRefusal::Full(refusal) => refusal.number(),
            OrInsertRefusal::Stale { .. } => 4,
        }
    }
}

impl<T> From<InsertRefusal<T>> for OrInsertRefusal<T> {
    ghost from_gives = { λ refusal entered. entered ≡ as_entered refusal };

    fn from(refusal: InsertRefusal<T>) -> OrInsertRefusal<T> {
        match refusal {
            InsertRefusal::Duplicate(refusal) => OrInsertRefusal::Duplicate(refusal),
            InsertRefusal::Full(refusal) => OrInsertRefusal::Full(refusal),
        }
    }
}
