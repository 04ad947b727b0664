// Why something was not done, and how that is told: number, name, and what it is about.
ghost use Rattle.std.specs.Prelude.{◌≡◌};
ghost use Rattle.map_panel.specs.declared.refusals.Refusal.TheVariants.{NotAdded, NotEntered, NotReplaced, KeyChanged as KeyOther, Stale, NotShrunk, NotMoved, Fault};

use crate::shown::{Key, Shown};
use id_ord_errors::{
    DuplicateItem, InsertRefusal, KeyChanged, Layer, MapFull, OrInsertRefusal, ReplaceRefusal,
    StaleEntry, ValidationError,
};
use index_table::TableFault;
use item_set::{CompactRefusal, ItemSetFault, RemapRefusal};
use std::fmt;

/// Why what was asked of a board was not done.
#[derive(Clone, Copy, PartialEq, Eq, Debug)]
pub enum Refusal<T> {
    NotAdded(InsertRefusal<T>),
    NotEntered(OrInsertRefusal<T>),
    NotReplaced(ReplaceRefusal<T>),
    KeyChanged(KeyChanged<T>),
    Stale(StaleEntry),
    NotShrunk(CompactRefusal),
    NotMoved(RemapRefusal),
    Fault(ValidationError),
    /// The hand holds no item.
    NoItem,
    /// The hand holds no entry, or none that can do this.
    NoEntry,
}

impl<T> Refusal<T> {
    // one row of numbers goes through all kinds of refusal, and callers go by it
    /// The number of the refusal; the hand's own have none.
    fn number(&self) -> Option<u8> {
        match self {
            Refusal::NotAdded(refusal) => Some(refusal.number()),
            Refusal::NotEntered(refusal) => Some(refusal.number()),
            Refusal::NotReplaced(refusal) => Some(refusal.number()),
            Refusal::KeyChanged(refusal) => Some(refusal.number()),
            Refusal::Stale(refusal) => Some(refusal.number()),
            Refusal::NotShrunk(refusal) => Some(refusal.number()),
            Refusal::NotMoved(refusal) => Some(refusal.number()),
            Refusal::Fault(fault) => Some(fault.number()),
            Refusal::NoItem | Refusal::NoEntry => None,
        }
    }
}

impl<T> From<InsertRefusal<T>> for Refusal<T> {
    ghost from_gives = { λ refusal error. error ≡ NotAdded refusal };

    fn from(refusal: InsertRefusal<T>) -> Refusal<T> {
        Refusal::NotAdded(refusal)
    }
}

impl<T> From<OrInsertRefusal<T>> for Refusal<T> {
    ghost from_gives = { λ refusal error. error ≡ NotEntered refusal };

    fn from(refusal: OrInsertRefusal<T>) -> Refusal<T> {
        Refusal::NotEntered(refusal)
    }
}

impl<T> From<ReplaceRefusal<T>> for Refusal<T> {
    ghost from_gives = { λ refusal error. error ≡ NotReplaced refusal };

    fn from(refusal: ReplaceRefusal<T>) -> Refusal<T> {
        Refusal::NotReplaced(refusal)
    }
}

impl<T> From<KeyChanged<T>> for Refusal<T> {
    ghost from_gives = { λ refusal error. error ≡ KeyOther refusal };

    fn from(refusal: KeyChanged<T>) -> Refusal<T> {
        Refusal::KeyChanged(refusal)
    }
}

impl<T> From<StaleEntry> for Refusal<T> {
    ghost from_gives = { λ refusal error. error ≡ Stale refusal };

    fn from(refusal: StaleEntry) -> Refusal<T> {
        Refusal::Stale(refusal)
    }
}

impl<T> From<CompactRefusal> for Refusal<T> {
    ghost from_gives = { λ refusal error. error ≡ NotShrunk refusal };

    fn from(refusal: CompactRefusal) -> Refusal<T> {
        Refusal::NotShrunk(refusal)
    }
}

impl<T> From<RemapRefusal> for Refusal<T> {
    ghost from_gives = { λ refusal error. error ≡ NotMoved refusal };

    fn from(refusal: RemapRefusal) -> Refusal<T> {
        Refusal::NotMoved(refusal)
    }
}

impl<T> From<ValidationError> for Refusal<T> {
    ghost from_gives = { λ fault error. error ≡ Fault fault };

    fn from(fault: ValidationError) -> Refusal<T> {
        Refusal::Fault(fault)
    }
}

/// What is told by its name.
#[derive(Clone, Copy)]
struct Name<T>(T);

impl fmt::Display for Name<ItemSetFault> {
    fn fmt<W: fmt::Write>(&self, f: &mut fmt::Formatter<W>) -> fmt::Result {
        f.write_str(match self.0 {
            ItemSetFault::Count { .. } => "COUNT",
            ItemSetFault::ChainRange { .. } => "CHAIN_RANGE",
            ItemSetFault::ChainOccupied { .. } => "CHAIN_OCCUPIED",
            ItemSetFault::ChainLong { .. } => "CHAIN_LONG",
            ItemSetFault::ChainShort { .. } => "CHAIN_SHORT",
            ItemSetFault::NotCompact { .. } => "NOT_COMPACT",
        })
    }
}

impl fmt::Display for Name<TableFault> {
    fn fmt<W: fmt::Write>(&self, f: &mut fmt::Formatter<W>) -> fmt::Result {
        f.write_str(match self.0 {
            TableFault::TableLength { .. } => "TABLE_LENGTH",
            TableFault::Repeated { .. } => "REPEATED",
            TableFault::NotHeld { .. } => "NOT_HELD",
        })
    }
}

impl fmt::Display for Name<ValidationError> {
    fn fmt<W: fmt::Write>(&self, f: &mut fmt::Formatter<W>) -> fmt::Result {
        match self.0 {
            ValidationError::Size { .. } => f.write_str("SIZE"),
            ValidationError::Items(fault) => write!(f, "{}", Name(fault)),
            ValidationError::Table(fault) => write!(f, "{}", Name(fault)),
            ValidationError::Order { .. } => f.write_str("ORDER"),
        }
    }
}

impl fmt::Display for Name<Layer> {
    fn fmt<W: fmt::Write>(&self, f: &mut fmt::Formatter<W>) -> fmt::Result {
        f.write_str(match self.0 {
            Layer::Map => "map",
            Layer::Items => "items",
            Layer::Table => "table",
        })
    }
}

impl<T: Shown> fmt::Display for Refusal<T> {
    fn fmt<W: fmt::Write>(&self, f: &mut fmt::Formatter<W>) -> fmt::Result {
        if let Some(number) = self.number() {
            write!(f, "refused {number} ")?;
        }
        match *self {
            Refusal::NotAdded(InsertRefusal::Duplicate(DuplicateItem { item, slot }))
            | Refusal::NotEntered(OrInsertRefusal::Duplicate(DuplicateItem { item, slot })) => {
                write!(
                    f,
                    "DUPLICATE: {} stands in slot {}",
                    Key(item),
                    slot.as_u32()
                )
            }
            Refusal::NotAdded(InsertRefusal::Full(MapFull { item }))
            | Refusal::NotEntered(OrInsertRefusal::Full(MapFull { item })) => {
                write!(f, "FULL: no room for {}", Key(item))
            }
            Refusal::NotEntered(OrInsertRefusal::Stale { item }) => write!(
                f,
                "STALE: the entry's key does not stand; offered was {}",
                Key(item)
            ),
            Refusal::NotReplaced(ReplaceRefusal::KeyChanged(KeyChanged { item }))
            | Refusal::KeyChanged(KeyChanged { item }) => write!(
                f,
                "KEY_CHANGED: {} is not the key that was taken",
                Key(item)
            ),
            Refusal::NotReplaced(ReplaceRefusal::Stale { item }) => {
                write!(f, "STALE: {} does not stand", Key(item))
            }
            Refusal::Stale(StaleEntry) => write!(f, "STALE: the entry's key does not stand"),
            Refusal::NotShrunk(CompactRefusal::Short) => write!(
                f,
                "SHORT: the scratch has fewer places than slots are in use"
            ),
            Refusal::NotMoved(RemapRefusal::Gone) => write!(f, "GONE: the slot was vacant"),
            Refusal::NotMoved(RemapRefusal::Range) => write!(f, "RANGE: no such slot was in use"),
            Refusal::Fault(fault) => write!(
                f,
                "{}: in the {}, place {}",
                Name(fault),
                Name(fault.layer()),
                fault.place()
            ),
            Refusal::NoItem => write!(f, "there is no item in the hand"),
            Refusal::NoEntry => write!(f, "there is no entry for this in the hand"),
        }
    }
}
