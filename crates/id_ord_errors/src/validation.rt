// What can be wrong with the parts of a map.
ghost use Rattle.std.specs.Prelude.{◌≡◌};
ghost use Rattle.id_ord_errors.specs.Fault.{number_of, layer_of, place_of};
ghost use Rattle.id_ord_errors.specs.declared.validation.ValidationError.TheVariants.{Items, Table};

use index_table::TableFault;
use item_set::ItemSetFault;

/// What is wrong with the parts of a map, in which layer, and where.
#[derive(Clone, Copy, PartialEq, Eq, Debug)]
pub enum ValidationError {
    /// SIZE, number 10: the slots in use, or else the table entries, are more than the capacity, namely this many.
    Size { place: u32 },
    /// Numbers 11 to 15 and 20: the fault of the slot store.
    Items(ItemSetFault),
    /// Numbers 16 to 18: the fault of the table.
    Table(TableFault),
    /// ORDER, number 19: this is the first place whose item is not Greater than the one before.
    Order { place: usize },
}

/// The layer that a fault is in: the map itself, its slot store or its table.
#[derive(Clone, Copy, PartialEq, Eq, Debug)]
pub enum Layer {
    Map,
    Items,
    Table,
}

impl ValidationError {
    /// The number of the refusal.
    // one row of numbers goes through all kinds of refusal, and callers go by it
    pub fn number(self) -> u8
        ensures { result ≡ number_of self }
    {
        match self {
            ValidationError::Size { .. } => 10,
            ValidationError::Items(fault) => fault.number(),
            ValidationError::Table(fault) => fault.number(),
            ValidationError::Order { .. } => 19,
        }
    }

    /// The layer of the fault.
    pub fn layer(self) -> Layer
        ensures { result ≡ layer_of self }
    {
        match self {
            ValidationError::Size { .. } | ValidationError::Order { .. } => Layer::Map,
            ValidationError::Items(_) => Layer::Items,
            ValidationError::Table(_) => Layer::Table,
        }
    }

    /// The place of the fault: a slot, a place of the table, or a count.
    pub fn place(self) -> usize
        ensures { result ≡ place_of self }
    {
        match self {
            ValidationError::Size { place } => place as usize,
            ValidationError::Items(fault) => fault.place() as usize,
            ValidationError::Table(fault) => fault.place(),
            ValidationError::Order { place } => place,
        }
    }
}

impl From<ItemSetFault> for ValidationError {
    ghost from_gives = { λ fault error. error ≡ Items fault };

    fn from(fault: ItemSetFault) -> ValidationError {
        ValidationError::Items(fault)
    }
}

impl From<TableFault> for ValidationError {
    ghost from_gives = { λ fault error. error ≡ Table fault };

    fn from(fault: TableFault) -> ValidationError {
        ValidationError::Table(fault)
    }
}
