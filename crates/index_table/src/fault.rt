// What can be wrong with the entries of a table.
ghost use Rattle.std.specs.Prelude.{◌≡◌};
ghost use Rattle.index_table.specs.Check.{number_of, place_of};

/// What is wrong with the entries of a table, and where.
#[derive(Clone, Copy, PartialEq, Eq, Debug)]
pub enum TableFault {
    /// TABLE_LENGTH, number 16: there are not as many entries as items, but this many.
    TableLength { count: usize },
    /// REPEATED, number 17: this is the first place that names the slot of an earlier place.
    Repeated { place: usize },
    /// NOT_HELD, number 18: this is the first place that names no item.
    NotHeld { place: usize },
}

impl TableFault {
    /// The number of the refusal.
    // one row of numbers goes through all kinds of refusal, and callers go by it
    pub fn number(self) -> u8
        ensures { result ≡ number_of self }
    {
        match self {
            TableFault::TableLength { .. } => 16,
            TableFault::Repeated { .. } => 17,
            TableFault::NotHeld { .. } => 18,
        }
    }

    /// The place of the fault: a place of the table, or a count.
    pub fn place(self) -> usize
        ensures { result ≡ place_of self }
    {
        match self {
            TableFault::TableLength { count } => count,
            TableFault::Repeated { place } | TableFault::NotHeld { place } => place,
        }
    }
}
