// A vessel's stay at a berth, an item in order of berth and beginning.
ghost use Rattle.panel_items.specs.Stay.{by_berth_then_from, same_stay};
ghost use Rattle.std.proofs.Common.{rules};
ghost use Rattle.id_ord_item.proofs.Lexicographic.{lexicographic_lawful};

use id_ord_item::{IdOrdItem, compare_numbers};
use std::cmp::Ordering;

/// A vessel's stay at a berth, from one minute to another.
///
/// Its key is the berth and the minute it begins: stays are in order of berth, and at one berth in order of beginning.
#[derive(Clone, Copy, PartialEq, Eq, Debug)]
pub struct Stay {
    pub berth: u16,
    pub from: u32,
    pub to: u32,
    pub vessel: u64,
}

impl IdOrdItem for Stay {
    ghost order = { by_berth_then_from };

    ghost equal = { same_stay };

    ghost lawful = { Prim.search (rules, lexicographic_lawful) };

    ghost faithful = { Prim.search rules };

    fn compare(&self, other: &Stay) -> Ordering {
        let by_berth = compare_numbers(u64::from(self.berth), u64::from(other.berth));
        by_berth.then(compare_numbers(u64::from(self.from), u64::from(other.from)))
    }

    fn same(&self, other: &Stay) -> bool {
        self == other
    }
}
