// A sailing, an item in order of code.
ghost use Rattle.panel_items.specs.Sailing.{by_code, same_sailing};
ghost use Rattle.std.proofs.Common.{rules};
ghost use Rattle.id_ord_item.proofs.Lexicographic.{lexicographic_lawful};

use id_ord_item::{IdOrdItem, compare_numbers};
use std::cmp::Ordering;

/// A sailing that is due at a berth at a minute.
///
/// Its key is its code, eight bytes as one number, and sailings are in order of it.
#[derive(Clone, Copy, PartialEq, Eq, Debug)]
pub struct Sailing {
    pub code: u64,
    pub berth: u16,
    pub due: u32,
}

impl IdOrdItem for Sailing {
    ghost order = { by_code };

    ghost equal = { same_sailing };

    ghost lawful = { Prim.search (rules, lexicographic_lawful) };

    ghost faithful = { Prim.search rules };

    fn compare(&self, other: &Sailing) -> Ordering {
        compare_numbers(self.code, other.code)
    }

    fn same(&self, other: &Sailing) -> bool {
        self == other
    }
}
