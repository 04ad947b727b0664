// A further kind of item, whose key has three parts.
ghost use Rattle.panel_items_tests.specs.Buoy.{by_zone_number_light, same_buoy};
ghost use Rattle.std.proofs.Common.{rules};
ghost use Rattle.id_ord_item.proofs.Lexicographic.{lexicographic_lawful};

use id_ord_item::{IdOrdItem, compare_numbers};
use std::cmp::Ordering;

/// A buoy in a zone. Its key is the zone, its number there and its light.
#[derive(Clone, Copy, PartialEq, Eq, Debug)]
pub struct Buoy {
    pub zone: u8,
    pub number: u16,
    pub light: u8,
    pub colour: u8,
}

impl IdOrdItem for Buoy {
    ghost order = { by_zone_number_light };

    ghost equal = { same_buoy };

    ghost lawful = { Prim.search (rules, lexicographic_lawful) };

    ghost faithful = { Prim.search rules };

    fn compare(&self, other: &Buoy) -> Ordering {
        compare_numbers(u64::from(self.zone), u64::from(other.zone))
            .then(compare_numbers(u64::from(self.number), u64::from(other.number)))
            .then(compare_numbers(u64::from(self.light), u64::from(other.light)))
    }

    fn same(&self, other: &Buoy) -> bool {
        self == other
    }
}
