// The query for a buoy by its key.
ghost use Rattle.std.specs.Prelude.{◌≡◌};
ghost use Rattle.panel_items_tests.specs.BuoyAt.{buoy_meant, key_of};

use crate::buoy::Buoy;
use id_ord_item::Comparable;
use std::cmp::Ordering;

/// Looks for the buoy with a zone, a number and a light, whatever its colour.
#[derive(Clone, Copy, PartialEq, Eq, PartialOrd, Ord)]
pub struct BuoyAt {
    pub zone: u8,
    pub number: u16,
    pub light: u8,
}

/// The query for the key of a buoy.
impl From<&Buoy> for BuoyAt {
    ghost from_gives = { λ buoy query. query ≡ key_of buoy.now };

    fn from(buoy: &Buoy) -> BuoyAt {
        BuoyAt {
            zone: buoy.zone,
            number: buoy.number,
            light: buoy.light,
        }
    }
}

impl Comparable<Buoy> for BuoyAt {
    ghost meant = { buoy_meant };

    fn compare(&self, item: &Buoy) -> Ordering {
        self.cmp(&BuoyAt::from(item))
    }
}
