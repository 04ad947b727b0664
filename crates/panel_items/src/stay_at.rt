// The query for a stay by its key.
ghost use Rattle.std.specs.Prelude.{◌≡◌};
ghost use Rattle.panel_items.specs.StayAt.{key_of, stay_meant};

use crate::stay::Stay;
use id_ord_item::Comparable;
use std::cmp::Ordering;

/// Looks for the stay that begins at a berth at a minute, whatever its end and its vessel.
#[derive(Clone, Copy, PartialEq, Eq, PartialOrd, Ord, Debug)]
pub struct StayAt {
    pub berth: u16,
    pub from: u32,
}

/// The query for the key of a stay.
impl From<&Stay> for StayAt {
    ghost from_gives = { λ stay query. query ≡ key_of stay.now };

    fn from(stay: &Stay) -> StayAt {
        StayAt {
            berth: stay.berth,
            from: stay.from,
        }
    }
}

impl Comparable<Stay> for StayAt {
    ghost meant = { stay_meant };

    fn compare(&self, item: &Stay) -> Ordering {
        self.cmp(&StayAt::from(item))
    }
}
