// A rule for buoys that changes what it keeps.
ghost use Rattle.panel_items_tests.specs.KeepZone.{in_zone, painted};

use crate::buoy::Buoy;
use id_ord_item::{KeepRule, Verdict};

/// Keeps the buoys of a zone, each painted in a colour, and removes the others.
#[derive(Clone, Copy)]
pub struct KeepZone {
    pub zone: u8,
    pub colour: u8,
}

impl KeepRule<Buoy> for KeepZone {
    ghost verdict = { in_zone };

    ghost changed = { painted };

    ghost next = { λ rule _. rule };

    fn keep(&mut self, item: Buoy) -> (Verdict, Buoy) {
        if item.zone != self.zone {
            return (Verdict::Remove, item);
        }
        let colour = self.colour;
        (Verdict::Keep, Buoy { colour, ..item })
    }
}
