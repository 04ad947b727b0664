// A rule for stays that changes what it keeps, can change a key, and remembers what it was shown.
ghost use Rattle.id_ord_map_tests.specs.KeepBefore.{begins_before, marked, shown_to};

use id_ord_item::{KeepRule, Verdict};
use panel_items::Stay;

/// Keeps the stays that begin before a minute and removes the others, and gives each the end `to`.
///
/// A stay that begins at the minute `moved` is changed to begin at `moved_to`. In `shown` are the minutes at which
/// the last three stays that it was shown begin, the newest first.
#[derive(Clone, Copy)]
pub struct KeepBefore {
    pub minute: u32,
    pub moved: u32,
    pub moved_to: u32,
    pub to: u32,
    // a tuple and no array, since a definition can name each of its three numbers
    pub shown: (u32, u32, u32),
}

impl KeepRule<Stay> for KeepBefore {
    ghost verdict = { begins_before };

    ghost changed = { marked };

    ghost next = { shown_to };

    fn keep(&mut self, item: Stay) -> (Verdict, Stay) {
        let (newest, before, _) = self.shown;
        self.shown = (item.from, newest, before);
        let from = if item.from == self.moved {
            self.moved_to
        } else {
            item.from
        };
        let to = self.to;
        let stay = Stay { from, to, ..item };
        if item.from < self.minute {
            return (Verdict::Keep, stay);
        }
        (Verdict::Remove, stay)
    }
}
