// The rule that removes the stays that have ended.
ghost use Rattle.panel_items.specs.EndedBy.{unless_ended};

use crate::stay::Stay;
use id_ord_item::{KeepRule, Verdict};

/// Removes the stays that end at its minute or before it, and keeps the others unchanged.
#[derive(Clone, Copy, PartialEq, Eq, Debug)]
pub struct EndedBy {
    pub minute: u32,
}

impl KeepRule<Stay> for EndedBy {
    ghost verdict = { unless_ended };

    ghost changed = { λ _ stay. stay };

    ghost next = { λ rule _. rule };

    fn keep(&mut self, item: Stay) -> (Verdict, Stay) {
        if item.to <= self.minute {
            return (Verdict::Remove, item);
        }
        (Verdict::Keep, item)
    }
}
