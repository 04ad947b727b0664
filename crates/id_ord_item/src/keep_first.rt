// A rule for every kind of item, which counts.
ghost use Rattle.id_ord_item.specs.KeepFirst.{kept_while, one_fewer};

use crate::item::IdOrdItem;
use crate::rule::{KeepRule, Verdict};

/// Keeps as many items as its number says, unchanged, and removes the rest.
#[derive(Clone, Copy, PartialEq, Eq, Debug)]
pub struct KeepFirst {
    pub left: u32,
}

impl<T: IdOrdItem> KeepRule<T> for KeepFirst {
    ghost verdict = { λ rule _. kept_while rule };

    ghost changed = { λ _ item. item };

    ghost next = { λ rule _. one_fewer rule };

    fn keep(&mut self, item: T) -> (Verdict, T) {
        if self.left == 0 {
            return (Verdict::Remove, item);
        }
        self.left -= 1;
        (Verdict::Keep, item)
    }
}
