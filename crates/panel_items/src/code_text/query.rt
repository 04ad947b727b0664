// A text of a code as a query for a sailing.
ghost use Rattle.panel_items.specs.CodeText.{sailing_meant};

use super::CodeText;
use crate::sailing::Sailing;
use id_ord_item::{Comparable, compare_numbers};
use std::cmp::Ordering;

impl<'a> Comparable<Sailing> for CodeText<'a> {
    ghost meant = { sailing_meant };

    fn compare(&self, item: &Sailing) -> Ordering {
        compare_numbers(self.code(), item.code)
    }
}
