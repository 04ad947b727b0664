// Code that serves every kind of item, query and rule.
ghost use Rattle.std.specs.Prelude.{◌≡◌};
ghost use Rattle.std.specs.Ordering.{is_eq};
ghost use Rattle.panel_items_tests.specs.EveryKind.{Largest, unless_removed};

use id_ord_item::{Comparable, IdOrdItem, KeepRule, Verdict};

/// An item with the largest key, or none of an empty row.
pub fn largest<T: IdOrdItem>(items: &[T]) -> Option<T>
    ensures { Largest T.IdOrdItem.order items.now result }
{
    let [first, ..] = items else {
        return None;
    };
    let mut best = *first;
    for item in items {
        if IdOrdItem::compare(item, &best).is_gt() {
            best = *item;
        }
    }
    Some(best)
}

/// Whether an item has the key that a query looks for.
pub fn answers<T: IdOrdItem, Q: Comparable<T>>(item: &T, query: &Q) -> bool
    ensures { result ≡ is_eq (T.IdOrdItem.order (Q.Comparable.meant query.now) item.now) }
{
    query.compare(item).is_eq()
}

/// An item as a rule leaves it, or none where the rule removes it.
pub fn kept<T: IdOrdItem, R: KeepRule<T>>(item: T, rule: &mut R) -> Option<T>
    ensures answer { result ≡ unless_removed (R.KeepRule.verdict rule.old item) (R.KeepRule.changed rule.old item) }
    ensures after { rule.new ≡ R.KeepRule.next rule.old item }
{
    match rule.keep(item) {
        (Verdict::Keep, item) => Some(item),
        (Verdict::Remove, _) => None,
    }
}
