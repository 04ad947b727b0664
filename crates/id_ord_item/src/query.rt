// What can be looked for: anything that means an item with the key wanted.
ghost use Rattle.std.specs.Prelude.{◌≡◌};

use crate::item::IdOrdItem;
use std::cmp::Ordering;

// A trait and no closure: what a query means is a ghost member, which contracts name.
/// A query for a key.
///
/// `meant` is the one conceivable item that has the key looked for; the query compares as that item would.
pub trait Comparable<T: IdOrdItem> {
    ghost meant: { Self → T };

    /// How the key looked for compares with the key of an item.
    fn compare(&self, item: &T) -> Ordering
        ensures { result ≡ T.IdOrdItem.order (meant self.now) item.now };
}

/// An item is itself a query: it looks for its own key.
impl<T: IdOrdItem> Comparable<T> for T {
    ghost meant = { λ item. item };

    fn compare(&self, item: &T) -> Ordering {
        IdOrdItem::compare(self, item)
    }
}
