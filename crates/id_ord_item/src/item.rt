// What an item is: a plain record with an order by its key.
ghost use Rattle.std.specs.Prelude.{◌≡◌, Bool};
ghost use Rattle.std.specs.declared.cmp.Ordering.{Ordering};
ghost use Rattle.id_ord_item.specs.Order.{LawfulOrder};
ghost use Rattle.id_ord_item.specs.Same.{Faithful};

use std::cmp::Ordering;

// `compare` and `same`, and not `Ord` and `Eq`: items of one key may differ in other fields, and what both mean stands in ghost members with laws.
/// An item that is stored under its own key.
///
/// `order` is the order of items by key, `equal` says of two items whether they agree in every field.
/// An implementation owes the laws of both, for every item that the type can hold.
pub trait IdOrdItem: Copy {
    ghost order: { Self → Self → Ordering };

    ghost equal: { Self → Self → Bool };

    /// How the key of this item compares with the key of another.
    fn compare(&self, other: &Self) -> Ordering
        ensures { result ≡ order self.now other.now };

    /// Whether the two items agree in every field.
    fn same(&self, other: &Self) -> bool
        ensures { result ≡ equal self.now other.now };

    ghost lawful: { LawfulOrder order };

    ghost faithful: { Faithful equal };
}
