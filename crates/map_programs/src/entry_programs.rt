// Two programs that use entries as they are meant to be used: one entry for each removal, and the occupied case for a replacement.
ghost use Rattle.std.specs.Prelude.{◌≡◌};
ghost use Rattle.id_ord_law.specs.Parts.{Sound, walk};
ghost use Rattle.id_ord_law.specs.Standing.{found};
ghost use Rattle.id_ord_map.specs.Answers.{replaced, taken_out};
ghost use Rattle.id_ord_map.specs.View.{view, SameMemory};
ghost use Rattle.map_programs.specs.Entries.{removes_two, replaces_found};

use id_ord_errors::{ReplaceRefusal, StaleEntry};
use id_ord_item::{Comparable, IdOrdItem};
use id_ord_map::{Entry, IdOrdMap, OccupiedEntry};

/// Takes out two items, each through an entry of its own, and answers the second. An entry can be used for that once only.
/// Where one of the keys does not stand, nothing is taken out.
pub fn remove_through_two_entries<T: IdOrdItem, Q: Comparable<T>>(
    map: &mut IdOrdMap<'_, T>,
    query: &Q,
    other: &Q,
) -> Result<T, StaleEntry>
    requires sound { Sound T.IdOrdItem.order (view map.old) }
    ensures answer { taken_out result ≡ (removes_two T.IdOrdItem.order (found T.IdOrdItem.order (Q.Comparable.meant query.now) (walk (view map.old))) (found T.IdOrdItem.order (Q.Comparable.meant other.now) (walk (view map.old))) (view map.old)).0 }
    ensures after { view map.new ≡ (removes_two T.IdOrdItem.order (found T.IdOrdItem.order (Q.Comparable.meant query.now) (walk (view map.old))) (found T.IdOrdItem.order (Q.Comparable.meant other.now) (walk (view map.old))) (view map.old)).1 }
    ensures memory { SameMemory map.old map.new }
    ensures sound { Sound T.IdOrdItem.order (view map.new) }
{
    let Entry::Occupied(first) = map.entry(query) else {
        return Err(StaleEntry);
    };
    let Entry::Occupied(second) = map.entry(other) else {
        return Err(StaleEntry);
    };
    first.remove(map)?;
    second.remove(map)
}

/// Puts an item in the place of the one with a key, if the key stands. Only an occupied entry has a call for that.
pub fn replace_through_the_occupied_case<T: IdOrdItem, Q: Comparable<T>>(
    map: &mut IdOrdMap<'_, T>,
    query: &Q,
    item: T,
) -> Result<T, ReplaceRefusal<T>>
    requires sound { Sound T.IdOrdItem.order (view map.old) }
    ensures answer { replaced result ≡ (replaces_found T.IdOrdItem.order item (found T.IdOrdItem.order (Q.Comparable.meant query.now) (walk (view map.old))) (view map.old)).0 }
    ensures after { view map.new ≡ (replaces_found T.IdOrdItem.order item (found T.IdOrdItem.order (Q.Comparable.meant query.now) (walk (view map.old))) (view map.old)).1 }
    ensures memory { SameMemory map.old map.new }
    ensures sound { Sound T.IdOrdItem.order (view map.new) }
{
    let Entry::Occupied(entry) = map.entry(query) else {
        return Err(ReplaceRefusal::Stale { item });
    };
    OccupiedEntry::insert(&entry, map, item)
}
