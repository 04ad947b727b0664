// Each call of an entry and of a `RefMut`, made for every kind of item by a caller that knows them by their contracts alone.
ghost use Rattle.std.specs.Prelude.{Some, None};
ghost use Rattle.id_ord_law.specs.Law.{Onward};
ghost use Rattle.id_ord_law.specs.Parts.{Sound};
ghost use Rattle.id_ord_law.specs.Standing.{Call.entry as LookUp, Call.or_insert as OrInsert, Call.vacant_insert as VacantInsert, Call.vacant_insert_entry as VacantInsertEntry, Call.occupied_insert as OccupiedInsert, Call.occupied_remove as OccupiedRemove, Call.into_mut as IntoMut, Call.put_back as PutBack};
ghost use Rattle.id_ord_law.specs.Step.{Meets};
ghost use Rattle.id_ord_map.specs.Answers.{Fresh, entered, made_mut, made_entry, or_made, replaced, taken_out, took_mut, put_back};
ghost use Rattle.id_ord_map.specs.View.{view, SameMemory};

use id_ord_errors::{InsertRefusal, OrInsertRefusal, ReplaceRefusal, StaleEntry};
use id_ord_item::{Comparable, IdOrdItem};
use id_ord_map::{Entry, IdOrdMap, OccupiedEntry, RefMut, VacantEntry};

/// Looks for a key.
pub fn entry<T: IdOrdItem, Q: Comparable<T>>(map: &IdOrdMap<'_, T>, query: &Q) -> Entry<T>
    requires sound { Sound T.IdOrdItem.order (view map.now) }
    ensures does { Meets T.IdOrdItem.order (LookUp (Q.Comparable.meant query.now)) (view map.now) (entered result) (view map.now) }
    ensures stands { Onward T.IdOrdItem.order (LookUp (Q.Comparable.meant query.now)) (view map.now) (view map.now) }
{
    map.entry(query)
}

/// Adds an item through a vacant entry.
pub fn vacant_insert<T: IdOrdItem>(
    entry: VacantEntry,
    map: &mut IdOrdMap<'_, T>,
    item: T,
) -> Result<RefMut<T>, InsertRefusal<T>>
    requires sound { Sound T.IdOrdItem.order (view map.old) }
    ensures does { Meets T.IdOrdItem.order (VacantInsert item) (view map.old) (made_mut result) (view map.new) }
    ensures stands { Onward T.IdOrdItem.order (VacantInsert item) (view map.old) (view map.new) }
    ensures fresh { Fresh result }
    ensures memory { SameMemory map.old map.new }
    ensures sound { Sound T.IdOrdItem.order (view map.new) }
{
    entry.insert(map, item)
}

/// Adds an item through a vacant entry, for an entry of it.
pub fn vacant_insert_entry<T: IdOrdItem>(
    entry: VacantEntry,
    map: &mut IdOrdMap<'_, T>,
    item: T,
) -> Result<OccupiedEntry<T>, InsertRefusal<T>>
    requires sound { Sound T.IdOrdItem.order (view map.old) }
    ensures does { Meets T.IdOrdItem.order (VacantInsertEntry item) (view map.old) (made_entry result) (view map.new) }
    ensures stands { Onward T.IdOrdItem.order (VacantInsertEntry item) (view map.old) (view map.new) }
    ensures memory { SameMemory map.old map.new }
    ensures sound { Sound T.IdOrdItem.order (view map.new) }
{
    entry.insert_entry(map, item)
}

/// Puts an item in the place of the one with an entry's key.
pub fn occupied_insert<T: IdOrdItem>(
    entry: &OccupiedEntry<T>,
    map: &mut IdOrdMap<'_, T>,
    item: T,
) -> Result<T, ReplaceRefusal<T>>
    requires sound { Sound T.IdOrdItem.order (view map.old) }
    ensures does { Meets T.IdOrdItem.order (OccupiedInsert entry.now.item item) (view map.old) (replaced result) (view map.new) }
    ensures stands { Onward T.IdOrdItem.order (OccupiedInsert entry.now.item item) (view map.old) (view map.new) }
    ensures memory { SameMemory map.old map.new }
    ensures sound { Sound T.IdOrdItem.order (view map.new) }
{
    entry.insert(map, item)
}

/// Takes out the item with an entry's key.
pub fn occupied_remove<T: IdOrdItem>(
    entry: OccupiedEntry<T>,
    map: &mut IdOrdMap<'_, T>,
) -> Result<T, StaleEntry>
    requires sound { Sound T.IdOrdItem.order (view map.old) }
    ensures does { Meets T.IdOrdItem.order (OccupiedRemove entry.item) (view map.old) (taken_out result) (view map.new) }
    ensures stands { Onward T.IdOrdItem.order (OccupiedRemove entry.item) (view map.old) (view map.new) }
    ensures memory { SameMemory map.old map.new }
    ensures sound { Sound T.IdOrdItem.order (view map.new) }
{
    entry.remove(map)
}

/// Takes the item with an entry's key for a change.
pub fn into_mut<T: IdOrdItem>(
    entry: OccupiedEntry<T>,
    map: &IdOrdMap<'_, T>,
) -> Result<RefMut<T>, StaleEntry>
    requires sound { Sound T.IdOrdItem.order (view map.now) }
    ensures does { Meets T.IdOrdItem.order (IntoMut entry.item) (view map.now) (took_mut result) (view map.now) }
    ensures stands { Onward T.IdOrdItem.order (IntoMut entry.item) (view map.now) (view map.now) }
    ensures fresh { Fresh result }
{
    entry.into_mut(map)
}

/// Takes the item with the key of an occupied entry for a change, through either case of an entry.
pub fn or_insert_occupied<T: IdOrdItem>(
    entry: OccupiedEntry<T>,
    map: &mut IdOrdMap<'_, T>,
    item: T,
) -> Result<RefMut<T>, OrInsertRefusal<T>>
    requires sound { Sound T.IdOrdItem.order (view map.old) }
    ensures does { Meets T.IdOrdItem.order (OrInsert (Some entry.item) item) (view map.old) (or_made result) (view map.new) }
    ensures stands { Onward T.IdOrdItem.order (OrInsert (Some entry.item) item) (view map.old) (view map.new) }
    ensures fresh { Fresh result }
    ensures memory { SameMemory map.old map.new }
    ensures sound { Sound T.IdOrdItem.order (view map.new) }
{
    Entry::Occupied(entry).or_insert(map, item)
}

/// Adds an item through a vacant entry, through either case of an entry.
pub fn or_insert_vacant<T: IdOrdItem>(
    entry: VacantEntry,
    map: &mut IdOrdMap<'_, T>,
    item: T,
) -> Result<RefMut<T>, OrInsertRefusal<T>>
    requires sound { Sound T.IdOrdItem.order (view map.old) }
    ensures does { Meets T.IdOrdItem.order (OrInsert None item) (view map.old) (or_made result) (view map.new) }
    ensures stands { Onward T.IdOrdItem.order (OrInsert None item) (view map.old) (view map.new) }
    ensures fresh { Fresh result }
    ensures memory { SameMemory map.old map.new }
    ensures sound { Sound T.IdOrdItem.order (view map.new) }
{
    Entry::Vacant(entry).or_insert(map, item)
}

/// Puts an item back as changed.
pub fn put_back<T: IdOrdItem>(
    item: RefMut<T>,
    map: &mut IdOrdMap<'_, T>,
) -> Result<(), ReplaceRefusal<T>>
    requires sound { Sound T.IdOrdItem.order (view map.old) }
    ensures does { Meets T.IdOrdItem.order (PutBack item.taken item.changed) (view map.old) (put_back result) (view map.new) }
    ensures stands { Onward T.IdOrdItem.order (PutBack item.taken item.changed) (view map.old) (view map.new) }
    ensures memory { SameMemory map.old map.new }
    ensures sound { Sound T.IdOrdItem.order (view map.new) }
{
    item.put_back(map)
}
