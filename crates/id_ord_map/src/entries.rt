// Entries: what was found where a key was looked for, and what can be done there.
ghost use Rattle.std.specs.Prelude.{◌≡◌};
ghost use Rattle.id_ord_law.specs.Law.{Onward};
ghost use Rattle.id_ord_law.specs.Parts.{Sound};
ghost use Rattle.id_ord_law.specs.Standing.{Call.entry as LookUp, Call.or_insert as OrInsert, Call.vacant_insert as VacantInsert, Call.vacant_insert_entry as VacantInsertEntry, Call.occupied_insert as OccupiedInsert, Call.occupied_remove as OccupiedRemove, Call.into_mut as IntoMut};
ghost use Rattle.id_ord_law.specs.Step.{Meets};
ghost use Rattle.id_ord_map.specs.Answers.{Fresh, holds, entered, made_mut, made_entry, or_made, replaced, taken_out, took_mut};
ghost use Rattle.id_ord_map.specs.View.{view, SameMemory};

use crate::map::IdOrdMap;
use crate::ref_mut::RefMut;
use id_ord_errors::{InsertRefusal, OrInsertRefusal, ReplaceRefusal, StaleEntry};
use id_ord_item::{Comparable, IdOrdItem};

/// The key does not stand. It holds nothing, and can be used once.
#[derive(Drop)]
pub struct VacantEntry(());

/// The key stands. It holds a copy of the item found, of which only the key is used.
#[derive(Drop)]
pub struct OccupiedEntry<T: IdOrdItem> {
    pub(crate) item: T,
}

// An enum of the Rust, whose cases have the calls that each allows.
/// What was found where a key was looked for. It borrows no map: each of its calls is handed one.
#[derive(Drop)]
pub enum Entry<T: IdOrdItem> {
    Vacant(VacantEntry),
    Occupied(OccupiedEntry<T>),
}

impl<'a, T: IdOrdItem> IdOrdMap<'a, T> {
    /// Looks for a key, and answers what it found.
    pub fn entry<Q: Comparable<T>>(&self, query: &Q) -> Entry<T>
        requires sound { Sound T.IdOrdItem.order (view self.now) }
        ensures does { Meets T.IdOrdItem.order (LookUp (Q.Comparable.meant query.now)) (view self.now) (entered result) (view self.now) }
        ensures stands { Onward T.IdOrdItem.order (LookUp (Q.Comparable.meant query.now)) (view self.now) (view self.now) }
    {
        match self.get(query) {
            Some(item) => Entry::Occupied(OccupiedEntry { item }),
            None => Entry::Vacant(VacantEntry(())),
        }
    }
}

impl VacantEntry {
    /// Adds an item, which may have any key, and answers a `RefMut` of it.
    pub fn insert<T: IdOrdItem>(
        self,
        map: &mut IdOrdMap<'_, T>,
        item: T,
    ) -> Result<RefMut<T>, InsertRefusal<T>>
        requires sound { Sound T.IdOrdItem.order (view map.old) }
        ensures does { Meets T.IdOrdItem.order (VacantInsert item) (view map.old) (made_mut result) (view map.new) }
        ensures stands { Onward T.IdOrdItem.order (VacantInsert item) (view map.old) (view map.new) }
        ensures fresh { Fresh result }
        ensures memory { SameMemory map.old map.new }
        ensures sound { Sound T.IdOrdItem.order (view map.new) }
    {
        map.insert_unique(item)?;
        Ok(RefMut::new(item))
    }

    /// Adds an item, which may have any key, and answers an entry of it.
    // apart from `insert` in what it answers alone: both keep their names in the Rust
    pub fn insert_entry<T: IdOrdItem>(
        self,
        map: &mut IdOrdMap<'_, T>,
        item: T,
    ) -> Result<OccupiedEntry<T>, InsertRefusal<T>>
        requires sound { Sound T.IdOrdItem.order (view map.old) }
        ensures does { Meets T.IdOrdItem.order (VacantInsertEntry item) (view map.old) (made_entry result) (view map.new) }
        ensures stands { Onward T.IdOrdItem.order (VacantInsertEntry item) (view map.old) (view map.new) }
        ensures memory { SameMemory map.old map.new }
        ensures sound { Sound T.IdOrdItem.order (view map.new) }
    {
        map.insert_unique(item)?;
        Ok(OccupiedEntry { item })
    }
}

impl<T: IdOrdItem> OccupiedEntry<T> {
    /// Puts an item in the place of the one that stands under the entry's key, and answers that. The entry can be used again.
    pub fn insert(&self, map: &mut IdOrdMap<'_, T>, item: T) -> Result<T, ReplaceRefusal<T>>
        requires sound { Sound T.IdOrdItem.order (view map.old) }
        ensures does { Meets T.IdOrdItem.order (OccupiedInsert self.now.item item) (view map.old) (replaced result) (view map.new) }
        ensures stands { Onward T.IdOrdItem.order (OccupiedInsert self.now.item item) (view map.old) (view map.new) }
        ensures memory { SameMemory map.old map.new }
        ensures sound { Sound T.IdOrdItem.order (view map.new) }
    {
        map.replace_taken(&self.item, item)
    }

    /// Takes out the item that stands under the entry's key, and answers it.
    pub fn remove(self, map: &mut IdOrdMap<'_, T>) -> Result<T, StaleEntry>
        requires sound { Sound T.IdOrdItem.order (view map.old) }
        ensures does { Meets T.IdOrdItem.order (OccupiedRemove self.item) (view map.old) (taken_out result) (view map.new) }
        ensures stands { Onward T.IdOrdItem.order (OccupiedRemove self.item) (view map.old) (view map.new) }
        ensures memory { SameMemory map.old map.new }
        ensures sound { Sound T.IdOrdItem.order (view map.new) }
    {
        let OccupiedEntry { item } = self;
        map.remove(&item).ok_or(StaleEntry)
    }

    /// A `RefMut` of the item that stands under the entry's key.
    pub fn into_mut(self, map: &IdOrdMap<'_, T>) -> Result<RefMut<T>, StaleEntry>
        requires sound { Sound T.IdOrdItem.order (view map.now) }
        ensures does { Meets T.IdOrdItem.order (IntoMut self.item) (view map.now) (took_mut result) (view map.now) }
        ensures stands { Onward T.IdOrdItem.order (IntoMut self.item) (view map.now) (view map.now) }
        ensures fresh { Fresh result }
    {
        let OccupiedEntry { item } = self;
        map.get_mut(&item).ok_or(StaleEntry)
    }
}

impl<T: IdOrdItem> Entry<T> {
    /// A `RefMut` of the item that stands under the entry's key, or of the item offered, which is then added.
    pub fn or_insert(
        self,
        map: &mut IdOrdMap<'_, T>,
        item: T,
    ) -> Result<RefMut<T>, OrInsertRefusal<T>>
        requires sound { Sound T.IdOrdItem.order (view map.old) }
        ensures does { Meets T.IdOrdItem.order (OrInsert (holds self) item) (view map.old) (or_made result) (view map.new) }
        ensures stands { Onward T.IdOrdItem.order (OrInsert (holds self) item) (view map.old) (view map.new) }
        ensures fresh { Fresh result }
        ensures memory { SameMemory map.old map.new }
        ensures sound { Sound T.IdOrdItem.order (view map.new) }
    {
        match self {
            Entry::Occupied(entry) => entry
                .into_mut(map)
                .map_err(|_| OrInsertRefusal::Stale { item }),
            Entry::Vacant(entry) => Ok(entry.insert(map, item)?),
        }
    }
}
