// What a board's hand does: it takes an item out for a change and puts it back, or holds an entry and uses it.
ghost use Rattle.std.specs.Prelude.{◌≡◌};
ghost use Rattle.id_ord_law.specs.Parts.{Sound, walk};
ghost use Rattle.id_ord_law.specs.Standing.{found};
ghost use Rattle.id_ord_map.specs.View.{view};
ghost use Rattle.map_panel.specs.Handling.{looked_up, Changes, PutsBack, Enters, Inserts, Removes, Handles};

use crate::refusals::Refusal;
use id_ord_item::{Comparable, IdOrdItem};
use id_ord_map::{Entry, IdOrdMap, RefMut};
use std::mem;

/// What a board's hand holds from one line to the next. It is of a copy, so the board may change meanwhile.
#[derive(Drop)]
pub enum Hand<T: IdOrdItem> {
    Empty,
    Entry(Entry<T>),
    Item(RefMut<T>),
}

/// What a hand can do.
#[derive(Clone, Copy)]
pub enum Handling<T, Q> {
    Take(Q),
    Change(T),
    PutBack,
    Entry(Q),
    Enter(T),
    Insert(T),
    Remove,
}

/// What a hand did.
#[derive(Clone, Copy)]
pub enum Handled<T> {
    /// It holds this item now, not changed yet: none where no item has the key.
    Took(Option<T>),
    /// It holds this item now, as changed.
    Changed(T),
    /// The item as changed stands on the board.
    PutBack(T),
    /// It holds an entry of a key that does not stand.
    Vacant,
    /// It holds an entry of a key that stands.
    Occupied,
    /// The item was added, and the hand holds an entry of it.
    Added(T),
    /// This item stood under the entry's key, and another stands in its place now.
    Replaced(T),
    /// This item stood under the entry's key, and is gone.
    Removed(T),
}

impl<T: IdOrdItem> Hand<T> {
    /// Looks for an item, and takes it into the hand.
    fn take<Q: Comparable<T>>(&mut self, map: &IdOrdMap<'_, T>, query: &Q) -> Option<T>
        requires sound { Sound T.IdOrdItem.order (view map.now) }
        ensures { result ≡ found T.IdOrdItem.order (Q.Comparable.meant query.now) (walk (view map.now)) }
    {
        let item = map.get_mut(query)?;
        let taken = item.taken();
        *self = Hand::Item(item);
        Some(taken)
    }

    /// Changes the item in the hand.
    fn change(&mut self, item: T) -> Result<(), Refusal<T>>
        ensures does { Changes item self.old result self.new }
    {
        let Hand::Item(held) = self else {
            return Err(Refusal::NoItem);
        };
        held.set(item);
        Ok(())
    }

    /// Puts the item in the hand back on the board, and answers it as changed.
    fn put_back(&mut self, map: &mut IdOrdMap<'_, T>) -> Result<T, Refusal<T>>
        requires sound { Sound T.IdOrdItem.order (view map.old) }
        ensures does { PutsBack T.IdOrdItem.order self.old (view map.old) result (view map.new) }
        ensures sound { Sound T.IdOrdItem.order (view map.new) }
    {
        match mem::replace(self, Hand::Empty) {
            Hand::Item(item) => {
                let changed = item.changed();
                item.put_back(map)?;
                Ok(changed)
            }
            other => {
                *self = other;
                Err(Refusal::NoItem)
            }
        }
    }

    /// Looks for a key, and holds the entry of what was found.
    fn look_up<Q: Comparable<T>>(&mut self, map: &IdOrdMap<'_, T>, query: &Q) -> Handled<T>
        requires sound { Sound T.IdOrdItem.order (view map.now) }
        ensures { result ≡ looked_up (found T.IdOrdItem.order (Q.Comparable.meant query.now) (walk (view map.now))) }
    {
        let entry = map.entry(query);
        let found = match &entry {
            Entry::Vacant(_) => Handled::Vacant,
            Entry::Occupied(_) => Handled::Occupied,
        };
        *self = Hand::Entry(entry);
        found
    }

    /// Takes the item of the entry in the hand, or of a vacant entry the item offered, which is then added.
    fn enter(&mut self, map: &mut IdOrdMap<'_, T>, item: T) -> Result<T, Refusal<T>>
        requires sound { Sound T.IdOrdItem.order (view map.old) }
        ensures does { Enters T.IdOrdItem.order item self.old (view map.old) result (view map.new) }
        ensures sound { Sound T.IdOrdItem.order (view map.new) }
    {
        match mem::replace(self, Hand::Empty) {
            Hand::Entry(entry) => {
                let held = entry.or_insert(map, item)?;
                let taken = held.taken();
                *self = Hand::Item(held);
                Ok(taken)
            }
            other => {
                *self = other;
                Err(Refusal::NoEntry)
            }
        }
    }

    /// Puts an item where the entry in the hand is: in the place of the item that stands there, which it answers, or added.
    fn insert(&mut self, map: &mut IdOrdMap<'_, T>, item: T) -> Result<Option<T>, Refusal<T>>
        requires sound { Sound T.IdOrdItem.order (view map.old) }
        ensures does { Inserts T.IdOrdItem.order item self.old (view map.old) result (view map.new) }
        ensures sound { Sound T.IdOrdItem.order (view map.new) }
    {
        match mem::replace(self, Hand::Empty) {
            Hand::Entry(Entry::Vacant(entry)) => {
                let entry = entry.insert_entry(map, item)?;
                *self = Hand::Entry(Entry::Occupied(entry));
                Ok(None)
            }
            Hand::Entry(Entry::Occupied(entry)) => {
                let answer = entry.insert(map, item);
                *self = Hand::Entry(Entry::Occupied(entry));
                Ok(Some(answer?))
            }
            other => {
                *self = other;
                Err(Refusal::NoEntry)
            }
        }
    }

    /// Takes out the item of the entry in the hand, and answers it.
    fn remove(&mut self, map: &mut IdOrdMap<'_, T>) -> Result<T, Refusal<T>>
        requires sound { Sound T.IdOrdItem.order (view map.old) }
        ensures does { Removes T.IdOrdItem.order self.old (view map.old) result (view map.new) }
        ensures sound { Sound T.IdOrdItem.order (view map.new) }
    {
        match mem::replace(self, Hand::Empty) {
            Hand::Entry(Entry::Occupied(entry)) => Ok(entry.remove(map)?),
            other => {
                *self = other;
                Err(Refusal::NoEntry)
            }
        }
    }

    /// Does what is asked of the hand, and tells what was done.
    pub fn handle<Q: Comparable<T> + Copy>(
        &mut self,
        map: &mut IdOrdMap<'_, T>,
        handling: Handling<T, Q>,
    ) -> Result<Handled<T>, Refusal<T>>
        requires sound { Sound T.IdOrdItem.order (view map.old) }
        ensures does { Handles T.IdOrdItem.order Q.Comparable.meant handling self.old (view map.old) result self.new (view map.new) }
        ensures sound { Sound T.IdOrdItem.order (view map.new) }
    {
        match handling {
            Handling::Take(query) => Ok(Handled::Took(self.take(map, &query))),
            Handling::Change(item) => {
                self.change(item)?;
                Ok(Handled::Changed(item))
            }
            Handling::PutBack => Ok(Handled::PutBack(self.put_back(map)?)),
            Handling::Entry(query) => Ok(self.look_up(map, &query)),
            Handling::Enter(item) => Ok(Handled::Took(Some(self.enter(map, item)?))),
            Handling::Insert(item) => match self.insert(map, item)? {
                Some(old) => Ok(Handled::Replaced(old)),
                None => Ok(Handled::Added(item)),
            },
            Handling::Remove => Ok(Handled::Removed(self.remove(map)?)),
        }
    }
}
