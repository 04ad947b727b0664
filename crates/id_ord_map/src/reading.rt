// What can be read of a map: how many items it holds, and the item of a key or of a place.
ghost use Rattle.std.specs.Prelude.{◌≡◌, ◌-◌};
ghost use Rattle.std.specs.Option.{option_map};
ghost use Rattle.std.specs.List.{slice_get};
ghost use Rattle.id_ord_law.specs.Parts.{Sound, walk};
ghost use Rattle.id_ord_law.specs.Reading.{HasKey, Least, Greatest};
ghost use Rattle.id_ord_law.specs.Standing.{found};
ghost use Rattle.id_ord_map.specs.Answers.{fresh};
ghost use Rattle.id_ord_map.specs.View.{view};

use crate::map::IdOrdMap;
use crate::ref_mut::RefMut;
use id_ord_item::{Comparable, IdOrdItem};

impl<'a, T: IdOrdItem> IdOrdMap<'a, T> {
    /// How many items the map holds.
    pub fn len(&self) -> u32
        ensures { result ≡ self.now.items.len }
    {
        self.items.len
    }

    /// A copy of the item with the key looked for, if it stands.
    pub fn get<Q: Comparable<T>>(&self, query: &Q) -> Option<T>
        requires sound { Sound T.IdOrdItem.order (view self.now) }
        ensures answer { result ≡ found T.IdOrdItem.order (Q.Comparable.meant query.now) (walk (view self.now)) }
        ensures key { HasKey T.IdOrdItem.order (Q.Comparable.meant query.now) (walk (view self.now)) result }
    {
        let index = self.find_index(query)?;
        self.items.get(self.slots, index)
    }

    /// A copy of the item at a place of the walk: none from `len` on.
    pub fn iter(&self, place: usize) -> Option<T>
        requires sound { Sound T.IdOrdItem.order (view self.now) }
        ensures { result ≡ slice_get (walk (view self.now)) place }
    {
        if place >= self.items.len as usize {
            return None;
        }
        Some(self.item_at(place))
    }

    /// A copy of the item with the least key, if there is one.
    pub fn first(&self) -> Option<T>
        requires sound { Sound T.IdOrdItem.order (view self.now) }
        ensures answer { result ≡ slice_get (walk (view self.now)) 0 }
        ensures least { Least T.IdOrdItem.order (walk (view self.now)) result }
    {
        self.iter(0)
    }

    /// A copy of the item with the greatest key, if there is one.
    pub fn last(&self) -> Option<T>
        requires sound { Sound T.IdOrdItem.order (view self.now) }
        ensures answer { result ≡ slice_get (walk (view self.now)) (self.now.items.len - 1) }
        ensures greatest { Greatest T.IdOrdItem.order (walk (view self.now)) result }
    {
        self.iter((self.items.len as usize).saturating_sub(1))
    }

    /// A `RefMut` of the item with the key looked for, if it stands.
    pub fn get_mut<Q: Comparable<T>>(&self, query: &Q) -> Option<RefMut<T>>
        requires sound { Sound T.IdOrdItem.order (view self.now) }
        ensures { result ≡ option_map fresh (found T.IdOrdItem.order (Q.Comparable.meant query.now) (walk (view self.now))) }
    {
        self.get(query).map(RefMut::new)
    }
}
