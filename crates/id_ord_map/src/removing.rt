// Taking items out: by key, from either end, and all.
ghost use Rattle.std.specs.Prelude.{◌≡◌};
ghost use Rattle.id_ord_law.specs.Law.{Onward};
ghost use Rattle.id_ord_law.specs.Parts.{Sound};
ghost use Rattle.id_ord_law.specs.Standing.{Answer.done as done, Call.remove as Remove, Call.pop_first as PopFirst, Call.pop_last as PopLast, Call.clear as Clear};
ghost use Rattle.id_ord_law.specs.Step.{Meets, popping};
ghost use Rattle.id_ord_map.specs.Answers.{removed};
ghost use Rattle.id_ord_map.specs.View.{view, SameMemory};

use crate::map::IdOrdMap;
use id_ord_item::{Comparable, IdOrdItem};

impl<'a, T: IdOrdItem> IdOrdMap<'a, T> {
    /// Takes out the item with the key looked for, and answers it: none if the key does not stand.
    pub fn remove<Q: Comparable<T>>(&mut self, query: &Q) -> Option<T>
        requires sound { Sound T.IdOrdItem.order (view self.old) }
        ensures does { Meets T.IdOrdItem.order (Remove (Q.Comparable.meant query.now)) (view self.old) (removed result) (view self.new) }
        ensures stands { Onward T.IdOrdItem.order (Remove (Q.Comparable.meant query.now)) (view self.old) (view self.new) }
        ensures memory { SameMemory self.old self.new }
        ensures sound { Sound T.IdOrdItem.order (view self.new) }
    {
        let _ = self.find_index(query)?;
        let place = self.find_place(query);
        Some(self.take_out(place))
    }

    /// Takes out the item at a place of the walk, and answers it: none from `len` on.
    fn pop_at(&mut self, place: usize) -> Option<T>
        requires sound { Sound T.IdOrdItem.order (view self.old) }
        ensures does { (removed result ≡ (popping T.IdOrdItem.order place (view self.old)).0) × (view self.new ≡ (popping T.IdOrdItem.order place (view self.old)).1) }
        ensures memory { SameMemory self.old self.new }
        ensures sound { Sound T.IdOrdItem.order (view self.new) }
    {
        if place >= self.items.len as usize {
            return None;
        }
        Some(self.take_out(place))
    }

    /// Takes out the item with the least key, and answers it: none if the map is empty.
    pub fn pop_first(&mut self) -> Option<T>
        requires sound { Sound T.IdOrdItem.order (view self.old) }
        ensures does { Meets T.IdOrdItem.order PopFirst (view self.old) (removed result) (view self.new) }
        ensures stands { Onward T.IdOrdItem.order PopFirst (view self.old) (view self.new) }
        ensures memory { SameMemory self.old self.new }
        ensures sound { Sound T.IdOrdItem.order (view self.new) }
    {
        self.pop_at(0)
    }

    /// Takes out the item with the greatest key, and answers it: none if the map is empty.
    pub fn pop_last(&mut self) -> Option<T>
        requires sound { Sound T.IdOrdItem.order (view self.old) }
        ensures does { Meets T.IdOrdItem.order PopLast (view self.old) (removed result) (view self.new) }
        ensures stands { Onward T.IdOrdItem.order PopLast (view self.old) (view self.new) }
        ensures memory { SameMemory self.old self.new }
        ensures sound { Sound T.IdOrdItem.order (view self.new) }
    {
        let place = (self.items.len as usize).saturating_sub(1);
        self.pop_at(place)
    }

    /// Takes out all items. No memory is written.
    pub fn clear(&mut self)
        requires sound { Sound T.IdOrdItem.order (view self.old) }
        ensures does { Meets T.IdOrdItem.order Clear (view self.old) done (view self.new) }
        ensures stands { Onward T.IdOrdItem.order Clear (view self.old) (view self.new) }
        ensures memory { SameMemory self.old self.new }
        ensures sound { Sound T.IdOrdItem.order (view self.new) }
    {
        self.items.clear();
    }
}
