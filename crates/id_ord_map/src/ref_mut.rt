// An item taken for a change, and putting it back.
ghost use Rattle.std.specs.Prelude.{◌≡◌};
ghost use Rattle.id_ord_law.specs.Law.{Onward};
ghost use Rattle.id_ord_law.specs.Parts.{Sound};
ghost use Rattle.id_ord_law.specs.Standing.{Call.put_back as PutBack};
ghost use Rattle.id_ord_law.specs.Step.{Meets};
ghost use Rattle.id_ord_map.specs.Answers.{fresh, put_back};
ghost use Rattle.id_ord_map.specs.View.{view, SameMemory};

use crate::map::IdOrdMap;
use id_ord_errors::ReplaceRefusal;
use id_ord_item::IdOrdItem;

/// An item that was taken from a map, and the same item as changed. It borrows no map.
///
/// Let go without `put_back`, it changes nothing.
// That it is not changed yet holds of some only, so the calls that answer such a one say it.
#[derive(Drop)]
pub struct RefMut<T: IdOrdItem> {
    taken: T,
    changed: T,
}

impl<T: IdOrdItem> RefMut<T> {
    /// An item as it was taken, not changed yet.
    pub(crate) fn new(item: T) -> RefMut<T>
        ensures { result ≡ fresh item }
    {
        RefMut {
            taken: item,
            changed: item,
        }
    }

    /// The item as it was taken.
    pub fn taken(&self) -> T
        ensures { result ≡ self.now.taken }
    {
        self.taken
    }

    /// The item as changed.
    pub fn changed(&self) -> T
        ensures { result ≡ self.now.changed }
    {
        self.changed
    }

    /// Sets the item as changed. The item taken stays.
    pub fn set(&mut self, item: T)
        ensures { self.new ≡ record { taken = self.old.taken; changed = item } }
    {
        self.changed = item;
    }

    /// Puts the item as changed in the place of the one that stands under its key.
    pub fn put_back(self, map: &mut IdOrdMap<'_, T>) -> Result<(), ReplaceRefusal<T>>
        requires sound { Sound T.IdOrdItem.order (view map.old) }
        ensures does { Meets T.IdOrdItem.order (PutBack self.taken self.changed) (view map.old) (put_back result) (view map.new) }
        ensures stands { Onward T.IdOrdItem.order (PutBack self.taken self.changed) (view map.old) (view map.new) }
        ensures memory { SameMemory map.old map.new }
        ensures sound { Sound T.IdOrdItem.order (view map.new) }
    {
        let RefMut { taken, changed } = self;
        let _ = map.replace_taken(&taken, changed)?;
        Ok(())
    }
}
