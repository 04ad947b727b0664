// When two maps are equal.
ghost use Rattle.std.specs.Prelude.{◌≡◌, true};
ghost use Rattle.id_ord_law.specs.Law.{SameWalk};
ghost use Rattle.id_ord_law.specs.Parts.{Sound, walk};
ghost use Rattle.id_ord_map.specs.View.{view};

use crate::map::IdOrdMap;
use id_ord_item::IdOrdItem;

impl<'a, T: IdOrdItem> IdOrdMap<'a, T> {
    // `same`, and not `==`: it goes by what the kind of item says of its items
    /// Whether the walks of two maps have one length and their items agree in every field at every place.
    pub fn same(&self, other: &IdOrdMap<'_, T>) -> bool
        requires sound { Sound T.IdOrdItem.order (view self.now) }
        requires other { Sound T.IdOrdItem.order (view other.now) }
        ensures yes { result ≡ true → SameWalk T.IdOrdItem.equal (walk (view self.now)) (walk (view other.now)) }
        ensures no { SameWalk T.IdOrdItem.equal (walk (view self.now)) (walk (view other.now)) → result ≡ true }
    {
        let len = self.items.len;
        if len != other.items.len {
            return false;
        }
        // a map gives its items by place
        for place in 0..len as usize {
            let left = self.item_at(place);
            let right = other.item_at(place);
            if !left.same(&right) {
                return false;
            }
        }
        true
    }
}
