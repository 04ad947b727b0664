// A board: a map of one kind of item, with what the panel remembers of it from line to line.
ghost use Rattle.id_ord_law.specs.Parts.{Sound};
ghost use Rattle.id_ord_map.specs.View.{view};

use crate::handling::Hand;
use crate::memory::Memory;
use id_ord_item::IdOrdItem;
use id_ord_map::IdOrdMap;
use item_set::{IndexRemap, ItemIndex, ItemSet};

/// A board of one kind of item. No board can hold a map that is not sound.
// The field `sound` is proved of each board that is made or changed. It says that there is a proof and not which, and
// a call of the map asks for the proof itself; so the methods ask for that, too, and none opens the field.
#[derive(Drop)]
pub struct Board<'m, T: IdOrdItem> {
    pub map: IdOrdMap<'m, T>,
    pub hand: Hand<T>,
    /// The map's numbers when they were last saved.
    pub saved: ItemSet,
    /// What the last shrinking did to the slot numbers, and the scratch that it filled.
    pub remap: IndexRemap,
    pub scratch: &'m mut [ItemIndex],
    pub ghost sound: { ∥ Sound T.IdOrdItem.order (view map) ∥₁ },
}

impl<'m, T: IdOrdItem> Board<'m, T> {
    /// An empty board over this memory.
    pub fn new(memory: &'m mut Memory<T>) -> Board<'m, T>
        ensures sound { Sound T.IdOrdItem.order (view result.map) }
    {
        Board {
            map: IdOrdMap::new(memory.slots.as_mut_slice(), memory.table.as_mut_slice()),
            hand: Hand::Empty,
            saved: ItemSet::new(),
            remap: IndexRemap::Identity,
            scratch: memory.scratch.as_mut_slice(),
        }
    }
}
