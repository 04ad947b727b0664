// The stays at the berths: each in a slot, and found by looking through the slots in use.
ghost use Rattle.std.specs.Prelude.{◌≡◌, ◌↔◌, IsTrue};
ghost use Rattle.item_set.specs.Store.{cleared};
ghost use Rattle.panel.specs.Berths.{Stands, Found, Added, Dropped, SameMemory};

use id_ord_item::Comparable;
use item_set::{ItemIndex, ItemSet, ItemSlot};
use panel_items::{Stay, StayAt};

/// The stays at the berths, in slots that the caller lends.
#[derive(Drop)]
pub struct Berths<'a> {
    pub numbers: ItemSet,
    pub slots: &'a mut [ItemSlot<Stay>],
}

/// Why a stay was not added.
#[derive(Clone, Copy, PartialEq, Eq, Debug)]
pub enum AddRefusal {
    /// DUPLICATE, number 1: this slot holds a stay with the key.
    Duplicate { stay: Stay, slot: ItemIndex },
    /// FULL, number 2: no slot can take the stay.
    Full { stay: Stay },
}

/// A stay was not dropped: no slot in use holds one with the key.
#[derive(Clone, Copy, PartialEq, Eq, Debug)]
pub struct NotThere {
    pub key: StayAt,
}

impl<'a> Berths<'a> {
    /// Berths at which no vessel stays.
    pub fn new(slots: &'a mut [ItemSlot<Stay>]) -> Berths<'a>
        ensures numbers { result.numbers ≡ cleared }
        ensures slots { result.slots.now ≡ slots.old }
        ensures memory { result.slots.ghost_name ≡ slots.entry.ghost_name }
    {
        Berths {
            numbers: ItemSet::new(),
            slots,
        }
    }

    /// Whether a slot is in use and holds a stay with the key.
    fn stands(&self, key: StayAt, slot: ItemIndex) -> bool
        ensures { IsTrue result ↔ Stands key self.now slot }
    {
        self.numbers
            .get(self.slots, slot)
            .is_some_and(|stay| key.compare(&stay).is_eq())
    }

    /// A slot in use whose stay has the key, if there is one.
    fn find_slot(&self, key: StayAt) -> Option<ItemIndex>
        ensures { Found key self.now result }
    {
        (0..self.numbers.used)
            .find(|&n| self.stands(key, ItemIndex::new(n)))
            .map(ItemIndex::new)
    }

    /// Adds a stay, unless its key stands or no slot can take it, and answers it with the slot that it is in.
    pub fn add_stay(&mut self, stay: Stay) -> Result<(ItemIndex, Stay), AddRefusal>
        ensures added { Added stay self.old result self.new }
        ensures memory { SameMemory self.old self.new }
    {
        if let Some(slot) = self.find_slot(StayAt::from(&stay)) {
            return Err(AddRefusal::Duplicate { stay, slot });
        }
        self.numbers
            .insert(self.slots, stay)
            .map(|slot| (slot, stay))
            .map_err(|refused| AddRefusal::Full { stay: refused.item })
    }

    /// Drops the stay with a key, if there is one, and answers it with the slot that it was in.
    pub fn drop_stay(&mut self, key: StayAt) -> Result<(ItemIndex, Stay), NotThere>
        ensures dropped { Dropped key self.old result self.new }
        ensures memory { SameMemory self.old self.new }
    {
        let refusal = NotThere { key };
        let slot = self.find_slot(key).ok_or(refusal)?;
        let stay = self.numbers.remove(self.slots, slot).ok_or(refusal)?;
        Ok((slot, stay))
    }
}
