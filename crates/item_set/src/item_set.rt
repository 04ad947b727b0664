// The numbers of a slot store, and what it does with one item.
ghost use Rattle.std.specs.Prelude.{◌≡◌, ◌^◌, ◌<◌, length};
ghost use Rattle.std.specs.Option.{option_map};
ghost use Rattle.item_set.specs.Store.{in_use, grown, next_index, inserted, inserted_slots, insert_answer, held_in, removed, removed_slots, replaced_slots, replace_answer, cleared};

use crate::index::ItemIndex;
use crate::slot::{ItemSlot, item_at, next_at, put};

// The methods take the slots, since the map holds the lent slices and hands them on.
/// The numbers of a slot store: a plain record, whose methods take the slots that they work on.
///
/// Only the first `used` slots are in use. Of them `len` hold an item; the others are free, and
/// form a chain that begins at `free_head`.
#[derive(Clone, Copy, PartialEq, Eq, Debug)]
pub struct ItemSet {
    /// How many slots were ever reached.
    pub used: u32,
    /// How many of them hold an item.
    pub len: u32,
    /// The free slot that is taken next, `SENTINEL` if none is free.
    pub free_head: ItemIndex,
}

/// No slot can take the item, which comes back.
#[derive(Clone, Copy, PartialEq, Eq, Debug)]
pub struct NoSlot<T> {
    pub item: T,
}

/// The slot holds no item that could be replaced; the item offered comes back.
// apart from NoSlot, so that the type of an answer says what was refused
#[derive(Clone, Copy, PartialEq, Eq, Debug)]
pub struct NotHeld<T> {
    pub item: T,
}

impl ItemSet {
    /// A store in which no slot is in use.
    pub fn new() -> ItemSet
        ensures { result ≡ cleared }
    {
        ItemSet {
            used: 0,
            len: 0,
            free_head: ItemIndex::SENTINEL,
        }
    }

    /// The slots in use.
    pub(crate) fn in_use<'a, T>(&self, slots: &'a [ItemSlot<T>]) -> &'a [ItemSlot<T>]
        ensures value { result.now ≡ in_use self.now slots.now }
        ensures bound { length result.now < 2 ^ 32 }
    {
        let end = (self.used as usize).min(slots.len());
        &slots[..end]
    }

    /// The item in a slot: none where the slot is not in use, or vacant.
    pub fn get<T: Copy>(&self, slots: &[ItemSlot<T>], index: ItemIndex) -> Option<T>
        ensures { result ≡ held_in self.now slots.now index }
    {
        item_at(self.in_use(slots), index)
    }

    /// The slot that takes one item more, and the numbers with that item: none where there is no such slot.
    fn one_more<T: Copy>(&self, slots: &[ItemSlot<T>]) -> Option<(ItemIndex, ItemSet)>
        ensures { result ≡ option_map (λ i. (i, grown self.now slots.now)) (next_index self.now slots.now) }
    {
        let mut more = *self;
        more.len = self.len.checked_add(1)?;
        if self.free_head.is_sentinel() {
            if self.used as usize >= slots.len() {
                return None;
            }
            more.used = self.used.checked_add(1)?;
            return Some((ItemIndex::new(self.used), more));
        }
        more.free_head = next_at(self.in_use(slots), self.free_head)?;
        Some((self.free_head, more))
    }

    /// Puts an item into the free head, or into the first slot that is not in use if none is free,
    /// and answers its slot. Where there is no such slot, nothing is written and the item comes back.
    pub fn insert<T: Copy>(
        &mut self,
        slots: &mut [ItemSlot<T>],
        item: T,
    ) -> Result<ItemIndex, NoSlot<T>>
        ensures answer { result ≡ insert_answer self.old slots.old item }
        ensures slots { slots.new ≡ inserted_slots self.old slots.old item }
        ensures numbers { self.new ≡ inserted self.old slots.old }
    {
        let (index, more) = self.one_more(slots).ok_or(NoSlot { item })?;
        put(slots, index, ItemSlot::Occupied(item));
        *self = more;
        Ok(index)
    }

    /// Takes the item out of a slot and frees the slot, which becomes the free head.
    /// Where the slot is not in use, or vacant, the answer is none and nothing is written.
    pub fn remove<T: Copy>(&mut self, slots: &mut [ItemSlot<T>], index: ItemIndex) -> Option<T>
        ensures answer { result ≡ held_in self.old slots.old index }
        ensures slots { slots.new ≡ removed_slots self.old slots.old index }
        ensures numbers { self.new ≡ removed self.old slots.old index }
    {
        let item = self.get(slots, index)?;
        let next = self.free_head;
        put(slots, index, ItemSlot::Vacant { next });
        self.free_head = index;
        self.len = self.len.saturating_sub(1);
        Some(item)
    }

    /// Puts an item in the place of the one in a slot, and answers the old one.
    /// Where the slot is not in use, or vacant, nothing is written and the item comes back.
    pub fn replace<T: Copy>(
        &self,
        slots: &mut [ItemSlot<T>],
        index: ItemIndex,
        item: T,
    ) -> Result<T, NotHeld<T>>
        ensures answer { result ≡ replace_answer self.now slots.old index item }
        ensures slots { slots.new ≡ replaced_slots self.now slots.old index item }
    {
        let old = self.get(slots, index).ok_or(NotHeld { item })?;
        put(slots, index, ItemSlot::Occupied(item));
        Ok(old)
    }

    /// Takes every slot out of use. No memory is written.
    pub fn clear(&mut self)
        ensures { self.new ≡ cleared }
    {
        *self = ItemSet::new();
    }
}
