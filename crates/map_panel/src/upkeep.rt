// The upkeep of a board's memory: shrinking it, and adopting it again under numbers that were saved or typed.
ghost use Rattle.std.specs.Prelude.{◌≡◌, min, length};
ghost use Rattle.std.specs.Result.{result_unwrap_or};
ghost use Rattle.id_ord_law.specs.Parts.{Sound};
ghost use Rattle.id_ord_law.specs.Standing.{Call.shrink_to_fit as ShrinkToFit, Answer.shrunk as Shrunk};
ghost use Rattle.id_ord_law.specs.Step.{Meets};
ghost use Rattle.id_ord_map.specs.Fault.{offered, map_fault, adopted};
ghost use Rattle.id_ord_map.specs.View.{view};
ghost use Rattle.item_set.specs.Compact.{remapped};
ghost use Rattle.map_panel.specs.Upkeep.{adopt_answer, Shrinks, Saves, KeepsUp, saved_after, remap_after};

use crate::board::Board;
use crate::refusals::Refusal;
use id_ord_errors::ValidationError;
use id_ord_item::IdOrdItem;
use id_ord_map::IdOrdMap;
use item_set::{CompactRefusal, IndexRemap, ItemIndex, ItemSet, RemapRefusal};

/// What can be asked of a board's memory.
#[derive(Clone, Copy)]
pub enum Upkeep {
    /// Shrink with so many places of the scratch, or all.
    Shrink(Option<u32>),
    /// Tell the new number of a slot.
    Remap(ItemIndex),
    Save,
    /// Adopt the numbers that were saved.
    Restore,
    /// Adopt these numbers, with so many table entries.
    Adopt(ItemSet, u32),
}

/// What became of the memory.
#[derive(Clone, Copy)]
pub enum Kempt {
    Shrunk(IndexRemap),
    /// This is the slot's new number.
    Moved(ItemIndex),
    Saved(ItemSet),
    /// The board holds so many items now.
    Adopted(u32),
}

/// Shrinks a map with so many places of the scratch, or all where it has fewer.
fn shrink_within<T: IdOrdItem>(
    map: &mut IdOrdMap<'_, T>,
    scratch: &mut [ItemIndex],
    places: usize,
) -> Result<IndexRemap, CompactRefusal>
    requires sound { Sound T.IdOrdItem.order (view map.old) }
    ensures does { Meets T.IdOrdItem.order (ShrinkToFit (min places (length scratch.old))) (view map.old) (Shrunk result) (view map.new) }
    ensures sound { Sound T.IdOrdItem.order (view map.new) }
{
    let places = places.min(scratch.len());
    map.shrink_to_fit(&mut scratch[0..places])
}

/// Has a map start anew with other numbers, if they fit its memory, and answers how many items it holds then.
fn adopt<T: IdOrdItem>(
    map: &mut IdOrdMap<'_, T>,
    numbers: ItemSet,
    count: u32,
) -> Result<u32, ValidationError>
    requires sound { Sound T.IdOrdItem.order (view map.old) }
    ensures answer { result ≡ adopt_answer numbers.len (map_fault T.IdOrdItem.order (offered numbers.used numbers.len numbers.free_head (view map.old)) count) }
    ensures after { view map.new ≡ adopted T.IdOrdItem.order (offered numbers.used numbers.len numbers.free_head (view map.old)) count (view map.old) }
    ensures sound { Sound T.IdOrdItem.order (view map.new) }
{
    map.adopt(numbers.used, numbers.len, numbers.free_head, count)?;
    Ok(numbers.len)
}

impl<T: IdOrdItem> Board<'_, T> {
    /// Shrinks the map, and remembers what became of the slot numbers.
    fn shrink(&mut self, places: Option<u32>) -> Result<IndexRemap, CompactRefusal>
        requires sound { Sound T.IdOrdItem.order (view self.old.map) }
        ensures does { Shrinks T.IdOrdItem.order places self.old result self.new }
        ensures saved { self.new.saved ≡ self.old.saved }
        ensures remap { self.new.remap ≡ result_unwrap_or result self.old.remap }
        ensures sound { Sound T.IdOrdItem.order (view self.new.map) }
    {
        let places = places.map_or(self.scratch.len(), |places| places as usize);
        let remap = shrink_within(&mut self.map, self.scratch, places)?;
        self.remap = remap;
        Ok(remap)
    }

    /// The new number that the last shrinking gave a slot.
    pub fn remap(&self, slot: ItemIndex) -> Result<ItemIndex, RemapRefusal>
        ensures { result ≡ remapped self.now.remap self.now.scratch.now slot }
    {
        self.remap.remap(self.scratch, slot)
    }

    /// Remembers the map's numbers.
    fn save(&mut self) -> ItemSet
        requires sound { Sound T.IdOrdItem.order (view self.old.map) }
        ensures does { Saves self.old result self.new }
        ensures remap { self.new.remap ≡ self.old.remap }
        ensures sound { Sound T.IdOrdItem.order (view self.new.map) }
    {
        self.saved = self.map.items();
        self.saved
    }

    /// Does with the board's memory what is asked, and tells what became of it.
    pub fn keep_up(&mut self, upkeep: Upkeep) -> Result<Kempt, Refusal<T>>
        requires sound { Sound T.IdOrdItem.order (view self.old.map) }
        ensures does { KeepsUp T.IdOrdItem.order upkeep self.old result self.new }
        ensures saved { self.new.saved ≡ saved_after upkeep self.old }
        ensures remap { self.new.remap ≡ remap_after result self.old.remap }
        ensures sound { Sound T.IdOrdItem.order (view self.new.map) }
    {
        Ok(match upkeep {
            Upkeep::Shrink(places) => Kempt::Shrunk(self.shrink(places)?),
            Upkeep::Remap(slot) => Kempt::Moved(self.remap(slot)?),
            Upkeep::Save => Kempt::Saved(self.save()),
            Upkeep::Restore => {
                let saved = self.saved;
                Kempt::Adopted(adopt(&mut self.map, saved, saved.len)?)
            }
            Upkeep::Adopt(numbers, count) => Kempt::Adopted(adopt(&mut self.map, numbers, count)?),
        })
    }
}
