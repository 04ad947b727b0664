// Starting a map over memory that holds items already, and the checks of a map's parts.
ghost use Rattle.std.specs.Prelude.{◌≡◌};
ghost use Rattle.item_set.specs.Chain.{unless};
ghost use Rattle.id_ord_law.specs.Law.{RunLaw};
ghost use Rattle.id_ord_law.specs.Parts.{Sound};
ghost use Rattle.id_ord_law.specs.Reading.{ReadLaw};
ghost use Rattle.id_ord_map.specs.Fault.{offered, entries_fault, map_fault, Accepts, adopted, Begun, compactness_fault};
ghost use Rattle.id_ord_map.specs.View.{view, SameMemory};

use crate::map::IdOrdMap;
use id_ord_errors::ValidationError;
use id_ord_item::IdOrdItem;
use id_ord_law::{reads_hold, runs_hold};
use index_table::Index;
use item_set::{ItemIndex, ItemSet, ItemSlot, ValidateCompact};

/// Checks that there are `len` entries, that they name different items, and that the items ascend.
///
/// The answer is the first fault, in this order of the tests. Entries that pass are looked at once each;
/// only entries that are refused are looked at again, for their first fault.
fn check_entries<T: IdOrdItem>(
    slots: &[ItemSlot<T>],
    entries: &[Index],
    len: usize,
) -> Result<(), ValidationError>
    ensures { result ≡ unless (entries_fault T.IdOrdItem.order slots.now entries.now len) }
{
    if entries.len() == len && index_table::ascends(slots, entries) {
        return Ok(());
    }
    index_table::validate(slots, entries, len)?;
    if let Some(place) = index_table::first_unordered(slots, entries) {
        return Err(ValidationError::Order { place });
    }
    Ok(())
}

impl<'a, T: IdOrdItem> IdOrdMap<'a, T> {
    /// Checks the map's memory under other numbers: first the sizes, then the slots, then the table.
    ///
    /// The answer is the first fault; none says that these parts are sound.
    fn check_parts(&self, items: ItemSet, count: u32) -> Result<(), ValidationError>
        ensures answer { result ≡ unless (map_fault T.IdOrdItem.order (offered items.used items.len items.free_head (view self.now)) count) }
        ensures accepts { Accepts T.IdOrdItem.order (offered items.used items.len items.free_head (view self.now)) count result }
    {
        let capacity = self.capacity();
        if items.used as usize > capacity {
            return Err(ValidationError::Size { place: items.used });
        }
        if count as usize > capacity {
            return Err(ValidationError::Size { place: count });
        }
        items.validate(self.slots)?;
        check_entries(
            &self.slots[0..items.used as usize],
            &self.table[0..count as usize],
            items.len as usize,
        )
    }

    /// Starts the map anew with these numbers, of which `count` is how many table entries there are.
    ///
    /// They are refused with the first fault that its memory has under them, and the map is then as it was.
    /// No memory is written.
    // the four numbers come one by one, as the rules of adopting name and test them
    pub fn adopt(
        &mut self,
        used: u32,
        len: u32,
        free_head: ItemIndex,
        count: u32,
    ) -> Result<(), ValidationError>
        requires sound { Sound T.IdOrdItem.order (view self.old) }
        ensures answer { result ≡ unless (map_fault T.IdOrdItem.order (offered used len free_head (view self.old)) count) }
        ensures after { view self.new ≡ adopted T.IdOrdItem.order (offered used len free_head (view self.old)) count (view self.old) }
        ensures accepts { Accepts T.IdOrdItem.order (offered used len free_head (view self.old)) count result }
        ensures begins { Begun T.IdOrdItem.order (view self.new) result }
        ensures law { RunLaw T.IdOrdItem.order T.IdOrdItem.equal }
        ensures reads { ReadLaw T.IdOrdItem.order }
        ensures memory { SameMemory self.old self.new }
        ensures sound { Sound T.IdOrdItem.order (view self.new) }
    {
        runs_hold::<T>();
        reads_hold::<T>();
        let items = ItemSet {
            used,
            len,
            free_head,
        };
        self.check_parts(items, count)?;
        self.items = items;
        Ok(())
    }

    /// Checks that no slot in use is vacant, where that is asked for. It reads no slot, since a map's parts are sound.
    pub fn validate(&self, compactness: ValidateCompact) -> Result<(), ValidationError>
        requires sound { Sound T.IdOrdItem.order (view self.now) }
        ensures { result ≡ unless (compactness_fault compactness (view self.now)) }
    {
        self.items.validate_compact(compactness)?;
        Ok(())
    }
}
