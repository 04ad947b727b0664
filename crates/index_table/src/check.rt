// The check of a table's entries.
ghost use Rattle.std.specs.Prelude.{◌≡◌, true, length};
ghost use Rattle.index_table.specs.Check.{first_place, followed, comes_after, repeats, nameless, table_fault, first_unordered};
ghost use Rattle.index_table.specs.Walk.{seen, Named, Ascending, walk};
ghost use Rattle.item_set.specs.Slots.{held};
ghost use Rattle.item_set.specs.Chain.{unless};

use crate::entry::Index;
use crate::fault::TableFault;
use id_ord_item::IdOrdItem;
use item_set::{ItemSlot, item_at};

/// Whether an item is Greater than the one before it, if there is one.
fn follows<T: IdOrdItem>(before: Option<T>, item: T) -> bool
    ensures { result ≡ followed T.IdOrdItem.order before item }
{
    before.is_none_or(|last| item.compare(&last).is_gt())
}

/// Whether every entry names an item and the items ascend, each Less than the next. It takes one pass.
pub fn ascends<T: IdOrdItem>(slots: &[ItemSlot<T>], entries: &[Index]) -> bool
    ensures yes { result ≡ true → Named slots.now entries.now × Ascending T.IdOrdItem.order (walk slots.now entries.now) }
    ensures no { Named slots.now entries.now → Ascending T.IdOrdItem.order (walk slots.now entries.now) → result ≡ true }
{
    let mut before: Option<T> = None;
    for entry in entries {
        let Some(item) = item_at(slots, entry.value()) else {
            return false;
        };
        if !follows(before, item) {
            return false;
        }
        before = Some(item);
    }
    true
}

/// The first place that names the slot of an earlier place.
fn first_repeat(entries: &[Index]) -> Option<usize>
    ensures { result ≡ first_place (repeats entries.now) (length entries.now) 0 }
{
    (0..entries.len()).find(|&place| entries[..place].contains(&entries[place]))
}

/// The first place that names no item.
fn first_nameless<T: Copy>(slots: &[ItemSlot<T>], entries: &[Index]) -> Option<usize>
    ensures { result ≡ first_place (nameless slots.now entries.now) (length entries.now) 0 }
{
    entries
        .iter()
        .position(|entry| item_at(slots, entry.value()).is_none())
}

/// Checks that there are `len` entries, that none repeats a slot and that each names an item.
///
/// The answer is the first fault, in this order of the tests, each at the first place that has it.
/// Entries whose items ascend pass in one look at each; a slower search is made only for what is refused.
pub fn validate<T: IdOrdItem>(
    slots: &[ItemSlot<T>],
    entries: &[Index],
    len: usize,
) -> Result<(), TableFault>
    ensures { result ≡ unless (table_fault slots.now entries.now len) }
{
    let count = entries.len();
    if count != len {
        return Err(TableFault::TableLength { count });
    }
    if ascends(slots, entries) {
        return Ok(());
    }
    if let Some(place) = first_repeat(entries) {
        return Err(TableFault::Repeated { place });
    }
    if let Some(place) = first_nameless(slots, entries) {
        return Err(TableFault::NotHeld { place });
    }
    Ok(())
}

/// Whether the item that an entry names is Greater than the one that the entry before it names, where both name one.
fn comes_after<T: IdOrdItem>(slots: &[ItemSlot<T>], before: Index, here: Index) -> bool
    ensures { result ≡ comes_after T.IdOrdItem.order (held (seen slots.now before)) (held (seen slots.now here)) }
{
    item_at(slots, here.value()).is_none_or(|item| follows(item_at(slots, before.value()), item))
}

/// The first place whose item is not Greater than the one at the place before.
pub fn first_unordered<T: IdOrdItem>(slots: &[ItemSlot<T>], entries: &[Index]) -> Option<usize>
    ensures { result ≡ first_unordered T.IdOrdItem.order slots.now entries.now }
{
    (1..entries.len()).find(|&place| !comes_after(slots, entries[place - 1], entries[place]))
}
