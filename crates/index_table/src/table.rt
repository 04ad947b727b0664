// Reading the table: looking for a key, and the first and the last entry.
// That the entries name items which ascend holds of some tables only, so each answer that rests on it says so.
ghost use Rattle.std.specs.Prelude.{◌≡◌, ◌-◌, ◌<◌, ◌≤◌, length, IfSome, MatchResult};
ghost use Rattle.std.specs.declared.cmp.Ordering.TheVariants.{Equal};
ghost use Rattle.index_table.specs.Search.{answer_at, HasKey, Sought};
ghost use Rattle.index_table.specs.Walk.{Named, Ascending, walk, slot_at, smaller, slot_of};

use crate::entry::Index;
use crate::halving::{Probe, search};
use id_ord_item::{Comparable, IdOrdItem};
use item_set::{ItemIndex, ItemSlot, item_at};
use std::cmp::Ordering;

/// A query that is looked for among the items that the entries name.
#[derive(Drop)]
struct KeyProbe<'s, 'e, 'q, T: IdOrdItem, Q: Comparable<T>> {
    slots: &'s [ItemSlot<T>],
    entries: &'e [Index],
    query: &'q Q,
}

impl<'s, 'e, 'q, T: IdOrdItem, Q: Comparable<T>> Probe for KeyProbe<'s, 'e, 'q, T, Q> {
    ghost answers = { λ p. answer_at (T.IdOrdItem.order (Q.Comparable.meant p.query.now)) p.slots.now p.entries.now };

    fn compare_at(&self, place: usize) -> Ordering {
        index_at(self.entries, place)
            .and_then(|slot| item_at(self.slots, slot))
            .map_or(Ordering::Less, |item| self.query.compare(&item))
    }
}

/// Where `search` finds the key among the entries.
fn search_key<T: IdOrdItem, Q: Comparable<T>>(
    slots: &[ItemSlot<T>],
    entries: &[Index],
    query: &Q,
) -> Result<usize, usize>
    ensures any { let answers = answer_at (T.IdOrdItem.order (Q.Comparable.meant query.now)) slots.now entries.now in MatchResult result (λ p. (p < length entries.now) × (answers p ≡ Equal)) (λ p. p ≤ length entries.now) }
    ensures place { let answers = answer_at (T.IdOrdItem.order (Q.Comparable.meant query.now)) slots.now entries.now in Named slots.now entries.now → Ascending T.IdOrdItem.order (walk slots.now entries.now) → Sought answers (length entries.now) result }
{
    let probe = KeyProbe {
        slots,
        entries,
        query,
    };
    search(&probe, entries.len())
}

/// The slot that holds the key, if an entry names one.
///
/// Where every entry names an item and the items ascend, it is the slot of the item that is Equal to the query,
/// or none. On any entries a slot that is answered is named by an entry, and its item is Equal to the query.
pub fn find_index<T: IdOrdItem, Q: Comparable<T>>(
    slots: &[ItemSlot<T>],
    entries: &[Index],
    query: &Q,
) -> Option<ItemIndex>
    ensures any { IfSome result (HasKey (T.IdOrdItem.order (Q.Comparable.meant query.now)) slots.now entries.now) }
    ensures answer { Named slots.now entries.now → Ascending T.IdOrdItem.order (walk slots.now entries.now) → result ≡ slot_of T.IdOrdItem.order (Q.Comparable.meant query.now) slots.now entries.now }
{
    search_key(slots, entries, query)
        .ok()
        .map(|place| entries[place].value())
}

/// The place of the key among the entries: how many of their items have smaller keys.
///
/// Where every entry names an item and the items ascend, it is that number. On any entries it is at most their number.
pub fn find_place<T: IdOrdItem, Q: Comparable<T>>(
    slots: &[ItemSlot<T>],
    entries: &[Index],
    query: &Q,
) -> usize
    ensures any { result ≤ length entries.now }
    ensures answer { Named slots.now entries.now → Ascending T.IdOrdItem.order (walk slots.now entries.now) → result ≡ smaller T.IdOrdItem.order (Q.Comparable.meant query.now) (walk slots.now entries.now) }
{
    search_key(slots, entries, query).unwrap_or_else(|place| place)
}

/// The slot that the entry at a place names: none from the number of entries on.
#[tactic(auto, using(crate::proofs::Walking::slots_at))]
pub fn index_at(entries: &[Index], place: usize) -> Option<ItemIndex>
    ensures { result ≡ slot_at entries.now place }
{
    entries.get(place).map(|entry| entry.value())
}

/// The slot that the first entry names, if there is one.
pub fn first(entries: &[Index]) -> Option<ItemIndex>
    ensures { result ≡ slot_at entries.now 0 }
{
    entries.first().map(|entry| entry.value())
}

/// The slot that the last entry names, if there is one.
#[tactic(auto, using(crate::proofs::Walking::slots_at))]
pub fn last(entries: &[Index]) -> Option<ItemIndex>
    ensures { result ≡ slot_at entries.now (length entries.now - 1) }
{
    entries.last().map(|entry| entry.value())
}
