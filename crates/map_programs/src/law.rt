// What the law over runs says of maps that a program makes, in the words of the machine of standing items.
ghost use Rattle.std.specs.Prelude.{◌≡◌, ◌<◌, [], ◌∷◌, length, None};
ghost use Rattle.item_set.specs.Store.{cleared};
ghost use Rattle.id_ord_law.specs.Law.{Walks, stood, heard};
ghost use Rattle.id_ord_law.specs.Parts.{Sound, parts, capacity};
ghost use Rattle.id_ord_law.specs.Standing.{Answer.duplicate as Duplicate, told};
ghost use Rattle.id_ord_map.specs.Answers.{inserted};
ghost use Rattle.id_ord_map.specs.View.{view};
ghost use Rattle.map_programs.specs.Runs.{every_call};

use crate::runs::{Supplies, make_every_call};
use id_ord_errors::InsertRefusal;
use id_ord_item::{Comparable, IdOrdItem, KeepRule};
use id_ord_map::IdOrdMap;
use index_table::Index;
use item_set::{ItemIndex, ItemSlot};

/// A map with one item, over memory that has room for it: its walk has that item and no other.
pub fn with_one_item<'a, T: IdOrdItem>(
    slots: &'a mut [ItemSlot<T>],
    table: &'a mut [Index],
    item: T,
) -> IdOrdMap<'a, T>
    requires room { 0 < capacity (parts slots.old table.old cleared) }
    ensures walks { Walks T.IdOrdItem.order (view result) (item ∷ []) }
    ensures sound { Sound T.IdOrdItem.order (view result) }
{
    let mut map = IdOrdMap::new(slots, table);
    let _ = map.insert_unique(item);
    map
}

/// Adds an item twice over memory that has room for it: the second time it is a duplicate.
pub fn add_twice<T: IdOrdItem>(
    slots: &mut [ItemSlot<T>],
    table: &mut [Index],
    item: T,
) -> Result<(), InsertRefusal<T>>
    requires room { 0 < capacity (parts slots.old table.old cleared) }
    ensures { heard (inserted result) ≡ Duplicate item tt }
{
    let mut map = IdOrdMap::new(slots, table);
    let _ = map.insert_unique(item);
    map.insert_unique(item)
}

/// A map on which every kind of call was made: its walk has the items that stand after them.
pub fn after_every_call<'a, T: IdOrdItem, Q: Comparable<T>, R: KeepRule<T>>(
    slots: &'a mut [ItemSlot<T>],
    table: &'a mut [Index],
    query: &Q,
    scratch: &mut [ItemIndex],
    supplies: Supplies<T>,
    rule: &mut R,
) -> IdOrdMap<'a, T>
    ensures walks { Walks T.IdOrdItem.order (view result) (stood T.IdOrdItem.order (capacity (parts slots.old table.old cleared)) (every_call (Q.Comparable.meant query.now) None (length scratch.old) supplies (told R.KeepRule.verdict R.KeepRule.changed R.KeepRule.next rule.old)) []) }
    ensures sound { Sound T.IdOrdItem.order (view result) }
{
    let mut map = IdOrdMap::new(slots, table);
    make_every_call(&mut map, query, scratch, supplies, rule);
    map
}
