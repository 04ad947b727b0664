// Each call on a map, made for every kind of item by a caller that knows the map by its contracts alone.
ghost use Rattle.std.specs.Prelude.{◌≡◌, length};
ghost use Rattle.id_ord_law.specs.Law.{Onward};
ghost use Rattle.id_ord_law.specs.Parts.{Sound, walk};
ghost use Rattle.id_ord_law.specs.Standing.{Answer.done as done, Answer.shrunk as Shrunk, Call.insert_unique as InsertUnique, Call.insert_overwrite as InsertOverwrite, Call.remove as Remove, Call.pop_first as PopFirst, Call.pop_last as PopLast, Call.retain as Retain, Call.clear as Clear, Call.shrink_to_fit as ShrinkToFit, told};
ghost use Rattle.id_ord_law.specs.Step.{Meets};
ghost use Rattle.id_ord_map.specs.Answers.{inserted, overwritten, removed};
ghost use Rattle.id_ord_map.specs.Retain.{retain_answer, rule_after};
ghost use Rattle.id_ord_map.specs.Shrink.{shrunk_scratch};
ghost use Rattle.id_ord_map.specs.View.{view, SameMemory};

use id_ord_errors::{InsertRefusal, KeyChanged, MapFull};
use id_ord_item::{Comparable, IdOrdItem, KeepRule};
use id_ord_map::IdOrdMap;
use item_set::{CompactRefusal, IndexRemap, ItemIndex};

/// Adds an item.
pub fn insert_unique<T: IdOrdItem>(
    map: &mut IdOrdMap<'_, T>,
    item: T,
) -> Result<(), InsertRefusal<T>>
    requires sound { Sound T.IdOrdItem.order (view map.old) }
    ensures does { Meets T.IdOrdItem.order (InsertUnique item) (view map.old) (inserted result) (view map.new) }
    ensures stands { Onward T.IdOrdItem.order (InsertUnique item) (view map.old) (view map.new) }
    ensures memory { SameMemory map.old map.new }
    ensures sound { Sound T.IdOrdItem.order (view map.new) }
{
    map.insert_unique(item)
}

/// Adds an item, or puts it in the place of the one with its key.
pub fn insert_overwrite<T: IdOrdItem>(
    map: &mut IdOrdMap<'_, T>,
    item: T,
) -> Result<Option<T>, MapFull<T>>
    requires sound { Sound T.IdOrdItem.order (view map.old) }
    ensures does { Meets T.IdOrdItem.order (InsertOverwrite item) (view map.old) (overwritten result) (view map.new) }
    ensures stands { Onward T.IdOrdItem.order (InsertOverwrite item) (view map.old) (view map.new) }
    ensures memory { SameMemory map.old map.new }
    ensures sound { Sound T.IdOrdItem.order (view map.new) }
{
    map.insert_overwrite(item)
}

/// Takes out the item with a key.
pub fn remove<T: IdOrdItem, Q: Comparable<T>>(map: &mut IdOrdMap<'_, T>, query: &Q) -> Option<T>
    requires sound { Sound T.IdOrdItem.order (view map.old) }
    ensures does { Meets T.IdOrdItem.order (Remove (Q.Comparable.meant query.now)) (view map.old) (removed result) (view map.new) }
    ensures stands { Onward T.IdOrdItem.order (Remove (Q.Comparable.meant query.now)) (view map.old) (view map.new) }
    ensures memory { SameMemory map.old map.new }
    ensures sound { Sound T.IdOrdItem.order (view map.new) }
{
    map.remove(query)
}

/// Takes out the first item.
pub fn pop_first<T: IdOrdItem>(map: &mut IdOrdMap<'_, T>) -> Option<T>
    requires sound { Sound T.IdOrdItem.order (view map.old) }
    ensures does { Meets T.IdOrdItem.order PopFirst (view map.old) (removed result) (view map.new) }
    ensures stands { Onward T.IdOrdItem.order PopFirst (view map.old) (view map.new) }
    ensures memory { SameMemory map.old map.new }
    ensures sound { Sound T.IdOrdItem.order (view map.new) }
{
    map.pop_first()
}

/// Takes out the last item.
pub fn pop_last<T: IdOrdItem>(map: &mut IdOrdMap<'_, T>) -> Option<T>
    requires sound { Sound T.IdOrdItem.order (view map.old) }
    ensures does { Meets T.IdOrdItem.order PopLast (view map.old) (removed result) (view map.new) }
    ensures stands { Onward T.IdOrdItem.order PopLast (view map.old) (view map.new) }
    ensures memory { SameMemory map.old map.new }
    ensures sound { Sound T.IdOrdItem.order (view map.new) }
{
    map.pop_last()
}

/// Keeps the items that a rule keeps.
pub fn retain<T: IdOrdItem, R: KeepRule<T>>(
    map: &mut IdOrdMap<'_, T>,
    rule: &mut R,
) -> Result<(), KeyChanged<T>>
    requires sound { Sound T.IdOrdItem.order (view map.old) }
    ensures does { Meets T.IdOrdItem.order (Retain (told R.KeepRule.verdict R.KeepRule.changed R.KeepRule.next rule.old)) (view map.old) (retain_answer result) (view map.new) }
    ensures stands { Onward T.IdOrdItem.order (Retain (told R.KeepRule.verdict R.KeepRule.changed R.KeepRule.next rule.old)) (view map.old) (view map.new) }
    ensures rule { rule.new ≡ rule_after T.IdOrdItem.order R.KeepRule.verdict R.KeepRule.changed R.KeepRule.next rule.old (walk (view map.old)) }
    ensures memory { SameMemory map.old map.new }
    ensures sound { Sound T.IdOrdItem.order (view map.new) }
{
    map.retain(rule)
}

/// Takes out all items.
pub fn clear<T: IdOrdItem>(map: &mut IdOrdMap<'_, T>)
    requires sound { Sound T.IdOrdItem.order (view map.old) }
    ensures does { Meets T.IdOrdItem.order Clear (view map.old) done (view map.new) }
    ensures stands { Onward T.IdOrdItem.order Clear (view map.old) (view map.new) }
    ensures memory { SameMemory map.old map.new }
    ensures sound { Sound T.IdOrdItem.order (view map.new) }
{
    map.clear();
}

/// Takes the vacant slots out of use.
pub fn shrink_to_fit<T: IdOrdItem>(
    map: &mut IdOrdMap<'_, T>,
    scratch: &mut [ItemIndex],
) -> Result<IndexRemap, CompactRefusal>
    requires sound { Sound T.IdOrdItem.order (view map.old) }
    ensures does { Meets T.IdOrdItem.order (ShrinkToFit (length scratch.old)) (view map.old) (Shrunk result) (view map.new) }
    ensures stands { Onward T.IdOrdItem.order (ShrinkToFit (length scratch.old)) (view map.old) (view map.new) }
    ensures scratch { scratch.new ≡ shrunk_scratch (view map.old) scratch.old }
    ensures memory { SameMemory map.old map.new }
    ensures sound { Sound T.IdOrdItem.order (view map.new) }
{
    map.shrink_to_fit(scratch)
}
