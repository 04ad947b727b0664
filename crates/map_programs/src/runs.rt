// Runs of calls, for every kind of item: what a caller knows of its map after several calls.
ghost use Rattle.std.specs.Prelude.{◌≡◌, [], length};
ghost use Rattle.id_ord_law.specs.Law.{ran};
ghost use Rattle.id_ord_law.specs.Parts.{Sound, walk};
ghost use Rattle.id_ord_law.specs.Standing.{found, told};
ghost use Rattle.id_ord_map.specs.View.{view};
ghost use Rattle.map_programs.specs.Runs.{looks_up, shrinks_and_clears, adds, adds_by_entry, works_by_entry, puts_back_and_keeps, takes_out, every_call};

use id_ord_item::{Comparable, IdOrdItem, KeepRule};
use id_ord_map::{IdOrdMap, OccupiedEntry, RefMut, VacantEntry};
use item_set::ItemIndex;

/// What a run of every kind of call works with: four items to offer, entries, and an item taken for a change.
#[derive(Drop)]
pub struct Supplies<T: IdOrdItem> {
    pub items: (T, T, T, T),
    pub vacant: (VacantEntry, VacantEntry),
    pub occupied: (OccupiedEntry<T>, OccupiedEntry<T>),
    pub taken: RefMut<T>,
}

/// Looks for a key, and adds an item if it does not stand.
pub fn look_up_or_add<T: IdOrdItem, Q: Comparable<T>>(map: &mut IdOrdMap<'_, T>, query: &Q, item: T)
    requires sound { Sound T.IdOrdItem.order (view map.old) }
    ensures does { view map.new ≡ ran T.IdOrdItem.order (looks_up (Q.Comparable.meant query.now) (found T.IdOrdItem.order (Q.Comparable.meant query.now) (walk (view map.old))) item) (view map.old) }
    ensures sound { Sound T.IdOrdItem.order (view map.new) }
{
    let entry = map.entry(query);
    let _ = entry.or_insert(map, item);
}

/// Shrinks a map and clears it.
pub fn shrink_and_clear<T: IdOrdItem>(map: &mut IdOrdMap<'_, T>, scratch: &mut [ItemIndex])
    requires sound { Sound T.IdOrdItem.order (view map.old) }
    ensures does { view map.new ≡ ran T.IdOrdItem.order (shrinks_and_clears (length scratch.old)) (view map.old) }
    ensures sound { Sound T.IdOrdItem.order (view map.new) }
{
    let _ = map.shrink_to_fit(scratch);
    map.clear();
}

/// Adds an item, and puts another in the place of the one with its key.
pub fn add<T: IdOrdItem>(map: &mut IdOrdMap<'_, T>, item: T, other: T)
    requires sound { Sound T.IdOrdItem.order (view map.old) }
    ensures does { view map.new ≡ ran T.IdOrdItem.order (adds item other) (view map.old) }
    ensures sound { Sound T.IdOrdItem.order (view map.new) }
{
    let _ = map.insert_unique(item);
    let _ = map.insert_overwrite(other);
}

/// Adds two items through vacant entries.
pub fn add_by_entry<T: IdOrdItem>(
    map: &mut IdOrdMap<'_, T>,
    entries: (VacantEntry, VacantEntry),
    item: T,
    other: T,
)
    requires sound { Sound T.IdOrdItem.order (view map.old) }
    ensures does { view map.new ≡ ran T.IdOrdItem.order (adds_by_entry item other) (view map.old) }
    ensures sound { Sound T.IdOrdItem.order (view map.new) }
{
    let (first, second) = entries;
    let _ = first.insert(map, item);
    let _ = second.insert_entry(map, other);
}

/// Puts an item in the place of the one with an entry's key, takes that out, and takes the one with another entry's key for a change.
pub fn work_by_entry<T: IdOrdItem>(
    map: &mut IdOrdMap<'_, T>,
    entries: (OccupiedEntry<T>, OccupiedEntry<T>),
    item: T,
)
    requires sound { Sound T.IdOrdItem.order (view map.old) }
    ensures does { view map.new ≡ ran T.IdOrdItem.order (works_by_entry entries.0 entries.1 item) (view map.old) }
    ensures sound { Sound T.IdOrdItem.order (view map.new) }
{
    let (first, second) = entries;
    let _ = first.insert(map, item);
    let _ = first.remove(map);
    let _ = second.into_mut(map);
}

/// Puts an item back, and keeps the items that a rule keeps.
pub fn put_back_and_keep<T: IdOrdItem, R: KeepRule<T>>(
    map: &mut IdOrdMap<'_, T>,
    item: RefMut<T>,
    rule: &mut R,
)
    requires sound { Sound T.IdOrdItem.order (view map.old) }
    ensures does { view map.new ≡ ran T.IdOrdItem.order (puts_back_and_keeps item (told R.KeepRule.verdict R.KeepRule.changed R.KeepRule.next rule.old)) (view map.old) }
    ensures sound { Sound T.IdOrdItem.order (view map.new) }
{
    let _ = item.put_back(map);
    let _ = map.retain(rule);
}

/// Takes out the item with a key, and the first and the last of those that are left.
pub fn take_out<T: IdOrdItem, Q: Comparable<T>>(map: &mut IdOrdMap<'_, T>, query: &Q)
    requires sound { Sound T.IdOrdItem.order (view map.old) }
    ensures does { view map.new ≡ ran T.IdOrdItem.order (takes_out (Q.Comparable.meant query.now)) (view map.old) }
    ensures sound { Sound T.IdOrdItem.order (view map.new) }
{
    let _ = map.remove(query);
    let _ = map.pop_first();
    let _ = map.pop_last();
}

/// All of these runs on one map, so that each kind of call is made.
pub fn make_every_call<T: IdOrdItem, Q: Comparable<T>, R: KeepRule<T>>(
    map: &mut IdOrdMap<'_, T>,
    query: &Q,
    scratch: &mut [ItemIndex],
    supplies: Supplies<T>,
    rule: &mut R,
)
    requires sound { Sound T.IdOrdItem.order (view map.old) }
    ensures does { view map.new ≡ ran T.IdOrdItem.order (every_call (Q.Comparable.meant query.now) (found T.IdOrdItem.order (Q.Comparable.meant query.now) (walk (view map.old))) (length scratch.old) supplies (told R.KeepRule.verdict R.KeepRule.changed R.KeepRule.next rule.old)) (view map.old) }
    ensures sound { Sound T.IdOrdItem.order (view map.new) }
{
    let Supplies {
        items: (one, two, three, four),
        vacant,
        occupied,
        taken,
    } = supplies;
    look_up_or_add(map, query, one);
    shrink_and_clear(map, scratch);
    add(map, one, two);
    add_by_entry(map, vacant, three, four);
    work_by_entry(map, occupied, one);
    put_back_and_keep(map, taken, rule);
    take_out(map, query);
}
