// Entries in a test: one for a key that stands, and one for a key that does not.
ghost use Rattle.id_ord_law.specs.Parts.{Sound};
ghost use Rattle.id_ord_map.specs.View.{view};
ghost use Rattle.panel_items.specs.Stay.{by_berth_then_from};

use crate::memory::at;
use id_ord_map::{Entry, IdOrdMap, OccupiedEntry, RefMut, VacantEntry};
use panel_items::Stay;
use std::test::Fail;

/// The entry for the key (0,0), which does not stand.
pub fn vacant_entry(map: &IdOrdMap<'_, Stay>) -> Result<VacantEntry, Fail>
    requires sound { Sound by_berth_then_from (view map.now) }
{
    match map.entry(&at(0, 0)) {
        Entry::Vacant(entry) => Ok(entry),
        Entry::Occupied(_) => Err(Fail::new("the key (0,0) stands")),
    }
}

/// The entry for a key, which stands.
pub fn occupied_entry(
    map: &IdOrdMap<'_, Stay>,
    berth: u16,
    from: u32,
) -> Result<OccupiedEntry<Stay>, Fail>
    requires sound { Sound by_berth_then_from (view map.now) }
{
    match map.entry(&at(berth, from)) {
        Entry::Occupied(entry) => Ok(entry),
        Entry::Vacant(_) => Err(Fail::new("the key does not stand")),
    }
}

/// The stay with a key, which stands, taken for a change.
pub fn taken(map: &IdOrdMap<'_, Stay>, berth: u16, from: u32) -> Result<RefMut<Stay>, Fail>
    requires sound { Sound by_berth_then_from (view map.now) }
{
    map.get_mut(&at(berth, from))
        .ok_or_else(|| Fail::new("the key does not stand"))
}
