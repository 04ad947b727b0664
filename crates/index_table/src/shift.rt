// Writing the table: opening and closing a place, and rewriting its entries.
ghost use Rattle.std.specs.Prelude.{◌≡◌};
ghost use Rattle.index_table.specs.Shift.{opened, closed, rewritten};

use crate::entry::Index;
use item_set::{IndexRemap, ItemIndex};

// The table and its `len` stand beside one another: the place after the last entry is written too, and the table is longer than what is in use.
/// Puts an entry at a place of the first `len` entries; those from the place on go one up.
///
/// Nothing is written where the place is past `len`, or the table has no room for one entry more.
#[tactic(auto, using(crate::proofs::Shifting::opened_by_copy))]
pub fn open_place(table: &mut [Index], len: usize, place: usize, entry: Index)
    ensures { table.new ≡ opened table.old len place entry }
{
    if len >= table.len() || place > len {
        return;
    }
    table.copy_within(place..len, place + 1);
    table[place] = entry;
}

/// Takes a place out of the first `len` entries; those after it go one down, and the last place is not written.
///
/// Nothing is written where the place is not below `len`, or the table has fewer entries than that.
#[tactic(auto, using(crate::proofs::Shifting::closed_by_copy))]
pub fn close_place(table: &mut [Index], len: usize, place: usize)
    ensures { table.new ≡ closed table.old len place }
{
    if len > table.len() || place >= len {
        return;
    }
    table.copy_within(place + 1..len, place);
}

/// Gives each of the first `len` entries its slot's new number, after a compaction.
///
/// It is to be called when the items have moved. An entry whose slot has no new number is left as it is.
pub fn remap_indexes(table: &mut [Index], len: usize, remap: &IndexRemap, scratch: &[ItemIndex])
    ensures { table.new ≡ rewritten table.old len remap.now scratch.now }
{
    let in_use = len.min(table.len());
    for entry in table[..in_use].iter_mut() {
        *entry = entry.remap(remap, scratch);
    }
}
