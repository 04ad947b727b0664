// The sorted table: slot numbers in the order of their items' keys.
// It is a sorted array in lent memory. The slots and the entries are slices that the map is lent, so each call is handed both.

#![tactic(auto)]

mod check;
mod entry;
mod fault;
mod halving;
mod shift;
mod table;

pub use check::{ascends, first_unordered, validate};
pub use entry::{Index, IndexRefusal};
pub use fault::TableFault;
pub use halving::{Probe, search};
pub use shift::{close_place, open_place, remap_indexes};
pub use table::{find_index, find_place, first, index_at, last};
