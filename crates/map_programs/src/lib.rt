// Programs over the map, whose own contracts rest on those of its calls.

#![tactic(auto)]

mod each_call;
mod each_entry_call;
mod entry_programs;
mod law;
mod letting_go;
mod reversed;
mod runs;

pub use entry_programs::{remove_through_two_entries, replace_through_the_occupied_case};
pub use law::after_every_call;
pub use letting_go::fill_and_let_go;
pub use reversed::{Descending, Reversed};
pub use runs::{Supplies, make_every_call};
