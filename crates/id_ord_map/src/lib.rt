// The ordered map over lent memory, and its entries.

#![tactic(auto)]

mod adopt;
mod entries;
mod equality;
mod inserting;
mod looking;
mod making;
mod map;
mod reading;
mod ref_mut;
mod removing;
mod retain;
mod shrink;
mod steps;

pub use entries::{Entry, OccupiedEntry, VacantEntry};
pub use map::IdOrdMap;
pub use ref_mut::RefMut;
