// The refusals of the map's calls, each with its number and the values that it returns.

#![tactic(auto)]

mod adding;
mod replacing;
mod validation;

pub use adding::{DuplicateItem, InsertRefusal, MapFull, OrInsertRefusal};
pub use replacing::{KeyChanged, ReplaceRefusal, StaleEntry};
pub use validation::{Layer, ValidationError};
