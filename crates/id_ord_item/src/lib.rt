// Items with an order by key, queries for a key, and rules that keep or remove items.

#![tactic(auto)]

mod item;
mod keep_first;
mod number;
mod query;
mod rule;

pub use item::IdOrdItem;
pub use keep_first::KeepFirst;
pub use number::compare_numbers;
pub use query::Comparable;
pub use rule::{KeepRule, Verdict};
