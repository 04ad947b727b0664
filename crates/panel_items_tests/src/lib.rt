// Tests of the panel's items, queries and rules, and a further kind of item that is made here of the same parts.

#![tactic(auto)]

mod buoy;
mod buoy_at;
#[cfg(test)]
mod code_text;
mod every_kind;
#[cfg(test)]
mod further_kind;
#[cfg(test)]
mod items;
mod keep_zone;
#[cfg(test)]
mod rules;

pub use buoy::Buoy;
pub use buoy_at::BuoyAt;
pub use every_kind::{answers, kept, largest};
pub use keep_zone::KeepZone;
