// The kinds of item on a ferry terminal's berth panel, stays and sailings, with queries for them and a rule.

#![tactic(auto)]

mod code_text;
mod ended_by;
mod sailing;
mod stay;
mod stay_at;

pub use code_text::{CodeText, CodeTextRefusal};
pub use ended_by::EndedBy;
pub use sailing::Sailing;
pub use stay::Stay;
pub use stay_at::StayAt;
