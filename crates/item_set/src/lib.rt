// The slot store: items in numbered slots, and the chain of free slots that runs through them.

#![tactic(auto)]

mod compaction;
mod fault;
mod index;
mod item_set;
mod remap;
mod slot;
mod validation;

pub use compaction::CompactRefusal;
pub use fault::ItemSetFault;
pub use index::ItemIndex;
pub use item_set::{ItemSet, NoSlot, NotHeld};
pub use remap::{IndexRemap, RemapRefusal};
pub use slot::{ItemSlot, item_at};
pub use validation::ValidateCompact;
