// What can be asked of the panel.
use crate::changing::Change;
use crate::handling::Handling;
use crate::looking::Look;
use crate::upkeep::Upkeep;
use id_ord_item::KeepFirst;
use panel_items::{CodeText, EndedBy, Sailing, Stay, StayAt};

/// What can be asked of a board of items `T` whose keys are looked for by `Q`.
#[derive(Drop)]
pub enum Order<T, Q> {
    Look(Look<Q>),
    Change(Change<T, Q>),
    Hand(Handling<T, Q>),
    Keep(KeepFirst),
    Upkeep(Upkeep),
    List,
}

// A command is read whole before anything is done, so it is a value and no function.
/// What can be asked of the panel.
#[derive(Drop)]
pub enum Command<'a> {
    Stays(Order<Stay, StayAt>),
    Sailings(Order<Sailing, CodeText<'a>>),
    Ended(EndedBy),
}
