// How what was done is told.
use crate::changing::Changed;
use crate::handling::Handled;
use crate::keeping::Kept;
use crate::looking::Seen;
use crate::shown::{Shown, Whole};
use crate::upkeep::Kempt;
use item_set::{IndexRemap, ItemIndex, ItemSet};
use std::fmt;

impl<T: Shown> fmt::Display for Seen<T> {
    fn fmt<W: fmt::Write>(&self, f: &mut fmt::Formatter<W>) -> fmt::Result {
        match *self {
            Seen::Item(Some(item)) => write!(f, "{}", Whole(item)),
            Seen::Item(None) => write!(f, "there is none"),
            Seen::Count(count) => write!(f, "holds {count}"),
            Seen::Compact => write!(f, "no slot in use is vacant"),
        }
    }
}

impl<T: Shown> fmt::Display for Changed<T> {
    fn fmt<W: fmt::Write>(&self, f: &mut fmt::Formatter<W>) -> fmt::Result {
        match *self {
            Changed::Added(item) => write!(f, "added: {}", Whole(item)),
            Changed::AddedAnew(item) => write!(f, "nothing overwritten, added: {}", Whole(item)),
            Changed::Overwritten(old) => write!(f, "overwritten: {}", Whole(old)),
            Changed::Dropped(Some(item)) => write!(f, "dropped: {}", Whole(item)),
            Changed::Dropped(None) => write!(f, "nothing to drop"),
            Changed::Cleared => write!(f, "cleared"),
        }
    }
}

impl fmt::Display for Kept {
    fn fmt<W: fmt::Write>(&self, f: &mut fmt::Formatter<W>) -> fmt::Result {
        let Kept { left, removed } = *self;
        write!(f, "kept {left}, removed {removed}")
    }
}

impl<T: Shown> fmt::Display for Handled<T> {
    fn fmt<W: fmt::Write>(&self, f: &mut fmt::Formatter<W>) -> fmt::Result {
        match *self {
            Handled::Took(Some(item)) => write!(f, "in the hand: {}", Whole(item)),
            Handled::Took(None) => write!(f, "nothing to take"),
            Handled::Changed(item) => write!(f, "in the hand, as changed: {}", Whole(item)),
            Handled::PutBack(item) => write!(f, "put back: {}", Whole(item)),
            Handled::Vacant => write!(f, "in the hand: a vacant entry"),
            Handled::Occupied => write!(f, "in the hand: an occupied entry"),
            Handled::Added(item) => write!(f, "added, its entry in the hand: {}", Whole(item)),
            Handled::Replaced(old) => write!(f, "replaced: {}", Whole(old)),
            Handled::Removed(item) => write!(f, "removed: {}", Whole(item)),
        }
    }
}

/// The number of a slot, or that it names none.
#[derive(Clone, Copy)]
struct Slot(ItemIndex);

impl fmt::Display for Slot {
    fn fmt<W: fmt::Write>(&self, f: &mut fmt::Formatter<W>) -> fmt::Result {
        if self.0.is_sentinel() {
            return write!(f, "none");
        }
        write!(f, "{}", self.0.as_u32())
    }
}

impl fmt::Display for Kempt {
    fn fmt<W: fmt::Write>(&self, f: &mut fmt::Formatter<W>) -> fmt::Result {
        match *self {
            Kempt::Shrunk(IndexRemap::Identity) => write!(f, "no slot was vacant, none moved"),
            Kempt::Shrunk(IndexRemap::Permuted { used }) => write!(f, "shrunk from {used} slots"),
            Kempt::Moved(slot) => write!(f, "now slot {}", Slot(slot)),
            Kempt::Saved(
                ItemSet {
                    used,
                    len,
                    free_head,
                },
            ) => write!(f, "saved: used {used}, len {len}, head {}", Slot(free_head)),
            Kempt::Adopted(len) => write!(f, "adopted, holds {len}"),
        }
    }
}
