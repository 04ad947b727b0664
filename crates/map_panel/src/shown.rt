// How items are shown.
use id_ord_item::IdOrdItem;
use panel_items::{Sailing, Stay};
use std::fmt;
use std::str::from_utf8;

/// A kind of item that can be shown, whole or by its key.
///
/// The items are another crate's, so `Display` is of the two wrappers below, by these methods.
pub trait Shown: IdOrdItem {
    fn write_key<W: fmt::Write>(&self, f: &mut fmt::Formatter<W>) -> fmt::Result;

    /// Writes what comes after the key.
    fn write_rest<W: fmt::Write>(&self, f: &mut fmt::Formatter<W>) -> fmt::Result;
}

/// An item, shown whole.
#[derive(Clone, Copy)]
pub struct Whole<T>(pub T);

/// An item, shown by its key.
#[derive(Clone, Copy)]
pub struct Key<T>(pub T);

impl<T: Shown> fmt::Display for Whole<T> {
    fn fmt<W: fmt::Write>(&self, f: &mut fmt::Formatter<W>) -> fmt::Result {
        self.0.write_key(f)?;
        self.0.write_rest(f)
    }
}

impl<T: Shown> fmt::Display for Key<T> {
    fn fmt<W: fmt::Write>(&self, f: &mut fmt::Formatter<W>) -> fmt::Result {
        self.0.write_key(f)
    }
}

/// A code, shown by its letters.
#[derive(Clone, Copy)]
struct Letters(u64);

impl fmt::Display for Letters {
    fn fmt<W: fmt::Write>(&self, f: &mut fmt::Formatter<W>) -> fmt::Result {
        let code = self.0;
        let bytes = code.to_be_bytes();
        // A short code has zeros after its letters.
        let zeros = code.trailing_zeros() / 8;
        let len = 8usize.saturating_sub(zeros as usize);
        match from_utf8(&bytes[0..len]) {
            Ok(letters) => write!(f, "{letters}"),
            Err(_) => write!(f, "number {code}"),
        }
    }
}

impl Shown for Stay {
    fn write_key<W: fmt::Write>(&self, f: &mut fmt::Formatter<W>) -> fmt::Result {
        let Stay { berth, from, .. } = *self;
        write!(f, "berth {berth} from {from}")
    }

    fn write_rest<W: fmt::Write>(&self, f: &mut fmt::Formatter<W>) -> fmt::Result {
        let Stay { to, vessel, .. } = *self;
        write!(f, " to {to}, vessel {vessel}")
    }
}

impl Shown for Sailing {
    fn write_key<W: fmt::Write>(&self, f: &mut fmt::Formatter<W>) -> fmt::Result {
        let code = Letters(self.code);
        write!(f, "sailing {code}")
    }

    fn write_rest<W: fmt::Write>(&self, f: &mut fmt::Formatter<W>) -> fmt::Result {
        let Sailing { berth, due, .. } = *self;
        write!(f, ", berth {berth}, due {due}")
    }
}
