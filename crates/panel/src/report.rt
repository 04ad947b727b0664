// What the panel prints.
use crate::berths::{AddRefusal, Berths, NotThere};
use item_set::{ItemIndex, ItemSlot};
use panel_items::{Stay, StayAt};
use std::{fmt, io, iter};

// The types that it shows are other crates', and the words in which they are shown are this program's.
/// A slot number, a key, a stay or a slot as it is printed.
#[derive(Clone, Copy)]
pub struct Shown<T>(pub T);

impl fmt::Display for Shown<ItemIndex> {
    fn fmt<W: fmt::Write>(&self, f: &mut fmt::Formatter<W>) -> fmt::Result {
        write!(f, "{}", self.0.as_u32())
    }
}

impl fmt::Display for Shown<StayAt> {
    fn fmt<W: fmt::Write>(&self, f: &mut fmt::Formatter<W>) -> fmt::Result {
        let StayAt { berth, from } = self.0;
        write!(f, "berth {berth} from {from}")
    }
}

impl fmt::Display for Shown<Stay> {
    fn fmt<W: fmt::Write>(&self, f: &mut fmt::Formatter<W>) -> fmt::Result {
        let key = StayAt::from(&self.0);
        let Stay { to, vessel, .. } = self.0;
        write!(f, "vessel {vessel}, {} to {to}", Shown(key))
    }
}

impl fmt::Display for Shown<ItemSlot<Stay>> {
    fn fmt<W: fmt::Write>(&self, f: &mut fmt::Formatter<W>) -> fmt::Result {
        match self.0 {
            ItemSlot::Occupied(stay) => write!(f, "{}", Shown(stay)),
            ItemSlot::Vacant { next } if next.is_sentinel() => write!(f, "free, the last"),
            ItemSlot::Vacant { next } => write!(f, "free, next {}", Shown(next)),
        }
    }
}

impl fmt::Display for AddRefusal {
    fn fmt<W: fmt::Write>(&self, f: &mut fmt::Formatter<W>) -> fmt::Result {
        match *self {
            AddRefusal::Duplicate { stay, slot } => {
                let key = StayAt::from(&stay);
                write!(f, "1 DUPLICATE: {} is in slot {}", Shown(key), Shown(slot))
            }
            AddRefusal::Full { stay } => {
                write!(f, "2 FULL: no slot for {}", Shown(StayAt::from(&stay)))
            }
        }
    }
}

impl fmt::Display for NotThere {
    fn fmt<W: fmt::Write>(&self, f: &mut fmt::Formatter<W>) -> fmt::Result {
        write!(f, "no stay at {}", Shown(self.key))
    }
}

impl<'a> Berths<'a> {
    /// Prints the slots in use, a line each, and the free slots in the order in which they will be taken.
    pub fn print_slots(&self, rt: &HostRuntime) -> io::Result<()> {
        let used = self.numbers.used;
        let len = self.numbers.len;
        println!(rt; "slots in use: {used}, with a stay: {len}")?;
        for (n, slot) in self.slots.iter().take(used as usize).enumerate() {
            println!(rt; "  slot {n}: {}", Shown(*slot))?;
        }
        print!(rt; "free slots:")?;
        let next_free = |slot: &ItemIndex| match self.slots.get(slot.as_u32() as usize) {
            Some(ItemSlot::Vacant { next }) => Some(*next),
            _ => None,
        };
        // A chain is never longer than there are slots in use.
        for slot in iter::successors(Some(self.numbers.free_head), next_free)
            .take_while(|slot| !slot.is_sentinel())
            .take(used as usize)
        {
            print!(rt; " {}", Shown(slot))?;
        }
        println!(rt; "")
    }
}
