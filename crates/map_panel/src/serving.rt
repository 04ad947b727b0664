// Carrying out what is asked of a board, and printing what was done.
ghost use Rattle.id_ord_law.specs.Parts.{Sound};
ghost use Rattle.id_ord_map.specs.View.{view};

use crate::board::Board;
use crate::changing::make_change;
use crate::command::Order;
use crate::keeping::keep_by;
use crate::looking::{Seen, look_at};
use crate::refusals::Refusal;
use crate::shown::{Shown, Whole};
use crate::upkeep::Kempt;
use id_ord_item::{Comparable, KeepRule};
use item_set::{IndexRemap, ItemIndex};
use std::{fmt, io};

impl<T: Shown> Board<'_, T> {
    /// Prints what was done, or why it was not.
    fn tell<A: fmt::Display + Drop, E: Into<Refusal<T>>>(
        rt: &HostRuntime,
        answer: Result<A, E>,
    ) -> io::Result<()> {
        match answer {
            Ok(done) => rt.println(done),
            Err(refusal) => {
                let refusal: Refusal<T> = refusal.into();
                rt.println(refusal)
            }
        }
    }

    /// Prints the items in order.
    pub fn print_items(&self, rt: &HostRuntime) -> io::Result<()>
        requires sound { Sound T.IdOrdItem.order (view self.now.map) }
    {
        // A map gives its items by place.
        for place in 0..self.map.len() as usize {
            if let Some(item) = self.map.iter(place) {
                println!(rt; "  {place}: {}", Whole(item))?;
            }
        }
        Ok(())
    }

    /// Prints the new number of each slot that was in use before the last shrinking.
    fn print_moves(&self, rt: &HostRuntime) -> io::Result<()> {
        let IndexRemap::Permuted { used } = self.remap else {
            return Ok(());
        };
        for slot in 0..used {
            match self.remap(ItemIndex::new(slot)) {
                Ok(new) => println!(rt; "  slot {slot} is slot {} now", new.as_u32())?,
                Err(_) => println!(rt; "  slot {slot} was vacant")?,
            }
        }
        Ok(())
    }

    /// Keeps the items that a rule keeps, and prints how many.
    pub fn keep<R: KeepRule<T> + Drop>(&mut self, rt: &HostRuntime, mut rule: R) -> io::Result<()>
        requires sound { Sound T.IdOrdItem.order (view self.old.map) }
        ensures sound { Sound T.IdOrdItem.order (view self.new.map) }
    {
        Self::tell(rt, keep_by(&mut self.map, &mut rule))
    }

    /// Does what is asked of the board, and prints what was done.
    pub fn serve<Q: Comparable<T> + Copy>(
        &mut self,
        rt: &HostRuntime,
        order: Order<T, Q>,
    ) -> io::Result<()>
        requires sound { Sound T.IdOrdItem.order (view self.old.map) }
        ensures sound { Sound T.IdOrdItem.order (view self.new.map) }
    {
        match order {
            Order::Look(look) => Self::tell(rt, look_at(&self.map, look)),
            Order::Change(change) => Self::tell(rt, make_change(&mut self.map, change)),
            Order::Hand(handling) => Self::tell(rt, self.hand.handle(&mut self.map, handling)),
            Order::Keep(rule) => self.keep(rt, rule),
            Order::Upkeep(upkeep) => {
                let kempt = self.keep_up(upkeep);
                Self::tell(rt, kempt)?;
                match kempt {
                    Ok(Kempt::Shrunk(_)) => self.print_moves(rt),
                    _ => Ok(()),
                }
            }
            Order::List => {
                rt.println(Seen::<T>::Count(self.map.len()))?;
                self.print_items(rt)
            }
        }
    }
}
