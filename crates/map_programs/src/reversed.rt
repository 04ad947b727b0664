// Items in the reverse order of their keys, and a struct that holds a map of them.
// Only a generic `impl` makes them items, and yet the struct needs no bound but that of the items inside.
ghost use Rattle.std.specs.Prelude.{◌≡◌};
ghost use Rattle.std.specs.Option.{option_map};
ghost use Rattle.std.specs.List.{slice_get};
ghost use Rattle.item_set.specs.Store.{cleared};
ghost use Rattle.id_ord_law.specs.Parts.{Sound, parts, walk};
ghost use Rattle.id_ord_law.specs.Standing.{Call.insert_unique as InsertUnique};
ghost use Rattle.id_ord_law.specs.Step.{Meets};
ghost use Rattle.id_ord_map.specs.Answers.{inserted};
ghost use Rattle.id_ord_map.specs.View.{view, SameMemory};
ghost use Rattle.map_programs.specs.Reversing.{bare, reversed, reversed_lawful, same_reversed, reversed_faithful};

use id_ord_errors::InsertRefusal;
use id_ord_item::IdOrdItem;
use id_ord_map::IdOrdMap;
use index_table::Index;
use item_set::ItemSlot;
use std::cmp::Ordering;

/// An item that stands in the reverse order of its key, as with Rust's `Reverse`.
#[derive(Clone, Copy)]
pub struct Reversed<T> {
    pub item: T,
}

impl<T: IdOrdItem> IdOrdItem for Reversed<T> {
    ghost order = { reversed T.IdOrdItem.order };

    ghost equal = { same_reversed T.IdOrdItem.equal };

    ghost lawful = { reversed_lawful T.IdOrdItem.lawful };

    ghost faithful = { reversed_faithful T.IdOrdItem.faithful };

    fn compare(&self, other: &Reversed<T>) -> Ordering {
        other.item.compare(&self.item)
    }

    fn same(&self, other: &Reversed<T>) -> bool {
        self.item.same(&other.item)
    }
}

/// A map whose walk goes from the greatest key down.
#[derive(Drop)]
pub struct Descending<'a, T: IdOrdItem> {
    pub map: IdOrdMap<'a, Reversed<T>>,
}

impl<'a, T: IdOrdItem> Descending<'a, T> {
    /// An empty map over this memory.
    pub fn new(slots: &'a mut [ItemSlot<Reversed<T>>], table: &'a mut [Index]) -> Descending<'a, T>
        ensures after { view result.map ≡ parts slots.old table.old cleared }
        ensures memory { (result.map.slots.ghost_name ≡ slots.entry.ghost_name) × (result.map.table.ghost_name ≡ table.entry.ghost_name) }
        ensures sound { Sound (reversed T.IdOrdItem.order) (view result.map) }
    {
        Descending {
            map: IdOrdMap::new(slots, table),
        }
    }

    /// Adds an item whose key does not stand.
    pub fn insert_unique(&mut self, item: T) -> Result<(), InsertRefusal<Reversed<T>>>
        requires sound { Sound (reversed T.IdOrdItem.order) (view self.old.map) }
        ensures does { Meets (reversed T.IdOrdItem.order) (InsertUnique (record { item = item })) (view self.old.map) (inserted result) (view self.new.map) }
        ensures memory { SameMemory self.old.map self.new.map }
        ensures sound { Sound (reversed T.IdOrdItem.order) (view self.new.map) }
    {
        self.map.insert_unique(Reversed { item })
    }

    /// A copy of the item with the greatest key, if there is one.
    pub fn first(&self) -> Option<T>
        requires sound { Sound (reversed T.IdOrdItem.order) (view self.now.map) }
        ensures { result ≡ option_map bare (slice_get (walk (view self.now.map)) 0) }
    {
        self.map.first().map(|first| first.item)
    }
}
