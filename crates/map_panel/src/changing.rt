// Changing the items of a board: adding, overwriting, dropping, popping and clearing.
ghost use Rattle.std.specs.Prelude.{IfOk};
ghost use Rattle.id_ord_law.specs.Parts.{Sound};
ghost use Rattle.id_ord_law.specs.Step.{Meets};
ghost use Rattle.id_ord_map.specs.View.{view};
ghost use Rattle.map_panel.specs.Changing.{call_of, answered, Tells};

use id_ord_errors::InsertRefusal;
use id_ord_item::{Comparable, IdOrdItem};
use id_ord_map::IdOrdMap;

/// A change of a board's items.
#[derive(Clone, Copy)]
pub enum Change<T, Q> {
    Add(T),
    Overwrite(T),
    Drop(Q),
    PopFirst,
    PopLast,
    Clear,
}

/// What became of a change.
#[derive(Clone, Copy)]
pub enum Changed<T> {
    /// The item was added.
    Added(T),
    /// The item was to overwrite another, found none with its key, and was added.
    AddedAnew(T),
    /// This item stood under the key, and another stands in its place now.
    Overwritten(T),
    /// This item stood, if there was one to drop, and is gone.
    Dropped(Option<T>),
    Cleared,
}

/// Makes a change, by one call of the map.
pub fn make_change<T: IdOrdItem, Q: Comparable<T> + Copy>(
    map: &mut IdOrdMap<'_, T>,
    change: Change<T, Q>,
) -> Result<Changed<T>, InsertRefusal<T>>
    requires sound { Sound T.IdOrdItem.order (view map.old) }
    ensures does { Meets T.IdOrdItem.order (call_of Q.Comparable.meant change) (view map.old) (answered result) (view map.new) }
    ensures tells { IfOk result (Tells change) }
    ensures sound { Sound T.IdOrdItem.order (view map.new) }
{
    Ok(match change {
        Change::Add(item) => {
            map.insert_unique(item)?;
            Changed::Added(item)
        }
        Change::Overwrite(item) => {
            match map.insert_overwrite(item).map_err(InsertRefusal::Full)? {
                Some(old) => Changed::Overwritten(old),
                None => Changed::AddedAnew(item),
            }
        }
        Change::Drop(query) => Changed::Dropped(map.remove(&query)),
        Change::PopFirst => Changed::Dropped(map.pop_first()),
        Change::PopLast => Changed::Dropped(map.pop_last()),
        Change::Clear => {
            map.clear();
            Changed::Cleared
        }
    })
}
