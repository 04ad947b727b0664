// Looking at a board, which changes nothing.
ghost use Rattle.std.specs.Prelude.{◌≡◌};
ghost use Rattle.id_ord_law.specs.Parts.{Sound};
ghost use Rattle.id_ord_map.specs.View.{view};
ghost use Rattle.map_panel.specs.Looking.{seen};

use id_ord_errors::ValidationError;
use id_ord_item::{Comparable, IdOrdItem};
use id_ord_map::IdOrdMap;
use item_set::ValidateCompact;

/// What can be asked of a board's items.
#[derive(Clone, Copy)]
pub enum Look<Q> {
    Get(Q),
    First,
    Last,
    Len,
    Check,
}

/// What was seen.
#[derive(Clone, Copy)]
pub enum Seen<T> {
    /// The item looked for, if it stands.
    Item(Option<T>),
    Count(u32),
    Compact,
}

/// Looks at a board.
pub fn look_at<T: IdOrdItem, Q: Comparable<T> + Copy>(
    map: &IdOrdMap<'_, T>,
    look: Look<Q>,
) -> Result<Seen<T>, ValidationError>
    requires sound { Sound T.IdOrdItem.order (view map.now) }
    ensures { result ≡ seen T.IdOrdItem.order Q.Comparable.meant look (view map.now) }
{
    Ok(match look {
        Look::Get(query) => Seen::Item(map.get(&query)),
        Look::First => Seen::Item(map.first()),
        Look::Last => Seen::Item(map.last()),
        Look::Len => Seen::Count(map.len()),
        Look::Check => {
            map.validate(ValidateCompact::Compact)?;
            Seen::Compact
        }
    })
}
