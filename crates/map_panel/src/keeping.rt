// Keeping the items that a rule keeps.
ghost use Rattle.std.specs.Prelude.{IfOk};
ghost use Rattle.id_ord_law.specs.Parts.{Sound};
ghost use Rattle.id_ord_law.specs.Standing.{Call.retain as Retain, told};
ghost use Rattle.id_ord_law.specs.Step.{Meets};
ghost use Rattle.id_ord_map.specs.View.{view};
ghost use Rattle.map_panel.specs.Keeping.{answered, Counts};

use id_ord_errors::KeyChanged;
use id_ord_item::{IdOrdItem, KeepRule};
use id_ord_map::IdOrdMap;

/// What a rule left of a board.
#[derive(Clone, Copy)]
pub struct Kept {
    pub left: u32,
    pub removed: u32,
}

/// Shows each item of a board to a rule, and keeps those that the rule keeps.
pub fn keep_by<T: IdOrdItem, R: KeepRule<T>>(
    map: &mut IdOrdMap<'_, T>,
    rule: &mut R,
) -> Result<Kept, KeyChanged<T>>
    requires sound { Sound T.IdOrdItem.order (view map.old) }
    ensures does { Meets T.IdOrdItem.order (Retain (told R.KeepRule.verdict R.KeepRule.changed R.KeepRule.next rule.old)) (view map.old) (answered result) (view map.new) }
    ensures counts { IfOk result (Counts (view map.old) (view map.new)) }
    ensures sound { Sound T.IdOrdItem.order (view map.new) }
{
    let before = map.len();
    map.retain(rule)?;
    let left = map.len();
    Ok(Kept {
        left,
        removed: before.saturating_sub(left),
    })
}
