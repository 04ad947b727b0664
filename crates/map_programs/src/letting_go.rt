// What a caller knows of its own memory once its map is let go.
ghost use Rattle.std.specs.Prelude.{◌≡◌};
ghost use Rattle.item_set.specs.Store.{cleared};
ghost use Rattle.id_ord_law.specs.Parts.{parts};
ghost use Rattle.id_ord_law.specs.Standing.{Call.insert_unique as InsertUnique};
ghost use Rattle.id_ord_law.specs.Step.{step};
ghost use Rattle.id_ord_map.specs.Answers.{inserted};
ghost use Rattle.panel_items.specs.Stay.{by_berth_then_from};

use id_ord_errors::InsertRefusal;
use id_ord_map::IdOrdMap;
use index_table::Index;
use item_set::ItemSlot;
use panel_items::Stay;

/// Makes a map over this memory, offers it a stay, and lets the map go.
pub fn fill_and_let_go(
    slots: &mut [ItemSlot<Stay>],
    table: &mut [Index],
    stay: Stay,
) -> Result<(), InsertRefusal<Stay>>
    ensures answer { inserted result ≡ (step by_berth_then_from (InsertUnique stay) (parts slots.old table.old cleared)).0 }
    ensures slots { slots.new ≡ (step by_berth_then_from (InsertUnique stay) (parts slots.old table.old cleared)).1.slots }
    ensures table { table.new ≡ (step by_berth_then_from (InsertUnique stay) (parts slots.old table.old cleared)).1.table }
{
    let mut map = IdOrdMap::new(slots, table);
    map.insert_unique(stay)
}
