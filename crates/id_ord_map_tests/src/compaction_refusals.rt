// The refusals that concern slot numbers and vacant slots, 5 to 8 and 20, and LONG, 9.
// Each is given by its number, since the numbers are what a caller goes by.
use crate::memory::{Memory, S, at, entries, held, insert_three, scratch, told, vacant};
use id_ord_errors::Layer;
use id_ord_map::IdOrdMap;
use index_table::Index;
use item_set::{CompactRefusal, IndexRemap, ItemIndex, ValidateCompact};
use panel_items::CodeText;
use std::test::Fail;

#[test]
fn no_entry_is_made_of_the_sentinel(rt: HostRuntime) {
    let answer = Index::new(ItemIndex::SENTINEL).map_err(|refusal| refusal.number());
    assert_eq!(rt; answer, Err(5));
}

#[test]
fn a_short_scratch_is_refused_where_a_slot_is_vacant(rt: HostRuntime) -> Result<(), Fail> {
    let mut memory = Memory::unused()?;
    let mut places = scratch([7; 3]);
    let mut map = IdOrdMap::new(&mut memory.slots, &mut memory.table);
    insert_three(&mut map)?;
    assert_eq!(rt; map.shrink_to_fit(&mut []), Ok(IndexRemap::Identity));
    map.remove(&at(2, 600));
    assert_eq!(rt; CompactRefusal::Short.number(), 6);
    assert_eq!(rt;
        map.shrink_to_fit(&mut places[0..2]),
        Err(CompactRefusal::Short)
    );
    memory.numbers = map.items();
    assert_eq!(rt; places, scratch([7; 3]));
    let slots = [held(4, 540), vacant(S), held(4, 530), vacant(S)];
    assert_eq!(rt; memory, Memory::new((3, 2, 1), slots, [2, 0, 0, 9])?);
    Ok(())
}

#[test]
fn old_slot_numbers_are_new_ones_gone_or_out_of_range(rt: HostRuntime) -> Result<(), Fail> {
    let mut memory = Memory::unused()?;
    let mut places = scratch([7; 4]);
    let mut map = IdOrdMap::new(&mut memory.slots, &mut memory.table);
    insert_three(&mut map)?;
    map.remove(&at(2, 600));
    let remap = map.shrink_to_fit(&mut places)?;
    assert_eq!(rt; remap, IndexRemap::Permuted { used: 3 });
    assert_eq!(rt; places, scratch([0, S, 1, 7]));
    let cases = [
        (0, 3, Ok(0)),
        (1, 3, Err(7)),
        (2, 3, Ok(1)),
        (3, 3, Err(8)),
        (3, 4, Err(8)),
        (S, 4, Err(8)),
        (2, 2, Err(8)),
        (1, 2, Err(7)),
    ];
    for (old, room, expected) in cases {
        assert!(rt; room <= 4);
        let answer = remap
            .remap(&places[0..room], ItemIndex::new(old))
            .map(|new| new.as_u32())
            .map_err(|refusal| refusal.number());
        assert_eq!(rt; answer, expected, "{old}");
    }
    Ok(())
}

#[test]
fn shrinking_leaves_the_items_together(rt: HostRuntime) -> Result<(), Fail> {
    let mut memory = Memory::unused()?;
    let mut map = IdOrdMap::new(&mut memory.slots, &mut memory.table);
    insert_three(&mut map)?;
    map.remove(&at(2, 600));
    map.shrink_to_fit(&mut scratch([7; 3]))?;
    memory.numbers = map.items();
    let slots = [held(4, 540), held(4, 530), vacant(S), vacant(S)];
    assert_eq!(rt; memory, Memory::new((2, 2, S), slots, [1, 0, 0, 9])?);
    Ok(())
}

#[test]
fn an_adopted_map_tells_its_vacant_slot(rt: HostRuntime) -> Result<(), Fail> {
    let mut slots = [held(2, 600), vacant(S)];
    let mut table = entries([0, 9])?;
    let mut map = IdOrdMap::new(&mut slots, &mut table);
    map.adopt(2, 1, ItemIndex::new(1), 1)?;
    assert_eq!(rt;
        told(map.validate(ValidateCompact::Compact)),
        Err((20, Layer::Items, 1))
    );
    assert_eq!(rt; map.validate(ValidateCompact::NonCompact), Ok(()));
    Ok(())
}

#[test]
fn vacant_slots_are_told_where_that_is_asked_for(rt: HostRuntime) -> Result<(), Fail> {
    let mut memory = Memory::unused()?;
    let mut map = IdOrdMap::new(&mut memory.slots, &mut memory.table);
    insert_three(&mut map)?;
    assert_eq!(rt; map.validate(ValidateCompact::Compact), Ok(()));
    map.remove(&at(2, 600));
    assert_eq!(rt;
        told(map.validate(ValidateCompact::Compact)),
        Err((20, Layer::Items, 1))
    );
    map.remove(&at(4, 530));
    assert_eq!(rt;
        told(map.validate(ValidateCompact::Compact)),
        Err((20, Layer::Items, 2))
    );
    assert_eq!(rt; map.validate(ValidateCompact::NonCompact), Ok(()));
    Ok(())
}

#[test]
fn nine_letters_are_no_code(rt: HostRuntime) -> Result<(), Fail> {
    let mut text = CodeText::new();
    text.fill(b"AUK")?;
    let answer = text.fill(b"ABCDEFGHI").map_err(|refusal| refusal.number());
    assert_eq!(rt; answer, Err(9));
    assert_eq!(rt; text.code(), 0x4155_4B00_0000_0000);
    Ok(())
}
