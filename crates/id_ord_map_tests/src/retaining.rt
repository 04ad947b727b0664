// Keeping items by a rule: what is shown to it, what stops it, and what it leaves in the memory.
use crate::keep_before::KeepBefore;
use crate::memory::{Memory, S, held, insert_three, stay, vacant};
use id_ord_errors::KeyChanged;
use id_ord_item::{KeepFirst, KeepRule};
use id_ord_map::IdOrdMap;
use item_set::ItemSlot;
use panel_items::{EndedBy, Stay};
use std::process::Abort;
use std::test::Fail;

/// Keeps the stays that begin before a minute, ending at 950, and moves one to another minute.
fn rule(minute: u32, moved: u32, moved_to: u32) -> KeepBefore {
    KeepBefore {
        minute,
        moved,
        moved_to,
        to: 950,
        shown: (0, 0, 0),
    }
}

/// A stay as the rule changes it.
fn changed(berth: u16, from: u32) -> Stay {
    Stay {
        to: 950,
        ..stay(berth, from)
    }
}

/// A slot with a stay as the rule changes it.
fn kept(berth: u16, from: u32) -> ItemSlot<Stay> {
    ItemSlot::Occupied(changed(berth, from))
}

/// On the three stays, the rule gives this answer and leaves this memory.
fn leaves<R: KeepRule<Stay>>(
    rt: &impl Abort,
    rule: &mut R,
    answer: Result<(), KeyChanged<Stay>>,
    expected: Memory,
) -> Result<(), Fail> {
    let mut memory = Memory::unused()?;
    let mut map = IdOrdMap::new(&mut memory.slots, &mut memory.table);
    insert_three(&mut map)?;
    assert_eq!(rt; map.retain(rule), answer);
    memory.numbers = map.items();
    assert_eq!(rt; memory, expected);
    Ok(())
}

#[test]
fn the_items_are_shown_in_key_order_and_stand_as_changed(rt: HostRuntime) -> Result<(), Fail> {
    let mut rule = rule(S, 1, 1);
    let slots = [kept(4, 540), kept(2, 600), kept(4, 530), vacant(S)];
    let after = Memory::new((3, 3, S), slots, [1, 2, 0, 9])?;
    leaves(&rt, &mut rule, Ok(()), after)?;
    assert_eq!(rt; rule.shown, (540, 530, 600));
    Ok(())
}

#[test]
fn a_changed_key_stops_it(rt: HostRuntime) -> Result<(), Fail> {
    let mut rule = rule(S, 530, 531);
    let refusal = KeyChanged {
        item: changed(4, 531),
    };
    let slots = [held(4, 540), kept(2, 600), held(4, 530), vacant(S)];
    let after = Memory::new((3, 3, S), slots, [1, 2, 0, 9])?;
    leaves(&rt, &mut rule, Err(refusal), after)?;
    // the offending item was shown, the one after it not
    assert_eq!(rt; rule.shown, (530, 600, 0));
    Ok(())
}

#[test]
fn a_changed_key_stops_it_under_a_verdict_to_remove(rt: HostRuntime) -> Result<(), Fail> {
    let mut rule = rule(540, 540, 541);
    let refusal = KeyChanged {
        item: changed(4, 541),
    };
    let slots = [held(4, 540), vacant(S), kept(4, 530), vacant(S)];
    let after = Memory::new((3, 2, 1), slots, [2, 0, 0, 9])?;
    leaves(&rt, &mut rule, Err(refusal), after)?;
    assert_eq!(rt; rule.shown, (540, 530, 600));
    Ok(())
}

#[test]
fn removals_follow_one_another(rt: HostRuntime) -> Result<(), Fail> {
    let mut rule = rule(540, 1, 1);
    let slots = [vacant(1), vacant(S), kept(4, 530), vacant(S)];
    let after = Memory::new((3, 1, 0), slots, [2, 0, 0, 9])?;
    leaves(&rt, &mut rule, Ok(()), after)
}

#[test]
fn rules_of_other_kinds(rt: HostRuntime) -> Result<(), Fail> {
    let slots = [vacant(2), vacant(S), vacant(1), vacant(S)];
    let none = Memory::new((3, 0, 0), slots, [0, 0, 0, 9])?;
    leaves(&rt, &mut KeepFirst { left: 0 }, Ok(()), none)?;
    leaves(&rt, &mut EndedBy { minute: 900 }, Ok(()), none)?;
    leaves(
        &rt,
        &mut EndedBy { minute: 899 },
        Ok(()),
        Memory::three_stays()?,
    )?;
    let mut first = KeepFirst { left: 5 };
    leaves(&rt, &mut first, Ok(()), Memory::three_stays()?)?;
    assert_eq!(rt; first.left, 2);
    Ok(())
}

#[test]
fn on_an_empty_map_the_rule_is_shown_nothing(rt: HostRuntime) -> Result<(), Fail> {
    let mut memory = Memory::three_stays()?;
    let mut map = IdOrdMap::new(&mut memory.slots, &mut memory.table);
    let mut rule = rule(540, 540, 541);
    assert_eq!(rt; map.retain(&mut rule), Ok(()));
    assert_eq!(rt; rule.shown, (0, 0, 0));
    Ok(())
}
