// The faults that `adopt` finds, refusals 10 to 19, each with its number, layer and place.
use crate::memory::{S, entries, held, numbers, of_vessel, told, vacant};
use id_ord_errors::Layer;
use id_ord_map::IdOrdMap;
use item_set::{ItemSet, ItemSlot};
use panel_items::Stay;
use std::process::Abort;
use std::test::Fail;

/// The stay (2,600), which is Less than `b`.
fn a() -> ItemSlot<Stay> {
    held(2, 600)
}

/// The stay (4,530), which is Less than `c`.
fn b() -> ItemSlot<Stay> {
    held(4, 530)
}

/// The stay (4,540).
fn c() -> ItemSlot<Stay> {
    held(4, 540)
}

// A fault is given by its number, its layer and its place, which are what is tested.
/// Told `used`, `len`, free head and table count, `adopt` answers so and writes nothing.
fn answers<const N: usize>(
    rt: &impl Abort,
    slots: [ItemSlot<Stay>; N],
    table: [u32; N],
    (used, len, free_head, count): (u32, u32, u32, u32),
    expected: Result<(), (u8, Layer, usize)>,
) -> Result<(), Fail> {
    let mut lent = slots;
    let mut lent_table = entries(table)?;
    let mut map = IdOrdMap::new(&mut lent, &mut lent_table);
    let given = numbers(used, len, free_head);
    let answer = told(map.adopt(used, len, given.free_head, count));
    assert_eq!(rt; answer, expected);
    let left = if answer.is_ok() {
        given
    } else {
        ItemSet::new()
    };
    assert_eq!(rt; map.items(), left, "{expected:?}");
    assert_eq!(rt; &lent[..], &slots[..], "{expected:?}");
    assert_eq!(rt; &lent_table[..], &entries(table)?[..], "{expected:?}");
    Ok(())
}

fn finds<const N: usize>(
    rt: &impl Abort,
    slots: [ItemSlot<Stay>; N],
    table: [u32; N],
    parts: (u32, u32, u32, u32),
    fault: (u8, Layer, usize),
) -> Result<(), Fail> {
    answers(rt, slots, table, parts, Err(fault))
}

#[test]
fn sizes_over_the_capacity(rt: HostRuntime) -> Result<(), Fail> {
    let slots = [vacant(S); 2];
    finds(&rt, slots, [0, 0], (3, 0, S, 0), (10, Layer::Map, 3))?;
    finds(&rt, slots, [0, 0], (1, 0, S, 5), (10, Layer::Map, 5))?;
    finds(&rt, slots, [0, 0], (3, 0, S, 5), (10, Layer::Map, 3))?;
    finds(
        &rt,
        slots,
        [0, 0],
        (S, S, S, S),
        (10, Layer::Map, 4294967295),
    )
}

#[test]
fn items_that_are_not_as_many_as_told(rt: HostRuntime) -> Result<(), Fail> {
    finds(&rt, [a()], [0], (1, 0, S, 0), (11, Layer::Items, 1))?;
    let slots = [a(), b(), vacant(S)];
    finds(&rt, slots, [0, 1, 0], (3, 3, 2, 3), (11, Layer::Items, 2))?;
    finds(&rt, [a(), b()], [0, 1], (1, 2, S, 2), (11, Layer::Items, 1))?;
    // before the chain and the table are looked at
    finds(
        &rt,
        [a(), vacant(5)],
        [7, 7],
        (2, 0, 1, 2),
        (11, Layer::Items, 1),
    )
}

#[test]
fn chains_that_leave_the_vacant_slots(rt: HostRuntime) -> Result<(), Fail> {
    finds(&rt, [vacant(5)], [0], (1, 0, 0, 0), (12, Layer::Items, 5))?;
    finds(
        &rt,
        [a(), vacant(S)],
        [0, 0],
        (2, 1, 7, 1),
        (12, Layer::Items, 7),
    )?;
    finds(&rt, [a()], [0], (1, 1, 0, 1), (13, Layer::Items, 0))?;
    let slots = [vacant(S), vacant(3), a(), b()];
    finds(
        &rt,
        slots,
        [2, 3, 0, 0],
        (4, 2, 1, 2),
        (13, Layer::Items, 3),
    )
}

#[test]
fn chains_that_are_too_long_or_too_short(rt: HostRuntime) -> Result<(), Fail> {
    finds(&rt, [vacant(0)], [0], (1, 0, 0, 0), (14, Layer::Items, 0))?;
    let slots = [a(), vacant(4), b(), c(), vacant(4)];
    finds(
        &rt,
        slots,
        [0, 2, 3, 0, 0],
        (5, 3, 1, 3),
        (14, Layer::Items, 4),
    )?;
    finds(&rt, [vacant(S)], [0], (1, 0, S, 0), (15, Layer::Items, 0))?;
    let slots = [vacant(S), vacant(0), vacant(S)];
    finds(&rt, slots, [0, 0, 0], (3, 0, 1, 0), (15, Layer::Items, 2))
}

#[test]
fn tables_that_do_not_name_each_item_once(rt: HostRuntime) -> Result<(), Fail> {
    let three = [a(), b(), c()];
    finds(&rt, [a()], [0], (1, 1, S, 0), (16, Layer::Table, 0))?;
    finds(&rt, three, [0, 1, 9], (3, 3, S, 2), (16, Layer::Table, 2))?;
    finds(&rt, [a(), b()], [0, 0], (2, 2, S, 2), (17, Layer::Table, 1))?;
    finds(&rt, three, [0, 1, 0], (3, 3, S, 3), (17, Layer::Table, 2))?;
    finds(&rt, [a(), b()], [7, 7], (2, 2, S, 2), (17, Layer::Table, 1))?;
    finds(
        &rt,
        [a(), vacant(S)],
        [1, 0],
        (2, 1, 1, 1),
        (18, Layer::Table, 0),
    )?;
    let slots = [a(), b(), vacant(S)];
    finds(&rt, slots, [0, 2, 0], (3, 2, 2, 2), (18, Layer::Table, 1))
}

#[test]
fn walks_that_do_not_ascend(rt: HostRuntime) -> Result<(), Fail> {
    finds(&rt, [a(), b()], [1, 0], (2, 2, S, 2), (19, Layer::Map, 1))?;
    let three = [a(), b(), c()];
    finds(&rt, three, [0, 2, 1], (3, 3, S, 3), (19, Layer::Map, 2))?;
    let twice = [c(), ItemSlot::Occupied(of_vessel(4, 540, 8))];
    finds(&rt, twice, [0, 1], (2, 2, S, 2), (19, Layer::Map, 1))
}

#[test]
fn sound_parts_are_accepted(rt: HostRuntime) -> Result<(), Fail> {
    answers(&rt, [a(), vacant(S)], [0, 0], (2, 1, 1, 1), Ok(()))?;
    let slots = [c(), a(), b(), vacant(S)];
    answers(&rt, slots, [1, 2, 0, 9], (3, 3, S, 3), Ok(()))?;
    // what lies past the numbers is not looked at
    answers(&rt, [a(), a()], [0, 0], (1, 1, S, 1), Ok(()))?;
    answers(&rt, [a(), vacant(0)], [7, 7], (0, 0, S, 0), Ok(()))?;
    answers(&rt, [], [], (0, 0, S, 0), Ok(()))
}
