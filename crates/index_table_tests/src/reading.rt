// Tests of reading the entry at a place, the first and the last.
use crate::memory::{LARGEST, entries};
use index_table::{first, index_at, last};
use item_set::ItemIndex;
use std::test::*;

#[test]
fn an_empty_table_has_no_entry(rt: HostRuntime) -> Result<(), Fail> {
    assert_eq!(rt; first(&[]), None);
    assert_eq!(rt; last(&[]), None);
    assert_eq!(rt; index_at(&[], 0), None);
    assert_eq!(rt; index_at(&[], usize::MAX), None);
    Ok(())
}

#[test]
fn one_entry_is_the_first_and_the_last(rt: HostRuntime) -> Result<(), Fail> {
    let table = entries([5])?;
    let five = Some(ItemIndex::new(5));
    assert_eq!(rt; first(&table), five);
    assert_eq!(rt; last(&table), five);
    assert_eq!(rt; index_at(&table, 0), five);
    assert_eq!(rt; index_at(&table, 1), None);
    Ok(())
}

#[test]
fn each_place_gives_its_entry_and_none_past_the_end(rt: HostRuntime) -> Result<(), Fail> {
    let table = entries([1, LARGEST, 0, 1])?;
    let cases = [
        (0, Some(ItemIndex::new(1))),
        (1, Some(ItemIndex::new(LARGEST))),
        (2, Some(ItemIndex::new(0))),
        (3, Some(ItemIndex::new(1))),
        (4, None),
        (5, None),
        (usize::MAX, None),
    ];
    for (place, answer) in cases {
        assert_eq!(rt; index_at(&table, place), answer);
    }
    Ok(())
}

#[test]
fn the_first_and_the_last_of_the_entries_handed_over(rt: HostRuntime) -> Result<(), Fail> {
    let table = entries([1, 2, 0, 9])?;
    assert_eq!(rt; first(&table), Some(ItemIndex::new(1)));
    assert_eq!(rt; last(&table), Some(ItemIndex::new(9)));
    assert_eq!(rt; last(&table[0..3]), Some(ItemIndex::new(0)));
    assert_eq!(rt; last(&table[0..2]), Some(ItemIndex::new(2)));
    assert_eq!(rt; first(&table[2..4]), Some(ItemIndex::new(0)));
    assert_eq!(rt; index_at(&table[0..3], 3), None);
    Ok(())
}
