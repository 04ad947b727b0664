// Tests of making table entries of slot numbers.
use crate::memory::{LARGEST, S};
use index_table::{Index, IndexRefusal};
use item_set::ItemIndex;
use std::test::*;

#[test]
fn every_slot_number_makes_an_entry_that_gives_it_back(rt: HostRuntime) -> Result<(), Fail> {
    for slot in [0, 1, 4095, 65536, 2147483648, LARGEST] {
        let made = Index::new(ItemIndex::new(slot))?;
        assert_eq!(rt; made.value(), ItemIndex::new(slot));
    }
    Ok(())
}

#[test]
fn the_sentinel_makes_none(rt: HostRuntime) -> Result<(), Fail> {
    assert_eq!(rt;
        Index::new(ItemIndex::SENTINEL),
        Err(IndexRefusal::Sentinel)
    );
    assert_eq!(rt; Index::new(ItemIndex::new(S)), Err(IndexRefusal::Sentinel));
    assert_eq!(rt; IndexRefusal::Sentinel.number(), 5);
    Ok(())
}

#[test]
fn entries_are_equal_if_they_name_one_slot(rt: HostRuntime) -> Result<(), Fail> {
    assert_eq!(rt;
        Index::new(ItemIndex::new(3)),
        Index::new(ItemIndex::new(3))
    );
    assert_ne!(rt;
        Index::new(ItemIndex::new(3)),
        Index::new(ItemIndex::new(4))
    );
    Ok(())
}
