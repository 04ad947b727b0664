// Tests of the number of each refusal, and of the place of each fault.
use item_set::{CompactRefusal, ItemIndex, ItemSetFault, RemapRefusal};
use std::test::*;

#[test]
fn each_refusal_has_its_number(rt: HostRuntime) -> Result<(), Fail> {
    assert_eq!(rt; CompactRefusal::Short.number(), 6);
    assert_eq!(rt; RemapRefusal::Gone.number(), 7);
    assert_eq!(rt; RemapRefusal::Range.number(), 8);
    Ok(())
}

#[test]
fn each_fault_has_its_number_and_place(rt: HostRuntime) -> Result<(), Fail> {
    for place in [0, 1, 4095, 4294967294, 4294967295] {
        let slot = ItemIndex::new(place);
        let cases = [
            (ItemSetFault::Count { occupied: place }, 11),
            (ItemSetFault::ChainRange { slot }, 12),
            (ItemSetFault::ChainOccupied { slot }, 13),
            (ItemSetFault::ChainLong { slot }, 14),
            (ItemSetFault::ChainShort { steps: place }, 15),
            (ItemSetFault::NotCompact { vacant: place }, 20),
        ];
        for (fault, number) in cases {
            assert_eq!(rt; fault.number(), number);
            assert_eq!(rt; fault.place(), place);
        }
    }
    Ok(())
}
