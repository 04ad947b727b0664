// Tests of the number and the place of each fault.
use index_table::TableFault;
use std::test::*;

#[test]
fn each_fault_has_its_number_and_place(rt: HostRuntime) -> Result<(), Fail> {
    for place in [0, 1, 4095, 4294967295, usize::MAX] {
        let cases = [
            (TableFault::TableLength { count: place }, 16),
            (TableFault::Repeated { place }, 17),
            (TableFault::NotHeld { place }, 18),
        ];
        for (fault, number) in cases {
            assert_eq!(rt; fault.number(), number);
            assert_eq!(rt; fault.place(), place);
        }
    }
    Ok(())
}
