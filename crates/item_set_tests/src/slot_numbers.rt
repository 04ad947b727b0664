// Tests of slot numbers.
use item_set::ItemIndex;
use std::test::*;

#[test]
fn a_slot_number_keeps_its_value(rt: HostRuntime) -> Result<(), Fail> {
    for value in [0, 1, 4095, 65536, 2147483648, 4294967294, 4294967295] {
        assert_eq!(rt; ItemIndex::new(value).as_u32(), value);
    }
    Ok(())
}

#[test]
fn only_the_largest_number_is_the_sentinel(rt: HostRuntime) -> Result<(), Fail> {
    let cases = [
        (0, false),
        (1, false),
        (2147483647, false),
        (4294967294, false),
        (4294967295, true),
    ];
    for (value, expected) in cases {
        assert_eq!(rt; ItemIndex::new(value).is_sentinel(), expected);
    }
    assert_eq!(rt; ItemIndex::SENTINEL.as_u32(), 4294967295);
    assert_eq!(rt; ItemIndex::SENTINEL, ItemIndex::new(4294967295));
    assert_ne!(rt; ItemIndex::SENTINEL, ItemIndex::new(4294967294));
    Ok(())
}
