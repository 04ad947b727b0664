// Tests of the query for a sailing by the letters of its code.
use id_ord_item::Comparable;
use panel_items::{CodeText, CodeTextRefusal, Sailing};
use std::cmp::Ordering;
use std::test::Fail;

#[test]
fn no_letters_mean_code_0(rt: HostRuntime) -> Result<(), Fail> {
    let mut text = CodeText::new();
    assert_eq!(rt; text.code(), 0);
    text.fill(b"AUK")?;
    text.fill(b"")?;
    assert_eq!(rt; text.code(), 0);
    Ok(())
}

#[test]
fn letters_are_bytes_with_zeros_after_them(rt: HostRuntime) -> Result<(), Fail> {
    let mut text = CodeText::new();
    text.fill(b"AUK")?;
    assert_eq!(rt; text.code(), 0x4155_4B00_0000_0000);
    text.fill(b"Z")?;
    assert_eq!(rt; text.code(), 0x5A00_0000_0000_0000);
    text.fill(b"ABCDEFGH")?;
    assert_eq!(rt; text.code(), 0x4142_4344_4546_4748);
    text.fill(&[255; 8])?;
    assert_eq!(rt; text.code(), u64::MAX);
    Ok(())
}

#[test]
fn nine_letters_are_refused_as_long(rt: HostRuntime) -> Result<(), Fail> {
    let mut text = CodeText::new();
    text.fill(b"AUK")?;
    let refusal = text
        .fill(b"ABCDEFGHI")
        .expect_err(&rt, "nine letters were taken");
    assert_eq!(rt; refusal, CodeTextRefusal::Long);
    assert_eq!(rt; refusal.number(), 9);
    assert_eq!(rt; text.code(), 0x4155_4B00_0000_0000);
    Ok(())
}

#[test]
fn a_sailing_is_looked_for_by_its_letters(rt: HostRuntime) -> Result<(), Fail> {
    let mut text = CodeText::new();
    text.fill(b"AUK")?;
    let cases = [
        (0x4155_4B00_0000_0000, Ordering::Equal),
        (0x4155_4B00_0000_0001, Ordering::Less),
        (0x4155_4AFF_FFFF_FFFF, Ordering::Greater),
        (0, Ordering::Greater),
        (u64::MAX, Ordering::Less),
    ];
    for (code, expected) in cases {
        let item = Sailing {
            code,
            berth: 4,
            due: 540,
        };
        assert_eq!(rt; text.compare(&item), expected);
    }
    Ok(())
}

#[test]
fn codes_are_in_the_order_of_the_texts(rt: HostRuntime) -> Result<(), Fail> {
    let mut earlier = CodeText::new();
    let mut later = CodeText::new();
    earlier.fill(b"AUK")?;
    later.fill(b"AUKS")?;
    assert!(rt; earlier.code() < later.code());
    earlier.fill(b"AUKZZZZZ")?;
    later.fill(b"AUL")?;
    assert!(rt; earlier.code() < later.code());
    Ok(())
}
