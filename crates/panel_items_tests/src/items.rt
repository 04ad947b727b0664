// Tests of the order of stays and sailings, of agreement in every field, and of the query for a stay.
use id_ord_item::{Comparable, IdOrdItem};
use panel_items::{Sailing, Stay, StayAt};
use std::cmp::Ordering;

fn stay(berth: u16, from: u32, to: u32, vessel: u64) -> Stay {
    Stay {
        berth,
        from,
        to,
        vessel,
    }
}

fn sailing(code: u64, berth: u16, due: u32) -> Sailing {
    Sailing { code, berth, due }
}

#[test]
fn stays_go_by_berth_and_then_by_beginning(rt: HostRuntime) {
    let cases = [
        (stay(1, 900, 0, 0), stay(2, 100, 0, 0), Ordering::Less),
        (stay(2, 100, 0, 0), stay(1, 900, 0, 0), Ordering::Greater),
        (stay(4, 540, 0, 0), stay(4, 541, 0, 0), Ordering::Less),
        (stay(4, 541, 0, 0), stay(4, 540, 0, 0), Ordering::Greater),
        (stay(4, 540, 600, 7), stay(4, 540, 900, 7), Ordering::Equal),
        (stay(4, 540, 600, 7), stay(4, 540, 600, 8), Ordering::Equal),
        (stay(0, 0, 0, 0), stay(u16::MAX, 0, 0, 0), Ordering::Less),
        (stay(0, 0, 0, 0), stay(0, u32::MAX, 0, 0), Ordering::Less),
        (
            stay(0, u32::MAX, 0, 0),
            stay(u16::MAX, 0, 0, 0),
            Ordering::Less,
        ),
        (
            stay(u16::MAX, u32::MAX, 0, 0),
            stay(u16::MAX, u32::MAX, 1, 1),
            Ordering::Equal,
        ),
    ];
    for (a, b, expected) in cases {
        assert_eq!(rt; IdOrdItem::compare(&a, &b), expected);
    }
}

#[test]
fn stays_agree_only_in_every_field(rt: HostRuntime) {
    let one = stay(4, 540, 600, 7);
    let cases = [
        (stay(4, 540, 600, 7), true),
        (stay(5, 540, 600, 7), false),
        (stay(4, 541, 600, 7), false),
        (stay(4, 540, 601, 7), false),
        (stay(4, 540, 600, 8), false),
    ];
    for (other, expected) in cases {
        assert_eq!(rt; one.same(&other), expected);
    }
}

#[test]
fn sailings_go_by_code(rt: HostRuntime) {
    let cases = [
        (sailing(1, 9, 9), sailing(2, 1, 1), Ordering::Less),
        (sailing(2, 1, 1), sailing(1, 9, 9), Ordering::Greater),
        (sailing(7, 1, 540), sailing(7, 2, 541), Ordering::Equal),
        (sailing(0, 0, 0), sailing(u64::MAX, 0, 0), Ordering::Less),
        (
            sailing(u64::MAX, 0, 0),
            sailing(u64::MAX, 1, 1),
            Ordering::Equal,
        ),
    ];
    for (a, b, expected) in cases {
        assert_eq!(rt; IdOrdItem::compare(&a, &b), expected);
    }
}

#[test]
fn sailings_agree_only_in_every_field(rt: HostRuntime) {
    let one = sailing(7, 4, 540);
    let cases = [
        (sailing(7, 4, 540), true),
        (sailing(8, 4, 540), false),
        (sailing(7, 5, 540), false),
        (sailing(7, 4, 541), false),
    ];
    for (other, expected) in cases {
        assert_eq!(rt; one.same(&other), expected);
    }
}

#[test]
fn a_stay_is_looked_for_by_berth_and_beginning(rt: HostRuntime) {
    let query = StayAt {
        berth: 4,
        from: 540,
    };
    let cases = [
        (stay(4, 540, 600, 7), Ordering::Equal),
        (stay(4, 540, 0, 0), Ordering::Equal),
        (stay(4, 539, 600, 7), Ordering::Greater),
        (stay(4, 541, 600, 7), Ordering::Less),
        (stay(3, 900, 990, 7), Ordering::Greater),
        (stay(5, 100, 200, 7), Ordering::Less),
    ];
    for (item, expected) in cases {
        assert_eq!(rt; query.compare(&item), expected);
    }
    assert_eq!(rt; StayAt::from(&stay(4, 540, 600, 7)), query);
}
