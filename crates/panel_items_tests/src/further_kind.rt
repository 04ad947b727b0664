// Tests of the further kind of item, through code that serves every kind.
use crate::buoy::Buoy;
use crate::buoy_at::BuoyAt;
use crate::every_kind::{answers, kept, largest};
use crate::keep_zone::KeepZone;
use id_ord_item::KeepFirst;

fn buoy(zone: u8, number: u16, light: u8, colour: u8) -> Buoy {
    Buoy {
        zone,
        number,
        light,
        colour,
    }
}

#[test]
fn the_largest_goes_by_all_three_parts(rt: HostRuntime) {
    assert_eq!(rt; largest::<Buoy>(&[]), None);
    let cases = [
        (
            [buoy(1, 9, 9, 0), buoy(2, 1, 1, 0), buoy(1, 9, 8, 0)],
            buoy(2, 1, 1, 0),
        ),
        (
            [buoy(1, 2, 9, 0), buoy(1, 9, 1, 0), buoy(1, 3, 8, 0)],
            buoy(1, 9, 1, 0),
        ),
        (
            [buoy(1, 9, 1, 0), buoy(1, 9, 2, 0), buoy(1, 9, 3, 0)],
            buoy(1, 9, 3, 0),
        ),
    ];
    for (items, expected) in cases {
        assert_eq!(rt; largest(&items), Some(expected));
    }
}

#[test]
fn a_query_answers_whatever_the_colour(rt: HostRuntime) {
    let query = BuoyAt {
        zone: 1,
        number: 9,
        light: 2,
    };
    let cases = [
        (buoy(1, 9, 2, 0), true),
        (buoy(1, 9, 2, 7), true),
        (buoy(2, 9, 2, 0), false),
        (buoy(1, 8, 2, 0), false),
        (buoy(1, 9, 3, 0), false),
    ];
    for (item, expected) in cases {
        assert_eq!(rt; answers(&item, &query), expected);
    }
    assert!(rt; answers(&buoy(1, 9, 2, 7), &buoy(1, 9, 2, 0)));
}

#[test]
fn rules_keep_change_and_remove(rt: HostRuntime) {
    let mut zone = KeepZone { zone: 1, colour: 5 };
    assert_eq!(rt; kept(buoy(1, 9, 2, 7), &mut zone), Some(buoy(1, 9, 2, 5)));
    assert_eq!(rt; kept(buoy(2, 9, 2, 7), &mut zone), None);
    let mut first = KeepFirst { left: 1 };
    assert_eq!(rt; kept(buoy(1, 9, 2, 7), &mut first), Some(buoy(1, 9, 2, 7)));
    assert_eq!(rt; kept(buoy(1, 9, 2, 7), &mut first), None);
}
