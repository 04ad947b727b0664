// Tests of the rule that removes ended stays and of the rule that counts.
use id_ord_item::{KeepFirst, KeepRule, Verdict};
use panel_items::{EndedBy, Stay};

fn ending(to: u32) -> Stay {
    Stay {
        berth: 4,
        from: 540,
        to,
        vessel: 7,
    }
}

#[test]
fn ended_stays_are_removed(rt: HostRuntime) {
    let cases = [
        (0, false),
        (599, false),
        (600, false),
        (601, true),
        (u32::MAX, true),
    ];
    let mut rule = EndedBy { minute: 600 };
    for (to, kept) in cases {
        let (verdict, item) = rule.keep(ending(to));
        assert_eq!(rt; matches!(verdict, Verdict::Keep), kept);
        assert_eq!(rt; item, ending(to));
        assert_eq!(rt; rule.minute, 600);
    }
}

#[test]
fn the_first_are_kept(rt: HostRuntime) {
    let cases = [
        (0, [false, false, false], 0),
        (1, [true, false, false], 0),
        (2, [true, true, false], 0),
        (5, [true, true, true], 2),
    ];
    for (left, kept, after) in cases {
        let mut rule = KeepFirst { left };
        for expected in kept {
            let (verdict, item) = rule.keep(ending(600));
            assert_eq!(rt; matches!(verdict, Verdict::Keep), expected);
            assert_eq!(rt; item, ending(600));
        }
        assert_eq!(rt; rule.left, after);
    }
}
