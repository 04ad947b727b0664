// Tests of looking up the new number of a slot.
use crate::store::{S, scratch};
use item_set::{IndexRemap, ItemIndex, RemapRefusal};
use std::test::*;

const GONE: Result<u32, RemapRefusal> = Err(RemapRefusal::Gone);

const RANGE: Result<u32, RemapRefusal> = Err(RemapRefusal::Range);

/// The new number of a slot, by its value.
fn new_number(used: u32, scratch: &[ItemIndex], old: u32) -> Result<u32, RemapRefusal> {
    let remap = IndexRemap::Permuted { used };
    Ok(remap.remap(scratch, ItemIndex::new(old))?.as_u32())
}

#[test]
fn identity_gives_back_every_number(rt: HostRuntime) -> Result<(), Fail> {
    for value in [0, 1, 3, 4, 4095, 4294967294, S] {
        let old = ItemIndex::new(value);
        assert_eq!(rt; IndexRemap::Identity.remap(&[], old), Ok(old));
        // whatever the scratch holds
        let full = scratch([9, S, 8, 7]);
        assert_eq!(rt; IndexRemap::Identity.remap(&full, old), Ok(old));
    }
    Ok(())
}

#[test]
fn a_number_below_the_old_used_is_looked_up_in_the_scratch(rt: HostRuntime) -> Result<(), Fail> {
    let cases = [
        (3, [0, S, 1, 7], 0, Ok(0)),
        (3, [0, S, 1, 7], 1, GONE),
        (3, [0, S, 1, 7], 2, Ok(1)),
        // the scratch has a place for 3, but the slot was not in use
        (3, [0, S, 1, 7], 3, RANGE),
        (4, [0, S, 1, 7], 3, Ok(7)),
        (3, [0, S, 1, S], 3, RANGE),
        (4, [0, S, 1, S], 3, GONE),
        // past the scratch
        (4, [0, S, 1, 7], 4, RANGE),
        (9, [0, S, 1, 7], 4, RANGE),
        (9, [0, S, 1, 7], 8, RANGE),
        (9, [0, S, 1, 7], 9, RANGE),
        (S, [0, S, 1, 7], 4294967294, RANGE),
        (S, [0, S, 1, 7], S, RANGE),
        // what the scratch holds is answered as it is
        (1, [4294967294, S, S, S], 0, Ok(4294967294)),
        (0, [0, 1, 2, 3], 0, RANGE),
    ];
    for (used, places, old, answer) in cases {
        assert_eq!(rt;
            new_number(used, &scratch(places), old),
            answer,
            "{old} of {used}"
        );
    }
    Ok(())
}

#[test]
fn a_scratch_that_is_cut_short_is_the_range(rt: HostRuntime) -> Result<(), Fail> {
    let places = scratch([0, S, 1, 7]);
    assert_eq!(rt; new_number(3, &places[0..2], 0), Ok(0));
    assert_eq!(rt; new_number(3, &places[0..2], 1), GONE);
    assert_eq!(rt; new_number(3, &places[0..2], 2), RANGE);
    assert_eq!(rt; new_number(3, &[], 0), RANGE);
    Ok(())
}
