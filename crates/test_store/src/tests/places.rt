//! Places of keys, preference lists and quorums.

use ring::{Placement, place, quorum};
use std::test::Fail;
use test_support::expect;

/// A bucket, a key, how many vnodes there are, and the key's place among them.
type Place = (&'static [u8], &'static [u8], u32, u32);

/// Computed by another program.
const PLACES: &[Place] = &[
    (b"b", b"k", 3, 0),
    (b"b", b"k", 1, 0),
    (b"b", b"k", 64, 2),
    (b"b", b"k", 255, 90),
    (b"bk", b"", 3, 0),
    (b"", b"bk", 64, 14),
    (b"bk", b"", 64, 40),
    (b"sim", b"k", 3, 2),
    (b"sim", b"k", 64, 43),
    (b"sim", b"k", 255, 86),
    (&[0; 64], &[255; 255], 64, 53),
    (b"schl\xc3\xbcssel", b"gr\xc3\xb6\xc3\x9fe", 64, 18),
    (b"b", b"k1", 64, 25),
    (b"b1", b"k", 64, 5),
];

#[test]
fn places(_rt: HostRuntime) -> Result<(), Fail> {
    for row in PLACES {
        let (bucket, key, vnodes, want) = *row;
        let some = bucket.len() <= 64 && vnodes > 0;
        expect(some && place(bucket, key, vnodes) == want, &want)?;
    }
    let one = Placement::at_one(64, 7, 3);
    let by_digest = Placement::by_digest(64, 1).place_of(b"b", b"k");
    let told = (one.place_of(b"b", b"k"), one.vnodes(), by_digest);
    expect(told == (7, 64, 2), &64)
}

/// How many vnodes there are, how many copies are wanted, how many there are, and how many of these are a quorum.
const QUORUMS: &[[u32; 4]] = &[
    [1, 3, 1, 1],
    [2, 3, 2, 2],
    [3, 3, 3, 2],
    [4, 3, 3, 2],
    [255, 3, 3, 2],
    [1, 1, 1, 1],
    [3, 1, 1, 1],
    [255, 2, 2, 2],
];

/// A place, how many vnodes there are, how many copies are wanted, and the list that begins at the place.
const LISTS: &[(u32, u32, u32, &[usize])] = &[
    (0, 1, 3, &[0]),
    (1, 2, 3, &[1, 0]),
    (0, 3, 3, &[0, 1, 2]),
    (2, 3, 3, &[2, 0, 1]),
    (2, 3, 2, &[2, 0]),
    (2, 3, 1, &[2]),
    (253, 255, 3, &[253, 254, 0]),
    (254, 255, 3, &[254, 0, 1]),
    (u32::MAX - 1, u32::MAX, 3, &[4_294_967_294, 0, 1]),
];

/// A place, an index of the list that begins at it, how many vnodes there are, how many copies are wanted, and the list without
/// the vnode at the index.
const OTHERS: &[(u32, u32, u32, u32, &[usize])] = &[
    (0, 0, 1, 3, &[]),
    (0, 1, 2, 3, &[0]),
    (2, 0, 3, 3, &[0, 1]),
    (2, 1, 3, 3, &[2, 1]),
    (2, 2, 3, 3, &[2, 0]),
    (2, 1, 3, 2, &[2]),
    (1, 0, 3, 1, &[]),
    (254, 1, 255, 3, &[254, 1]),
];

/// Keys at the places that their digests give, where the arguments are a placement's.
fn placement_of(vnodes: u32, copies: u32) -> Result<Placement, Fail> {
    if vnodes > 0 && copies > 0 && copies <= 3 {
        Ok(Placement::by_digest(vnodes, copies))
    } else {
        Err(Fail::new("no placement"))
    }
}

#[test]
fn quorums_and_lists(_rt: HostRuntime) -> Result<(), Fail> {
    for row in QUORUMS {
        let [vnodes, wanted, want, enough] = *row;
        let placement = placement_of(vnodes, wanted)?;
        expect(
            placement.copies() == want && quorum(want) == enough,
            &vnodes,
        )?;
    }
    for row in LISTS {
        let (first, vnodes, wanted, list) = *row;
        let placement = placement_of(vnodes, wanted)?;
        let inside = first < placement.vnodes();
        expect(
            inside && placement.preferred(first).as_slice() == list,
            &vnodes,
        )?;
    }
    for row in OTHERS {
        let (first, at, vnodes, wanted, list) = *row;
        let placement = placement_of(vnodes, wanted)?;
        let inside = first < placement.vnodes() && at < placement.copies();
        expect(
            inside && placement.others(first, at).as_slice() == list,
            &vnodes,
        )?;
    }
    Ok(())
}
