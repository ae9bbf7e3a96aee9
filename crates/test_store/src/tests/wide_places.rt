//! Records whose places four bytes don't hold. Each is of the key `k` in the bucket `b`, of the vnode 65,538, with the clock `1:1` and no
//! sibling.

use record_codec::{WireFault, read_record, write_record};
use std::alloc::Global;
use std::test::Fail;

/// The place 2^32.
const FIRST_WIDE: &[u8] =
    b"DVR2\0\0\0\x24\0\x01b\0\x01k\0\x01\0\x02\0\0\0\x01\0\0\0\0\0\x01\0\0\0\x01\0\0\0\0\0\0\0\x01\0\0\0\0\xf2\xcd\x6b\x3c\xdc\xec\xaf\x5f\x2f\x5e\xd4\xe0\x51\x07\xfb\x6a\xdc\x09\x38\xb6";

/// The place 2^64 - 1.
const LAST_WIDE: &[u8] =
    b"DVR2\0\0\0\x24\0\x01b\0\x01k\0\x01\0\x02\xff\xff\xff\xff\xff\xff\xff\xff\0\x01\0\0\0\x01\0\0\0\0\0\0\0\x01\0\0\0\0\xc9\x1c\x89\x33\xa5\x31\xa8\x20\xc9\x31\xa8\xed\x10\xf9\x5b\x98\x9d\xd7\xf2\x5c";

/// The place 2^32 - 1, in eight bytes.
const TOO_WIDE: &[u8] =
    b"DVR2\0\0\0\x24\0\x01b\0\x01k\0\x01\0\x02\0\0\0\0\xff\xff\xff\xff\0\x01\0\0\0\x01\0\0\0\0\0\0\0\x01\0\0\0\0\x27\x46\xef\x94\x3e\xc4\x84\x3d\x67\x98\xa5\xb0\xd1\x25\xb1\x96\x9b\x73\xe1\x9e";

/// Fails the test where bytes are not read as a record with this place, or where that is written otherwise.
fn expect_place(alloc: Global, bytes: &[u8], at: u64) -> Result<(), Fail> {
    let Ok((found, len)) = read_record(alloc, bytes) else {
        return Err(Fail::new(format_args!("{at} is not read")));
    };
    let written = write_record(alloc, &found.key, found.from, found.at, &found.state)?;
    if found.at == at && len == bytes.len() && written.as_slice() == bytes {
        return Ok(());
    }
    Err(Fail::new(format_args!("{at} is read as {}", found.at)))
}

#[test]
fn wide_places_are_written_and_read(rt: HostRuntime) -> Result<(), Fail> {
    expect_place(rt.alloc(), FIRST_WIDE, 4_294_967_296)?;
    expect_place(rt.alloc(), LAST_WIDE, u64::MAX)
}

#[test]
fn a_small_place_has_no_wide_record(rt: HostRuntime) -> Result<(), Fail> {
    match read_record(rt.alloc(), TOO_WIDE) {
        Err(WireFault::NotCanonical) => Ok(()),
        _ => Err(Fail::new(format_args!("it is read"))),
    }
}
