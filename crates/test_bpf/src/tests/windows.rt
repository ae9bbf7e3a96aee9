//! Reads and changes of windows, by hand.

use bpf_insn::Size;
use bpf_semantics::{Region, Windows};
use std::test::Fail;
use test_support::expect;

/// What an output of eight bytes has after a store, and after a copy onto itself, two places on: it writes what stood there before.
fn stored_and_copied() -> [u64; 2] {
    let mut output = [0; 8];
    let mut windows = Windows {
        stack: [0; 512],
        input: &[],
        output: &mut output,
    };
    windows.store(Region::Output, 2, Size::Word, 0xffff_ffff_0d0c_0b0a);
    let stored = windows.load(Region::Output, 0, Size::Double);
    windows.copy(Region::Output, 4, Region::Output, 2, 4);
    [stored, windows.load(Region::Output, 0, Size::Double)]
}

/// Whether the end of the stack has the bytes of an input once they are copied there, and once two of them are filled; and the last
/// four of them.
fn compared_and_filled() -> (bool, bool, u64) {
    let mut windows = Windows {
        stack: [0; 512],
        input: &[1, 2, 3, 4, 5, 6, 7, 0x88],
        output: &mut [],
    };
    windows.copy(Region::Stack, 504, Region::Input, 0, 8);
    let before = windows.same(Region::Stack, 504, Region::Input, 0, 8);
    windows.fill(Region::Stack, 510, 2, 0xab);
    let after = windows.same(Region::Stack, 504, Region::Input, 0, 8);
    (before, after, windows.load(Region::Stack, 508, Size::Word))
}

#[test]
fn windows(rt: HostRuntime) {
    let copied = stored_and_copied();
    assert!(rt; copied == [0x0d0c_0b0a_0000, 0x0d0c_0b0a_0b0a_0000]);
    assert!(rt; compared_and_filled() == (true, false, 0xabab_0605));
}

/// Addresses at the ends of the windows, places of eight bytes and of none, and where these are.
const ADDRESSES: &[(u64, usize, Option<(Region, usize)>)] = &[
    ((1 << 40) - 512, 8, Some((Region::Stack, 0))),
    ((1 << 40) - 8, 8, Some((Region::Stack, 504))),
    ((1 << 40) - 7, 8, None),
    ((1 << 40) - 513, 8, None),
    (1 << 40, 0, Some((Region::Stack, 512))),
    (1 << 41, 8, Some((Region::Input, 0))),
    ((1 << 41) + 8, 8, Some((Region::Input, 8))),
    ((1 << 41) + 9, 8, None),
    (1 << 42, 8, Some((Region::Output, 0))),
    ((1 << 42) + 1, 8, None),
    ((1 << 42) + 8, 0, Some((Region::Output, 8))),
    (0, 1, None),
    (u64::MAX, 8, None),
];

#[test]
fn addresses(_rt: HostRuntime) -> Result<(), Fail> {
    let mut output = [0u8; 8];
    let windows = Windows {
        stack: [0; 512],
        input: &[0; 16],
        output: &mut output,
    };
    for (place, (address, n, want)) in ADDRESSES.iter().enumerate() {
        expect(windows.locate(*address, *n) == *want, &place)?;
    }
    Ok(())
}
