//! What who runs a store has set.

use crate::tests::memory::{MANY, MINUTE, Memory, begin};
use std::alloc::Global;
use std::test::Fail;
use std::thread::Threads;
use test_support::expect;

/// What may stand in `settings`, the seconds that it sets, the number that a start takes by it, and the copies that it asks for.
const SET: [(&[u8], Option<(u32, u32, u32)>); 26] = [
    (b"snapshot 60\n", Some((60, MINUTE, 1))),
    (b"snapshot 0\n", Some((0, MINUTE, 1))),
    (b"snapshot 4294967295\n", Some((4_294_967_295, MINUTE, 1))),
    (b"number 0\n", Some((60, MINUTE, 1))),
    (b"number 16777215\n", Some((60, 16_777_215, 1))),
    (b"number 9\nsnapshot 5\n", Some((5, 9, 1))),
    (b"snapshot 5\nnumber 9\n", Some((5, 9, 1))),
    (b"copies 1\n", Some((60, MINUTE, 1))),
    (b"copies 3\n", Some((60, MINUTE, 3))),
    (b"number 9\ncopies 2\nsnapshot 5\n", Some((5, 9, 2))),
    (b"snapshot 5\nnumber 9\ncopies 3\n", Some((5, 9, 3))),
    (b"copies 0\n", None),
    (b"copies 4\n", None),
    (b"copies 2\nnumber 9\ncopies 2\n", None),
    (b"copies 2\n\nnumber 9\n", None),
    (b"number 16777216\n", None),
    (b"snapshot 5\nsnapshot 5\n", None),
    (b"number 9\nsnapshot 5\nnumber 9\n", None),
    (b"snapshot 4294967296\n", None),
    (b"snapshot 060\n", None),
    (b"snapshot +60\n", None),
    (b"snapshot  60\n", None),
    (b"snapshot 60", None),
    (b"snapshot 60\n\n", None),
    (b"snapshot \n", None),
    (b"", None),
];

/// The seconds that a start reads, the number that it takes, and the copies that are wanted, if it isn't refused.
fn set<R: Threads + Sync>(rt: &R, alloc: Global, folder: &mut Memory) -> Option<(u32, u32, u32)> {
    let opened = begin(rt, alloc, folder)?;
    let settings = opened.held.settings;
    Some((settings.every, opened.number, settings.copies))
}

#[test]
fn settings_are_lines(rt: HostRuntime) -> Result<(), Fail> {
    let mut folder = Memory::new(rt.alloc(), MANY);
    let usual = set(&rt, rt.alloc(), &mut folder);
    expect(usual == Some((60, MINUTE, 1)), &"nothing is set")?;
    for (place, (bytes, is_set)) in SET.iter().enumerate() {
        let mut folder = Memory::new(rt.alloc(), MANY);
        folder.lay("settings", bytes)?;
        expect(set(&rt, rt.alloc(), &mut folder) == *is_set, &place)?;
    }
    Ok(())
}
