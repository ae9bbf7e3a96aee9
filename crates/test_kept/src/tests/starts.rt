//! Starts, which end after each of their operations, and the numbers that they take.

use crate::tests::memory::{MANY, MINUTE, Memory, WHOLE, begin};
use dvv::VNODES_PER_NUMBER;
use kept_folder::{Folder, OpenFault, keep_all, keep_start, open};
use key_state::{Content, Key, KeyState};
use std::alloc::Global;
use std::test::Fail;
use std::thread::Threads;
use test_support::expect;
use vnode::Vnode;

/// The number that a start takes.
fn number<R: Threads + Sync>(rt: &R, alloc: Global, folder: &mut Memory) -> Option<u32> {
    Some(begin(rt, alloc, folder)?.number)
}

/// Whether a start's number is there, and above an earlier one's.
fn is_above(later: Option<u32>, earlier: Option<u32>) -> bool {
    match (later, earlier) {
        (Some(later), Some(earlier)) => earlier < later,
        (Some(_), None) => true,
        (None, _) => false,
    }
}

/// Writes a record of each vnode of a start into its folder.
fn keep_some(alloc: Global, folder: &mut Memory, number: u32) -> Result<(), Fail> {
    let mut vnodes = Vec::new(alloc);
    for index in 0..3 {
        let id = number
            .saturating_mul(VNODES_PER_NUMBER)
            .saturating_add(index);
        let mut state = KeyState::new(alloc);
        let nothing = KeyState::new(alloc);
        state.put(id, nothing.clock(), Content::Tombstone)?;
        let mut vnode = Vnode::new(alloc, id);
        let _ = vnode.merge_lent(1, &Key::new(alloc, b"b", b"k")?, id, 0, &state);
        vnodes.push(vnode)?;
    }
    keep_all(alloc, folder, &vnodes, Some(b""))?;
    Ok(())
}

/// Starts, of which the first ends after so many operations or keeps records, and the second never does.
#[test]
fn no_number_is_taken_twice(rt: HostRuntime) -> Result<(), Fail> {
    for operations in 0..WHOLE + 2 {
        let mut folder = Memory::new(rt.alloc(), operations);
        let first = number(&rt, rt.alloc(), &mut folder);
        expect(first.is_some() == (operations >= WHOLE), &operations)?;
        folder.begin_again(MANY);
        if let Some(first) = first {
            keep_some(rt.alloc(), &mut folder, first)?;
        }
        let second = number(&rt, rt.alloc(), &mut folder);
        let third = number(&rt, rt.alloc(), &mut folder);
        expect(
            is_above(second, first) && is_above(third, second),
            &operations,
        )?;
    }
    Ok(())
}

/// What may stand in `incarnation`, a line or two and their seal, and the number that the next start takes.
const LAST: [(&[u8], Option<u32>); 17] = [
    (
        b"number 1000\n760e3bcb3b5fc77cda691a756f506f82dd0aaaef\n",
        Some(1_001),
    ),
    (
        b"number 6\naefe3d38bc70dd7353605967b0129199f73e0bad\n",
        Some(MINUTE),
    ),
    (
        b"number 16777214\nb9868478a257b4d228c93c099e8b77fdd78237b4\n",
        Some(16_777_215),
    ),
    (
        b"number 16777215\n04eae5f96741cd09de2c8bf694ef42967d844723\n",
        None,
    ),
    (
        b"number 16777216\nb8ca0d8466765e29c650e583424fd46add9ac631\n",
        None,
    ),
    (
        b"number 01000\n54a8b5c59b558e4b03dbd08f64dd50636e801f76\n",
        None,
    ),
    (
        b"6\nccf271b7830882da1791852baeca1737fcbe4b90\n",
        Some(1_792),
    ),
    (
        b"65534\n40e22603c50d29fabc323b838bb512c5c17fba90\n",
        Some(16_776_960),
    ),
    (b"65535\n51c0cce06da334f3d5734c7657670270cb0cd4d1\n", None),
    (b"65536\nd758c903cedfca49f035887e6ebf1ecb7fd9fa63\n", None),
    (
        b"number 1000\nvnodes 0\n4a82b86dc5874170a5807a642ba91e0e9dd0098f\n",
        Some(1_001),
    ),
    (
        b"number 1000\nvnodes 3\n15980086fa98a9effb32d4785f1687194f4f0a4e\n",
        None,
    ),
    (
        b"number 1000\nvnodes 03\n5ed86f76a42c81f8743a78a48a2b8fa4c3805cef\n",
        None,
    ),
    (
        b"number 1000\nvnodes 32de56405c9e9610e6e47ae90a208d005abde3202\n",
        None,
    ),
    (
        b"number 1000\n\n949af9db310c0f6a4fb4dfc74ec92adfa3b605e2\n",
        None,
    ),
    (
        b"6\nvnodes 0\nbf7a1a5f793e0de1bc034d3637dc9c9ff2366c3d\n",
        None,
    ),
    (
        b"number 1000\nvnodes 0\nvnodes 0\n7b01c870c1812e1a596d38c62f47a272f8895b95\n",
        None,
    ),
];

#[test]
fn last_numbers_are_read(rt: HostRuntime) -> Result<(), Fail> {
    for (place, (bytes, next)) in LAST.iter().enumerate() {
        let mut folder = Memory::new(rt.alloc(), MANY);
        folder.lay("incarnation", bytes)?;
        expect(number(&rt, rt.alloc(), &mut folder) == *next, &place)?;
    }
    Ok(())
}

/// The files of three vnodes.
const FILES: [&str; 3] = ["vnode-0.records", "vnode-1.records", "vnode-2.records"];

/// What a folder has, but for a file.
fn without(alloc: Global, whole: &Memory, missing: &str) -> Result<Memory, Fail> {
    let mut folder = Memory::new(alloc, MANY);
    for name in whole.names(alloc)? {
        if let Ok(Some(bytes)) = whole.read(alloc, &name)
            && name.as_str() != missing
        {
            folder.lay(&name, &bytes)?;
        }
    }
    Ok(folder)
}

/// Three vnodes have a file each. A start that lacks one begins with the others while it isn't told that there are three. Once it is, it is
/// refused by the name of that file, behind any number of starts.
#[test]
fn missing_files_are_told(rt: HostRuntime) -> Result<(), Fail> {
    let alloc = rt.alloc();
    let mut whole = Memory::new(alloc, MANY);
    let first = number(&rt, alloc, &mut whole);
    keep_some(alloc, &mut whole, MINUTE)?;
    for missing in &FILES {
        let mut folder = without(alloc, &whole, missing)?;
        let held = open(alloc, &rt, &mut folder, MINUTE)?.held;
        expect(held.filed == None && held.files.len() == 2, missing)?;
    }
    keep_start(alloc, &mut whole, MINUTE, 3)?;
    for starts in 0..3u32 {
        for missing in &FILES {
            let mut folder = without(alloc, &whole, missing)?;
            let fault = open(alloc, &rt, &mut folder, MINUTE).err();
            let name = *missing;
            expect(
                fault == Some(OpenFault::Missing { name }),
                &(starts, *missing),
            )?;
        }
        let held = open(alloc, &rt, &mut whole, MINUTE)?.held;
        expect(held.filed == Some(3) && held.files.len() == 3, &starts)?;
    }
    expect(first == Some(MINUTE), &"the first start")
}
