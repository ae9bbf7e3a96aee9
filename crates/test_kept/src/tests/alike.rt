//! What vnodes held is read again, where all held it and where they didn't.

use crate::tests::memory::{MANY, Memory};
use kept_folder::{Held, keep_all, open};
use key_state::{Bytes, Content, Key, KeyState};
use record_codec::Record;
use std::alloc::Global;
use std::test::Fail;
use std::thread::Threads;
use test_support::expect;
use vnode::Vnode;

/// Keys in the order of bytes, each with a value.
type Written = &'static [(&'static [u8], &'static [u8])];

/// What three vnodes hold. All have the same at `a` and `d`; at `b` one lacks what the first has and one has another value; `c` and `e` are
/// held by one.
const WRITTEN: [Written; 3] = [
    &[(b"a", b"1"), (b"b", b"2"), (b"d", b"4")],
    &[(b"a", b"1"), (b"c", b"3"), (b"d", b"4")],
    &[(b"a", b"1"), (b"b", b"6"), (b"d", b"4"), (b"e", b"5")],
];

/// The state of a key at which a value was written at vnode 3.
fn state_of(alloc: Global, value: &[u8]) -> Result<KeyState, Fail> {
    let mut state = KeyState::new(alloc);
    let nothing = KeyState::new(alloc);
    let content = Content::Value {
        media: Bytes::from_slice(alloc, b"text/plain")?,
        bytes: Bytes::from_slice(alloc, value)?,
    };
    state.put(3, nothing.clock(), content)?;
    Ok(state)
}

/// A vnode that holds what is written.
fn vnode_of(alloc: Global, id: u32, written: Written) -> Result<Vnode, Fail> {
    let mut vnode = Vnode::new(alloc, id);
    for (key, value) in written {
        let key = Key::new(alloc, b"b", *key)?;
        let _ = vnode.merge_lent(1, &key, 3, 0, &state_of(alloc, *value)?);
    }
    Ok(vnode)
}

/// Writes what three vnodes hold into a folder that was opened, and reads it.
fn written_and_read<R: Threads + Sync>(rt: &R, alloc: Global) -> Result<Held, Fail> {
    let mut folder = Memory::new(alloc, MANY);
    open(alloc, rt, &mut folder, 0)?;
    let mut vnodes = Vec::new(alloc);
    for (id, written) in WRITTEN.iter().enumerate() {
        vnodes.push(vnode_of(alloc, id as u32, *written)?)?;
    }
    keep_all(alloc, &mut folder, &vnodes, Some(b""))?;
    Ok(open(alloc, rt, &mut folder, 0)?.held)
}

/// Whether a record has a key and one value.
fn has(record: &Record, key: &[u8], value: &[u8]) -> bool {
    match record.state.siblings() {
        [one] => match &one.content {
            Content::Value { bytes, .. } => {
                record.key.key() == key && bytes.as_slice() == value && one.dot.vnode == 3
            }
            Content::Tombstone => false,
        },
        _ => false,
    }
}

/// Whether these records are those of what was written.
fn are_of(records: &[Record], written: Written) -> bool {
    records.len() == written.len()
        && records
            .iter()
            .zip(written)
            .all(|(record, (key, value))| has(record, *key, *value))
}

#[test]
fn what_was_held_is_read(rt: HostRuntime) -> Result<(), Fail> {
    let held = written_and_read(&rt, rt.alloc())?;
    expect(held.files.len() == WRITTEN.len(), &held.files.len())?;
    for (file, written) in held.files.iter().zip(WRITTEN) {
        expect(are_of(&file.records, written), &file.from)?;
    }
    Ok(())
}
