//! What files of former starts hold once they are folded.

use dvv::{Dot, VNODES_PER_NUMBER};
use kept_file::{KeptFile, Source};
use kept_fold::fold_files;
use key_state::{Bytes, Content, Key, KeyState};
use record_codec::Record;
use std::alloc::{AllocError, Global};
use std::test::Fail;

/// The number of the start that folds.
const NUMBER: u32 = 500;

/// The identifier under which it writes contents anew.
const FOLD: u32 = 128_254;

/// The key of one byte.
fn key_of(alloc: Global, name: u8) -> Result<Key, AllocError> {
    Key::new(alloc, b"b", &[name])
}

/// The value of one byte. That of 0 is a tombstone.
fn content_of(alloc: Global, value: u8) -> Result<Content, AllocError> {
    if value == 0 {
        return Ok(Content::Tombstone);
    }
    Ok(Content::Value {
        media: Bytes::from_slice(alloc, b"text/plain")?,
        bytes: Bytes::from_slice(alloc, &[value])?,
    })
}

/// Adds a write to a state, by the vnode with an index of a start.
fn put(alloc: Global, state: &mut KeyState, start: u32, index: u32, value: u8) -> Result<(), Fail> {
    let seen = state.clock().copy(alloc)?;
    let vnode = start
        .saturating_mul(VNODES_PER_NUMBER)
        .saturating_add(index);
    let _dot = state.put(vnode, &seen, content_of(alloc, value)?)?;
    Ok(())
}

/// The state of a value that a vnode of each start from 1 on has written, up to a last one.
fn state_of(alloc: Global, last: u32, index: u32, value: u8) -> Result<KeyState, Fail> {
    let mut state = KeyState::new(alloc);
    for start in 1..=last {
        put(alloc, &mut state, start, index, value)?;
    }
    Ok(state)
}

fn record_of(alloc: Global, name: u8, state: KeyState) -> Result<Record, AllocError> {
    Ok(Record {
        key: key_of(alloc, name)?,
        from: 7,
        at: 9,
        state,
    })
}

/// Whether a record has these values under the dots of the fold.
fn is_folded(alloc: Global, one: &Record, values: &[u8]) -> Result<bool, AllocError> {
    let count = values.len() as u64;
    let siblings = one.state.siblings();
    let clock = [Dot {
        vnode: FOLD,
        n: count,
    }];
    if one.state.clock().entries() != clock.as_slice() || siblings.len() != values.len() {
        return Ok(false);
    }
    for (place, sibling) in siblings.iter().enumerate() {
        let dot = Dot {
            vnode: FOLD,
            n: place as u64 + 1,
        };
        if sibling.dot != dot || !sibling.content.is_same(&content_of(alloc, values[place])?) {
            return Ok(false);
        }
    }
    Ok(one.from == FOLD && one.at == count)
}

/// Keys: by how many starts each was written at the vnodes of three files, and the values that a fold leaves it, in order: those of the vnodes,
/// of which the first writes 1, the second 2, and the third deletes. None where it stays.
const KEYS: [([u32; 3], Option<&[u8]>); 8] = [
    ([14, 14, 14], Some(&[1, 2, 0])),
    ([20, 13, 0], Some(&[2, 1])),
    ([0, 0, 33], Some(&[0])),
    ([32, 0, 0], None),
    ([10, 11, 11], None),
    ([12, 11, 10], Some(&[0, 2, 1])),
    ([1, 0, 0], None),
    ([0, 40, 1], Some(&[0, 2])),
];

/// The file of a vnode, with the records of these keys.
fn file_of(alloc: Global, index: u32) -> Result<KeptFile, Fail> {
    let place = index as usize % 3;
    let mut records = Vec::new(alloc);
    let mut name = 0u8;
    for key in KEYS {
        let starts = key.0[place];
        if starts > 0 {
            let state = state_of(alloc, starts, index, [1, 2, 0][place])?;
            records.push(record_of(alloc, name, state)?)?;
        }
        name = name.saturating_add(1);
    }
    let from = index.saturating_add(127_744);
    Ok(KeptFile {
        from: Source::Vnode(from),
        records,
    })
}

/// Whether a record is what a fold leaves of it.
fn is_right(alloc: Global, old: &Record, new: &Record) -> Result<bool, Fail> {
    let Some(name) = old.key.key().first() else {
        return Ok(false);
    };
    match KEYS[*name as usize % 8].1 {
        Some(values) => Ok(is_folded(alloc, new, values)?),
        None => Ok(new.state.is_same(&old.state) && new.from == old.from && new.at == old.at),
    }
}

#[test]
fn keys_of_many_starts_are_folded(rt: HostRuntime) -> Result<(), Fail> {
    let alloc = rt.alloc();
    let mut files = Vec::new(alloc);
    for index in 0..3 {
        files.push(file_of(alloc, index)?)?;
    }
    let folded = fold_files(alloc, files, NUMBER)?;
    let mut index = 0;
    for new in &folded {
        let old = file_of(alloc, index)?;
        let is_whole = new.from == old.from && new.records.len() == old.records.len();
        assert!(rt; is_whole, "file {index}");
        for (old, new) in old.records.iter().zip(&new.records) {
            let is_same = old.key.key() == new.key.key();
            assert!(rt; is_same && is_right(alloc, old, new)?, "file {index}");
        }
        index = index.saturating_add(1);
    }
    Ok(())
}

/// The state of so many values, from a first one on, which vnodes with an index have put that had seen nothing, those of the starts from 1 up
/// to a last one in turn.
fn values_of(alloc: Global, last: u32, index: u32, first: u8, count: u8) -> Result<KeyState, Fail> {
    let nothing = KeyState::new(alloc);
    let mut state = KeyState::new(alloc);
    for place in 0..count {
        let start = 1 + u32::from(place) % last.max(1);
        let vnode = start
            .saturating_mul(VNODES_PER_NUMBER)
            .saturating_add(index);
        let content = content_of(alloc, first.saturating_add(place))?;
        let _dot = state.put(vnode, nothing.clock(), content)?;
    }
    Ok(state)
}

/// A file of one record.
fn file_with(alloc: Global, from: u32, name: u8, state: KeyState) -> Result<KeptFile, Fail> {
    let mut records = Vec::new(alloc);
    records.push(record_of(alloc, name, state)?)?;
    Ok(KeptFile {
        from: Source::Vnode(from),
        records,
    })
}

/// The values of a key of 64 siblings at one vnode, and of 40 at another, as they are numbered anew: by starts, at each by vnodes, and at each
/// vnode by its writes.
fn in_order(alloc: Global) -> Result<Vec<u8>, AllocError> {
    let mut values = Vec::new(alloc);
    for start in 0..33u8 {
        values.push(1 + start)?;
        if start < 31 {
            values.push(34 + start)?;
        }
        if start < 20 {
            values.push(101 + start)?;
            values.push(121 + start)?;
        }
    }
    Ok(values)
}

#[test]
fn all_siblings_stay(rt: HostRuntime) -> Result<(), Fail> {
    let alloc = rt.alloc();
    let mut files = Vec::new(alloc);
    files.push(file_with(alloc, 127_744, 0, values_of(alloc, 33, 0, 1, 64)?)?)?;
    files.push(file_with(alloc, 127_745, 0, values_of(alloc, 20, 1, 101, 40)?)?)?;
    let folded = fold_files(alloc, files, NUMBER)?;
    let values = in_order(alloc)?;
    for (index, file) in folded.iter().enumerate() {
        let is_right = file.records.len() == 1 && is_folded(alloc, &file.records[0], &values)?;
        assert!(rt; is_right, "file {index}");
    }
    Ok(())
}

/// Adds the writes of vnodes with an index, of some starts, each of which had seen all before.
fn written(
    alloc: Global,
    mut state: KeyState,
    starts: (u32, u32),
    index: u32,
    value: u8,
) -> Result<KeyState, Fail> {
    for start in starts.0..starts.1 {
        put(alloc, &mut state, start, index, value)?;
    }
    Ok(state)
}

/// What the first vnode of start 40 has of a key that this start has folded, and starts up to a later one have written there once more.
fn first_of(alloc: Global, later: u32) -> Result<KeyState, Fail> {
    let mut state = KeyState::new(alloc);
    put(alloc, &mut state, 40, 254, 5)?;
    written(alloc, state, (40, later), 0, 6)
}

/// What the third vnode of start 41 was told of the key, which knew nothing of it.
fn third_of(alloc: Global) -> Result<KeyState, Fail> {
    written(alloc, KeyState::new(alloc), (41, 42), 2, 8)
}

/// The files of a store of which some weren't replaced: that of the second vnode is of start 39, and has what the fold has read.
fn torn_files(alloc: Global, later: u32) -> Result<Vec<KeptFile>, Fail> {
    let mut files = Vec::new(alloc);
    files.push(file_with(alloc, 10_240, 0, first_of(alloc, later)?)?)?;
    files.push(file_with(alloc, 9_985, 0, state_of(alloc, 39, 1, 7)?)?)?;
    files.push(file_with(alloc, 10_498, 0, third_of(alloc)?)?)?;
    Ok(files)
}

/// The records of the first and the third of three files, where these have one, and the second has none.
fn first_and_third(files: &[KeptFile]) -> Option<(&Record, &Record)> {
    let [first, second, third] = files else {
        return None;
    };
    if !second.records.is_empty() {
        return None;
    }
    match (first.records.as_slice(), third.records.as_slice()) {
        ([first], [third]) => Some((first, third)),
        _ => None,
    }
}

#[test]
fn what_a_fold_has_read_is_left_out(rt: HostRuntime) -> Result<(), Fail> {
    let alloc = rt.alloc();
    let new = fold_files(alloc, torn_files(alloc, 41)?, NUMBER)?;
    let Some((first, third)) = first_and_third(&new) else {
        return Err(Fail::new("files"));
    };
    let is_first = first.state.is_same(&first_of(alloc, 41)?);
    assert!(rt;
        is_first && third.state.is_same(&third_of(alloc)?),
        "they stay"
    );
    // The same key, written by 32 starts more.
    let new = fold_files(alloc, torn_files(alloc, 73)?, NUMBER)?;
    let Some((first, third)) = first_and_third(&new) else {
        return Err(Fail::new("later files"));
    };
    let is_first = is_folded(alloc, first, &[8, 6])?;
    assert!(rt;
        is_first && is_folded(alloc, third, &[8, 6])?,
        "they are folded"
    );
    Ok(())
}
