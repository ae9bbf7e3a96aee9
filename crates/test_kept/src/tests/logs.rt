//! Logs that lie in a folder, whole and torn, and what a start has of them.

use crate::tests::memory::{MANY, MINUTE, Memory};
use kept_file::{KeptFile, Source, Unkept, placed};
use kept_folder::{Folder, LogFault, Logs, OpenFault, keep_all, open};
use key_state::{Content, Key, KeyState};
use record_codec::{Unspelled, record_bytes};
use ring::Placement;
use std::alloc::Global;
use std::test::Fail;
use std::thread::Threads;
use test_support::expect;
use vnode::Vnode;

/// The identifier under which the writes of these tests were made: vnode 1 of start 300.
const WRITER: u32 = 300 * 256 + 1;

/// The record of a key's first write.
fn record_of(alloc: Global, name: &[u8]) -> Result<Vec<u8>, Fail> {
    let mut state = KeyState::new(alloc);
    let nothing = KeyState::new(alloc);
    state.put(WRITER, nothing.clock(), Content::Tombstone)?;
    spelled(alloc, b"b", name, 7, &state)
}

/// A sign: a record with the empty state.
fn sign_of(alloc: Global, bucket: &[u8], name: &[u8], at: u64) -> Result<Vec<u8>, Fail> {
    spelled(alloc, bucket, name, at, &KeyState::new(alloc))
}

/// The bytes of a record.
fn spelled(
    alloc: Global,
    bucket: &[u8],
    name: &[u8],
    at: u64,
    state: &KeyState,
) -> Result<Vec<u8>, Fail> {
    match record_bytes(alloc, &Key::new(alloc, bucket, name)?, WRITER, at, state) {
        Ok(bytes) => Ok(bytes),
        Err(Unspelled::PastLimit) | Err(Unspelled::NoMemory) => {
            Err(Fail::new(format_args!("no record")))
        }
    }
}

/// The records of these keys, one after another.
fn log_of(alloc: Global, names: &[&[u8]]) -> Result<Vec<u8>, Fail> {
    let mut bytes = Vec::new(alloc);
    for name in names {
        bytes.extend_from_slice(&record_of(alloc, *name)?)?;
    }
    Ok(bytes)
}

/// The same of a log that was closed in order.
fn ended_log_of(alloc: Global, names: &[&[u8]]) -> Result<Vec<u8>, Fail> {
    let mut bytes = log_of(alloc, names)?;
    bytes.extend_from_slice(&sign_of(alloc, b"end", b"end", names.len() as u64)?)?;
    Ok(bytes)
}

/// A folder that a start has opened, with these files beside.
fn folder_with<R: Threads + Sync>(
    rt: &R,
    alloc: Global,
    files: &[(&str, &[u8])],
) -> Result<Memory, Fail> {
    let mut folder = Memory::new(alloc, MANY);
    open(alloc, rt, &mut folder, MINUTE)?;
    for (name, bytes) in files {
        folder.lay(*name, *bytes)?;
    }
    Ok(folder)
}

/// Whether a file is the log with a number, with the records of these keys.
fn is_log(file: &KeptFile, number: u64, names: &[&[u8]]) -> bool {
    file.from == Source::Log(number)
        && file.records.len() == names.len()
        && file.records.iter().zip(names).all(|(record, name)| record.key.key() == *name
            && record.state.siblings().len() == 1)
}

/// Whether the first of some files is the log with a number, with the records of these keys.
fn begin_with_log(files: &[KeptFile], number: u64, names: &[&[u8]]) -> bool {
    match files.first() {
        Some(file) => is_log(file, number, names),
        None => false,
    }
}

/// However many bytes are left of a log of three records, those that are left whole are found, and the bytes behind them are told.
#[test]
fn torn_at_each_byte(rt: HostRuntime) -> Result<(), Fail> {
    let alloc = rt.alloc();
    let names: [&[u8]; 3] = [b"one", b"two", b"three"];
    let bytes = log_of(alloc, &names)?;
    let first = record_of(alloc, b"one")?.len();
    let second = first + record_of(alloc, b"two")?.len();
    for len in 0..bytes.len() + 1 {
        let (count, taken) = if len < first {
            (0, 0)
        } else if len < second {
            (1, first)
        } else if len < bytes.len() {
            (2, second)
        } else {
            (3, len)
        };
        let mut folder = folder_with(&rt, alloc, &[("log-4", &bytes[..len])])?;
        let held = open(alloc, &rt, &mut folder, MINUTE)?.held;
        let logs = Some(Logs {
            first: 4,
            last: 4,
            torn: len - taken,
        });
        expect(held.logs == logs && held.files.len() == 1, &len)?;
        expect(begin_with_log(&held.files, 4, &names[..count]), &len)?;
    }
    Ok(())
}

/// What may stand behind the records of a log, and isn't taken.
const BEHIND: [&[u8]; 4] = [
    b"\0",
    b"\0\0\0\0\0\0\0\0\0\0\0\0\0\0\0\0",
    b"garbage",
    b"DVR1\0\0\0\x20",
];

#[test]
fn what_is_no_record_is_passed_over(rt: HostRuntime) -> Result<(), Fail> {
    let alloc = rt.alloc();
    for behind in BEHIND {
        let mut bytes = log_of(alloc, &[b"one", b"two"])?;
        bytes.extend_from_slice(behind)?;
        bytes.extend_from_slice(&record_of(alloc, b"three")?)?;
        let torn = behind.len() + record_of(alloc, b"three")?.len();
        let mut folder = folder_with(&rt, alloc, &[("log-0", &bytes)])?;
        let held = open(alloc, &rt, &mut folder, MINUTE)?.held;
        let is_told = matches!(&held.logs, Some(logs) if logs.torn == torn);
        expect(
            is_told && begin_with_log(&held.files, 0, &[b"one", b"two"]),
            &behind,
        )?;
    }
    Ok(())
}

/// The bytes of `incarnation`.
fn number_in(alloc: Global, folder: &Memory) -> Result<Vec<u8>, Fail> {
    match folder.read(alloc, "incarnation") {
        Ok(Some(bytes)) => Ok(bytes),
        _ => Err(Fail::new(format_args!("no number"))),
    }
}

/// Why a start refuses a folder with these files.
fn refused<R: Threads + Sync>(
    rt: &R,
    alloc: Global,
    files: &[(&str, &[u8])],
) -> Result<Option<OpenFault>, Fail> {
    let mut folder = folder_with(rt, alloc, files)?;
    let before = number_in(alloc, &folder)?;
    let fault = open(alloc, rt, &mut folder, MINUTE).err();
    let is_same = number_in(alloc, &folder)? == before;
    expect(fault.is_none() || is_same, &"nothing is written")?;
    Ok(fault)
}

/// A log but the newest that doesn't end in its sign is refused by its number, and so is one that is missing.
#[test]
fn older_logs_are_whole(rt: HostRuntime) -> Result<(), Fail> {
    let alloc = rt.alloc();
    let ended = ended_log_of(alloc, &[b"one", b"two"])?;
    let open_ended = log_of(alloc, &[b"one", b"two"])?;
    let newest = log_of(alloc, &[b"three"])?;
    let fault_of = |fault: LogFault| Some(OpenFault::Log { number: 9, fault });
    expect(
        refused(&rt, alloc, &[("log-9", &ended), ("log-10", &newest)])? == None,
        &"ended",
    )?;
    expect(
        refused(&rt, alloc, &[("log-9", &open_ended), ("log-10", &newest)])?
            == fault_of(LogFault::Damaged(Unkept::NoEnd)),
        &"no end",
    )?;
    expect(
        refused(&rt, alloc, &[("log-9", b""), ("log-10", &newest)])?
            == fault_of(LogFault::Damaged(Unkept::NoEnd)),
        &"empty",
    )?;
    expect(
        refused(&rt, alloc, &[("log-8", &ended), ("log-10", &newest)])?
            == fault_of(LogFault::Missing),
        &"a gap",
    )
}

/// Names that are no canonical decimals are no logs.
#[test]
fn other_names_are_no_logs(rt: HostRuntime) -> Result<(), Fail> {
    let alloc = rt.alloc();
    let bytes = log_of(alloc, &[b"one"])?;
    for name in [
        "log-",
        "log-07",
        "log-+7",
        "log-7.part",
        "log-18446744073709551616",
        "xlog-7",
        "log 7",
    ] {
        let mut folder = folder_with(&rt, alloc, &[(name, &bytes)])?;
        let held = open(alloc, &rt, &mut folder, MINUTE)?.held;
        expect(held.logs == None && held.files.is_empty(), &name)?;
    }
    let mut folder = folder_with(&rt, alloc, &[("log-18446744073709551615", &bytes)])?;
    let held = open(alloc, &rt, &mut folder, MINUTE)?.held;
    expect(
        begin_with_log(&held.files, u64::MAX, &[b"one"]),
        &"the greatest",
    )
}

/// All records of logs stand at each vnode of their key, and signs at none. The number of a start is above that of whoever wrote them.
#[test]
fn records_of_logs_are_placed(rt: HostRuntime) -> Result<(), Fail> {
    let alloc = rt.alloc();
    let older = ended_log_of(alloc, &[b"one", b"two"])?;
    let mut newer = sign_of(alloc, b"log", b"head", 1)?;
    newer.extend_from_slice(&record_of(alloc, b"three")?)?;
    newer.extend_from_slice(&sign_of(alloc, b"log", b"forced", 2)?)?;
    newer.extend_from_slice(&sign_of(alloc, b"end", b"end", 3)?)?;
    let files: [(&str, &[u8]); 3] = [("log-1", &newer), ("log-0", &older), ("log-2", b"")];
    let mut folder = folder_with(&rt, alloc, &files)?;
    let opened = open(alloc, &rt, &mut folder, MINUTE)?;
    expect(opened.number == 301, &opened.number)?;
    let logs = Some(Logs {
        first: 0,
        last: 2,
        torn: 0,
    });
    expect(
        opened.held.logs == logs && opened.held.vnodes() == None,
        &"three logs",
    )?;
    let names: [&[u8]; 3] = [b"one", b"two", b"three"];
    let placed = placed(alloc, &Placement::by_digest(3, 3), &opened.held.files)?;
    for file in &placed {
        let are_there = file
            .records
            .iter()
            .zip(names)
            .all(|(record, name)| record.key.key() == name);
        expect(file.records.len() == 3 && are_there, &file.from)?;
    }
    Ok(())
}

/// The identifier of the first vnode of start 300.
const FIRST: u32 = 300 * 256;

/// Vnodes of one start, each with a key of its own.
fn vnodes_of(alloc: Global, count: u8) -> Result<Vec<Vnode>, Fail> {
    let mut vnodes = Vec::new(alloc);
    for index in 0..count {
        let id = FIRST.saturating_add(u32::from(index));
        let mut state = KeyState::new(alloc);
        let nothing = KeyState::new(alloc);
        state.put(id, nothing.clock(), Content::Tombstone)?;
        let mut vnode = Vnode::new(alloc, id);
        let _ = vnode.merge_lent(1, &Key::new(alloc, b"b", &[index])?, id, 0, &state);
        vnodes.push(vnode)?;
    }
    Ok(vnodes)
}

/// One to sixteen vnodes are kept, each in its own file, and counted. One whose file is lacking has nothing.
#[test]
fn files_of_vnodes(rt: HostRuntime) -> Result<(), Fail> {
    let alloc = rt.alloc();
    for count in 1..17u8 {
        let mut folder = folder_with(&rt, alloc, &[])?;
        keep_all(alloc, &mut folder, &vnodes_of(alloc, count)?, Some(b""))?;
        let held = open(alloc, &rt, &mut folder, MINUTE)?.held;
        expect(held.vnodes() == Some(u32::from(count)), &count)?;
        expect(held.files.len() == usize::from(count), &count)?;
        for (index, file) in (0..u32::from(count)).zip(held.files.iter()) {
            let own = Source::Vnode(FIRST.saturating_add(index));
            expect(file.from == own && file.records.len() == 1, &(count, index))?;
        }
    }
    let mut all = folder_with(&rt, alloc, &[])?;
    keep_all(alloc, &mut all, &vnodes_of(alloc, 12)?, Some(b""))?;
    let (Ok(Some(second)), Ok(Some(last))) = (
        all.read(alloc, "vnode-1.records"),
        all.read(alloc, "vnode-11.records"),
    ) else {
        return Err(Fail::new(format_args!("no files")));
    };
    let mut folder = folder_with(
        &rt,
        alloc,
        &[("vnode-1.records", &second), ("vnode-11.records", &last)],
    )?;
    let held = open(alloc, &rt, &mut folder, MINUTE)?.held;
    expect(held.vnodes() == Some(12) && held.files.len() == 2, &"a gap")?;
    let mut folder = folder_with(&rt, alloc, &[("vnode-1.records", &last)])?;
    let fault = open(alloc, &rt, &mut folder, MINUTE).err();
    let misplaced = OpenFault::Misplaced {
        name: "vnode-1.records",
    };
    expect(fault == Some(misplaced), &"another vnode's")
}
