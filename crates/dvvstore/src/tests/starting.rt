//! A start from what a folder held.

use crate::host::Host;
use crate::keeper::{Address, Door, Stay, Unbegun};
use crate::reasons::bind;
use crate::session;
use crate::session::{Left, Making};
use crate::spread::Spread;
use crate::system_folder::SystemFolder;
use crate::tests::two_tables;
use audit_faults::{Followed, WatchFault};
use dvv::{Clock, VNODES_PER_NUMBER};
use kept_file::{KeptFile, Source};
use kept_folder::{Held, Settings, SyncPolicy};
use key_state::{Content, Key, KeyState};
use log_desk::NoLedger;
use record_codec::Record;
use std::alloc::Global;
use std::io;
use std::test::Fail;
use test_support::expect;
use vnode::Seed;

/// So many keys each vnode begins with: its journal hands out some blocks while it takes them over.
const KEYS: usize = 25_000;

/// The number of the start before.
const LAST: u32 = 1_536;

/// The first identifier of the start before.
const BEFORE: u32 = LAST * VNODES_PER_NUMBER;

/// The file of a vnode, of the start before: each of its keys was deleted there.
fn file_of(alloc: Global, from: u32) -> Result<KeptFile, Fail> {
    let nothing = Clock::new(alloc);
    let mut records = Vec::with_capacity(alloc, KEYS)?;
    for number in 0..KEYS {
        let mut state = KeyState::new(alloc);
        state.put(from, &nothing, Content::Tombstone)?;
        records.push(Record {
            key: Key::new(alloc, b"b", &number.to_be_bytes())?,
            from,
            at: number as u64,
            state,
        })?;
    }
    Ok(KeptFile {
        from: Source::Vnode(from),
        records,
    })
}

/// How many entries the journals of a store have that is kept, and what is said of them.
fn kept_by(left: Result<Left, Unbegun>) -> (usize, Followed) {
    match left {
        Ok(Left::Kept(served)) => {
            let mut entries = 0usize;
            for vnode in &served.closed.vnodes {
                entries = entries.saturating_add(vnode.journal().len());
            }
            (entries, served.closed.said.said())
        }
        _ => (0, Err(WatchFault::Lost)),
    }
}

/// Three vnodes take over what files hold, side by side, and are followed meanwhile. No connection may come, so the store ends: their
/// journals have an entry for each record, and it is said that they are one run.
#[test]
fn kept_store(rt: HostRuntime) -> Result<(), Fail> {
    let alloc = rt.alloc();
    let mut files = Vec::new(alloc);
    for from in BEFORE..BEFORE + 3 {
        files.push(file_of(alloc, from)?)?;
    }
    let stay = Stay {
        folder: Some(SystemFolder::nowhere(&rt, alloc)),
        held: Held {
            last: Some(LAST),
            filed: None,
            settings: Settings {
                every: 0,
                least: 0,
                copies: 3,
                sync: SyncPolicy::Always,
            },
            hooks: Vec::new(alloc),
            files,
            logs: None,
        },
        door: Door::Closed(Address {
            rt: &rt,
            bound: bind(&rt, "127.0.0.1:0", rt.stderr())?,
            count: Some(0),
            input: rt.stdin(),
        }),
        ledger: &NoLedger,
        err: rt.stderr(),
    };
    let making = Making {
        first: BEFORE + VNODES_PER_NUMBER,
        seed: Seed::fixed(),
        spread: Spread {
            vnodes: 3,
            copies: 3,
        },
    };
    let tables = two_tables(alloc)?;
    let host = Host { alloc, rt: &rt };
    let left = session::live(&host, making, tables, stay, &mut io::sink());
    let (entries, said) = kept_by(left);
    expect(entries >= 3 * KEYS, &entries)?;
    expect(said == Ok(()), &said)?;
    Ok(())
}
