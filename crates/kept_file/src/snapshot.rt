//! The records of a vnode that serves.

ghost use Rattle.std.specs.Prelude.{◌≡◌, ℕ, ◌^◌, ◌<◌, List, ◌∷◌, [], Ok, length, OnOk, IfErr, IfOk};
ghost use Rattle.std.specs.Global.{Vec as List_};
ghost use Rattle.std.specs.Io.KnownBytes.{Appends};
ghost use Rattle.std.specs.List.{AllByRecursion};
ghost use Rattle.key_state.specs.declared.content.Key.{Key as OneKey};
ghost use Rattle.peers.specs.declared.peers.Answer.{Answer as OneAnswer};
ghost use Rattle.peers.specs.Calls.{Call, Made, StateOf};
ghost use Rattle.record_codec.specs.Lists.{AreSpelledBy, record_of};
ghost use Rattle.kept_file.specs.Files.{IsFileOf, end_of};
ghost use Rattle.kept_file.specs.Snapshots.{IsOfWriting, IsReadAt, record_read, records_read, reads_at, snapshot_calls};

use crate::file::END;
use key_state::{Key, KeyState};
use peers::{PeerFault, Peers};
use record_codec::{Unspelled, record_bytes};
use std::alloc::{AllocError, Global};
use std::io::Write;
use thiserror::Error;

/// Why a vnode's records are not written whole.
#[derive(Clone, Copy, Debug, PartialEq, Eq, Error)]
pub enum SnapshotFault {
    /// A call on the vnode was lost or refused.
    #[error("{0}")]
    Unread(PeerFault),
    /// A key, a content or a body is past its limit.
    #[error("past a limit")]
    PastLimit,
    /// Memory ran out.
    #[error("E1")]
    NoMemory,
    /// The bytes can't be written.
    #[error("unwritten")]
    Unwritten,
    /// It was given up between two keys.
    #[error("given up")]
    GivenUp,
}

/// Who is asked before each key of a snapshot whether it goes on.
pub trait Pace {
    /// Whether it goes on. It may be made to wait first. It is told at which place of the vnode's journal the key before was read: where
    /// that isn't the place after the one that it was told before, somebody else called the vnode meanwhile.
    fn goes_on(&mut self, last: Option<u64>) -> bool;
}

impl From<Unspelled> for SnapshotFault {
    ghost from_gives = { λ _ fault. IsOfWriting fault };

    fn from(why: Unspelled) -> SnapshotFault {
        match why {
            Unspelled::PastLimit => SnapshotFault::PastLimit,
            Unspelled::NoMemory => SnapshotFault::NoMemory,
        }
    }
}

impl From<AllocError> for SnapshotFault {
    ghost from_gives = { λ _ fault. IsOfWriting fault };

    fn from(_: AllocError) -> SnapshotFault {
        SnapshotFault::NoMemory
    }
}

/// Which vnode a snapshot is of.
#[derive(Clone, Copy, Debug, PartialEq, Eq)]
pub struct Subject {
    /// Its index.
    pub index: usize,
    /// Its identifier.
    pub id: u32,
}

/// Writes the file of a vnode while it serves: it names its keys, each is read, and each answer's record is written before the next key is
/// read, as long as the pace goes on. Answers how many keys there were. At an error what was written is no whole file. Whatever comes of
/// it, nothing but keys and reads is asked of the vnode, and nothing of others.
pub fn write_snapshot<P: Peers, W: Write, G: Pace>(
    alloc: Global,
    peers: &mut P,
    subject: Subject,
    pace: &mut G,
    out: &mut W,
) -> Result<usize, SnapshotFault>
    ensures asked { (calls : List Call) × AllByRecursion (IsReadAt subject.index) calls × Made P.happens peers.old calls peers.new }
    ensures calls { IfOk result (λ count. (keys : List_ OneKey) × (answers : List OneAnswer) × (bytes : List ℕ) × (length answers ≡ length keys.items) × (count ≡ length keys.items)
        × Made P.happens peers.old (snapshot_calls subject.index keys answers) peers.new
        × IsFileOf subject.id (records_read keys.items answers) bytes × Appends (W.contents out.old) (W.contents out.new) bytes) }
{
    let Subject { index, id } = subject;
    let keys = match peers.keys_of(index) {
        Ok(keys) => keys,
        Err(fault) => return Err(SnapshotFault::Unread(fault)),
    };
    write_keys(alloc, peers, index, &keys, pace, out)?;
    write_end(alloc, id, keys.len(), out)?;
    Ok(keys.len())
}

/// Writes the record of each key, as long as the pace goes on.
fn write_keys<P: Peers, W: Write, G: Pace>(
    alloc: Global,
    peers: &mut P,
    index: usize,
    keys: &[Key],
    pace: &mut G,
    out: &mut W,
) -> Result<(), SnapshotFault>
    ensures asked { (calls : List Call) × AllByRecursion (IsReadAt index) calls × Made P.happens peers.old calls peers.new }
    ensures read { OnOk result ((answers : List OneAnswer) × (bytes : List ℕ) × (length answers ≡ length keys.now) × Made P.happens peers.old (reads_at index keys.now answers) peers.new
        × AreSpelledBy (records_read keys.now answers) bytes × Appends (W.contents out.old) (W.contents out.new) bytes) }
{
    let mut last = None;
    for key in keys {
        if !pace.goes_on(last) {
            return Err(SnapshotFault::GivenUp);
        }
        last = Some(write_key(alloc, peers, index, key, out)?);
    }
    Ok(())
}

/// Reads a key, and writes the record. Answers at which place of the vnode's journal it was read.
fn write_key<P: Peers, W: Write>(
    alloc: Global,
    peers: &mut P,
    index: usize,
    key: &Key,
    out: &mut W,
) -> Result<u64, SnapshotFault>
    ensures asked { (calls : List Call) × AllByRecursion (IsReadAt index) calls × Made P.happens peers.old calls peers.new }
    ensures read { OnOk result ((answer : OneAnswer) × (bytes : List ℕ) × P.happens peers.old (StateOf index key.now (Ok answer)) peers.new
        × AreSpelledBy (record_read key.now answer ∷ []) bytes × Appends (W.contents out.old) (W.contents out.new) bytes) }
{
    let answer = match peers.state_of(index, key) {
        Ok(answer) => answer,
        Err(fault) => return Err(SnapshotFault::Unread(fault)),
    };
    write_record(alloc, key, answer.from, answer.at, &answer.state, out)?;
    Ok(answer.at)
}

/// Writes the record that ends a file of so many.
pub(crate) fn write_end<W: Write>(
    alloc: Global,
    id: u32,
    count: usize,
    out: &mut W,
) -> Result<(), SnapshotFault>
    ensures written { OnOk result ((bytes : List ℕ) × AreSpelledBy (end_of id count ∷ []) bytes × Appends (W.contents out.old) (W.contents out.new) bytes) }
    ensures why { IfErr result IsOfWriting }
{
    let key = Key::new(alloc, END, END)?;
    let nothing = KeyState::new(alloc);
    write_record(alloc, &key, id, count as u64, &nothing, out)
}

/// Writes the record of a key's state.
pub(crate) fn write_record<W: Write>(
    alloc: Global,
    key: &Key,
    from: u32,
    at: u64,
    state: &KeyState,
    out: &mut W,
) -> Result<(), SnapshotFault>
    ensures written { OnOk result ((bytes : List ℕ) × AreSpelledBy (record_of key.now from at state.now ∷ []) bytes × Appends (W.contents out.old) (W.contents out.new) bytes) }
    ensures why { IfErr result IsOfWriting }
{
    let bytes = record_bytes(alloc, key, from, at, state)?;
    match out.write_all(&bytes) {
        Ok(()) => Ok(()),
        Err(_) => Err(SnapshotFault::Unwritten),
    }
}
