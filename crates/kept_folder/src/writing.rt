//! Replacing files: each is written beside the one that stands, forced to the device and renamed, so that one of both stands whole
//! whenever the process or the system ends.

ghost use Rattle.std.specs.Prelude.{◌≡◌, ℕ, List, [], ◌∷◌, ◌++◌, Option, IfErr, IfOk, IsOk, OnOk, MatchOption, codes, length};
ghost use Rattle.std.specs.Global.{Vec as List_};
ghost use Rattle.std.specs.Io.Buffered.{writer_contents};
ghost use Rattle.std.specs.Io.KnownBytes.{Appends, Keeps};
ghost use Rattle.std.specs.List.{AllByRecursion};
ghost use Rattle.key_state.specs.declared.content.Key.{Key as OneKey};
ghost use Rattle.peers.specs.declared.peers.Answer.{Answer as OneAnswer};
ghost use Rattle.peers.specs.Calls.{Call, Made};
ghost use Rattle.kept_file.specs.Files.{IsFileOf};
ghost use Rattle.kept_file.specs.Snapshots.{IsReadAt, records_read, snapshot_calls};
ghost use Rattle.kept_folder.specs.Faults.{IsOfStop};
ghost use Rattle.kept_folder.specs.Reads.{name_of};
ghost use Rattle.kept_folder.specs.Seals.{sealed};
ghost use Rattle.kept_folder.specs.Steps.{ArePut, AreFilesOf, Begun, IsFileOfAll, IsNamed, IsPut, Put, part_name};

use crate::files::{FileFault, Folder};
use crate::limits::WRITE_PIECE_BYTES;
use crate::names::{HOOKS, name_of};
use crate::sealing::seal;
use kept_file::{Pace, SnapshotFault, Subject, write_snapshot, write_whole};
use peers::Peers;
use std::alloc::{AllocError, Global};
use std::io::{BufWriter, Write};
use thiserror::Error;
use vnode::Vnode;

/// Why a file isn't replaced. What stood there before still stands.
#[derive(Clone, Copy, Debug, PartialEq, Eq, Error)]
pub enum WriteFault {
    /// An operation on a file wasn't done.
    #[error("{0}")]
    File(FileFault),
    /// The records weren't written whole.
    #[error("{0}")]
    Records(SnapshotFault),
}

impl From<FileFault> for WriteFault {
    ghost use Rattle.kept_folder.specs.declared.writing.WriteFault.TheVariants.{File};

    ghost from_gives = { λ fault why. why ≡ File fault };

    fn from(fault: FileFault) -> WriteFault {
        WriteFault::File(fault)
    }
}

impl From<SnapshotFault> for WriteFault {
    ghost use Rattle.kept_folder.specs.declared.writing.WriteFault.TheVariants.{Records};

    ghost from_gives = { λ fault why. why ≡ Records fault };

    fn from(fault: SnapshotFault) -> WriteFault {
        WriteFault::Records(fault)
    }
}

impl From<AllocError> for WriteFault {
    ghost use Rattle.kept_folder.specs.declared.files.FileFault.TheVariants.{NoMemory};
    ghost use Rattle.kept_folder.specs.declared.writing.WriteFault.TheVariants.{File};

    ghost from_gives = { λ _ why. why ≡ File NoMemory };

    fn from(_: AllocError) -> WriteFault {
        WriteFault::File(FileFault::NoMemory)
    }
}

/// Makes a file hold these bytes alone, on the device too.
pub(crate) fn replace<F: Folder>(
    alloc: Global,
    folder: &mut F,
    name: &str,
    bytes: &[u8],
) -> Result<(), WriteFault>
    ensures put { OnOk result (IsPut F.does folder.old name.now bytes.now folder.new) }
    ensures why { IfErr result IsOfStop }
{
    let beside = format!(in alloc; "{name}.part")?;
    let came = put_bytes(folder, bytes, &beside, name);
    emptied(folder, &beside, came)
}

/// The same, by way of a file beside it.
fn put_bytes<F: Folder>(
    folder: &mut F,
    bytes: &[u8],
    beside: &str,
    name: &str,
) -> Result<(), WriteFault>
    requires { beside.now ≡ part_name name.now }
    ensures put { OnOk result (IsPut F.does folder.old name.now bytes.now folder.new) }
    ensures why { IfErr result IsOfStop }
{
    let mut file = folder.create(beside)?;
    if file.write_all(bytes).is_err() {
        return Err(WriteFault::File(FileFault::Refused));
    }
    put(folder, file, beside, name)
}

/// What came of a file. Where it isn't put in its place, what was written of it is let go, so that it takes no room.
fn emptied<F: Folder, T>(
    folder: &mut F,
    beside: &str,
    came: Result<T, WriteFault>,
) -> Result<T, WriteFault>
    ensures same { result ≡ came }
    ensures left { OnOk result (folder.new ≡ folder.old) }
{
    if came.is_err() {
        // What can't be let go stays there, and is let go by the next try.
        let _ = folder.create(beside);
    }
    came
}

/// Replaces the file of the requests that install and bind hooks. It stays where one of them is lacking.
pub fn keep_requests<F: Folder>(
    alloc: Global,
    folder: &mut F,
    requests: Option<&[u8]>,
) -> Result<(), Unreplaced>
    ensures put { OnOk result (MatchOption requests.entry ⊥ (λ held. IsPut F.does folder.old (codes "hooks.requests") (sealed held.now) folder.new)) }
    ensures why { IfErr result (λ u. IsOfStop u.fault) }
{
    let done = match requests {
        Some(requests) => keep_hooks(alloc, folder, requests),
        None => Err(WriteFault::File(FileFault::NoMemory)),
    };
    match done {
        Ok(()) => Ok(()),
        Err(fault) => Err(Unreplaced { name: HOOKS, fault }),
    }
}

/// The same of all of them.
fn keep_hooks<F: Folder>(alloc: Global, folder: &mut F, requests: &[u8]) -> Result<(), WriteFault>
    ensures put { OnOk result (IsPut F.does folder.old (codes "hooks.requests") (sealed requests.now) folder.new) }
    ensures why { IfErr result IsOfStop }
{
    let bytes = seal(alloc, requests)?;
    replace(alloc, folder, HOOKS, &bytes)
}

/// Which file isn't replaced, and why.
#[derive(Clone, Copy, Debug, PartialEq, Eq, Error)]
#[error("{name}: {fault}")]
pub struct Unreplaced {
    /// The file's name.
    pub name: &'static str,
    /// Why it isn't replaced.
    pub fault: WriteFault,
}

/// Replaces all files by what vnodes hold that nobody calls any more, and by the requests that install and bind their hooks, of which one
/// may be lacking. Answers how many keys they have. Where a file isn't replaced the others are all the same.
pub fn keep_all<F: Folder>(
    alloc: Global,
    folder: &mut F,
    vnodes: &[Vnode],
    requests: Option<&[u8]>,
) -> Result<usize, Unreplaced>
    ensures put { IfOk result (λ count. (files : List Put) × AreFilesOf 0 vnodes.now files
        × MatchOption requests.entry ⊥ (λ held. ArePut F.does folder.old (files ++ record { name = codes "hooks.requests"; bytes = sealed held.now } ∷ []) folder.new)) }

    // Nothing else holds it up: no call on a vnode, and no entry of a journal.
    ensures why { IfErr result (λ u. IsOfStop u.fault) }
{
    let kept = keep_vnodes(alloc, folder, vnodes);
    match keep_requests(alloc, folder, requests) {
        Ok(()) => kept,
        Err(unreplaced) => Err(unreplaced),
    }
}

/// The same of the vnodes alone.
fn keep_vnodes<F: Folder>(
    alloc: Global,
    folder: &mut F,
    vnodes: &[Vnode],
) -> Result<usize, Unreplaced>
    ensures put { IfOk result (λ count. (files : List Put) × AreFilesOf 0 vnodes.now files × ArePut F.does folder.old files folder.new) }
    ensures why { IfErr result (λ u. IsOfStop u.fault) }
{
    let mut all = Ok(0usize);
    for (index, vnode) in vnodes.iter().enumerate() {
        let came = keep_whole(alloc, folder, vnode, index);
        all = with_one_more(all, came, index);
    }
    all
}

/// What came of files and of one more, of the vnode with an index: how many keys they have together, or why one of them isn't replaced.
fn with_one_more(
    all: Result<usize, Unreplaced>,
    came: Result<usize, WriteFault>,
    index: usize,
) -> Result<usize, Unreplaced>
    ensures both { IsOk result → IsOk all × IsOk came }
    ensures why { IfErr all (λ u. IsOfStop u.fault) → IfErr came IsOfStop → IfErr result (λ u. IsOfStop u.fault) }
{
    match came {
        Ok(count) => Ok(all?.saturating_add(count)),
        Err(fault) => {
            let name = name_of(index);
            Err(Unreplaced { name, fault })
        }
    }
}

/// Replaces the file of the records of the vnode with an index, which nobody calls any more. Answers how many keys it has.
fn keep_whole<F: Folder>(
    alloc: Global,
    folder: &mut F,
    vnode: &Vnode,
    index: usize,
) -> Result<usize, WriteFault>
    ensures put { IfOk result (λ count. (bytes : List ℕ) × IsFileOfAll vnode.now count bytes × IsPut F.does folder.old (name_of index) bytes folder.new) }
    ensures why { IfErr result IsOfStop }
{
    let name = name_of(index);
    let beside = format!(in alloc; "{name}.part")?;
    let came = put_whole(alloc, folder, vnode, &beside, name);
    emptied(folder, &beside, came)
}

/// The same, by way of a file beside it.
fn put_whole<F: Folder>(
    alloc: Global,
    folder: &mut F,
    vnode: &Vnode,
    beside: &str,
    name: &str,
) -> Result<usize, WriteFault>
    requires { beside.now ≡ part_name name.now }
    ensures put { IfOk result (λ count. (bytes : List ℕ) × IsFileOfAll vnode.now count bytes × IsPut F.does folder.old name.now bytes folder.new) }
    ensures why { IfErr result IsOfStop }
{
    let mut out = begin(alloc, folder, beside)?;
    let count = write_whole(alloc, vnode, &mut out)?;
    put(folder, whole(out)?, beside, name)?;
    Ok(count)
}

/// Replaces the file of the records of a vnode that serves. Answers how many keys it had. Whatever comes of it, nothing but keys and reads
/// is asked of the vnode, and nothing of others.
pub fn keep_served<F: Folder, P: Peers, G: Pace>(
    alloc: Global,
    folder: &mut F,
    peers: &mut P,
    subject: Subject,
    pace: &mut G,
) -> Result<usize, Unreplaced>
    ensures asked { (calls : List Call) × AllByRecursion (IsReadAt subject.index) calls × Made P.happens peers.old calls peers.new }
    ensures put { IfOk result (λ count. (keys : List_ OneKey) × (answers : List OneAnswer) × (bytes : List ℕ) × (length answers ≡ length keys.items) × (count ≡ length keys.items)
        × Made P.happens peers.old (snapshot_calls subject.index keys answers) peers.new × IsFileOf subject.id (records_read keys.items answers) bytes
        × IsPut F.does folder.old (name_of subject.index) bytes folder.new) }
{
    let name = name_of(subject.index);
    let Ok(beside) = format!(in alloc; "{name}.part") else {
        let fault = WriteFault::File(FileFault::NoMemory);
        return Err(Unreplaced { name, fault });
    };
    let came = put_read(alloc, folder, peers, subject, pace, &beside, name);
    match emptied(folder, &beside, came) {
        Ok(count) => Ok(count),
        Err(fault) => Err(Unreplaced { name, fault }),
    }
}

/// The same, by way of a file beside it.
fn put_read<F: Folder, P: Peers, G: Pace>(
    alloc: Global,
    folder: &mut F,
    peers: &mut P,
    subject: Subject,
    pace: &mut G,
    beside: &str,
    name: &str,
) -> Result<usize, WriteFault>
    requires { beside.now ≡ part_name name.now }
    ensures put { IfOk result (λ count. (keys : List_ OneKey) × (answers : List OneAnswer) × (bytes : List ℕ) × (length answers ≡ length keys.items) × (count ≡ length keys.items)
        × Made P.happens peers.old (snapshot_calls subject.index keys answers) peers.new × IsFileOf subject.id (records_read keys.items answers) bytes
        × IsPut F.does folder.old name.now bytes folder.new) }
    ensures asked { (calls : List Call) × AllByRecursion (IsReadAt subject.index) calls × Made P.happens peers.old calls peers.new }
{
    let mut out = begin(alloc, folder, beside)?;
    let count = write_snapshot(alloc, peers, subject, pace, &mut out)?;
    put(folder, whole(out)?, beside, name)?;
    Ok(count)
}

/// Begins a file, which is written in blocks.
fn begin<F: Folder>(
    alloc: Global,
    folder: &mut F,
    name: &str,
) -> Result<BufWriter<F::File>, WriteFault>
    ensures begun { IfOk result (λ out. (first : Option (List ℕ)) × F.does folder.old (Begun name.now first) folder.new × Keeps first (writer_contents F.File.contents out)) }
    ensures why { IfErr result IsOfStop }
{
    let file = folder.create(name)?;
    match BufWriter::with_capacity(alloc, WRITE_PIECE_BYTES, file) {
        Ok(out) => Ok(out),
        Err(_) => Err(WriteFault::File(FileFault::NoMemory)),
    }
}

/// A file, once all of its blocks are written.
fn whole<W: Write + Drop>(out: BufWriter<W>) -> Result<W, WriteFault>
    ensures kept { IfOk result (λ file. Keeps (writer_contents W.contents out) (W.contents file)) }
    ensures why { IfErr result IsOfStop }
{
    match out.into_inner() {
        Ok(file) => Ok(file),
        Err(_) => Err(WriteFault::Records(SnapshotFault::Unwritten)),
    }
}

/// Puts a file that is written whole in its place.
fn put<F: Folder>(folder: &mut F, file: F::File, beside: &str, name: &str) -> Result<(), WriteFault>
    ensures named { OnOk result (IsNamed F.does folder.old (F.File.contents file) beside.now name.now folder.new) }
    ensures why { IfErr result IsOfStop }
{
    folder.force(file)?;
    folder.rename(beside, name)?;
    folder.force_names()?;
    Ok(())
}
