//! What a start reads of a folder, and what it writes there of itself.

ghost use Rattle.std.specs.Prelude.{◌≡◌, ◌↔◌, ◌⊎◌, ◌<◌, ◌≤◌, ◌/◌, ◌+◌, ◌++◌, [], ℕ, List, Option, None, Some, IfErr, IfOk, IfNone, IfSome, IsSome, IsTrue, OnOk, Contains, codes, max, option_to_list};
ghost use Rattle.std.specs.List.{AllByRecursion};
ghost use Rattle.kept_file.specs.Numbers.{IsNamed, all_ids};
ghost use Rattle.kept_folder.specs.Numbers.{EarlierText, IsFiled, IsLastIn, filed_text, number_text, start_text};
ghost use Rattle.kept_folder.specs.Reads.{AreAllFiles, AreThere, IsFileIn, IsFoundAt, IsHeldIn, IsReadAt, IsUnsealed, IsVnodeIn, bytes_in, most_vnodes, name_of, vnodes_in as vnodes_from, vnodes_of};
ghost use Rattle.kept_folder.specs.Seals.{sealed};
ghost use Rattle.kept_folder.specs.Settings.{IsSetBy};
ghost use Rattle.kept_folder.specs.Starts.{HasStart, IsMissing};
ghost use Rattle.kept_folder.specs.Steps.{IsPut};

use crate::files::{FileFault, Folder};
use crate::limits::MAX_VNODES;
use crate::lines::{line_end, line_of, number_in};
use crate::logs::{LogFault, Logs, add_logs};
use crate::names::{HOOKS, INCARNATION, NUMBER_WORD, SETTINGS, VNODES_WORD, name_of};
use crate::sealing::{seal, unseal};
use crate::settings::{Settings, SyncPolicy, USUAL, settings_in};
use crate::writing::{Unreplaced, WriteFault, replace};
use dvv::VNODES_PER_NUMBER;
use kept_file::{KeptFile, MAX_NUMBER, Source, Spent, Unkept, next_number, read_file};
use record_codec::Record;
use std::alloc::{AllocError, Global};
use std::thread;
use std::thread::Threads;
use thiserror::Error;

/// What a start has.
#[derive(Drop)]
pub struct Opened {
    /// The number of this start, at most 16,777,215. It stands in the folder: no later start that finds it there takes it.
    pub number: u32,
    /// What the folder held.
    pub held: Held,
}

/// What a folder holds.
#[derive(Drop)]
pub struct Held {
    /// The number of the last start.
    pub last: Option<u32>,
    /// So many vnodes have a file, from that with index 0 on, as `incarnation` tells it. A folder of which no snapshot was whole since that is
    /// told tells nothing.
    pub filed: Option<u32>,
    /// What is set.
    pub settings: Settings,
    /// The requests that install and bind hooks.
    pub hooks: Vec<u8>,
    /// The records of each vnode that has a file, in the order of the vnodes' indexes, and behind them those of each log, in the order of the
    /// logs' numbers.
    pub files: Vec<KeptFile>,
    /// Which logs there are, if there are any.
    pub logs: Option<Logs>,
}

impl Held {
    /// What a folder holds that isn't there: nothing, and no snapshot is made but where it is asked for.
    pub fn nothing(alloc: Global) -> Held
        ensures { result.files.items ≡ [] }
    {
        Held {
            last: None,
            filed: None,
            settings: Settings {
                every: 0,
                least: 0,
                copies: 1,
                sync: SyncPolicy::Always,
            },
            hooks: Vec::new(alloc),
            files: Vec::new(alloc),
            logs: None,
        }
    }

    /// How many vnodes the files are of: one more than the greatest index. None where no vnode has a file.
    pub fn vnodes(&self) -> Option<u32>
        ensures some { IfSome result (λ count. (0 < count) × (count ≡ vnodes_of self.now.files.items)) }
        ensures none { IfNone result (vnodes_of self.now.files.items ≡ 0) }
    {
        let count = count_vnodes(&self.files);
        if count == 0 { None } else { Some(count) }
    }
}

/// How many vnodes files are of; 0 where no vnode has one.
fn count_vnodes(files: &[KeptFile]) -> u32
    ensures { result ≡ vnodes_of files.now }
{
    let mut count = 0u32;
    for file in files {
        count = count.max(count_in(file.from));
    }
    count
}

/// The same of one file.
fn count_in(from: Source) -> u32
    ensures { result ≡ vnodes_from from }
{
    match from {
        Source::Vnode(id) => id % VNODES_PER_NUMBER + 1,
        Source::Log(_) => 0,
    }
}

/// Why a folder isn't opened.
#[derive(Clone, Copy, Debug, PartialEq, Eq, Error)]
pub enum OpenFault {
    /// A file can't be read.
    #[error("{name}: {fault}")]
    Unread {
        name: &'static str,
        fault: FileFault,
    },
    /// A file of records is damaged.
    #[error("{name}: {fault}")]
    Damaged {
        name: &'static str,
        fault: Unkept,
    },
    /// A file of records is another vnode's.
    #[error("{name}: another vnode's")]
    Misplaced {
        name: &'static str,
    },
    /// A file of records isn't there, and `incarnation` tells that its vnode has one.
    #[error("{name}: missing")]
    Missing {
        name: &'static str,
    },
    /// What a file holds isn't what its last line tells of.
    #[error("{name}: damaged")]
    Unsealed {
        name: &'static str,
    },
    /// A log can't be read.
    #[error("log-{number}: {fault}")]
    Log {
        number: u64,
        fault: LogFault,
    },
    /// The names of files can't be read.
    #[error("folder: {0}")]
    Unlisted(FileFault),
    /// What is set can't be read.
    #[error("{SETTINGS}: not lines `snapshot SECONDS`, `number N`, `copies 1` to `copies 3` and `sync always`, `everysec` or `never`")]
    Unset,
    /// There are records, and no number of the start that they are of.
    #[error("{INCARNATION}: missing")]
    Numberless,
    /// No number is left.
    #[error("{0}")]
    Spent(Spent),
    /// The number can't be written.
    #[error("{INCARNATION}: {0}")]
    Unwritten(WriteFault),
    /// Memory ran out.
    #[error("E1")]
    NoMemory,
}

impl From<AllocError> for OpenFault {
    fn from(_: AllocError) -> OpenFault {
        OpenFault::NoMemory
    }
}

/// Reads all files of a folder, those of vnodes and logs too, and takes a number: the least above that of the last start and above all that the files name, and no less
/// than what is set or than `minute`, the minutes since the first of 2026. It is written and forced to the device before anything else is
/// done. An empty folder is a new store. Nothing is changed where a file is at fault, or one is missing that a vnode had when a snapshot was
/// whole. The files of records are read and taken apart by
/// several threads where there are some; of those at fault the first is told.
pub fn open<F: Folder + Sync, R: Threads + Sync>(
    alloc: Global,
    rt: &R,
    folder: &mut F,
    minute: u32,
) -> Result<Opened, OpenFault>
    ensures last { IfOk result (λ opened. (found : Option (List ℕ)) × F.finds folder.old (codes "incarnation") found × IsLastIn found opened.held.last opened.held.filed) }
    ensures there { IfOk result (λ opened. AreThere (F.finds folder.old) opened.held.filed) }
    ensures next { IfOk result (λ opened. (last : ℕ) → opened.held.last ≡ Some last → last < opened.number) }
    ensures minute { IfOk result (λ opened. minute ≤ opened.number) }
    ensures set { IfOk result (λ opened. opened.held.settings.least ≤ opened.number) }
    ensures above { IfOk result (λ opened. (id : ℕ) → Contains (all_ids opened.held.files.items) id → id / 256 < opened.number) }
    ensures least { IfOk result (λ opened. (opened.number ≡ max minute opened.held.settings.least)
        ⊎ ((number : ℕ) × IsNamed opened.held.last opened.held.files.items number × (opened.number ≡ number + 1))) }
    ensures few { IfOk result (λ opened. opened.number ≤ 16777215) }
    ensures settings { IfOk result (λ opened. (found : Option (List ℕ)) × F.finds folder.old (codes "settings") found × IsSetBy found opened.held.settings) }
    ensures copies { IfOk result (λ opened. (0 < opened.held.settings.copies) × (opened.held.settings.copies ≤ 3)) }
    ensures hooks { IfOk result (λ opened. IsHeldIn (F.finds folder.old) (codes "hooks.requests") opened.held.hooks.items) }
    ensures read { IfOk result (λ opened. (index : ℕ) → index < most_vnodes → IsReadAt (F.finds folder.old) opened.held.files.items index) }
    ensures files { IfOk result (λ opened. AreAllFiles (F.finds folder.old) opened.held.logs opened.held.files.items) }
    ensures vnodes { IfOk result (λ opened. vnodes_of opened.held.files.items ≤ most_vnodes) }
    ensures put { IfOk result (λ opened. IsPut F.does folder.old (codes "incarnation") (sealed (start_text opened.number opened.held.filed)) folder.new) }
{
    let held = read_all(alloc, rt, folder)?;
    let least = minute.max(held.settings.least);
    let number = match next_number(held.last, least, &held.files) {
        Ok(number) => number,
        Err(spent) => return Err(OpenFault::Spent(spent)),
    };
    match take(alloc, folder, number, held.filed) {
        Ok(()) => Ok(Opened { number, held }),
        Err(fault) => Err(OpenFault::Unwritten(fault)),
    }
}

/// Writes the number of a start, and how many vnodes have files, where that is known.
fn take<F: Folder>(
    alloc: Global,
    folder: &mut F,
    number: u32,
    filed: Option<u32>,
) -> Result<(), WriteFault>
    ensures { OnOk result (IsPut F.does folder.old (codes "incarnation") (sealed (start_text number filed)) folder.new) }
{
    let bytes = start_bytes(alloc, number, filed)?;
    replace(alloc, folder, INCARNATION, &bytes)
}

/// The bytes of the file that has them.
fn start_bytes(alloc: Global, number: u32, filed: Option<u32>) -> Result<Vec<u8>, AllocError>
    ensures { IfOk result (λ bytes. bytes.items ≡ sealed (start_text number filed)) }
{
    let mut text = Vec::new(alloc);
    text.extend_from_slice(line_of(alloc, NUMBER_WORD, number)?.as_bytes())?;
    push_filed(alloc, &mut text, filed)?;
    seal(alloc, &text)
}

/// Adds how many vnodes have files, where that is known.
fn push_filed(alloc: Global, text: &mut Vec<u8>, filed: Option<u32>) -> Result<(), AllocError>
    ensures { OnOk result (text.new.items ≡ text.old.items ++ filed_text filed) }
{
    match filed {
        Some(count) => { text.extend_from_slice(line_of(alloc, VNODES_WORD, count)?.as_bytes()) }
        None => Ok(()),
    }
}

/// Has the number of a start stand in its folder, and that so many vnodes have files, each of which is whole there: where records are and no
/// number nobody can start, and where one of so many files is missing neither. What stands there already isn't written again.
pub fn keep_start<F: Folder>(
    alloc: Global,
    folder: &mut F,
    number: u32,
    filed: u32,
) -> Result<(), Unreplaced>
    ensures there { OnOk result (HasStart F.finds F.does number filed folder.old folder.new) }
{
    match put_start(alloc, folder, number, filed) {
        Ok(()) => Ok(()),
        Err(fault) => Err(Unreplaced {
            name: INCARNATION,
            fault,
        }),
    }
}

/// The same, with why it isn't done.
fn put_start<F: Folder>(
    alloc: Global,
    folder: &mut F,
    number: u32,
    filed: u32,
) -> Result<(), WriteFault>
    ensures there { OnOk result (HasStart F.finds F.does number filed folder.old folder.new) }
{
    let wanted = start_bytes(alloc, number, Some(filed))?;
    let found = folder.read(alloc, INCARNATION)?;
    if holds(&found, &wanted) {
        return Ok(());
    }
    replace(alloc, folder, INCARNATION, &wanted)
}

/// Whether a file that was read holds these bytes.
fn holds(found: &Option<Vec<u8>>, wanted: &[u8]) -> bool
    ensures { IsTrue result → bytes_in found.now ≡ Some wanted.now }
{
    match found {
        Some(bytes) => bytes.as_slice() == wanted,
        None => false,
    }
}

/// What a folder holds, all of it read.
fn read_all<F: Folder + Sync, R: Threads + Sync>(
    alloc: Global,
    rt: &R,
    folder: &F,
) -> Result<Held, OpenFault>
    ensures read { IfOk result (λ held. (index : ℕ) → index < most_vnodes → IsReadAt (F.finds folder.now) held.files.items index) }
    ensures files { IfOk result (λ held. AreAllFiles (F.finds folder.now) held.logs held.files.items) }
    ensures vnodes { IfOk result (λ held. vnodes_of held.files.items ≤ most_vnodes) }
    ensures settings { IfOk result (λ held. (found : Option (List ℕ)) × F.finds folder.now (codes "settings") found × IsSetBy found held.settings) }
    ensures last { IfOk result (λ held. (found : Option (List ℕ)) × F.finds folder.now (codes "incarnation") found × IsLastIn found held.last held.filed) }
    ensures there { IfOk result (λ held. AreThere (F.finds folder.now) held.filed) }
    ensures hooks { IfOk result (λ held. IsHeldIn (F.finds folder.now) (codes "hooks.requests") held.hooks.items) }
{
    let settings = settings_of(alloc, folder)?;
    let Last {
        number: last,
        filed,
    } = last_in(alloc, folder)?;
    let hooks = requests_in(alloc, folder)?;
    let (files, logs) = files_in(alloc, rt, folder, filed)?;
    if last.is_none() && !files.is_empty() {
        return Err(OpenFault::Numberless);
    }
    Ok(Held {
        last,
        filed,
        settings,
        hooks,
        files,
        logs,
    })
}

/// What is set.
fn settings_of<F: Folder>(alloc: Global, folder: &F) -> Result<Settings, OpenFault>
    ensures { IfOk result (λ settings. (found : Option (List ℕ)) × F.finds folder.now (codes "settings") found × IsSetBy found settings) }
{
    let Some(bytes) = bytes_of(alloc, folder, SETTINGS)? else {
        return Ok(USUAL);
    };
    match settings_in(alloc, &bytes)? {
        Some(settings) => Ok(settings),
        None => Err(OpenFault::Unset),
    }
}

/// The bytes of a file, if there is one.
fn bytes_of<F: Folder>(
    alloc: Global,
    folder: &F,
    name: &'static str,
) -> Result<Option<Vec<u8>>, OpenFault>
    ensures { IfOk result (λ found. F.finds folder.now name.now (bytes_in found)) }
{
    match folder.read(alloc, name) {
        Ok(bytes) => Ok(bytes),
        Err(fault) => Err(OpenFault::Unread { name, fault }),
    }
}

/// What a sealed file holds, if there is one.
fn sealed_in<F: Folder>(
    alloc: Global,
    folder: &F,
    name: &'static str,
) -> Result<Option<Vec<u8>>, OpenFault>
    ensures { IfOk result (IsUnsealed (F.finds folder.now) name.now) }
{
    let Some(mut bytes) = bytes_of(alloc, folder, name)? else {
        return Ok(None);
    };
    let Some(held) = unseal(alloc, &bytes)? else {
        return Err(OpenFault::Unsealed { name });
    };
    let len = held.len();
    bytes.truncate(len);
    Ok(Some(bytes))
}

/// The requests that install and bind hooks: none where there is no file of them.
fn requests_in<F: Folder>(alloc: Global, folder: &F) -> Result<Vec<u8>, OpenFault>
    ensures { IfOk result (λ held. IsHeldIn (F.finds folder.now) (codes "hooks.requests") held.items) }
{
    match sealed_in(alloc, folder, HOOKS)? {
        Some(requests) => Ok(requests),
        None => Ok(Vec::new(alloc)),
    }
}

/// What is told of the last start: nothing where there was none.
struct Last {
    number: Option<u32>,
    /// How many vnodes have files, where that is told.
    filed: Option<u32>,
}

/// What is told of the last start.
fn last_in<F: Folder>(alloc: Global, folder: &F) -> Result<Last, OpenFault>
    ensures { IfOk result (λ last. (found : Option (List ℕ)) × F.finds folder.now (codes "incarnation") found × IsLastIn found last.number last.filed) }
{
    let Some(text) = sealed_in(alloc, folder, INCARNATION)? else {
        return Ok(Last {
            number: None,
            filed: None,
        });
    };
    match start_in(alloc, &text)? {
        Some(start) => Ok(Last {
            number: Some(start.number),
            filed: start.filed,
        }),
        None => Err(OpenFault::Unsealed { name: INCARNATION }),
    }
}

/// The number that a start took, and how many vnodes have files, where that is told.
#[derive(Clone, Copy)]
struct TakenNumber {
    number: u32,
    filed: Option<u32>,
}

/// The number that a text has, and how many vnodes have files, if it has them: the number alone, in either spelling, or a line of each.
fn start_in(alloc: Global, text: &[u8]) -> Result<Option<TakenNumber>, OpenFault>
    ensures { IfOk result (λ found. IfSome found (λ start. (text.now ≡ start_text start.number start.filed) ⊎ (EarlierText text.now start.number × (start.filed ≡ None)))) }
{
    let (first, rest) = text.split_at(line_end(text));
    if !rest.is_empty() {
        return Ok(filed_in(alloc, first, rest)?);
    }
    match number_of(alloc, text)? {
        Some(number) => Ok(Some(TakenNumber {
            number,
            filed: None,
        })),
        None => Ok(None),
    }
}

/// The number in a line, and how many vnodes have files in the next, if they are such lines.
fn filed_in(alloc: Global, first: &[u8], next: &[u8]) -> Result<Option<TakenNumber>, AllocError>
    ensures { IfOk result (λ found. IfSome found (λ start. first.now ++ next.now ≡ start_text start.number start.filed)) }
{
    let number = number_in(alloc, NUMBER_WORD, first)?;
    let filed = number_in(alloc, VNODES_WORD, next)?;
    match (number, filed) {
        (Some(number), Some(_)) if number <= MAX_NUMBER => Ok(Some(TakenNumber { number, filed })),
        _ => Ok(None),
    }
}

/// The number that a line has, if it has one. A decimal alone is the upper 16 bits of a number, as it stood before identifiers had 8 bits
/// for a vnode's index: the greatest number with these was named at most.
fn number_of(alloc: Global, text: &[u8]) -> Result<Option<u32>, OpenFault>
    ensures { IfOk result (λ found. IfSome found (λ number. (text.now ≡ number_text number) ⊎ EarlierText text.now number)) }
{
    match number_in(alloc, NUMBER_WORD, text)? {
        Some(number) if number <= MAX_NUMBER => return Ok(Some(number)),
        Some(_) => return Ok(None),
        None => {}
    }
    match number_in(alloc, "", text)? {
        Some(upper) if upper <= MAX_NUMBER / VNODES_PER_NUMBER => {
            Ok(Some(upper * VNODES_PER_NUMBER + (VNODES_PER_NUMBER - 1)))
        }
        _ => Ok(None),
    }
}

/// The files of records that there are: those of vnodes, and behind them the logs.
fn files_in<F: Folder + Sync, R: Threads + Sync>(
    alloc: Global,
    rt: &R,
    folder: &F,
    filed: Option<u32>,
) -> Result<(Vec<KeptFile>, Option<Logs>), OpenFault>
    ensures read { IfOk result (λ x. (index : ℕ) → index < most_vnodes → IsReadAt (F.finds folder.now) x.0.items index) }
    ensures files { IfOk result (λ x. AreAllFiles (F.finds folder.now) x.1 x.0.items) }
    ensures vnodes { IfOk result (λ x. vnodes_of x.0.items ≤ most_vnodes) }
    ensures there { IfOk result (λ x. AreThere (F.finds folder.now) filed) }
{
    let mut files = vnodes_in(alloc, rt, folder, filed)?;
    let logs = add_logs(alloc, rt, folder, &mut files)?;
    Ok((files, logs))
}

/// The files of vnodes that there are. That of the first is read and taken apart, and then the others side by side where there are threads for
/// that: their records take the memory of those of the first that are the same, as nearly all are where each vnode has each key. There has to
/// be one of each of so many vnodes as have files.
fn vnodes_in<F: Folder + Sync, R: Threads + Sync>(
    alloc: Global,
    rt: &R,
    folder: &F,
    filed: Option<u32>,
) -> Result<Vec<KeptFile>, OpenFault>
    ensures read { IfOk result (λ files. (index : ℕ) → index < most_vnodes → IsReadAt (F.finds folder.now) files.items index) }
    ensures files { IfOk result (λ files. AllByRecursion (IsVnodeIn (F.finds folder.now)) files.items) }
    ensures there { IfOk result (λ files. AreThere (F.finds folder.now) filed) }
{
    let own = file_in(alloc, rt, folder, 0, &[])?;
    let first = sought(own, 0, filed)?;
    let records = records_read(first.as_ref());
    let others = thread::map_indices(
        rt,
        alloc,
        MAX_VNODES - 1,
        &|place: usize| -> Result<Option<KeptFile>, OpenFault>
            requires { place < 15 }
            ensures { IfOk result (λ file. IsFoundAt (F.finds folder.entry.now) (place + 1) file) }
        { file_in(alloc, rt, folder, place + 1, records) },
    )?;
    let mut files = Vec::with_capacity(alloc, MAX_VNODES)?;
    add(&mut files, first)?;
    let mut index = 0usize;
    for answer in others {
        index = index.saturating_add(1);
        let read = answer?;
        let found = sought(read, index, filed)?;
        add(&mut files, found)?;
    }
    Ok(files)
}

/// What was found of the vnode with an index. The error: nothing was, and its file is one of so many that there are, as is told.
fn sought(
    found: Option<KeptFile>,
    index: usize,
    filed: Option<u32>,
) -> Result<Option<KeptFile>, OpenFault>
    ensures same { IfOk result (λ file. file ≡ found) }
    ensures there { IfOk result (λ file. IsFiled filed index → IsSome file) }
    ensures missing { IfErr result (λ why. (found ≡ None) × IsFiled filed index × IsMissing (name_of index) why) }
{
    if found.is_none() && is_filed(filed, index) {
        return Err(OpenFault::Missing {
            name: name_of(index),
        });
    }
    Ok(found)
}

/// Whether the vnode with an index is one of so many that have files, as is told.
fn is_filed(filed: Option<u32>, index: usize) -> bool
    ensures { IsTrue result ↔ IsFiled filed index }
{
    match filed {
        Some(count) => index < count as usize,
        None => false,
    }
}

/// The records of a file that was read, if there is one.
fn records_read(file: Option<&KeptFile>) -> &[Record] {
    match file {
        Some(file) => &file.records,
        None => &[],
    }
}

/// Adds a file to others, if there is one.
pub(crate) fn add(files: &mut Vec<KeptFile>, found: Option<KeptFile>) -> Result<(), OpenFault>
    ensures { OnOk result (files.new.items ≡ files.old.items ++ option_to_list found) }
{
    let Some(file) = found else {
        return Ok(());
    };
    match files.push(file) {
        Ok(()) => Ok(()),
        Err(_) => Err(OpenFault::NoMemory),
    }
}

/// The records of the vnode with an index, if there is a file of them. Its bytes are gone once they are taken apart. Records that are among
/// others take their memory.
fn file_in<F: Folder, R: Threads>(
    alloc: Global,
    rt: &R,
    folder: &F,
    index: usize,
    others: &[Record],
) -> Result<Option<KeptFile>, OpenFault>
    ensures { IfOk result (λ file. IsFoundAt (F.finds folder.now) index file) }
{
    let found = bytes_of(alloc, folder, name_of(index))?;
    file_of(alloc, rt, found, index, others)
}

/// The records of the vnode with an index, whose file holds these bytes, if there is one.
fn file_of<R: Threads>(
    alloc: Global,
    rt: &R,
    found: Option<Vec<u8>>,
    index: usize,
    others: &[Record],
) -> Result<Option<KeptFile>, OpenFault>
    ensures { IfOk result (λ file. IsFileIn (bytes_in found) index file) }
{
    let Some(bytes) = found else {
        return Ok(None);
    };
    let name = name_of(index);
    match read_file(alloc, rt, &bytes, others) {
        Ok(file) if file.from.is_of(index) => Ok(Some(file)),
        Ok(_) => Err(OpenFault::Misplaced { name }),
        Err(Unkept::NoMemory) => Err(OpenFault::NoMemory),
        Err(fault) => Err(OpenFault::Damaged { name, fault }),
    }
}
