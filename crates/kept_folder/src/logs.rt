//! The logs of a folder, which a start reads behind the files of vnodes.

ghost use Rattle.std.specs.Prelude.{◌≡◌, ◌^◌, ◌<◌, ◌≤◌, ◌+◌, ◌++◌, ℕ, List, None, Some, IfNone, IfOk, IfSome, OnOk, Contains, length, map, string_bytes};
ghost use Rattle.kept_file.specs.declared.file.KeptFile.{KeptFile as OneFile};
ghost use Rattle.kept_file.specs.declared.file.Source.TheVariants.{Log};
ghost use Rattle.kept_file.specs.Logs.{IsEndedLog, IsTornLog};
ghost use Rattle.kept_folder.specs.Reads.{AreEnded, AreLogs, HasNoOther, IsSpan, IsWithin, log_name};

use crate::files::{FileFault, Folder};
use crate::names::{log_name, log_number};
use crate::opening::{OpenFault, add};
use kept_file::{KeptFile, Unkept, read_last_log, read_log};
use std::alloc::{AllocError, Global};
use std::thread::Threads;
use thiserror::Error;

/// The logs that a folder has, numbered without a gap.
#[derive(Clone, Copy, Debug, PartialEq, Eq)]
pub struct Logs {
    /// The number of the oldest.
    pub first: u64,
    /// The number of the newest, which was written last.
    pub last: u64,
    /// So many bytes stand in the newest behind its last whole record, as where a crash tore what was being written. Nothing is taken of them.
    pub torn: usize,
}

/// Why a log isn't read.
#[derive(Clone, Copy, Debug, PartialEq, Eq, Error)]
pub enum LogFault {
    /// There is no such file, and there are files of an older log and of a newer one.
    #[error("missing")]
    Missing,
    /// The file can't be read.
    #[error("{0}")]
    Unread(FileFault),
    /// The file is damaged, or was cut: a newer log was begun, so this one was closed in order.
    #[error("{0}")]
    Damaged(Unkept),
}

/// The numbers of the oldest and of the newest of some logs.
#[derive(Clone, Copy)]
pub(crate) struct Span {
    pub first: u64,
    pub last: u64,
}

/// Adds a file for each log, in the order of their numbers. Each but the newest was closed in order.
pub(crate) fn add_logs<F: Folder, R: Threads>(
    alloc: Global,
    rt: &R,
    folder: &F,
    files: &mut Vec<KeptFile>,
) -> Result<Option<Logs>, OpenFault>
    ensures { IfOk result (λ logs. (more : List OneFile) × (files.new.items ≡ files.old.items ++ more) × AreLogs (F.finds folder.now) logs more) }
{
    let Some(span) = logs_in(alloc, folder)? else {
        return Ok(None);
    };
    add_ended(alloc, rt, folder, span, files)?;
    let (newest, torn) = newest_log(alloc, folder, span.last)?;
    add(files, Some(newest))?;
    Ok(Some(Logs {
        first: span.first,
        last: span.last,
        torn,
    }))
}

/// The numbers of the logs that there are, if there are any.
fn logs_in<F: Folder>(alloc: Global, folder: &F) -> Result<Option<Span>, OpenFault>
    ensures some { IfOk result (λ found. IfSome found (λ span. HasNoOther (F.finds folder.now) span.first span.last)) }
    ensures none { IfOk result (λ found. IfNone found ((number : ℕ) → number < 2 ^ 64 → F.finds folder.now (log_name number) None)) }
    ensures order { IfOk result IsSpan }
{
    match folder.names(alloc) {
        Ok(names) => Ok(span_of(alloc, &names)?),
        Err(fault) => Err(OpenFault::Unlisted(fault)),
    }
}

/// The numbers of the logs among files with these names.
fn span_of(alloc: Global, names: &[String]) -> Result<Option<Span>, AllocError>
    ensures all { IfOk result (λ span. (number : ℕ) → number < 2 ^ 64 → Contains (map string_bytes names.now) (log_name number) → IsWithin span number) }
    ensures order { IfOk result IsSpan }
{
    let mut span = None;
    for name in names {
        let found = log_number(alloc, name.as_str())?;
        span = with_log(span, found);
    }
    Ok(span)
}

/// The span of some logs and of one more, if it is one.
fn with_log(span: Option<Span>, found: Option<u64>) -> Option<Span>
    ensures old { (number : ℕ) → IsWithin span number → IsWithin result number }
    ensures new { IfSome found (IsWithin result) }
    ensures order { IsSpan span → IsSpan result }
{
    let Some(number) = found else {
        return span;
    };
    match span {
        Some(span) => Some(Span {
            first: span.first.min(number),
            last: span.last.max(number),
        }),
        None => Some(Span {
            first: number,
            last: number,
        }),
    }
}

/// Adds a file for each log but the newest.
fn add_ended<F: Folder, R: Threads>(
    alloc: Global,
    rt: &R,
    folder: &F,
    span: Span,
    files: &mut Vec<KeptFile>,
) -> Result<(), OpenFault>
    requires { span.first ≤ span.last }
    ensures { OnOk result ((ended : List OneFile) × (files.new.items ≡ files.old.items ++ ended) × AreEnded (F.finds folder.now) span.first ended × (span.first + length ended ≡ span.last)) }
{
    for number in span.first..span.last {
        let file = ended_log(alloc, rt, folder, number)?;
        add(files, Some(file))?;
    }
    Ok(())
}

/// The log with a number, which was closed in order.
fn ended_log<F: Folder, R: Threads>(
    alloc: Global,
    rt: &R,
    folder: &F,
    number: u64,
) -> Result<KeptFile, OpenFault>
    ensures from { IfOk result (λ file. file.from ≡ Log number) }
    ensures read { IfOk result (λ file. (bytes : List ℕ) × F.finds folder.now (log_name number) (Some bytes) × IsEndedLog file.records.items bytes) }
{
    let bytes = bytes_of_log(alloc, folder, number)?;
    match read_log(alloc, rt, number, &bytes) {
        Ok(file) => Ok(file),
        Err(Unkept::NoMemory) => Err(OpenFault::NoMemory),
        Err(fault) => Err(OpenFault::Log {
            number,
            fault: LogFault::Damaged(fault),
        }),
    }
}

/// The newest log, and how many bytes stand behind its last whole record.
fn newest_log<F: Folder>(
    alloc: Global,
    folder: &F,
    number: u64,
) -> Result<(KeptFile, usize), OpenFault>
    ensures from { IfOk result (λ x. x.0.from ≡ Log number) }
    ensures read { IfOk result (λ x. (bytes : List ℕ) × F.finds folder.now (log_name number) (Some bytes) × IsTornLog x.0.records.items x.1 bytes) }
{
    let bytes = bytes_of_log(alloc, folder, number)?;
    Ok(read_last_log(alloc, number, &bytes)?)
}

/// The bytes of the log with a number.
fn bytes_of_log<F: Folder>(alloc: Global, folder: &F, number: u64) -> Result<Vec<u8>, OpenFault>
    ensures { IfOk result (λ bytes. F.finds folder.now (log_name number) (Some bytes.items)) }
{
    let name = log_name(alloc, number)?;
    let fault = match folder.read(alloc, name.as_str()) {
        Ok(Some(bytes)) => return Ok(bytes),
        Ok(None) => LogFault::Missing,
        Err(fault) => LogFault::Unread(fault),
    };
    Err(OpenFault::Log { number, fault })
}
