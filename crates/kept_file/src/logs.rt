//! The records of logs, which stand there in the order in which they were written. A record with the empty state is a sign: it tells of the
//! log, and is no key's.

ghost use Rattle.std.specs.Prelude.{◌≡◌, IfErr, IfOk};
ghost use Rattle.kept_file.specs.declared.file.Source.TheVariants.{Log};
ghost use Rattle.kept_file.specs.Files.{IsUnkept};
ghost use Rattle.kept_file.specs.Logs.{IsEndedLog, IsTornLog, is_sign, without_signs};

use crate::file::{KeptFile, Source, Unkept, read_ended};
use log_tail::records_in_front;
use record_codec::Record;
use std::alloc::{AllocError, Global};
use std::thread::Threads;

/// The records of the log with a number, which was closed in order: like a vnode's file it ends in the record that tells how many stand
/// before it. One that was cut is told, and so is one that was damaged.
pub fn read_log<R: Threads>(
    alloc: Global,
    rt: &R,
    number: u64,
    bytes: &[u8],
) -> Result<KeptFile, Unkept>
    ensures from { IfOk result (λ file. file.from ≡ Log number) }
    ensures kept { IfOk result (λ file. IsEndedLog file.records.items bytes.now) }
    ensures unkept { IfErr result (IsUnkept bytes.now) }
{
    let (_, records) = read_ended(alloc, rt, bytes, &[])?;
    Ok(file_of(number, records))
}

/// The records of the log with a number that was written last, whatever a crash made of its end: as many as stand in front, one after
/// another. Told is, too, how many bytes stand behind the last whole record: none where the log is whole. The error: memory ran out.
pub fn read_last_log(
    alloc: Global,
    number: u64,
    bytes: &[u8],
) -> Result<(KeptFile, usize), AllocError>
    ensures from { IfOk result (λ x. x.0.from ≡ Log number) }
    ensures kept { IfOk result (λ x. IsTornLog x.0.records.items x.1 bytes.now) }
{
    let (records, taken) = records_in_front(alloc, bytes)?;
    Ok((file_of(number, records), bytes.len() - taken))
}

/// The records of the log with a number, without its signs.
fn file_of(number: u64, mut records: Vec<Record>) -> KeptFile
    ensures from { result.from ≡ Log number }
    ensures records { result.records.items ≡ without_signs records.items }
{
    records.retain(|record| !is_sign(record));
    KeptFile {
        from: Source::Log(number),
        records,
    }
}

/// Whether a record is a sign: a key's record has an event in its clock.
fn is_sign(one: &Record) -> bool
    ensures { result ≡ is_sign one.now }
{
    one.state.clock().entries().is_empty()
}
