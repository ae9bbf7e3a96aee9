//! The records in front of bytes.

ghost use Rattle.std.specs.Prelude.{◌≤◌, ℕ, length, IfOk, IfSome, IfNone};
ghost use Rattle.record_codec.specs.declared.record.Record.{Record as OneRecord};
ghost use Rattle.record_codec.specs.Records.{Begins};
ghost use Rattle.log_tail.specs.Fronts.{AreInFront, HasAllInFront};

use record_codec::laws::{no_spelling_begins_another, written_is_read};
use record_codec::{Record, WireFault, read_record};
use std::alloc::{AllocError, Global};

/// The records in front of bytes, as many as stand there one after another, and how many bytes these take. What follows the last is no
/// record, as where a crash tore one, or what is there was damaged. An error means that memory ran out.
pub fn records_in_front(alloc: Global, bytes: &[u8]) -> Result<(Vec<Record>, usize), AllocError>
    ensures front { IfOk result (λ x. AreInFront bytes.now x.0.items x.1) }
    ensures all { IfOk result (λ x. HasAllInFront bytes.now x.0.items) }
{
    no_spelling_begins_another();
    written_is_read();
    let mut records = Vec::new(alloc);
    let mut left = bytes;
    while let Some((one, len)) = next_record(alloc, left)? {
        records.push(one)?;
        left = &left[len..];
    }
    let taken = bytes.len() - left.len();
    Ok((records, taken))
}

/// The record that bytes begin with, and its length. None where they begin with none.
fn next_record(alloc: Global, bytes: &[u8]) -> Result<Option<(Record, usize)>, AllocError>
    ensures some { IfOk result (λ found. IfSome found (λ x. Begins bytes.now x.0 x.1)) }
    ensures within { IfOk result (λ found. IfSome found (λ x. x.1 ≤ length bytes.now)) }
    ensures none { IfOk result (λ found. IfNone found ((r : OneRecord) (len : ℕ) → Begins bytes.now r len → ⊥)) }
{
    match read_record(alloc, bytes) {
        Ok(found) => Ok(Some(found)),
        Err(WireFault::NoMemory) => Err(AllocError),
        Err(_) => Ok(None),
    }
}
