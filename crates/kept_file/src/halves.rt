//! Records, one after another, of which two halves are taken apart side by side.

ghost use Rattle.std.specs.Prelude.{◌++◌, ◌≤◌, ◌<◌, length, IfErr, IfOk, IfSome};
ghost use Rattle.record_codec.specs.Lists.{AreSpelledBy, IsUnread};

use record_codec::{Record, Unread, record_length, records_in};
use std::alloc::Global;
use std::thread;
use std::thread::Threads;

/// The place of the first record that begins in the second half of bytes, as the heads of those before it say it; the end where there is
/// none.
fn middle_of(bytes: &[u8]) -> usize
    ensures { result ≤ length bytes.now }
{
    let mut left = bytes;
    while left.len() > bytes.len() / 2 {
        match record_length(left) {
            Some(len) => left = &left[len..],
            None => return bytes.len(),
        }
    }
    bytes.len() - left.len()
}

/// The records of two parts, each taken apart on a thread of its own where there is one. None where a part has a fault, or memory was
/// refused.
fn records_of_both<R: Threads>(
    alloc: Global,
    rt: &R,
    front: &[u8],
    back: &[u8],
    others: &[Record],
) -> Option<Vec<Record>>
    ensures { IfSome result (λ records. AreSpelledBy records.items (front.now ++ back.now)) }
{
    let (first, second) = thread::join(
        rt,
        || -> Result<Vec<Record>, Unread>
            ensures { IfOk result (λ records. AreSpelledBy records.items front.entry.now) }
        { records_in(alloc, front, others) },
        || -> Result<Vec<Record>, Unread>
            ensures { IfOk result (λ records. AreSpelledBy records.items back.entry.now) }
        { records_in(alloc, back, others) },
    );
    let (Ok(mut records), Ok(mut others)) = (first, second) else {
        return None;
    };
    match records.append(&mut others) {
        Ok(()) => Some(records),
        Err(_) => None,
    }
}

/// The records that bytes are, one after another, or the first that has a fault: that is found by one thread, in order. Those that are
/// among others, which stand in the order of keys, too, take their memory.
pub(crate) fn records_beside<R: Threads>(
    alloc: Global,
    rt: &R,
    bytes: &[u8],
    others: &[Record],
) -> Result<Vec<Record>, Unread>
    ensures records { IfOk result (λ records. AreSpelledBy records.items bytes.now) }
    ensures unread { IfErr result (IsUnread bytes.now) }
{
    let (front, back) = bytes.split_at(middle_of(bytes));
    match records_of_both(alloc, rt, front, back, others) {
        Some(records) => Ok(records),
        None => records_in(alloc, bytes, others),
    }
}
