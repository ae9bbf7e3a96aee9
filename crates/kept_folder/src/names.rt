//! What the files of a folder are called.

ghost use Rattle.std.specs.Prelude.{◌≡◌, ◌^◌, ◌<◌, ℕ, Some, IfOk, IfSome, string_bytes};
ghost use Rattle.kept_folder.specs.Reads.{log_name, name_of};

use std::alloc::{AllocError, Global};

/// The number of the last start, and how many vnodes have files.
pub(crate) const INCARNATION: &str = "incarnation";

/// What a line begins with that has the number of a start.
pub(crate) const NUMBER_WORD: &str = "number ";

/// What a line begins with that has how many vnodes have files.
pub(crate) const VNODES_WORD: &str = "vnodes ";

/// What a line begins with that has the seconds from a snapshot to the next.
pub(crate) const SNAPSHOT_WORD: &str = "snapshot ";

/// What a line begins with that has the number of copies.
pub(crate) const COPIES_WORD: &str = "copies ";

/// The lines that say when the log is forced: before a write is acknowledged, once a second, or when the system likes.
pub(crate) const SYNC_ALWAYS: &[u8] = b"sync always\n";

pub(crate) const SYNC_EVERY_SECOND: &[u8] = b"sync everysec\n";

pub(crate) const SYNC_NEVER: &[u8] = b"sync never\n";

/// The requests that install and bind hooks.
pub const HOOKS: &str = "hooks.requests";

/// What who runs the store has set.
pub(crate) const SETTINGS: &str = "settings";

/// What the name of a log begins with. Its number follows, as a decimal without leading zeros.
const LOG_WORD: &str = "log-";

/// The file of the records of the vnode with an index, which is below 16; the last of these files where it isn't.
pub(crate) fn name_of(index: usize) -> &'static str
    ensures { result.now ≡ name_of index }
{
    match index {
        0 => "vnode-0.records",
        1 => "vnode-1.records",
        2 => "vnode-2.records",
        3 => "vnode-3.records",
        4 => "vnode-4.records",
        5 => "vnode-5.records",
        6 => "vnode-6.records",
        7 => "vnode-7.records",
        8 => "vnode-8.records",
        9 => "vnode-9.records",
        10 => "vnode-10.records",
        11 => "vnode-11.records",
        12 => "vnode-12.records",
        13 => "vnode-13.records",
        14 => "vnode-14.records",
        _ => "vnode-15.records",
    }
}

/// The file of the log with a number.
pub(crate) fn log_name(alloc: Global, number: u64) -> Result<String, AllocError>
    ensures { IfOk result (λ name. string_bytes name ≡ log_name number) }
{
    format!(in alloc; "{LOG_WORD}{number}")
}

/// The number of the log that has a name, if it is a log's.
pub(crate) fn log_number(alloc: Global, name: &str) -> Result<Option<u64>, AllocError>
    ensures some { IfOk result (λ found. IfSome found (λ number. name.now ≡ log_name number)) }
    ensures all { IfOk result (λ found. (number : ℕ) → number < 2 ^ 64 → name.now ≡ log_name number → found ≡ Some number) }
{
    let Some(number) = decimal_in(name.as_bytes()) else {
        return Ok(None);
    };
    if log_name(alloc, number)?.as_str() == name {
        Ok(Some(number))
    } else {
        Ok(None)
    }
}

/// The decimal behind the word that a log's name begins with. It may have leading zeros, or a sign.
fn decimal_in(name: &[u8]) -> Option<u64>
    ensures { (number : ℕ) → number < 2 ^ 64 → name.now ≡ log_name number → result ≡ Some number }
{
    let digits = name.strip_prefix(LOG_WORD.as_bytes())?;
    std::str::from_utf8(digits).ok()?.parse().ok()
}
