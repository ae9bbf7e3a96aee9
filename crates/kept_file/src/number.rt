//! The number of a start, which vnodes' identifiers begin with.

ghost use Rattle.std.specs.Prelude.{◌≡◌, ◌⊎◌, ◌↔◌, ◌<◌, ◌≤◌, ◌+◌, ℕ, IsErr, IfOk, map, max, [], ◌∷◌};
ghost use Rattle.std.specs.List.{flat_map};
ghost use Rattle.dvv.specs.declared.Dot.{Dot as OneDot};
ghost use Rattle.kept_file.specs.Numbers.{IsNamed, above, after, all_ids, ids_of, source_ids};

use crate::file::{KeptFile, Source};
use dvv::{Dot, VNODES_PER_NUMBER};
use record_codec::Record;
use thiserror::Error;

/// The greatest number that a start may have: identifiers have 24 bits for it.
pub const MAX_NUMBER: u32 = u32::MAX / VNODES_PER_NUMBER;

/// No number is left: each up to the greatest was used, or is below what is asked for.
#[derive(Clone, Copy, Debug, PartialEq, Eq, Error)]
#[error("no number is left above 16777215: set the clock right if it is ahead, else begin a new folder")]
pub struct Spent;

/// The number of the next start: the least above that of the last start, `last`, above all that the files name, as a vnode's or in a
/// clock, and no less than `least`. Where that is above [`MAX_NUMBER`] there is none.
pub fn next_number(last: Option<u32>, least: u32, files: &[KeptFile]) -> Result<u32, Spent>
    ensures above { IfOk result (λ next. (number : ℕ) → IsNamed last files.now number → number < next) }
    ensures at_least { IfOk result (λ next. least ≤ next) }
    ensures least { IfOk result (λ next. (next ≡ least) ⊎ ((number : ℕ) × IsNamed last files.now number × (next ≡ number + 1))) }
    ensures few { IfOk result (λ next. next ≤ 16777215) }
    ensures spent { IsErr result ↔ ((16777215 < least) ⊎ ((number : ℕ) × IsNamed last files.now number × (16777215 ≤ number))) }
{
    let first = u64::from(least).max(after(last));
    match u32::try_from(above_files(first, files)) {
        Ok(next) if next <= MAX_NUMBER => Ok(next),
        _ => Err(Spent),
    }
}

/// The number after that of the last start.
fn after(last: Option<u32>) -> u64
    ensures exact { result ≡ after last }
{
    match last {
        Some(last) => u64::from(last) + 1,
        None => 0,
    }
}

/// One above what files name, and no less than a number.
fn above_files(least: u64, files: &[KeptFile]) -> u64
    ensures exact { result ≡ above least (all_ids files.now) }
{
    let mut next = least;
    for file in files {
        next = above_records(above_source(next, file.from), &file.records);
    }
    next
}

/// The same of the vnode whose file it is.
fn above_source(least: u64, from: Source) -> u64
    ensures exact { result ≡ above least (source_ids from) }
{
    match from {
        Source::Vnode(id) => above_id(least, id),
        Source::Log(_) => least,
    }
}

/// The same of records.
fn above_records(least: u64, records: &[Record]) -> u64
    ensures exact { result ≡ above least (flat_map ids_of records.now) }
{
    let mut next = least;
    for record in records {
        next = above_entries(above_id(next, record.from), record.state.clock().entries());
    }
    next
}

/// The same of a clock's entries.
fn above_entries(least: u64, entries: &[Dot]) -> u64
    ensures exact { result ≡ above least (map (λ (entry : OneDot). entry.vnode) entries.now) }
{
    let mut next = least;
    for entry in entries {
        next = above_id(next, entry.vnode);
    }
    next
}

/// The same of an identifier.
fn above_id(least: u64, id: u32) -> u64
    ensures exact { result ≡ above least (id ∷ []) }
{
    least.max(u64::from(id / VNODES_PER_NUMBER) + 1)
}
