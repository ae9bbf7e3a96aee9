//! Records that later starts have left behind.

ghost use Rattle.std.specs.Prelude.{◌≡◌, filter, max, not, if◌then◌else◌, IfOk, OnOk};
ghost use Rattle.std.specs.List.{AllZip};
ghost use Rattle.journal.specs.Keys.{same_key};
ghost use Rattle.key_state.specs.declared.content.Key.{Key as OneKey};
ghost use Rattle.record_codec.specs.declared.record.Record.{Record as OneRecord};
ghost use Rattle.kept_fold.specs.Merging.{all_records};
ghost use Rattle.kept_fold.specs.Stale.{AreFresh, IsFreshBy, fold_in, greatest, is_behind, last_fold, number_at, start_of};

use crate::limits::FOLD_INDEX;
use dvv::{Dot, VNODES_PER_NUMBER};
use kept_file::KeptFile;
use key_state::Key;
use record_codec::Record;
use std::alloc::{AllocError, Global};
use std::collections::BTreeMap;

/// The last start that wrote a key's contents anew, by key.
type LastFolds = BTreeMap<Key, u32>;

/// The files without the records that are stale: those of a key whose contents were written anew by a start later than all of which the
/// record counts an event. That start had read such a record, and what stands in the other ones goes on from there.
pub(crate) fn without_stale(
    alloc: Global,
    files: Vec<KeptFile>,
) -> Result<Vec<KeptFile>, AllocError>
    ensures { IfOk result (λ fresh. AreFresh files.items fresh.items) }
{
    let last = last_folds(alloc, &files)?;
    fresh_by(alloc, files, &last)
}

/// The files without the records of before their keys' last folds.
fn fresh_by(
    alloc: Global,
    files: Vec<KeptFile>,
    last: &LastFolds,
) -> Result<Vec<KeptFile>, AllocError>
    ensures { IfOk result (λ fresh. AllZip (IsFreshBy last.now) files.items fresh.items) }
{
    let mut fresh = Vec::with_capacity(alloc, files.len())?;
    for file in files {
        fresh.push(fresh_of(file, last))?;
    }
    Ok(fresh)
}

/// A file without its stale records.
fn fresh_of(mut file: KeptFile, last: &LastFolds) -> KeptFile
    ensures { IsFreshBy last.now file result }
{
    file.records.retain(|record| !is_behind(last, record));
    file
}

/// Whether a record is of before its key's last fold.
fn is_behind(last: &LastFolds, one: &Record) -> bool
    ensures { result ≡ is_behind last.now one.now }
{
    last_start(one.state.clock().entries()) < fold_at(last, &one.key)
}

/// The last start that wrote a key's contents anew; 0 where none did.
fn fold_at(last: &LastFolds, key: &Key) -> u32
    ensures { result ≡ number_at last.now key.now }
{
    match last.get(key) {
        Some(number) => *number,
        None => 0,
    }
}

/// The last start that wrote each key's contents anew.
fn last_folds(alloc: Global, files: &[KeptFile]) -> Result<LastFolds, AllocError>
    ensures { IfOk result (λ last. (key : OneKey) → number_at last key ≡ last_fold (all_records files.now) key) }
{
    let mut last = BTreeMap::new(alloc);
    for file in files {
        add_folds(&mut last, &file.records)?;
    }
    Ok(last)
}

/// Adds what the records of one file tell of it.
fn add_folds(last: &mut LastFolds, records: &[Record]) -> Result<(), AllocError>
    ensures { OnOk result ((key : OneKey) → number_at last.new key ≡ max (number_at last.old key) (last_fold records.now key)) }
{
    for record in records {
        add_fold(last, record)?;
    }
    Ok(())
}

/// Adds what a record tells of it.
fn add_fold(last: &mut LastFolds, one: &Record) -> Result<(), AllocError>
    ensures { OnOk result ((key : OneKey) → number_at last.new key ≡ (if same_key one.now.key key then max (number_at last.old key) (greatest fold_in one.now.state.clock) else number_at last.old key)) }
{
    let number = last_fold(one.state.clock().entries());
    if number > fold_at(last, &one.key) {
        last.insert(one.key.copy()?, number)?;
    }
    Ok(())
}

/// The last start of which a clock counts an event; 0 of an empty clock.
fn last_start(entries: &[Dot]) -> u32
    ensures { result ≡ greatest start_of entries.now }
{
    let mut last = 0u32;
    for entry in entries {
        last = last.max(entry.vnode / VNODES_PER_NUMBER);
    }
    last
}

/// The last start of those that wrote contents anew, of which a clock counts one; 0 where there is none.
fn last_fold(entries: &[Dot]) -> u32
    ensures { result ≡ greatest fold_in entries.now }
{
    let mut last = 0u32;
    for entry in entries {
        last = last.max(fold_in(*entry));
    }
    last
}

/// The start that wrote contents anew by an event; 0 where it is another event.
fn fold_in(event: Dot) -> u32
    ensures { result ≡ fold_in event }
{
    if event.vnode % VNODES_PER_NUMBER == FOLD_INDEX {
        event.vnode / VNODES_PER_NUMBER
    } else {
        0
    }
}
