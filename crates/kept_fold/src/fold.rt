//! Keys whose contents are written anew, in the files that hold them.

ghost use Rattle.std.specs.Prelude.{◌≡◌, ◌≤◌, length, map, IfOk, OnOk, option_copied};
ghost use Rattle.std.specs.BTreeMap.{get};
ghost use Rattle.std.specs.List.{AllZip};
ghost use Rattle.journal.specs.Keys.{key_cmp};
ghost use Rattle.record_codec.specs.declared.record.Record.{Record as OneRecord};
ghost use Rattle.kept_fold.specs.Folds.{AreFolded, IsRewrittenBy, is_foldable, rewritten, share, to_fold};
ghost use Rattle.kept_fold.specs.Stale.{fold_id};

use crate::anew::record_anew;
use crate::candidates::{Merges, Merging, long_keys, merge_files};
use crate::limits::{FOLD_INDEX, MAX_FORMER_ENTRIES};
use crate::stale::without_stale;
use dvv::VNODES_PER_NUMBER;
use kept_file::KeptFile;
use key_state::{Key, KeyState};
use record_codec::Record;
use std::alloc::{AllocError, Global};

/// Folds keys for the start with a number, which is above each that the files name. A key is folded whose clock, that of the merge of all
/// its records, has more than 32 entries: each of its records has the merge's contents then, under new dots of this start, and a clock
/// that counts these alone. So a context of before counts events that nobody knows. Left as it is is a key whose clock would have more
/// than 1,024 entries, for which there is no merge. Left out are records that are stale: those of a key that was folded by a start later
/// than all of which they count an event. Files of different starts hold such ones, and what they say is in the folded ones.
pub fn fold_files(
    alloc: Global,
    files: Vec<KeptFile>,
    number: u32,
) -> Result<Vec<KeptFile>, AllocError>
    requires few { number ≤ 16777215 }
    ensures { IfOk result (λ folded. AreFolded number files.items folded.items) }
{
    let fresh = without_stale(alloc, files)?;
    let mut merges = long_keys(alloc, &fresh, share_of(&fresh))?;
    merge_files(alloc, &mut merges, &fresh)?;
    rewrite_files(
        alloc,
        fresh,
        &merges,
        number * VNODES_PER_NUMBER + FOLD_INDEX,
    )
}

/// Each file's share of the entries of a clock that isn't folded.
fn share_of(files: &[KeptFile]) -> usize
    ensures { result ≡ share (length files.now) }
{
    MAX_FORMER_ENTRIES / files.len().max(1)
}

/// Rewrites the records of the keys that are folded, under an identifier.
fn rewrite_files(
    alloc: Global,
    files: Vec<KeptFile>,
    merges: &Merges,
    id: u32,
) -> Result<Vec<KeptFile>, AllocError>
    ensures { IfOk result (λ folded. AllZip (IsRewrittenBy merges.now id) files.items folded.items) }
{
    let mut folded = Vec::with_capacity(alloc, files.len())?;
    for file in files {
        folded.push(rewrite_file(alloc, file, merges, id)?)?;
    }
    Ok(folded)
}

/// The same of one file.
fn rewrite_file(
    alloc: Global,
    mut file: KeptFile,
    merges: &Merges,
    id: u32,
) -> Result<KeptFile, AllocError>
    ensures { IfOk result (λ folded. IsRewrittenBy merges.now id file folded) }
{
    rewrite_records(alloc, &mut file.records, merges, id)?;
    Ok(file)
}

/// The same of its records.
fn rewrite_records(
    alloc: Global,
    records: &mut [Record],
    merges: &Merges,
    id: u32,
) -> Result<(), AllocError>
    ensures { OnOk result (records.new ≡ map (λ (r : OneRecord). rewritten id (to_fold (get key_cmp merges.now r.key)) r) records.old) }
{
    for one in records.iter_mut() {
        rewrite(alloc, one, merges, id)?;
    }
    Ok(())
}

/// The same of a record.
fn rewrite(alloc: Global, one: &mut Record, merges: &Merges, id: u32) -> Result<(), AllocError>
    ensures { OnOk result (one.new ≡ rewritten id (to_fold (get key_cmp merges.now one.old.key)) one.old) }
{
    if let Some(merged) = to_fold(merges, &one.key) {
        *one = record_anew(alloc, id, one.key.copy()?, merged.siblings())?;
    }
    Ok(())
}

/// The merge of a key that is folded.
fn to_fold<'a>(merges: &'a Merges, key: &Key) -> Option<&'a KeyState>
    ensures { option_copied result ≡ to_fold (get key_cmp merges.now key.now) }
{
    match merges.get(key) {
        Some(Merging::Merged(state)) if is_foldable(state) => Some(state),
        _ => None,
    }
}

/// Whether a state has a clock that is folded, and some content.
fn is_foldable(state: &KeyState) -> bool
    ensures { result ≡ is_foldable state.now }
{
    state.clock().entries().len() > MAX_FORMER_ENTRIES && !state.siblings().is_empty()
}
