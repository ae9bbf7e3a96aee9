//! Keys that may be folded, and the merges of their records.

ghost use Rattle.std.specs.Prelude.{◌≡◌, ◌++◌, ◌∷◌, [], IfOk, OnOk, List, Option, None, Some, if◌then◌else◌};
ghost use Rattle.std.specs.BTreeMap.{get};
ghost use Rattle.key_state.specs.declared.content.Key.{Key as OneKey};
ghost use Rattle.key_state.specs.State.{State, empty};
ghost use Rattle.journal.specs.Keys.{key_cmp};
ghost use Rattle.kept_fold.specs.declared.candidates.Merging.TheVariants.{Merged};
ghost use Rattle.kept_fold.specs.Merging.{GoesOn, HasCome, all_records, is_long, states_of};

use kept_file::KeptFile;
use key_state::{Key, KeyState, MergeFault};
use record_codec::Record;
use std::alloc::{AllocError, Global};
use std::collections::BTreeMap;

/// What the merge of a key's records has come to.
#[derive(Drop)]
pub(crate) enum Merging {
    /// The merge of all so far.
    Merged(KeyState),
    /// There is none: its clock would pass its limit.
    PastLimit,
}

/// The merges of keys that may be folded, by key.
pub(crate) type Merges = BTreeMap<Key, Merging>;

/// The keys of which some record's clock has more entries than that. Nothing is merged yet.
pub(crate) fn long_keys(
    alloc: Global,
    files: &[KeptFile],
    least: usize,
) -> Result<Merges, AllocError>
    ensures { IfOk result (λ merges. (key : OneKey) → get key_cmp merges key ≡ (if is_long least (all_records files.now) key then Some (Merged empty) else None)) }
{
    let mut merges = BTreeMap::new(alloc);
    for file in files {
        add_long(alloc, &mut merges, &file.records, least)?;
    }
    Ok(merges)
}

/// Adds those of one file.
fn add_long(
    alloc: Global,
    merges: &mut Merges,
    records: &[Record],
    least: usize,
) -> Result<(), AllocError>
    ensures { OnOk result ((key : OneKey) → get key_cmp merges.new key ≡ (if is_long least records.now key then Some (Merged empty) else get key_cmp merges.old key)) }
{
    for record in records {
        add_one(alloc, merges, record, least)?;
    }
    Ok(())
}

/// Adds a record's key, where its clock has more entries than that.
fn add_one(alloc: Global, merges: &mut Merges, one: &Record, least: usize) -> Result<(), AllocError>
    ensures { OnOk result ((key : OneKey) → get key_cmp merges.new key ≡ (if is_long least (one.now ∷ []) key then Some (Merged empty) else get key_cmp merges.old key)) }
{
    let entries = one.state.clock().entries().len();
    if entries <= least {
        return Ok(());
    }
    merges.insert(one.key.copy()?, Merging::Merged(KeyState::new(alloc)))?;
    Ok(())
}

/// Merges the records of these keys, file by file.
pub(crate) fn merge_files(
    alloc: Global,
    merges: &mut Merges,
    files: &[KeptFile],
) -> Result<(), AllocError>
    ensures { OnOk result ((key : OneKey) → GoesOn (states_of (all_records files.now) key) (get key_cmp merges.old key) (get key_cmp merges.new key)) }
{
    for file in files {
        merge_records(alloc, merges, &file.records)?;
    }
    Ok(())
}

/// Merges those of one file.
fn merge_records(alloc: Global, merges: &mut Merges, records: &[Record]) -> Result<(), AllocError>
    ensures { OnOk result ((key : OneKey) → GoesOn (states_of records.now key) (get key_cmp merges.old key) (get key_cmp merges.new key)) }
{
    for record in records {
        merge_record(alloc, merges, record)?;
    }
    Ok(())
}

/// Merges one, where its key is among these.
fn merge_record(alloc: Global, merges: &mut Merges, one: &Record) -> Result<(), AllocError>
    ensures { OnOk result ((key : OneKey) → GoesOn (states_of (one.now ∷ []) key) (get key_cmp merges.old key) (get key_cmp merges.new key)) }
{
    let Some(so_far) = merges.get(&one.key) else {
        return Ok(());
    };
    let next = merged_with(alloc, so_far, &one.state)?;
    merges.insert(one.key.copy()?, next)?;
    Ok(())
}

/// What a merge comes to with one state more.
fn merged_with(alloc: Global, so_far: &Merging, state: &KeyState) -> Result<Merging, AllocError>
    ensures { IfOk result (λ next. (states : List State) → HasCome states so_far.now → HasCome (states ++ state.now ∷ []) next) }
{
    let Merging::Merged(own) = so_far else {
        return Ok(Merging::PastLimit);
    };
    let mut merged = own.copy(alloc)?;
    match merged.merge(state) {
        Ok(_) => Ok(Merging::Merged(merged)),
        Err(MergeFault::ClockFull) => Ok(Merging::PastLimit),
        Err(MergeFault::NoMemory) => Err(AllocError),
    }
}
