//! What holds of keys that are folded. Each of these functions does nothing: its contract is the law.

ghost use Rattle.std.specs.Prelude.{◌≡◌, ◌≢◌, ℕ, ◌<◌, ◌≤◌, List, Contains, false, length, true};
ghost use Rattle.dvv.specs.declared.Dot.{Dot};
ghost use Rattle.dvv.specs.Clock.{Covers, Within};
ghost use Rattle.journal.specs.Replay.{IsMergeOf};
ghost use Rattle.key_state.specs.State.{State};
ghost use Rattle.key_state.specs.declared.content.Key.{Key};
ghost use Rattle.key_state.specs.declared.content.Sibling.{Sibling};
ghost use Rattle.kept_file.specs.declared.file.KeptFile.{KeptFile};
ghost use Rattle.std.specs.List.{AllByRecursion};
ghost use Rattle.record_codec.specs.declared.record.Record.{Record};
ghost use Rattle.kept_fold.specs.Folds.{IsFold, anew, is_foldable};
ghost use Rattle.kept_fold.specs.Merging.{AreMerged, HasFewStates, all_records, states_of};
ghost use Rattle.kept_fold.specs.Stale.{fold_id, greatest, is_stale, last_fold, start_of};

use journal::laws::merges_go_on;

/// The merge of a key's records is what a journal leaves that merges them one after another.
pub fn merges_are_merges()
    ensures { (key : Key) (states : List State) (merged : State) → AreMerged states merged → IsMergeOf key states merged }
{
    merges_go_on();
}

/// Where a key's records have no more states that differ than there are files, a key is folded wherever the merge of its records has more than
/// 32 entries, and a sibling: none is passed over. So have it files each of which has the key once at most, as a store writes them, and also
/// files of as many vnodes that such files were placed at, each of which may have the key once for each state.
pub fn keys_of_more_entries_are_folded()
    ensures few { (files : List KeptFile) (key : Key) (merged : State) → HasFewStates files key
        → AreMerged (states_of (all_records files) key) merged → is_foldable merged ≡ true → IsFold files key merged }
    ensures once { (files : List KeptFile) (key : Key) (merged : State) → AllByRecursion (λ (f : KeptFile). length (states_of f.records.items key) ≤ 1) files
        → AreMerged (states_of (all_records files) key) merged → is_foldable merged ≡ true → IsFold files key merged }
{}

/// A context that counts an event of another identifier counts one that the clock of contents written anew doesn't: whoever has it is
/// refused.
pub fn former_contexts_are_ahead()
    ensures { (id : ℕ) (siblings : List Sibling) (seen : List Dot) (event : Dot) → Covers seen event → event.vnode ≢ id → Within seen (anew id siblings).clock → ⊥ }
{}

/// Beside a record that counts the contents that a start wrote anew, each record of the key is stale that is of before that start: the start has
/// read it, so nothing of it is lost, and nothing of it comes back. A record that counts an event of the last of these starts isn't stale.
pub fn records_of_before_are_stale()
    ensures before { (records : List Record) (old later : Record) (number n : ℕ) → Contains records later → later.key ≡ old.key → Contains later.state.clock (record { vnode = fold_id number; n = n })
        → greatest start_of old.state.clock < number → is_stale records old ≡ true }
    ensures behind { (records : List Record) (one : Record) → last_fold records one.key ≤ greatest start_of one.state.clock → is_stale records one ≡ false }
{}
