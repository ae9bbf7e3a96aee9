//! What holds of records that were loaded. Each of these functions does nothing: its contract is the law.

ghost use Rattle.std.specs.Prelude.{◌≡◌, ◌++◌, ℕ, true, List, Contains, length};
ghost use Rattle.world.specs.Records.{AreMergesOf, AreOfAll};
ghost use Rattle.dvv.specs.declared.Dot.{Dot};
ghost use Rattle.journal.specs.Entry.{Entry, Put};
ghost use Rattle.journal.specs.Journals.{IsJournal};
ghost use Rattle.journal.specs.Replay.{IsReplay, Knows, known_in};
ghost use Rattle.key_state.specs.Limits.{IsKey};
ghost use Rattle.key_state.specs.State.{State};
ghost use Rattle.key_state.specs.declared.content.Content.{Content};
ghost use Rattle.key_state.specs.declared.content.Key.{Key};
ghost use Rattle.cluster_stamps.specs.declared.view.Told.{Told};
ghost use Rattle.journal.specs.Logs.{Log};
ghost use Rattle.cluster_stamps.specs.declared.view.View.{View};
ghost use Rattle.cluster_vnode.specs.Gathers.{FitsIn, IsGathered};
ghost use Rattle.kept_file.specs.Placed.{IsPlacedAt, stands};
ghost use Rattle.kept_file.specs.declared.file.KeptFile.{KeptFile};
ghost use Rattle.record_codec.specs.declared.record.Record.{Record as OneRecord};
ghost use Rattle.ring.specs.Places.{PlacementView};
ghost use Rattle.kept_restore.specs.Beginnings.{BeginsWith};
ghost use Rattle.kept_restore.specs.Loads.{HasLoaded, Mark, merges_told};

use world::record_laws::{beginnings_are_merges, records_carry_all};

/// Where all that a pass was told while a vnode took records over stands in the vnode's journal, the journal begins with the merges of
/// these records, each once and in order.
pub fn loads_begin_journals()
    ensures { (journal : List Entry) (id : ℕ) (records : List OneRecord) (marks : List Mark) → length marks ≡ length records → ((t : Told) → Contains (merges_told id 0 records marks) t → FitsIn journal t)
        → (es : List Entry) × (rest : List Entry) × AreMergesOf es records × (journal ≡ es ++ rest) }
{}

/// Where what was told stands in the journals of gathered vnodes, each of it once, and a pass was told, among other things, that a vnode
/// took records over, that vnode's journal begins with their merges.
pub fn loads_stand()
    ensures { (before after : List Told) (old new : View) (logs : List Log) (id : ℕ) (records : List OneRecord)
        → IsGathered (before ++ new.told ++ after) logs → HasLoaded old new id records → BeginsWith logs id records }
{}

/// What was acknowledged stays known over a stop in order: where a journal begins with the merges of records of all keys of another, each
/// write that stands in that one is known there, and so is each event of a context that was told there at any time.
pub fn acknowledged_stays()
    ensures puts { (old : Log) (records : List OneRecord) (es rest : List Entry) (stamp : ℕ) (key : Key) (seen : List Dot) (content : Content) (dot : Dot)
        → IsJournal old.vnode old.entries → AreOfAll old records → AreMergesOf es records → Contains old.entries (Put stamp key seen content dot) → known_in (es ++ rest) key dot ≡ true }
    ensures contexts { (old : Log) (records : List OneRecord) (es rest before after : List Entry) (key : Key) (state : State)
        → IsJournal old.vnode old.entries → AreOfAll old records → AreMergesOf es records → old.entries ≡ before ++ after → IsReplay before key state → Knows (es ++ rest) key state.clock }
{
    records_carry_all();
}

/// The same where a vnode takes over records that were placed, whatever placement their files were written by: where one of the files has the
/// records of all keys of a journal, each write of a key that stands in that journal is known at each vnode of the key's list, and so is each
/// event of a context that was told there at any time.
pub fn acknowledged_is_placed()
    ensures puts { (placement : PlacementView) (files : List KeptFile) (file : KeptFile) (vnode : ℕ) (placed : List OneRecord) (old : Log) (es rest : List Entry) (stamp : ℕ) (key : Key) (seen : List Dot) (content : Content) (dot : Dot)
        → IsPlacedAt placement files vnode placed → Contains files file → AreOfAll old file.records.items → IsJournal old.vnode old.entries → IsKey key → stands placement key vnode ≡ true
        → AreMergesOf es placed → Contains old.entries (Put stamp key seen content dot) → known_in (es ++ rest) key dot ≡ true }
    ensures contexts { (placement : PlacementView) (files : List KeptFile) (file : KeptFile) (vnode : ℕ) (placed : List OneRecord) (old : Log) (es rest before after : List Entry) (key : Key) (state : State)
        → IsPlacedAt placement files vnode placed → Contains files file → AreOfAll old file.records.items → IsJournal old.vnode old.entries → IsKey key → stands placement key vnode ≡ true
        → AreMergesOf es placed → old.entries ≡ before ++ after → IsReplay before key state → Knows (es ++ rest) key state.clock }
{
    beginnings_are_merges();
    records_carry_all();
}
