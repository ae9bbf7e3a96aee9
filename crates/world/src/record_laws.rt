//! Laws of records that are merged. Each of these functions does nothing: its contract is the law.

ghost use Rattle.std.specs.Prelude.{◌≡◌, ℕ, ◌≤◌, List, [], ◌∷◌, length, Contains};
ghost use Rattle.bpf_helpers.specs.declared.sig.Entry.{Entry as Helper};
ghost use Rattle.key_state.specs.declared.content.Key.{Key};
ghost use Rattle.key_state.specs.State.{empty};
ghost use Rattle.journal.specs.Entry.{Entry};
ghost use Rattle.journal.specs.Journals.{IsJournal};
ghost use Rattle.journal.specs.Logs.{Log, max_entries};
ghost use Rattle.journal.specs.Replay.{IsReplay, LeaveAlike};
ghost use Rattle.record_codec.specs.declared.record.Record.{Record as OneRecord};
ghost use Rattle.world.specs.declared.event.Event.{Event};
ghost use Rattle.world.specs.Beginning.{BeginsWith, merges_of};
ghost use Rattle.world.specs.Knowledge.{Knowledge};
ghost use Rattle.world.specs.Running.{AreRunnableFrom, max_vnodes};
ghost use Rattle.world.specs.Dumps.{GoesOnFrom, IsDumpIn};
ghost use Rattle.world.specs.Records.{AreMergesOf, AreOfAll, AreRising, keys_in};

/// Merges of records of rising keys leave each record's state at its key, and nothing at any other key.
pub fn merges_leave_records()
    ensures there { (es : List Entry) (records : List OneRecord) (r : OneRecord) → AreMergesOf es records → AreRising records → Contains records r → IsReplay es r.key r.state }
    ensures elsewhere { (es : List Entry) (records : List OneRecord) (k : Key) → AreMergesOf es records → (Contains (keys_in records) k → ⊥) → IsReplay es k empty }
{}

/// A vnode that has merged a record of each key of another leaves at every key what that one left: its siblings, tombstones among
/// them, and its clock.
pub fn records_carry_all()
    ensures { (old : Log) (records : List OneRecord) (es : List Entry) (k : Key) → IsJournal old.vnode old.entries → AreOfAll old records → AreMergesOf es records → LeaveAlike old.entries es k }
{}

/// A new vnode takes the merges of records of rising keys: they are a journal. So only want of memory can refuse one.
pub fn merges_are_a_journal()
    ensures { (vnode : ℕ) (es : List Entry) (records : List OneRecord) → AreMergesOf es records → AreRising records → length records ≤ max_entries → IsJournal vnode es }
{}

/// The merges by which a run begins from records are such merges.
pub fn beginnings_are_merges()
    ensures { (stamp : ℕ) (records : List OneRecord) → AreMergesOf (merges_of stamp records) records }
{}

/// A dump's records are a beginning: where a world has led to them, there is one in which the same writes were put, whose first vnode has
/// merged the records and knows what the dumped vnode knew. So what a run from these records prints goes on from the world before.
pub fn dumps_begin()
    ensures { (world : Knowledge) (logs : List Log) (vnode incarnation vnodes : ℕ) (listed : List Helper) (records : List OneRecord) (events : List Event)
        → 1 ≤ vnodes → vnodes ≤ max_vnodes → AreRunnableFrom (0 ∷ incarnation ∷ []) vnodes listed events → IsDumpIn world logs vnode incarnation vnodes records events
        → (begin : Knowledge) × BeginsWith incarnation vnodes records events begin × GoesOnFrom world vnode begin }
{}
