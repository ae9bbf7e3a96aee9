//! What the clauses of a cluster give together.

ghost use Rattle.std.specs.Prelude.{◌≡◌, ◌++◌, List, Contains};
ghost use Rattle.journal.specs.Entry.{Entry};
ghost use Rattle.journal.specs.Journals.{IsJournal};
ghost use Rattle.journal.specs.Logs.{Log};
ghost use Rattle.cluster_stamps.specs.declared.view.Told.{Told};
ghost use Rattle.cluster_vnode.specs.Gathers.{Stands, Differ, IsGathered, AreInTurn, all_handed};

/// What was handed out of a vnode's journal in turn, from its first entry on, is together a front of the journal that is gathered.
pub fn hand_outs_are_a_front()
    ensures { (vs : List Log) (v : Log) (ts : List Told) → Differ vs → Contains vs v → ((t : Told) → Contains ts t → Stands vs t) → AreInTurn v.vnode 0 ts → (rest : List Entry) × (v.entries ≡ all_handed ts ++ rest) }
{}

/// Each receipt of what is gathered stands in the journal of its vnode.
pub fn receipts_stand()
    ensures { (told : List Told) (logs : List Log) → IsGathered told logs → (t : Told) → Contains told t → Stands logs t }
{}

/// What is gathered are journals, of different vnodes.
pub fn gathered_are_journals()
    ensures journals { (told : List Told) (logs : List Log) → IsGathered told logs → (log : Log) → Contains logs log → IsJournal log.vnode log.entries }
    ensures differ { (told : List Told) (logs : List Log) → IsGathered told logs → Differ logs }
{
    journal::laws::journals_go_on();
}
