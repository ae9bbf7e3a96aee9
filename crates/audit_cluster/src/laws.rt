//! What the clauses of a cluster and of an audit give together. The function does nothing: its contract is the law.

ghost use Rattle.std.specs.Prelude.{◌<◌, ◌↔◌, ℕ, List, Contains};
ghost use Rattle.journal.specs.Logs.{Log};
ghost use Rattle.cluster_stamps.specs.Rule.{StampsRise};
ghost use Rattle.cluster_stamps.specs.declared.view.Told.{Told};
ghost use Rattle.cluster_vnode.specs.Gathers.{IsGathered};
ghost use Rattle.world.specs.Knowledge.{Knowledge};
ghost use Rattle.audit_replay.specs.Interleaved.{IsInterleaving, IsInterleavingFrom};
ghost use Rattle.audit_cluster.specs.Moments.{HappenFrom, IsCallBehind, IsCallOf};

/// Where gathered journals are one run, calls of rising stamps, as a pass is told of them, are steps of the run one behind the other, and
/// each vnode told what it knew at that moment of the run. Of any two calls that are steps the one with the greater stamp comes later.
pub fn calls_are_of_the_run()
    ensures calls { (told : List Told) (logs : List Log) → IsGathered told logs → (begin : Knowledge) (fronts : List ℕ) (run : IsInterleavingFrom begin fronts logs) (ts : List Told) → StampsRise ts
        → ((t : Told) → Contains ts t → Contains told t) → ((t : Told) → Contains ts t → IsCallBehind fronts logs t) → HappenFrom run 0 ts }
    ensures whole { (told : List Told) (logs : List Log) → IsGathered told logs → (run : IsInterleaving logs) (ts : List Told) → StampsRise ts → ((t : Told) → Contains ts t → Contains told t) → HappenFrom run 0 ts }
    ensures order { (begin : Knowledge) (fronts : List ℕ) (logs : List Log) (run : IsInterleavingFrom begin fronts logs) (m n : ℕ) (t u : Told) → IsCallOf run m t → IsCallOf run n u → (m < n) ↔ (t.stamp < u.stamp) }
{
    cluster_vnode::receipts_stand();
    audit_replay::laws::steps_are_in_order();
    audit_replay::laws::steps_are_known();
}
