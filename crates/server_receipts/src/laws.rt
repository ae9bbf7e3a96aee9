//! What receipts tell. Each of these functions does nothing: its contract is the law.

ghost use Rattle.std.specs.Prelude.{◌≡◌, ◌≤◌, ◌++◌, ℕ, List};
ghost use Rattle.std.specs.List.{Contains};
ghost use Rattle.http_connection.specs.Dialogue.{Exchange};
ghost use Rattle.journal.specs.Entry.{Entry};
ghost use Rattle.journal.specs.Logs.{Log};
ghost use Rattle.cluster_stamps.specs.Rule.{StampsRise, seen};
ghost use Rattle.cluster_stamps.specs.declared.view.Told.{Told};
ghost use Rattle.cluster_vnode.specs.Gathers.{Differ, IsGathered, Stands};
ghost use Rattle.server_store.specs.View.{StoreView};
ghost use Rattle.server_one_thread.specs.Passes.{AreCallsOf, GivesUnnoted, PassCalls, Passing, all_calls, told_by};
ghost use Rattle.audit_replay.specs.Interleaved.{IsInterleaving};
ghost use Rattle.audit_cluster.specs.Moments.{AreMadeBy, HappenBehind, HappenFrom};
ghost use Rattle.server_receipts.specs.Receipts.{AreBehind, AreToldBy, front_of, up_to};

use hook_registry::{HookChanges, Hooks};

/// Of two receipts of one vnode, where the later was had after the earlier's entry, the journal before the later goes on behind that
/// entry: who reads after a write, by one pass, reads what has the write.
pub fn later_fronts_go_on()
    ensures { (logs : List Log) → Differ logs → (t u : Told) (up : Stands logs t) (later : Stands logs u) → t.vnode ≡ u.vnode → seen t ≤ u.at
        → (more : List Entry) × ((front_of logs u later).entries ≡ up_to logs t up ++ more) }
{}

/// Where the calls of exchanges stand in gathered journals, each answer tells of these by the receipts of its own calls.
pub fn answers_are_by_receipts<H: Hooks + HookChanges>()
    ensures { (told : List Told) (logs : List Log) → IsGathered told logs → (start end : StoreView Passing H) (xs : List Exchange) (owns : List (List Told))
        → AreCallsOf (GivesUnnoted PassCalls H.finds H.names H.takes) told_by start xs owns end → ((t : Told) → Contains (all_calls owns) t → Contains told t)
        → AreToldBy H.finds H.names H.takes logs start xs owns end }
{
    cluster_vnode::receipts_stand();
    cluster_vnode::gathered_are_journals();
    journal::laws::journals_go_on();
    journal::laws::siblings_are_current();
    journal::laws::merges_are_current();
}

/// What one worker's pass is told by later exchanges lies behind what it was told by earlier ones, and the stamps of all its calls rise,
/// whichever vnodes these are of.
pub fn calls_come_in_order<H: Hooks + HookChanges>()
    ensures behind { (logs : List Log) (start end : StoreView Passing H) (xs : List Exchange) (owns : List (List Told)) → AreToldBy H.finds H.names H.takes logs start xs owns end → AreBehind (told_by start) (all_calls owns) }
    ensures rise { (logs : List Log) (start end : StoreView Passing H) (xs : List Exchange) (owns : List (List Told)) → AreToldBy H.finds H.names H.takes logs start xs owns end → StampsRise (all_calls owns) }
{}

/// Where the gathered journals are one run, the calls of a worker's exchanges are steps of it, one behind the other: the merges of a write
/// come behind its put, and what a request calls comes behind what earlier requests of its connection called. Each vnode told what it
/// knew at that moment of the run. So it is of a run that goes on from fronts of the journals, too, where others were told of the calls
/// that made the entries of these.
pub fn answers_are_of_the_run<H: Hooks + HookChanges>()
    ensures behind { (told others : List Told) (logs : List Log) → IsGathered (told ++ others) logs → (fronts : List ℕ) → AreMadeBy others fronts logs
        → (start end : StoreView Passing H) (xs : List Exchange) (owns : List (List Told)) → AreToldBy H.finds H.names H.takes logs start xs owns end → ((t : Told) → Contains (all_calls owns) t → Contains told t) → HappenBehind fronts logs (all_calls owns) }
    ensures whole { (told : List Told) (logs : List Log) → IsGathered told logs → (run : IsInterleaving logs) (start end : StoreView Passing H) (xs : List Exchange) (owns : List (List Told))
        → AreToldBy H.finds H.names H.takes logs start xs owns end → ((t : Told) → Contains (all_calls owns) t → Contains told t) → HappenFrom run 0 (all_calls owns) }
{
    calls_come_in_order::<H>();
    cluster_vnode::receipts_stand();
    cluster_vnode::gathered_are_journals();
    audit_cluster::laws::calls_are_of_the_run();
}
