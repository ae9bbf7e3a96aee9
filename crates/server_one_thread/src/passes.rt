//! Stores of one worker, and what the requests of its connections add to what its pass was told. Each of these functions does
//! nothing: its contract is the law.

ghost use Rattle.std.specs.Prelude.{◌≡◌, ◌++◌, List};
ghost use Rattle.http_connection.specs.Dialogue.{Exchange, Runs};
ghost use Rattle.peers.specs.Calls.{Call as PeerCall};
ghost use Rattle.cluster_stamps.specs.declared.view.Told.{Told};
ghost use Rattle.server_store.specs.View.{StoreView, shown};
ghost use Rattle.server_one_thread.specs.Passes.{AreCallsOf, GivesUnnoted, IsOfOnePass, PassCalls, Passing, all_calls, by_pass, told_by, told_to};

use cluster::Room;
use cluster_peers::ClusterPeers;
use hook_registry::{HookChanges, Hooks};
use http_connection::Backend;
use peers::Peers;
use server_store::Store;
use std::sync::Wait;

/// A store on the vnodes that one pass reaches is one of that pass, whatever its hooks are.
pub fn stores_are_of_one_pass<'a, B: Room, R: Wait, H: Hooks + HookChanges>(
    _store: &Store<ClusterPeers<'a, B, R>, H>,
)
    ensures { IsOfOnePass ⟦<Store<ClusterPeers<'a, B, R>, H> as Backend>⟧.gives ⟦<ClusterPeers<'a, B, R> as Peers>⟧.happens H.finds H.names H.takes
        (λ s. shown s.peers s.hooking.hooks s.hooking.table.listed s.placement s.noted.kinds)
        (λ p. record { size = p.size; pass = p.pass; failures = p.failures; origin = 0 }) }
{}

/// Where exchanges lead a store of one pass on, as those do that a worker's turn adds to the log of its connections, what the pass was told
/// is longer by the calls of these exchanges, one exchange after the other.
pub fn exchanges_are_told<B: Backend, P: Peers, H: Hooks + HookChanges>()
    ensures { (now : B → StoreView P H) (passing : P → Passing) → IsOfOnePass B.gives P.happens H.finds H.names H.takes now passing
        → (xs : List Exchange) (start end : B) → Runs B.gives start xs end
        → (owns : List (List Told)) × AreCallsOf B.gives (told_to now passing) start xs owns end × (told_to now passing end ≡ told_to now passing start ++ all_calls owns) }
{}

/// Exchanges lead a store on as they lead on what one pass shows of it, where each call on a vnode is one by the pass; what is noted of
/// troubles may be taken from the store meanwhile.
pub fn exchanges_are_by_a_pass<P: Peers, H: Hooks + HookChanges>()
    ensures { (passing : P → Passing) → ((old new : P) (call : PeerCall) → P.happens old call new → PassCalls (passing old) call (passing new))
        → (xs : List Exchange) (start end : StoreView P H) → Runs (GivesUnnoted P.happens H.finds H.names H.takes) start xs end
        → (owns : List (List Told)) × AreCallsOf (GivesUnnoted PassCalls H.finds H.names H.takes) told_by (by_pass passing start) xs owns (by_pass passing end) }
{}

/// No exchange changes whom the vnodes of a store were lent by.
pub fn exchanges_keep_the_origin<P: Peers, H: Hooks + HookChanges>()
    ensures { (xs : List Exchange) (start end : StoreView P H) → Runs (GivesUnnoted P.happens H.finds H.names H.takes) start xs end → P.origin end.peers ≡ P.origin start.peers }
{}
