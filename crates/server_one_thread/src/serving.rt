//! All requests of a connection, on a store of one thread.

ghost use Rattle.std.specs.Prelude.{◌≡◌, ℕ, List, Some, IfOk, IfErr, OnErr};
ghost use Rattle.hook_registry.specs.Changes.{Change};
ghost use Rattle.hook_registry.specs.Tables.{Shows};
ghost use Rattle.http_connection.specs.Device.{HasRisen};
ghost use Rattle.server_one_thread.specs.Exchanges.{Serves, ServesFront};
ghost use Rattle.server_one_thread.specs.Journals.{AreJournals};
ghost use Rattle.server_one_thread.specs.Past.{Now};
ghost use Rattle.server_one_thread.specs.Stores.{IsOfOneThread};

use http_connection::{Backend, Front, FrontFault, Sink, Source};

/// Answers the requests of a connection until it ends, as [`Front::serve`] does, on a store over the vnodes and the
/// hooks of one thread, as `Store<Local, Registry>` is one. The count of
/// requests stays at its greatest.
///
/// Whatever the changes of the hooks so far are, each answer is that of the store with these changes and those that were answered on the
/// connection before it: a hook that was bound is in force at the next request. A read shows what is current among the writes that the
/// vnodes that answered know, or what the bucket's resolver made of it; a write's dot is that of an entry of its coordinator, and so
/// many vnodes as were asked for know it.
///
/// After an error the same holds of the exchanges that there were, and a front of their answers was written.
pub fn serve<S: Source, W: Sink, B: Backend>(
    front: &mut Front,
    source: &mut S,
    sink: &mut W,
    store: &mut B,
) -> Result<u64, FrontFault>
    // All requests were answered, each by what the store was at that moment.
    ensures answers { IfOk result (λ count. (now : B → Now) (bytes before : List ℕ) (changes : List Change) → IsOfOneThread B.gives B.copies now
        → S.remaining source.old ≡ Some bytes → W.contents sink.old ≡ Some before
        → Shows changes (now store.old).hooks → AreJournals (now store.old).peers.logs
        → Serves bytes (now store.old) (now store.new) changes before (W.contents sink.new) count) }
    // Where it breaks off, those of a front of the bytes were, and a front of the answers was written.
    ensures breaks { OnErr result ((now : B → Now) (bytes before : List ℕ) (changes : List Change) → IsOfOneThread B.gives B.copies now
        → S.remaining source.old ≡ Some bytes → W.contents sink.old ≡ Some before
        → Shows changes (now store.old).hooks → AreJournals (now store.old).peers.logs
        → ServesFront bytes (now store.old) (now store.new) changes before (W.contents sink.new)) }
    ensures read_fault { IfErr result (λ fault. fault ≡ FrontFault.Read → HasRisen (S.failures source.old) (S.failures source.new)) }
    ensures write_fault { IfErr result (λ fault. fault ≡ FrontFault.Write → HasRisen (W.failures sink.old) (W.failures sink.new)) }
{
    hook_registry::laws::changes_add_up();
    hook_registry::laws::hook_is_of_changes();
    journal::laws::journals_go_on();
    journal::laws::siblings_are_current();
    journal::laws::merges_are_current();
    front.serve(source, sink, store)
}
