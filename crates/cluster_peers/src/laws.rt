//! What holds of calls by a pass. The function does nothing: its contract is the law.

ghost use Rattle.std.specs.Prelude.{◌≡◌, ◌++◌, List};
ghost use Rattle.peers.specs.Calls.{Call as OneCall};
ghost use Rattle.cluster_stamps.specs.declared.view.Size.{Size};
ghost use Rattle.cluster_stamps.specs.declared.view.Told.{Told};
ghost use Rattle.cluster_stamps.specs.declared.view.View.{View};
ghost use Rattle.cluster_peers.specs.Peering.{Passes};

/// Whatever comes of a call, what the pass was told before stays, and what it is told comes behind it.
pub fn calls_only_add()
    ensures { (size : Size) (old : View) (call : OneCall) (new : View) → Passes size old call new → (more : List Told) × (new.told ≡ old.told ++ more) }
{}
