//! What holds of the vnodes of one thread, whatever is called. Each of these functions does nothing: its contract is the law.

ghost use Rattle.std.specs.Prelude.{◌≡◌, List, length};
ghost use Rattle.peers.specs.Calls.{Call, Made};
ghost use Rattle.peers.specs.Locals.{LocalView, LocalStep};

/// Calls add no vnode and take none away, and the place of a key stays.
pub fn calls_keep_vnodes()
    ensures vnodes { (old new : LocalView) (calls : List Call) → Made LocalStep old calls new → length new.logs ≡ length old.logs }
    ensures first { (old new : LocalView) (calls : List Call) → Made LocalStep old calls new → new.first ≡ old.first }
{}
