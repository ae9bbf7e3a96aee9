//! How the hooks of a store begin with a list of requests.

ghost use Rattle.std.specs.Prelude.{◌≡◌, ℕ, [], Some, true, IfOk, OnOk};
ghost use Rattle.http_connection.specs.Dialogue.{Completes};
ghost use Rattle.kept_hooks.specs.Alone.{Alone, AreTaken, Changes, alone_of};
ghost use Rattle.kept_hooks.specs.Replays.{no_contents};

use crate::alone::HooksAlone;
use crate::list::Requests;
use crate::refused::RefusedHook;
use crate::replaying::{ReplayFault, replay};
use bpf_helpers::Sigs;
use hook_registry::HookChanges;
use std::alloc::Global;

/// With what the hooks of a store have begun.
#[derive(Drop)]
pub struct BegunHooks {
    /// The requests that make the hooks what they are, those of hooks that are refused too: another version may let them in.
    pub requests: Requests,
    /// The hooks that are not let in any more. Their names have no hook, and what is bound to these names stays bound to them.
    pub refused: Vec<RefusedHook>,
}

/// Has hooks that may call helpers with these signatures begin with the requests of a list, each of which is served in order. A hook that is
/// not let in any more keeps no other from being served: its name has a stand-in until all are, and no hook then.
///
/// The errors: a request is no change of hooks that can be made, so the list isn't one that was kept; memory ran out.
pub fn begin_hooks<H: HookChanges>(
    alloc: Global,
    sigs: &Sigs,
    hooks: &mut H,
    held: &[u8],
) -> Result<BegunHooks, ReplayFault>
    ensures made { IfOk result (λ begun. (count : ℕ) × (served : Alone H)
        × Completes (Changes H.takes sigs.now) 1 held.now (alone_of hooks.old (record { requests = []; whole = true }) []) served [] (Some (no_contents count)) count
        × (begun.requests ≡ served.listed) × (begun.refused.items ≡ served.refused) × AreTaken H.takes served.refused served.hooks hooks.new) }
{
    let mut store = HooksAlone::new(alloc, sigs, hooks);
    replay(alloc, held, &mut store)?;
    let HooksAlone {
        hooks,
        requests,
        refused,
        ..
    } = store;
    take_from(hooks, &refused)?;
    Ok(BegunHooks { requests, refused })
}

/// Takes the names of hooks that were refused from their stand-ins. The error: memory ran out.
fn take_from<H: HookChanges>(hooks: &mut H, refused: &[RefusedHook]) -> Result<(), ReplayFault>
    ensures { OnOk result (AreTaken H.takes refused.now hooks.old hooks.new) }
{
    for one in refused {
        if hooks.remove(&one.name).is_err() {
            return Err(ReplayFault::NoMemory);
        }
    }
    Ok(())
}
