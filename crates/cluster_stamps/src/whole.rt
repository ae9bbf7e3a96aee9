//! The whole state that was built of a part.

ghost use Rattle.std.specs.Prelude.{◌≡◌};
ghost use Rattle.cluster_stamps.specs.Wholes.{last_merged};

use std::marker::Model;
use std::snapshot::Snapshot;
use vnode::Vnode;

/// The whole state that was built of a part, and merged. It has no bytes: only contracts see it.
#[derive(Drop)]
#[derive_where(Debug)]
pub struct Whole {
    #[derive_where(skip)]
    after: Snapshot<Vnode>,
}

impl Model for Whole {
    ghost use Rattle.key_state.specs.State.{State};
    ghost use Rattle.cluster_stamps.specs.Wholes.{last_merged};

    ghost Value = { State };

    ghost view = { λ w. last_merged w.after.value.entries };
}

impl Whole {
    // The state that the last entry of a vnode merged.
    pub(crate) fn last_of(vnode: &Vnode) -> Whole
        ensures { result ≡ last_merged vnode.now.entries }
    {
        Whole {
            after: Snapshot::of(vnode),
        }
    }
}
