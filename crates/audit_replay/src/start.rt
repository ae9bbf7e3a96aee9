//! What vnodes that are followed begin with.

ghost use Rattle.std.specs.Prelude.{◌≡◌, []};

use std::alloc::Global;
use vnode::Seed;

/// What vnodes that are followed begin with.
#[derive(Drop)]
pub struct Start {
    /// By what who follows them makes vnodes of its own. These have the same keys in the same order where the others were made by it, too.
    pub seed: Seed,
    /// How many of the first entries of each vnode, by index, were there before the run: its front. Where there is no number for a vnode, it
    /// has none.
    pub fronts: Vec<usize>,
}

impl Start {
    /// Nothing was there, and vnodes are made by the seed that is fixed.
    pub fn empty(alloc: Global) -> Start
        ensures { result.fronts.items ≡ [] }
    {
        Start {
            seed: Seed::fixed(),
            fronts: Vec::new(alloc),
        }
    }
}
