//! What a `check` line runs.

ghost use Rattle.std.specs.Prelude.{◌≡◌};
ghost use Rattle.bpf_image.specs.declared.image.ImageKind.TheVariants.{PreCommit};

use key_state::Content;
use world::Hook;

/// A pre-commit hook, and the new content that it is to run on.
#[derive(Drop)]
pub struct Check {
    pub hook: Hook,
    pub new: Content,
    ghost pre_commit: { hook.kind ≡ PreCommit },
}
