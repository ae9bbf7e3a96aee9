//! Images of hooks, by the names of their files.

ghost use Rattle.std.specs.Prelude.{◌≡◌, ℕ, List, IfOk, Result};
ghost use Rattle.bpf_helpers.specs.declared.sig.Entry.{Entry};
ghost use Rattle.bpf_helpers.specs.Entries.{AgreesWith};
ghost use Rattle.bpf_image.specs.declared.image.ImageKind.{ImageKind as Kind};
ghost use Rattle.bpf_verifier.specs.Program.{Program};
ghost use Rattle.script_events.specs.declared.images.NoHook.{NoHook as WhyNone};

use bpf_admission::Refusal;
use bpf_image::ImageKind;
use bpf_verifier::Verified;
use std::alloc::{AllocError, Global};
use std::io;

/// Why there is no hook under a name.
#[derive(Clone, Copy)]
pub enum NoHook {
    /// The file can't be read.
    Unreadable,
    /// The file's image is not let in, or is of another kind.
    Refused(Refusal),
}

impl From<AllocError> for NoHook {
    ghost use Rattle.std.specs.Prelude.{◌≡◌};
    ghost use Rattle.bpf_admission.specs.declared.refusal.Refusal.TheVariants.{NoMemory};
    ghost use Rattle.script_events.specs.declared.images.NoHook.TheVariants.{Refused};

    ghost from_gives = { λ _ no_hook. no_hook ≡ Refused NoMemory };

    /// Want of memory for a hook is told as the refusal of its image.
    fn from(_: AllocError) -> NoHook {
        NoHook::Refused(Refusal::NoMemory)
    }
}

impl From<io::Error> for NoHook {
    ghost use Rattle.std.specs.Prelude.{◌≡◌, ◌⊎◌};
    ghost use Rattle.bpf_admission.specs.declared.refusal.Refusal.TheVariants.{NoMemory};
    ghost use Rattle.script_events.specs.declared.images.NoHook.TheVariants.{Refused, Unreadable};

    ghost from_gives = { λ _ no_hook. (no_hook ≡ Refused NoMemory) ⊎ (no_hook ≡ Unreadable) };

    /// Want of memory is told as the refusal of the hook's image; after any other failure the file can't be read.
    fn from(error: io::Error) -> NoHook {
        match error.kind() {
            io::ErrorKind::OutOfMemory => NoHook::from(AllocError),
            _ => NoHook::Unreadable,
        }
    }
}

/// Where the images of a script's hooks come from.
pub trait Images {
    // The helpers that a table must have for these hooks.
    ghost listed: { Self → List Entry };

    // What the file of a name may come to, where the hook of a kind is asked for.
    ghost found: { Self → List ℕ → Kind → Result Program WhyNone → Type 0 } = { λ _ _ _ _. Unit {0} };

    /// The hook of a kind in the file of a name. A script asks for each once.
    fn hook(&self, alloc: Global, file: &str, kind: ImageKind) -> Result<Verified, NoHook>
        ensures runs { IfOk result (λ hook. (hook.kind ≡ kind) × AgreesWith (listed self.now) hook.sigs) }
        ensures found { found self.now file.now kind result };
}
