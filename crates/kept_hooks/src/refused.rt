//! Hooks that were let in once, and are not any more.

ghost use Rattle.std.specs.Prelude.{◌≡◌, IfOk};
ghost use Rattle.bpf_admission.specs.Admissions.{IsLetIn};
ghost use Rattle.kept_hooks.specs.Alone.{others, stand_in};

use crate::request::{Phase, is_one};
use bpf_admission::{Refusal, admit_image};
use bpf_helpers::Sigs;
use bpf_verifier::Verified;
use key_state::Bytes;
use std::alloc::Global;
use std::fmt;

/// A hook that a list has, and that isn't let in: its name has no hook. It is shown as the name, and why.
#[derive(Drop)]
pub struct RefusedHook {
    /// The name. What is bound to it stays bound to it.
    pub name: Bytes,
    /// Why it isn't let in. It is never want of memory.
    pub refusal: Refusal,
}

impl fmt::Display for RefusedHook {
    fn fmt<W: fmt::Write>(&self, f: &mut fmt::Formatter<W>) -> fmt::Result {
        f.write_str("hook ")?;
        for byte in self.name.as_slice() {
            f.write_char(*byte as char)?;
        }
        write!(f, ": {}", self.refusal)
    }
}

/// An image of a pre-commit hook that answers 0: it lets each content pass.
const PASSES: &[u8] =
    b"RBPF\x01\x01\x00\x00\x80\x00\x00\x00\x00\x00\x00\x00\xb7\x00\x00\x00\x00\x00\x00\x00\x95\x00\x00\x00\x00\x00\x00\x00";

/// An image of a resolver that answers 0: it keeps the siblings.
const KEEPS: &[u8] =
    b"RBPF\x01\x02\x00\x00\x80\x00\x00\x00\x00\x00\x00\x00\xb7\x00\x00\x00\x00\x00\x00\x00\x95\x00\x00\x00\x00\x00\x00\x00";

/// A program that has the name of an image which isn't let in, as long as requests are served that bind the name: it is of the kind that
/// the image says.
pub(crate) fn stand_in_of(alloc: Global, image: &Bytes, sigs: &Sigs) -> Result<Verified, Refusal>
    ensures { IfOk result (IsLetIn (stand_in image.now) sigs.now) }
{
    if Phase::Resolver.runs(image) {
        admit_image(alloc, KEEPS, sigs)
    } else {
        admit_image(alloc, PASSES, sigs)
    }
}

/// Lets go what was refused of a name.
pub(crate) fn let_go(refused: &mut Vec<RefusedHook>, name: &Bytes)
    ensures { refused.new.items ≡ others name.now refused.old.items }
{
    refused.retain(|one| !is_one(&one.name, name));
}
