//! Programs from bytes: read as an image or as raw code, and let in only where the verifier accepts them.
#![tactic(auto)]

ghost use Rattle.std.specs.Prelude.{◌≡◌, ◌≤◌, ℕ, List, length, take, IfOk, IfErr};
ghost use Rattle.bpf_image.specs.Image.{IsProgram, IsImage};
ghost use Rattle.bpf_verifier.specs.Table.{IsAccepted};
ghost use Rattle.bpf_admission.specs.Admissions.{IsProgramOf, IsLetIn, IsTurnedAway, IsNoHook, IsNotRun};
ghost use Rattle.bpf_admission.specs.Enough.{AreReadAlike};

mod refusal;

use bpf_helpers::Sigs;
use bpf_image::{ImageKind, read_image, read_program};
use bpf_verifier::{Verified, verify};
pub use refusal::Refusal;
use std::alloc::Global;

/// The program of an image, verified for tables with these helpers.
///
/// Refused with the first fault of the bytes, then with the first rule that the program breaks. `NoMemory` is told only of bytes that have
/// the head of an image and code of a length that code may have, and of a program that keeps the rules of form.
pub fn admit_image(alloc: Global, bytes: &[u8], sigs: &Sigs) -> Result<Verified, Refusal>
    ensures admitted { IfOk result (IsLetIn bytes.now sigs.now) }
    ensures refused { IfErr result (IsTurnedAway bytes.now sigs.now) }
{
    let image = read_image(alloc, bytes)?;
    Ok(verify(alloc, image, sigs)?)
}

/// The same of an image that must be of some kind; one of another kind that would be let in is `OtherKind`.
pub fn admit_hook(
    alloc: Global,
    bytes: &[u8],
    kind: ImageKind,
    sigs: &Sigs,
) -> Result<Verified, Refusal>
    ensures admitted { IfOk result (λ p. IsLetIn bytes.now sigs.now p × (p.kind ≡ kind)) }
    ensures refused { IfErr result (IsNoHook bytes.now kind sigs.now) }
{
    let verified = admit_image(alloc, bytes, sigs)?;
    if verified.image().kind == kind {
        Ok(verified)
    } else {
        Err(Refusal::OtherKind)
    }
}

/// The program that bytes are, an image or raw code, verified for tables with these helpers.
pub fn admit_program(alloc: Global, bytes: &[u8], sigs: &Sigs) -> Result<Verified, Refusal>
    ensures admitted { IfOk result (λ p. IsProgramOf bytes.now sigs.now p × IsAccepted p) }
    ensures refused { IfErr result (IsNotRun bytes.now sigs.now) }
{
    let image = read_program(alloc, bytes)?;
    Ok(verify(alloc, image, sigs)?)
}

/// How many bytes the longest image has: its head and 4,096 slots.
const MAX_IMAGE_BYTES: u64 = 16 + 8 * 4096;

/// At most how many bytes of a file have to be read to judge it as a program: [`enough`] is never more.
pub const MAX_READ_BYTES: usize = 16 + 8 * 4097;

/// How many first bytes of a file of `len` bytes are read as all of them are, as an image and as a program: all of a file that is no
/// longer than the longest image, and of another the longest image's and 1 to 8 more, so that what is left out is whole slots. For code
/// that is no whole number of slots is refused otherwise than code of too many.
pub fn enough(len: u64) -> usize
    ensures few { result ≤ 32792 }
    ensures alike { (bytes : List ℕ) → length bytes ≡ len → AreReadAlike (take result bytes) bytes }
{
    match len.checked_sub(MAX_IMAGE_BYTES + 1) {
        None => len as usize,
        Some(past) => (MAX_IMAGE_BYTES + 1 + past % 8) as usize,
    }
}
