//! Files that show when they were cut or changed.

ghost use Rattle.std.specs.Prelude.{◌≡◌, IfOk, IfSome, IfNone, ℕ, List};
ghost use Rattle.kept_folder.specs.Seals.{sealed};

use sha1::Sha1;
use std::alloc::{AllocError, Global};

/// So many bytes a seal has: two digits for each byte of a SHA-1, and the end of the line.
const SEAL_BYTES: usize = 41;

/// Bytes and their seal: a line with their SHA-1 in hexadecimal digits.
pub fn seal(alloc: Global, held: &[u8]) -> Result<Vec<u8>, AllocError>
    ensures { IfOk result (λ file. file.items ≡ sealed held.now) }
{
    let digits = hex::encode(alloc, &Sha1::digest(held))?;
    let mut file = Vec::new(alloc);
    file.extend_from_slice(held)?;
    file.extend_from_slice(digits.as_bytes())?;
    file.extend_from_slice(b"\n")?;
    Ok(file)
}

/// The bytes before a file's seal, where it is theirs.
pub fn unseal(alloc: Global, file: &[u8]) -> Result<Option<&[u8]>, AllocError>
    ensures some { IfOk result (λ found. IfSome found (λ requests. file.now ≡ sealed requests.now)) }
    ensures none { IfOk result (λ found. IfNone found ((requests : List ℕ) → file.now ≡ sealed requests → ⊥)) }
{
    let Some(len) = file.len().checked_sub(SEAL_BYTES) else {
        return Ok(None);
    };
    let (requests, _) = file.split_at(len);
    if seal(alloc, requests)?.as_slice() == file {
        Ok(Some(requests))
    } else {
        Ok(None)
    }
}
