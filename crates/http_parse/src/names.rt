//! The names in a path.

ghost use Rattle.std.specs.Prelude.{◌≡◌, ◌==◌, ◌&&◌, ◌||◌, true, slice_get, IfOk};
ghost use Rattle.std.specs.List.{slice_split, list_all};
ghost use Rattle.std.specs.Char.{is_ascii_alphanumeric};
ghost use Rattle.std.specs.Option.{option_copied};
ghost use Rattle.std.specs.Cow.{cow_slice_items};
ghost use Rattle.key_state.specs.Limits.{IsKey, longest_bucket, longest_key};
ghost use Rattle.http_request.specs.Target as spec;

use http_request::MAX_HOOK_NAME_BYTES;
use key_state::{Bytes, Key};
use percent_encoding::percent_decode;
use std::alloc::{AllocError, Global};
use std::borrow::CowSlice;

/// Whether the name has 1 to `most` bytes.
pub(crate) fn is_name(most: usize, name: &[u8]) -> bool
    ensures { result ≡ spec.is_name most name.now }
{
    1 <= name.len() && name.len() <= most
}

/// Whether the bucket and the key in it are within their limits.
pub(crate) fn has_names(key: &Key) -> bool
    ensures names { result ≡ spec.is_name longest_bucket key.now.bucket && spec.is_name longest_key key.now.key }
    ensures fits { result ≡ true → IsKey key.now }
{
    key.is_within_limits()
}

/// Whether the name is a hook's: 1 to 64 letters, digits, `_` and `-`.
pub(crate) fn is_hook_name(name: &[u8]) -> bool
    ensures { result ≡ spec.is_hook_name name.now }
{
    is_name(MAX_HOOK_NAME_BYTES, name) && are_hook_letters(name)
}

fn are_hook_letters(name: &[u8]) -> bool
    ensures { result ≡ list_all (λ b. is_ascii_alphanumeric b || (b == 95) || (b == 45)) name.now }
{
    name.iter().all(|b| is_hook_letter(*b))
}

fn is_hook_letter(b: u8) -> bool
    ensures { result ≡ is_ascii_alphanumeric b || (b == 95) || (b == 45) }
{
    b.is_ascii_alphanumeric() || b == b'_' || b == b'-'
}

/// A piece of a path, between its slashes, with its escapes read.
pub(crate) fn name_at(alloc: Global, path: &str, i: usize) -> Result<Bytes, AllocError>
    ensures { IfOk result (λ name. name ≡ spec.name_at i path.now) }
{
    let name = decoded_at(alloc, path, i)?;
    Bytes::from_slice(alloc, name.as_slice())
}

/// The same, lent where it has no escapes.
pub(crate) fn decoded_at(
    alloc: Global,
    path: &str,
    i: usize,
) -> Result<CowSlice<'_, u8>, AllocError>
    ensures { IfOk result (λ name. cow_slice_items name ≡ spec.name_at i path.now) }
{
    percent_decode(piece_at(path.as_bytes(), i).unwrap_or(b"".as_slice())).into_cow(alloc)
}

// The i-th piece of a path between its slashes.
fn piece_at(path: &[u8], i: usize) -> Option<&[u8]>
    ensures { option_copied result ≡ slice_get (slice_split (λ b. b == 47) path.now) i }
{
    path.split(|b| *b == b'/').nth(i)
}
