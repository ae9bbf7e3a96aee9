//! Input windows.

ghost use Rattle.std.specs.Prelude.{◌≡◌, ◌≤◌, ◌++◌, ◌-◌, length, drop, replicate, IfOk};
ghost use Rattle.bpf_semantics.specs.Step.{IsInput};

use std::alloc::{AllocError, Global};

/// Writes bytes at the front of a window.
fn put(window: &mut [u8], bytes: &[u8])
    requires { length bytes.now ≤ length window.old }
    ensures { window.new ≡ bytes.now ++ drop (length bytes.now) window.old }
{
    window[..bytes.len()].copy_from_slice(bytes);
}

/// An input window of a length: the bytes, and zeros after them.
pub fn padded(alloc: Global, bytes: &[u8], len: usize) -> Result<Vec<u8>, AllocError>
    requires { length bytes.now ≤ len }
    ensures bytes { IfOk result (λ window. window.items ≡ bytes.now ++ replicate (len - length bytes.now) 0) }
    ensures input { IfOk result (λ window. IsInput len window.items (length bytes.now)) }
{
    let mut window = vec![in alloc; 0u8; len]?;
    put(&mut window, bytes);
    Ok(window)
}
