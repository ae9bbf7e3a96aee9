//! A file that is replaced, which ends after each of its operations.

use crate::tests::memory::{MANY, Memory, WHOLE};
use kept_folder::{Folder, HOOKS, keep_requests};
use std::alloc::Global;
use std::test::Fail;
use test_support::expect;

/// The file of the requests `old`: they, and their seal.
const OLD: &[u8] = b"oldc00dbbc9dadfbe1e232e93a729dd4752fade0abf\n";

/// The file of the requests `new`.
const NEW: &[u8] = b"newc2a6b03f190dfb2b4aa91f8af8d477a9bc3401dc\n";

/// Whether the file holds these bytes.
fn holds(alloc: Global, folder: &Memory, bytes: &[u8]) -> bool {
    match folder.read(alloc, HOOKS) {
        Ok(Some(held)) => held.as_slice() == bytes,
        _ => false,
    }
}

#[test]
fn old_or_new_stands_whole(rt: HostRuntime) -> Result<(), Fail> {
    for operations in 0..WHOLE + 2 {
        let mut folder = Memory::new(rt.alloc(), MANY);
        keep_requests(rt.alloc(), &mut folder, Some(b"old"))?;
        folder.begin_again(operations);
        let done = keep_requests(rt.alloc(), &mut folder, Some(b"new")).is_ok();
        let old = holds(rt.alloc(), &folder, OLD);
        let new = holds(rt.alloc(), &folder, NEW);
        expect(done == (operations >= WHOLE), &operations)?;
        expect(old == (operations < WHOLE - 1) && new != old, &operations)?;
    }
    Ok(())
}
