//! Programs, changes, and what is seen of them.

use bpf_admission::admit_image;
use bpf_helpers::Sigs;
use bpf_image::ImageKind;
use bpf_verifier::Verified;
use hook_registry::{HookChanges, HookFault, Hooks, NameFault};
use key_state::Bytes;
use std::alloc::{AllocError, Global};
use std::sync::Arc;
use test_support::{Slot, hook_image_of};

pub(super) const BEFORE: ImageKind = ImageKind::PreCommit;

pub(super) const RESOLVER: ImageKind = ImageKind::Resolver;

/// A hook of a kind, if it can be made.
fn program_of(alloc: Global, kind: ImageKind) -> Option<Arc<Verified>> {
    let number = match kind {
        ImageKind::Plain => 0,
        ImageKind::PreCommit => 1,
        ImageKind::Resolver => 2,
    };
    let bytes = hook_image_of(alloc, number, 128, 8, &[Slot::Put(0, 257), Slot::Exit]).ok()?;
    let verified = admit_image(alloc, &bytes, &Sigs::new(alloc)).ok()?;
    Arc::new(alloc, verified).ok()
}

/// A name of a program or a bucket.
fn name(alloc: Global, text: &[u8]) -> Result<Bytes, AllocError> {
    Bytes::from_slice(alloc, text)
}

/// The bindings of a table's row.
fn bindings(
    alloc: Global,
    row: &[(ImageKind, &[u8])],
) -> Result<Vec<(ImageKind, Option<Bytes>)>, AllocError> {
    let mut bindings = Vec::with_capacity(alloc, row.len())?;
    for (kind, text) in row {
        bindings.push((*kind, Some(name(alloc, text)?)))?;
    }
    Ok(bindings)
}

/// A change of hooks, by the names and the kinds of programs. What is bound is bound to bucket `b`.
pub(super) enum Change {
    Install(&'static [u8], ImageKind),
    Remove(&'static [u8]),
    Bind(&'static [(ImageKind, &'static [u8])]),
}

/// What a change answers, if it can be made.
fn answer_of<H: HookChanges>(
    alloc: Global,
    hooks: &mut H,
    change: &Change,
) -> Option<Result<(), HookFault>> {
    match change {
        Change::Install(text, kind) => {
            let program = program_of(alloc, *kind)?;
            Some(hooks.install(name(alloc, text).ok()?, program))
        }
        Change::Remove(text) => Some(hooks.remove(&name(alloc, text).ok()?)),
        Change::Bind(row) => {
            let bucket = name(alloc, b"b").ok()?;
            Some(hooks.bind(&bucket, &bindings(alloc, row).ok()?))
        }
    }
}

/// A change, and what it is to answer.
pub(super) type Row = (Change, Result<(), HookFault>);

/// Whether changes, one after the other, answer what they should.
pub(super) fn make_changes<H: HookChanges>(alloc: Global, hooks: &mut H, rows: &[Row]) -> bool {
    for (change, answer) in rows {
        if answer_of(alloc, hooks, change) != Some(*answer) {
            return false;
        }
    }
    true
}

/// Of which kind bucket `b`'s hook of a kind is, if it is seen and there is one.
pub(super) fn kind_of<H: Hooks>(hooks: &mut H, kind: ImageKind) -> Option<Option<ImageKind>> {
    match hooks.hook_of(b"b", kind) {
        Ok(Some(program)) => Some(Some(program.image().kind)),
        Ok(None) => Some(None),
        Err(_) => None,
    }
}

/// The name that is bound to bucket `b`.
pub(super) fn bound<H: Hooks>(
    alloc: Global,
    hooks: &mut H,
    kind: ImageKind,
) -> Result<Option<Bytes>, NameFault> {
    hooks.bound(&name(alloc, b"b")?, kind)
}

/// Whether the name that is bound to bucket `b` is this one.
pub(super) fn is_bound<H: Hooks>(
    alloc: Global,
    hooks: &mut H,
    kind: ImageKind,
    text: &[u8],
) -> bool {
    match bound(alloc, hooks, kind) {
        Ok(Some(bound)) => bound.as_slice() == text,
        _ => false,
    }
}
