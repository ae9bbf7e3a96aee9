//! Buckets with a hook.

use crate::parts::programs::hook;
use bpf_helpers::Sigs;
use bpf_image::ImageKind;
use bpf_verifier::Verified;
use hook_registry::{HookFault, Registry};
use key_state::Bytes;
use std::alloc::Global;
use std::sync::Arc;
use std::test::Fail;

/// A hook of a kind that calls no helper, with an input window of so many bytes, an output window of 8 and this code.
pub(crate) fn program(
    alloc: Global,
    kind: u8,
    in_len: u16,
    code: &[[u8; 8]],
) -> Result<Arc<Verified>, Fail> {
    let verified = hook(alloc, &Sigs::new(alloc), kind, in_len, 8, code)?;
    Ok(Arc::new(alloc, verified)?)
}

/// Binds a hook to bucket `b`.
pub(crate) fn bind(
    alloc: Global,
    registry: &mut Registry,
    kind: ImageKind,
    program: Arc<Verified>,
) -> Result<(), Fail> {
    let name = Bytes::from_slice(alloc, b"hook")?;
    registry.install(name, program)?;
    Ok(bind_hook(alloc, registry, kind)?)
}

/// Binds what has the name `hook` to bucket `b`.
fn bind_hook(alloc: Global, registry: &mut Registry, kind: ImageKind) -> Result<(), HookFault> {
    let bucket = Bytes::from_slice(alloc, b"b")?;
    let name = Bytes::from_slice(alloc, b"hook")?;
    registry.bind(&bucket, &[(kind, Some(name))])
}

/// A registry where bucket `b` has this hook.
pub(crate) fn registry_of(
    alloc: Global,
    kind: ImageKind,
    program: Arc<Verified>,
) -> Result<Registry, Fail> {
    let mut registry = Registry::new(alloc);
    bind(alloc, &mut registry, kind, program)?;
    Ok(registry)
}
