//! Changes of hooks, and what is written down of them.

use http_request::Change;
use kept_hooks::Requests;
use key_state::Bytes;
use std::alloc::{AllocError, Global};

/// A program that answers 257, of a pre-commit hook: it rejects.
const REJECTS: &[u8] =
    b"RBPF\x01\x01\x00\x00\x80\x00\x00\x00\x00\x00\x00\x00\xb7\x00\x00\x00\x01\x01\x00\x00\x95\x00\x00\x00\x00\x00\x00\x00";

/// A program that answers 0, of a resolver: it keeps the siblings.
const KEEPS: &[u8] =
    b"RBPF\x01\x02\x00\x00\x80\x00\x00\x00\x00\x00\x00\x00\xb7\x00\x00\x00\x00\x00\x00\x00\x95\x00\x00\x00\x00\x00\x00\x00";

/// Code that ends before it has an answer, of a pre-commit hook: no verifier lets it in.
const UNSOUND: &[u8] =
    b"RBPF\x01\x01\x00\x00\x80\x00\x00\x00\x00\x00\x00\x00\x95\x00\x00\x00\x00\x00\x00\x00";

/// The name of the resolver.
const KEEPER: &[u8] = b"keeper";

/// The name of a hook that is taken from its name while it is bound, and then bound no more.
const GONE: &[u8] = b"gone";

/// Names with each of the characters that a hook's name may have.
pub(crate) const ALL: &[u8] = b"ABCDEFGHIJKLMNOPQRSTUVWXYZabcdefghijklmnopqrstuvwxyz0123456789_-";

const LEAST: &[u8] = b"-";

/// So many bytes a bucket may have.
const BUCKET: u8 = 64;

/// A bucket whose bytes rise from one on.
pub(crate) fn bucket_from(alloc: Global, first: u8) -> Result<Bytes, AllocError> {
    let mut bytes = Vec::new(alloc);
    for place in 0..BUCKET {
        bytes.push(first.wrapping_add(place))?;
    }
    Bytes::from_slice(alloc, &bytes)
}

/// What becomes of what is bound in a phase.
#[derive(Clone, Copy)]
pub(crate) enum Named {
    Kept,
    Unbound,
    To(&'static [u8]),
}

/// A change of hooks: a name and an image, a name that is taken, or a bucket and both its bindings.
#[derive(Clone, Copy)]
pub(crate) enum Step {
    Install(&'static [u8], &'static [u8]),
    Remove(&'static [u8]),
    Bind(u8, Named, Named),
}

/// Changes of each kind: names with all characters, buckets with all bytes, and bindings of one phase or both, of which later ones take the
/// places of earlier ones. At the end a name is taken while it is bound, and bound no more; another gets images that don't run where it is
/// bound, the second in place of the first.
pub(crate) const STEPS: [Step; 23] = [
    Step::Install(ALL, REJECTS),
    Step::Install(LEAST, REJECTS),
    Step::Install(KEEPER, KEEPS),
    Step::Bind(0, Named::To(ALL), Named::Unbound),
    Step::Bind(0, Named::Kept, Named::To(KEEPER)),
    Step::Bind(0, Named::To(LEAST), Named::Kept),
    Step::Bind(64, Named::To(ALL), Named::Unbound),
    Step::Bind(64, Named::Kept, Named::To(KEEPER)),
    Step::Bind(64, Named::To(LEAST), Named::Kept),
    Step::Bind(128, Named::To(ALL), Named::Unbound),
    Step::Bind(128, Named::Kept, Named::To(KEEPER)),
    Step::Bind(128, Named::To(LEAST), Named::Kept),
    Step::Bind(192, Named::To(ALL), Named::Unbound),
    Step::Bind(192, Named::Kept, Named::To(KEEPER)),
    Step::Bind(192, Named::To(LEAST), Named::Kept),
    Step::Install(GONE, REJECTS),
    Step::Bind(32, Named::To(GONE), Named::Kept),
    Step::Remove(GONE),
    Step::Bind(32, Named::To(ALL), Named::Kept),
    Step::Install(LEAST, REJECTS),
    Step::Install(LEAST, KEEPS),
    Step::Install(LEAST, KEEPS),
    Step::Remove(ALL),
];

/// One hook isn't let in, and is bound as the other one is.
pub(crate) const UNSOUND_STEPS: [Step; 3] = [
    Step::Install(ALL, UNSOUND),
    Step::Install(KEEPER, KEEPS),
    Step::Bind(0, Named::To(ALL), Named::To(KEEPER)),
];

fn change_of(alloc: Global, named: Named) -> Result<Change, AllocError> {
    match named {
        Named::Kept => Ok(Change::Kept),
        Named::Unbound => Ok(Change::Unbound),
        Named::To(name) => Ok(Change::Bound(Bytes::from_slice(alloc, name)?)),
    }
}

fn bind(
    alloc: Global,
    list: &mut Requests,
    first: u8,
    precommit: Named,
    resolver: Named,
) -> Result<(), AllocError> {
    let bucket = bucket_from(alloc, first)?;
    let precommit = change_of(alloc, precommit)?;
    let resolver = change_of(alloc, resolver)?;
    list.bind(&bucket, &precommit, &resolver);
    Ok(())
}

fn take_step(alloc: Global, list: &mut Requests, step: Step) -> Result<(), AllocError> {
    match step {
        Step::Install(name, image) => {
            let name = Bytes::from_slice(alloc, name)?;
            let image = Bytes::from_slice(alloc, image)?;
            list.install(&name, &image);
            Ok(())
        }
        Step::Remove(name) => {
            let name = Bytes::from_slice(alloc, name)?;
            list.remove(&name);
            Ok(())
        }
        Step::Bind(first, precommit, resolver) => bind(alloc, list, first, precommit, resolver),
    }
}

/// What is left of changes.
pub(crate) fn written(alloc: Global, steps: &[Step]) -> Result<Requests, AllocError> {
    let mut list = Requests::new(alloc);
    for step in steps {
        take_step(alloc, &mut list, *step)?;
    }
    Ok(list)
}
