//! What changes of hooks make of the requests that a list has.

ghost use Rattle.std.specs.Prelude.{◌≡◌, ◌&&◌, None, not, IfOk, OnOk};
ghost use Rattle.std.specs.List.{list_all, list_any, filter, fold};
ghost use Rattle.kept_hooks.specs.Lists.{bound_after, freed, freed_if, image_after, installed, installs, is_for, is_of_resolver, never, passes, rebound, removed, renews, settled, unbound, untaken, without};

use crate::request::{Phase, Request};
use http_request::Change;
use key_state::Bytes;
use std::alloc::{AllocError, Global};

/// A name gets an image. Where its program runs in each phase in which the name is bound it stands in place of all that was said of the
/// name; else what binds it rests on earlier images, of which those stay that are needed. Memory may be refused: then some requests may be
/// lacking.
pub(crate) fn install(
    alloc: Global,
    requests: &mut Vec<Request>,
    name: &Bytes,
    image: &Bytes,
) -> Result<(), AllocError>
    ensures { OnOk result (requests.new.items ≡ installed name.now image.now requests.old.items) }
{
    let request = Request::Install {
        name: name.copy()?,
        image: image.copy()?,
    };
    if spare_all(requests, name) {
        forget(requests, name);
        return Ok(requests.push(request)?);
    }
    if suit_all(requests, name, image) {
        forget(requests, name);
        return Ok(requests.insert(0, request)?);
    }
    give_back(requests, name);
    requests.push(request)?;
    *requests = settle(alloc, requests, name)?;
    Ok(())
}

/// A name is taken from its hook. Where nothing binds it nothing is left of it. Memory may be refused.
pub(crate) fn remove(requests: &mut Vec<Request>, name: &Bytes) -> Result<(), AllocError>
    ensures { OnOk result (requests.new.items ≡ removed name.now requests.old.items) }
{
    if spare_all(requests, name) {
        forget(requests, name);
        return Ok(());
    }
    let request = Request::Remove { name: name.copy()? };
    Ok(requests.push(request)?)
}

/// A bucket's hook of a phase changes. What was bound before is not left, and no more than its image of a name that nothing binds any more.
/// Memory may be refused: then some requests may be lacking.
pub(crate) fn bind(
    requests: &mut Vec<Request>,
    bucket: &Bytes,
    phase: Phase,
    change: &Change,
) -> Result<(), AllocError>
    ensures { OnOk result (requests.new.items ≡ rebound bucket.now phase change.now requests.old.items) }
{
    match change {
        Change::Kept => Ok(()),
        Change::Unbound => {
            let was = bound_name(requests, bucket, phase)?;
            unbind(requests, bucket, phase);
            free_if(requests, was)
        }
        Change::Bound(name) => {
            let request = Request::Bind {
                bucket: bucket.copy()?,
                phase,
                name: name.copy()?,
            };
            let was = bound_name(requests, bucket, phase)?;
            unbind(requests, bucket, phase);
            requests.push(request)?;
            free_if(requests, was)
        }
    }
}

/// Whether one of them binds a resolver.
pub(crate) fn bind_resolver(requests: &[Request]) -> bool
    ensures { result ≡ list_any is_of_resolver requests.now }
{
    requests.iter().any(|request| request.is_of_resolver())
}

// Whether nothing binds a name.
fn spare_all(requests: &[Request], name: &Bytes) -> bool
    ensures { result ≡ list_all (passes name.now never) requests.now }
{
    requests.iter().all(|request| request.spares(name))
}

// Whether a name is bound in no phase but one in which an image runs.
fn suit_all(requests: &[Request], name: &Bytes, image: &Bytes) -> bool
    ensures { result ≡ list_all (passes name.now (is_for image.now)) requests.now }
{
    requests.iter().all(|request| request.suits(name, image))
}

// Whether another image of a name comes next, of all that is said of the name.
fn renews(requests: &[Request], name: &Bytes) -> bool
    ensures { result ≡ renews name.now requests.now }
{
    for request in requests {
        if request.installs(name) {
            return true;
        }
        if request.rests_on(name) {
            return false;
        }
    }
    false
}

// Whether a request gives a name an image on which nothing rests, by the requests behind it.
fn is_idle(request: &Request, behind: &[Request], name: &Bytes) -> bool
    ensures { result ≡ (installs name.now request.now && renews name.now behind.now) }
{
    request.installs(name) && renews(behind, name)
}

// The requests without the images of a name on which nothing rests, since another one comes next.
fn settle(alloc: Global, requests: &[Request], name: &Bytes) -> Result<Vec<Request>, AllocError>
    ensures { IfOk result (λ left. left.items ≡ settled name.now requests.now) }
{
    let mut left = Vec::new(alloc);
    for place in 0..requests.len() {
        let request = &requests[place];
        if is_idle(request, &requests[place + 1..], name) {
            continue;
        }
        left.push(request.copy()?)?;
    }
    Ok(left)
}

// The image that a name has behind requests, if it has one.
fn image_of(requests: &[Request], name: &Bytes) -> Result<Option<Bytes>, AllocError>
    ensures { IfOk result (λ image. image ≡ fold (image_after name.now) None requests.now) }
{
    let mut image: Option<Bytes> = None;
    for request in requests {
        image = request.image_after(name, image)?;
    }
    Ok(image)
}

// The name that is bound to a bucket's phase, if one is.
fn bound_name(
    requests: &[Request],
    bucket: &Bytes,
    phase: Phase,
) -> Result<Option<Bytes>, AllocError>
    ensures { IfOk result (λ name. name ≡ fold (bound_after bucket.now phase) None requests.now) }
{
    let mut name: Option<Bytes> = None;
    for request in requests {
        name = request.bound_after(bucket, phase, name)?;
    }
    Ok(name)
}

// Leaves no more than its image of a name that nothing binds.
fn free(requests: &mut Vec<Request>, name: &Bytes) -> Result<(), AllocError>
    ensures { OnOk result (requests.new.items ≡ freed name.now requests.old.items) }
{
    if !spare_all(requests, name) {
        return Ok(());
    }
    let held = image_of(requests, name)?;
    forget(requests, name);
    let Some(image) = held else {
        return Ok(());
    };
    let name = name.copy()?;
    Ok(requests.push(Request::Install { name, image })?)
}

// The same, where there is such a name.
fn free_if(requests: &mut Vec<Request>, name: Option<Bytes>) -> Result<(), AllocError>
    ensures { OnOk result (requests.new.items ≡ freed_if name requests.old.items) }
{
    match name {
        Some(name) => free(requests, &name),
        None => Ok(()),
    }
}

// Leaves nothing that says which hook a name has.
fn forget(requests: &mut Vec<Request>, name: &Bytes)
    ensures { requests.new.items ≡ without name.now requests.old.items }
{
    requests.retain(|request| !request.is_about(name));
}

// Leaves nothing that takes a name from its hook.
fn give_back(requests: &mut Vec<Request>, name: &Bytes)
    ensures { requests.new.items ≡ untaken name.now requests.old.items }
{
    requests.retain(|request| !request.takes(name));
}

// Leaves nothing that binds a bucket's hook of a phase.
fn unbind(requests: &mut Vec<Request>, bucket: &Bytes, phase: Phase)
    ensures { requests.new.items ≡ unbound bucket.now phase requests.old.items }
{
    requests.retain(|request| !request.binds(bucket, phase));
}
