//! A request that changes hooks, as a connection brings it.

ghost use Rattle.std.specs.Prelude.{◌≡◌, ◌++◌, ◌==◌, IfOk, OnOk, slice_index_or};
ghost use Rattle.hook_registry.specs.Changes.{is_name as is_one};
ghost use Rattle.kept_hooks.specs.Lists.{binds, bound_after, image_after, installs, is_for, is_of_resolver, is_phase, names, passes, never, phase_number, rests, takes};
ghost use Rattle.kept_hooks.specs.Spelling as spec;

use itoa::Buffer;
use key_state::Bytes;
use percent_encoding::{NON_ALPHANUMERIC, percent_encode};
use std::alloc::{AllocError, Global};

/// When the hook of a bucket runs.
#[derive(Clone, Copy)]
pub(crate) enum Phase {
    /// Before a new content is stored.
    PreCommit,
    /// Where a read finds siblings.
    Resolver,
}

/// A request that changes hooks.
#[derive(Drop)]
pub(crate) enum Request {
    /// A name is given to the hook of an image.
    Install {
        name: Bytes,
        image: Bytes,
    },
    /// A name is taken from its hook.
    Remove {
        name: Bytes,
    },
    /// A bucket's hook of a phase is the one with a name.
    Bind {
        bucket: Bytes,
        phase: Phase,
        name: Bytes,
    },
}

impl Phase {
    /// The number that stands for it in an image.
    fn number(self) -> u8
        ensures { result ≡ phase_number self }
    {
        match self {
            Phase::PreCommit => 1,
            Phase::Resolver => 2,
        }
    }

    /// The property of a bucket that names its hook.
    fn property(self) -> &'static [u8]
        ensures { result.now ≡ spec.property_of self }
    {
        match self {
            Phase::PreCommit => b"precommit",
            Phase::Resolver => b"resolver",
        }
    }

    fn is_same(self, other: Phase) -> bool
        ensures { result ≡ is_phase self other }
    {
        match (self, other) {
            (Phase::PreCommit, Phase::PreCommit) | (Phase::Resolver, Phase::Resolver) => true,
            _ => false,
        }
    }

    /// Whether an image says that its program runs then.
    pub(crate) fn runs(self, image: &Bytes) -> bool
        ensures { result ≡ is_for image.now self }
    {
        let image = image.as_slice();
        image.len() > 5 && image[5] == self.number()
    }
}

/// Whether two names are one.
pub(crate) fn is_one(name: &Bytes, other: &Bytes) -> bool
    ensures { result ≡ is_one name.now other.now }
{
    name == other
}

impl Request {
    /// Whether it says which hook a name has.
    pub(crate) fn is_about(&self, name: &Bytes) -> bool
        ensures { result ≡ names name.now self.now }
    {
        match self {
            Request::Install { name: other, .. } | Request::Remove { name: other } => is_one(
                other, name,
            ),
            Request::Bind { .. } => false,
        }
    }

    /// Whether it takes a name from its hook.
    pub(crate) fn takes(&self, name: &Bytes) -> bool
        ensures { result ≡ takes name.now self.now }
    {
        match self {
            Request::Remove { name: other } => is_one(other, name),
            _ => false,
        }
    }

    /// Whether it gives a name an image.
    pub(crate) fn installs(&self, name: &Bytes) -> bool
        ensures { result ≡ installs name.now self.now }
    {
        match self {
            Request::Install { name: other, .. } => is_one(other, name),
            _ => false,
        }
    }

    /// Whether it rests on what a name has: it takes the name from that, or binds it.
    pub(crate) fn rests_on(&self, name: &Bytes) -> bool
        ensures { result ≡ rests name.now self.now }
    {
        match self {
            Request::Install { .. } => false,
            Request::Remove { name: other } | Request::Bind { name: other, .. } => is_one(
                other, name,
            ),
        }
    }

    /// The image that a name has behind it, by the one that it has before. The error: memory was refused.
    pub(crate) fn image_after(
        &self,
        name: &Bytes,
        before: Option<Bytes>,
    ) -> Result<Option<Bytes>, AllocError>
        ensures { IfOk result (λ image. image ≡ image_after name.now before self.now) }
    {
        match self {
            Request::Install { name: other, image } if is_one(other, name) => Ok(Some(
                image.copy()?,
            )),
            Request::Remove { name: other } if is_one(other, name) => Ok(None),
            _ => Ok(before),
        }
    }

    /// The name that is bound to a bucket's phase behind it, by the one that is bound before. The error: memory was refused.
    pub(crate) fn bound_after(
        &self,
        bucket: &Bytes,
        phase: Phase,
        before: Option<Bytes>,
    ) -> Result<Option<Bytes>, AllocError>
        ensures { IfOk result (λ name. name ≡ bound_after bucket.now phase before self.now) }
    {
        match self {
            Request::Bind {
                bucket: other,
                phase: at,
                name,
            } if is_one(other, bucket) && at.is_same(phase) => Ok(Some(name.copy()?)),
            _ => Ok(before),
        }
    }

    /// The same request, which shares the bytes. The error: memory was refused.
    pub(crate) fn copy(&self) -> Result<Request, AllocError>
        ensures { IfOk result (λ copy. copy ≡ self.now) }
    {
        match self {
            Request::Install { name, image } => Ok(Request::Install {
                name: name.copy()?,
                image: image.copy()?,
            }),
            Request::Remove { name } => Ok(Request::Remove { name: name.copy()? }),
            Request::Bind {
                bucket,
                phase,
                name,
            } => Ok(Request::Bind {
                bucket: bucket.copy()?,
                phase: *phase,
                name: name.copy()?,
            }),
        }
    }

    /// Whether it binds a bucket's hook of a phase.
    pub(crate) fn binds(&self, bucket: &Bytes, phase: Phase) -> bool
        ensures { result ≡ binds bucket.now phase self.now }
    {
        match self {
            Request::Bind {
                bucket: other,
                phase: at,
                ..
            } => is_one(other, bucket) && at.is_same(phase),
            _ => false,
        }
    }

    /// Whether it binds a resolver.
    pub(crate) fn is_of_resolver(&self) -> bool
        ensures { result ≡ is_of_resolver self.now }
    {
        matches!(
            self,
            Request::Bind {
                phase: Phase::Resolver,
                ..
            }
        )
    }

    /// Whether it binds no hook to a name.
    pub(crate) fn spares(&self, name: &Bytes) -> bool
        ensures { result ≡ passes name.now never self.now }
    {
        match self {
            Request::Bind { name: other, .. } => !is_one(other, name),
            _ => true,
        }
    }

    /// Whether it binds a name in no phase but one in which an image runs.
    pub(crate) fn suits(&self, name: &Bytes, image: &Bytes) -> bool
        ensures { result ≡ passes name.now (is_for image.now) self.now }
    {
        match self {
            Request::Bind {
                name: other,
                phase,
                ..
            } => !is_one(other, name) || phase.runs(image),
            _ => true,
        }
    }

    /// Its bytes. The error: memory was refused.
    pub(crate) fn spelled(&self, alloc: Global) -> Result<Vec<u8>, AllocError>
        ensures { IfOk result (λ bytes. bytes.items ≡ spec.spelled self.now) }
    {
        match self {
            Request::Install { name, image } => install_request(alloc, name, image),
            Request::Remove { name } => remove_request(alloc, name),
            Request::Bind {
                bucket,
                phase,
                name,
            } => bind_request(alloc, bucket, *phase, name),
        }
    }
}

/// `PUT /hooks/NAME` with an image.
fn install_request(alloc: Global, name: &Bytes, image: &Bytes) -> Result<Vec<u8>, AllocError>
    ensures { IfOk result (λ request. request.items ≡ spec.install_request name.now image.now) }
{
    let mut out = Vec::new(alloc);
    out.extend_from_slice(b"PUT /hooks/")?;
    out.extend_from_slice(name.as_slice())?;
    push_body(&mut out, image.as_slice())?;
    Ok(out)
}

/// `DELETE /hooks/NAME`.
fn remove_request(alloc: Global, name: &Bytes) -> Result<Vec<u8>, AllocError>
    ensures { IfOk result (λ request. request.items ≡ spec.remove_request name.now) }
{
    let mut out = Vec::new(alloc);
    out.extend_from_slice(b"DELETE /hooks/")?;
    out.extend_from_slice(name.as_slice())?;
    out.extend_from_slice(b" HTTP/1.1\r\nHost: kept\r\n\r\n")?;
    Ok(out)
}

/// `PUT /buckets/BUCKET/props` with what is bound.
fn bind_request(
    alloc: Global,
    bucket: &Bytes,
    phase: Phase,
    name: &Bytes,
) -> Result<Vec<u8>, AllocError>
    ensures { IfOk result (λ request. request.items ≡ spec.bind_request bucket.now phase name.now) }
{
    let mut path = String::new(alloc);
    percent_encode(bucket.as_slice(), NON_ALPHANUMERIC).append_to(&mut path)?;
    let props = props_of(alloc, phase, name)?;
    let mut out = Vec::new(alloc);
    out.extend_from_slice(b"PUT /buckets/")?;
    out.extend_from_slice(path.as_bytes())?;
    out.extend_from_slice(b"/props")?;
    push_body(&mut out, props.as_slice())?;
    Ok(out)
}

/// What is bound, as JSON: names of hooks have no character that JSON escapes.
fn props_of(alloc: Global, phase: Phase, name: &Bytes) -> Result<Vec<u8>, AllocError>
    ensures { IfOk result (λ props. props.items ≡ spec.props_of phase name.now) }
{
    let mut out = Vec::new(alloc);
    out.extend_from_slice(b"{\"props\":{\"")?;
    out.extend_from_slice(phase.property())?;
    out.extend_from_slice(b"\":\"")?;
    out.extend_from_slice(name.as_slice())?;
    out.extend_from_slice(b"\"}}")?;
    Ok(out)
}

/// What stands behind a target, where a body follows, and the body.
fn push_body(out: &mut Vec<u8>, body: &[u8]) -> Result<(), AllocError>
    ensures { OnOk result (out.new.items ≡ out.old.items ++ spec.with_body body.now) }
{
    out.extend_from_slice(b" HTTP/1.1\r\nHost: kept\r\nContent-Length: ")?;
    let mut digits = Buffer::new();
    out.extend_from_slice(digits.format(body.len()).as_bytes())?;
    out.extend_from_slice(b"\r\n\r\n")?;
    out.extend_from_slice(body)
}
