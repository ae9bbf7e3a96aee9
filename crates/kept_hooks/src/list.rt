//! The requests that make the hooks of a store what they are.

ghost use Rattle.std.specs.Prelude.{◌≡◌, ◌||◌, ◌++◌, [], true, false, not, IfOk, IfNone, IfSome, OnOk};
ghost use Rattle.std.specs.List.{list_any};
ghost use Rattle.kept_hooks.specs.Lists.{IsAfter, installed, is_of_resolver, removed, bound};
ghost use Rattle.kept_hooks.specs.Spelling.{all_spelled};

use crate::request::{Phase, Request};
use crate::standing;
use http_request::Change;
use key_state::Bytes;
use std::alloc::{AllocError, Global};
use std::marker::Model;

/// The requests that make the hooks of a store what they are, in an order in which none is refused: the changes of the store's hooks without
/// those that later ones replaced.
#[derive(Drop)]
pub struct Requests {
    alloc: Global,
    requests: Vec<Request>,
    is_whole: bool,
}

impl Model for Requests {
    ghost use Rattle.kept_hooks.specs.Lists.{Listed};

    ghost Value = { Listed };

    ghost view = { λ r. record { requests = r.requests.items; whole = r.is_whole } };
}

impl Requests {
    /// No request.
    pub fn new(alloc: Global) -> Requests
        ensures { result ≡ record { requests = []; whole = true } }
    {
        Requests {
            alloc,
            requests: Vec::new(alloc),
            is_whole: true,
        }
    }

    /// A list that never has a request: none is written down.
    pub fn none(alloc: Global) -> Requests
        ensures { result ≡ record { requests = []; whole = false } }
    {
        Requests {
            alloc,
            requests: Vec::new(alloc),
            is_whole: false,
        }
    }

    /// The bytes of the requests, one behind another, as a connection brings them. None where one of them is lacking. The error: memory was
    /// refused.
    pub fn bytes(&self) -> Result<Option<Vec<u8>>, AllocError>
        ensures some { IfOk result (λ bytes. IfSome bytes (λ bytes. (self.now.whole ≡ true) × (bytes.items ≡ all_spelled self.now.requests))) }
        ensures none { IfOk result (λ bytes. IfNone bytes (self.now.whole ≡ false)) }
    {
        if !self.is_whole {
            return Ok(None);
        }
        Ok(Some(spelled(self.alloc, &self.requests)?))
    }

    /// Whether a resolver may be bound to a bucket: a request of the list binds one, or some are lacking.
    pub(crate) fn may_bind_resolver(&self) -> bool
        ensures { result ≡ (not self.now.whole || list_any is_of_resolver self.now.requests) }
    {
        !self.is_whole || standing::bind_resolver(&self.requests)
    }

    /// A name was given to the hook of an image.
    pub fn install(&mut self, name: &Bytes, image: &Bytes)
        ensures { IsAfter (installed name.now image.now) self.old self.new }
    {
        if self.is_whole {
            let done = standing::install(self.alloc, &mut self.requests, name, image);
            self.is_whole = done.is_ok();
        }
    }

    /// A name was taken from its hook.
    pub fn remove(&mut self, name: &Bytes)
        ensures { IsAfter (removed name.now) self.old self.new }
    {
        if self.is_whole {
            let done = standing::remove(&mut self.requests, name);
            self.is_whole = done.is_ok();
        }
    }

    /// Which hooks are bound to a bucket was changed.
    pub fn bind(&mut self, bucket: &Bytes, precommit: &Change, resolver: &Change)
        ensures { IsAfter (bound bucket.now precommit.now resolver.now) self.old self.new }
    {
        if self.is_whole {
            let done = bind_both(&mut self.requests, bucket, precommit, resolver);
            self.is_whole = done.is_ok();
        }
    }

    /// A request may have changed the hooks, or not: the list is not whole any more.
    pub fn doubt(&mut self)
        ensures { self.new.whole ≡ false }
    {
        self.is_whole = false;
    }
}

// Which hooks of both phases are bound to a bucket was changed.
fn bind_both(
    requests: &mut Vec<Request>,
    bucket: &Bytes,
    precommit: &Change,
    resolver: &Change,
) -> Result<(), AllocError>
    ensures { OnOk result (requests.new.items ≡ bound bucket.now precommit.now resolver.now requests.old.items) }
{
    standing::bind(requests, bucket, Phase::PreCommit, precommit)?;
    standing::bind(requests, bucket, Phase::Resolver, resolver)
}

// The bytes of requests, one behind another.
fn spelled(alloc: Global, requests: &[Request]) -> Result<Vec<u8>, AllocError>
    ensures { IfOk result (λ bytes. bytes.items ≡ all_spelled requests.now) }
{
    let mut bytes = Vec::new(alloc);
    for request in requests {
        bytes.extend_from_slice(request.spelled(alloc)?.as_slice())?;
    }
    Ok(bytes)
}
