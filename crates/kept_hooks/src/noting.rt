//! Where a store's changes and writes are noted. Contracts see that they were, whatever is done with it there.

ghost use Rattle.http_request.specs.declared.ask.Call.{Call};
ghost use Rattle.http_request.specs.declared.ask.Call.TheVariants.{Install, Remove, SetProps};
ghost use Rattle.key_state.specs.declared.content.Key.{Key as OneKey};

use crate::list::Requests;
use crate::writes::Writes;
use http_request::Change;
use key_state::{Bytes, Key};

/// A list of the changes of hooks.
pub trait ChangeList {
    /// The change that a call makes was written down.
    ghost listed: { Call → Type 0 };

    /// It was written down that changes may be lacking.
    ghost doubted: { Type 0 };

    /// A name was given to the hook of an image.
    fn install(&mut self, name: &Bytes, image: &Bytes)
        ensures { listed (Install name.now image.now) };

    /// A name was taken from its hook.
    fn remove(&mut self, name: &Bytes)
        ensures { listed (Remove name.now) };

    /// Which hooks are bound to a bucket was changed.
    fn bind(&mut self, bucket: &Bytes, precommit: &Change, resolver: &Change)
        ensures { listed (SetProps bucket.now precommit.now resolver.now) };

    /// A change may have been made, or not.
    fn doubt(&mut self)
        ensures { doubted };
}

/// Where it is noted that a store was written to.
pub trait Notes {
    /// A write was noted.
    ghost write_noted: { Type 0 };

    /// A read was noted, which may have written what a resolver chose.
    ghost read_noted: { Type 0 };

    /// It was noted that a resolver may be bound from now on.
    ghost resolver_noted: { Type 0 };

    /// It was noted that hooks are changed, or which are bound.
    ghost hooks_noted: { Type 0 };

    /// A key was noted to which something may be written.
    ghost key_noted: { OneKey → Type 0 };

    /// A key was noted that is read, to which a resolver may write what it chooses.
    ghost asked_noted: { OneKey → Type 0 };

    /// Hooks are about to be changed, or which are bound.
    fn note_hooks(&self)
        ensures { hooks_noted };

    /// A key is about to be written.
    fn note_key(&self, key: &Key)
        ensures { key_noted key.now };

    /// A key is about to be read.
    fn note_asked(&self, key: &Key)
        ensures { asked_noted key.now };

    /// Something may have been written.
    fn note(&self)
        ensures { write_noted };

    /// A read is done.
    fn note_read(&self)
        ensures { read_noted };

    /// A resolver is about to be bound, so that each read that finds it is noted.
    fn note_resolver(&self)
        ensures { resolver_noted };
}

impl ChangeList for Requests {
    ghost listed = { λ _. Unit {0} };

    ghost doubted = { Unit {0} };

    fn install(&mut self, name: &Bytes, image: &Bytes) {
        Requests::install(self, name, image);
    }

    fn remove(&mut self, name: &Bytes) {
        Requests::remove(self, name);
    }

    fn bind(&mut self, bucket: &Bytes, precommit: &Change, resolver: &Change) {
        Requests::bind(self, bucket, precommit, resolver);
    }

    fn doubt(&mut self) {
        Requests::doubt(self);
    }
}

impl Notes for Writes {
    ghost write_noted = { Unit {0} };

    ghost read_noted = { Unit {0} };

    ghost resolver_noted = { Unit {0} };

    ghost hooks_noted = { Unit {0} };

    ghost key_noted = { λ _. Unit {0} };

    ghost asked_noted = { λ _. Unit {0} };

    fn note_hooks(&self) {}

    fn note_key(&self, _key: &Key) {}

    fn note_asked(&self, _key: &Key) {}

    fn note(&self) {
        Writes::note(self);
    }

    fn note_read(&self) {
        Writes::note_read(self);
    }

    fn note_resolver(&self) {
        Writes::note_resolver(self);
    }
}
