//! The registry of one thread: a change takes effect at once.

ghost use Rattle.std.specs.Prelude.{◌≡◌, ◌≢◌, ◌↔◌, [], true, false, None, Option, Result, OnOk, OnErr, IfErr, MatchResult, IsTrue, IfOk, is_some};
ghost use Rattle.std.specs.List.{fold};
ghost use Rattle.std.specs.Option.{option_copied, option_map};
ghost use Rattle.std.specs.Arc.{arc_value};
ghost use Rattle.bpf_image.specs.declared.image.ImageKind.{ImageKind as Kind};
ghost use Rattle.hook_registry.specs.Changes.{AreAllowed, AreRefused, Bind, Install, Remove, are_fitting, are_known, binding_after, is_fitting, is_kind, is_known, of_kind};
ghost use Rattle.hook_registry.specs.Bindings.{bound_by, bound_if};
ghost use Rattle.hook_registry.specs.Tables.{ChangesBy, Shows, bound_in, hook_in, program_in};

use crate::bindings::{Bindings, copy_of};
use crate::fault::{HookFault, NotSeen};
use crate::names::Names;
use bpf_image::ImageKind;
use bpf_verifier::Verified;
use key_state::Bytes;
use std::alloc::{AllocError, Global};
use std::hash::DefaultHasher;
use std::marker::Model;
use std::sync::Arc;

/// Verified programs under names.
type Programs = Names<Arc<Verified>>;

/// Verified programs under names, and the names that are bound to each bucket's kinds of hooks.
#[derive(Drop)]
pub struct Registry {
    programs: Programs,
    bindings: Names<Bindings>,
}

impl Model for Registry {
    ghost use Rattle.hook_registry.specs.Tables.{Shown};

    ghost Value = { Shown };

    ghost view = { λ r. record { programs = r.programs; bindings = r.bindings } };
}

impl Registry {
    /// No program, and nothing bound, for names and buckets that no stranger chooses.
    pub fn new(alloc: Global) -> Registry
        ensures { Shows [] result }
    {
        Registry::seeded(alloc, DefaultHasher::new())
    }

    /// No program, and nothing bound. The hashes of names and buckets begin with what a hasher was given: where that can't be guessed,
    /// strangers who choose names can't make it slow.
    pub fn seeded(alloc: Global, hasher: DefaultHasher) -> Registry
        ensures { Shows [] result }
    {
        Registry {
            programs: Names::new(alloc, hasher),
            bindings: Names::new(alloc, hasher),
        }
    }

    /// Gives a program a name, in place of the program that had it.
    pub fn install(&mut self, name: Bytes, program: Arc<Verified>) -> Result<(), AllocError>
        ensures ok { OnOk result (ChangesBy self.old self.new (Install name (arc_value program))) }
        ensures err { OnErr result (self.new ≡ self.old) }
    {
        self.programs.insert(name.as_slice(), program)
    }

    /// Takes a name from its program. What is bound to the name stays bound to it.
    pub fn remove(&mut self, name: &Bytes) -> Result<(), HookFault>
        ensures ok { OnOk result (ChangesBy self.old self.new (Remove name.now)) }
        ensures unknown { result ≡ Err HookFault.NameUnknown ↔ (program_in self.old.programs name.now ≡ None) }
        ensures only { IfErr result (λ fault. fault ≡ HookFault.NameUnknown) }
        ensures err { OnErr result (self.new ≡ self.old) }
    {
        match self.programs.remove(name.as_slice()) {
            Some(_) => Ok(()),
            None => Err(HookFault::NameUnknown),
        }
    }

    /// Binds names to kinds of a bucket's hooks, or none: all of them, or where it is refused nothing. Of two bindings
    /// of one kind the last counts.
    ///
    /// `NameUnknown` where a name has no program; `KindDiffers` where each has one, and one of them is of another kind.
    pub fn bind(
        &mut self,
        bucket: &Bytes,
        bindings: &[(ImageKind, Option<Bytes>)],
    ) -> Result<(), HookFault>
        ensures ok { OnOk result (ChangesBy self.old self.new (Bind bucket.now bindings.now)) }
        ensures unknown { result ≡ Err HookFault.NameUnknown ↔ (are_known (program_in self.old.programs) bindings.now ≡ false) }
        ensures differs { result ≡ Err HookFault.KindDiffers ↔ ((are_known (program_in self.old.programs) bindings.now ≡ true) × (are_fitting (program_in self.old.programs) bindings.now ≡ false)) }
        ensures err { OnErr result (self.new ≡ self.old) }
    {
        self.allows(bindings)?;
        let bucket = bucket.as_slice();
        let bound = bound_anew(self.bindings.get(bucket), bindings)?;
        self.bindings.insert(bucket, bound)?;
        Ok(())
    }

    /// Whether a name has a program.
    pub fn has(&self, name: &Bytes) -> bool
        ensures { result ≡ is_some (program_in self.now.programs name.now) }
    {
        self.programs.get(name.as_slice()).is_some()
    }

    /// Whether bindings may be made. `NameUnknown` where a name has no program; `KindDiffers` where each has one, and one of
    /// them is of another kind.
    pub fn allows(&self, bindings: &[(ImageKind, Option<Bytes>)]) -> Result<(), HookFault>
        ensures { MatchResult result (λ _. AreAllowed (program_in self.now.programs) bindings.now) (AreRefused (program_in self.now.programs) bindings.now) }
    {
        if !are_known(&self.programs, bindings) {
            return Err(HookFault::NameUnknown);
        }
        if !are_fitting(&self.programs, bindings) {
            return Err(HookFault::KindDiffers);
        }
        Ok(())
    }

    /// The program that is bound to a bucket and a kind: none where none is bound, its name is gone, or its program is
    /// now of another kind. It takes no memory; `NotSeen` where the program can have no further owner.
    pub fn hook_of(&self, bucket: &[u8], kind: ImageKind) -> Result<Option<Arc<Verified>>, NotSeen>
        ensures { IfOk result (λ hook. option_map arc_value hook ≡ hook_in self.now bucket.now kind) }
    {
        let Some(bindings) = self.bindings.get(bucket) else {
            return Ok(None);
        };
        match bindings.bound(kind) {
            Some(name) => shared(self.programs.get(name.as_slice()), kind),
            None => Ok(None),
        }
    }

    /// The name that is bound to a bucket and a kind.
    pub fn bound(&self, bucket: &Bytes, kind: ImageKind) -> Result<Option<Bytes>, AllocError>
        ensures { IfOk result (λ name. name ≡ bound_in self.now.bindings bucket.now kind) }
    {
        match self.bindings.get(bucket.as_slice()) {
            Some(bindings) => copy_of(bindings.bound(kind)),
            None => Ok(None),
        }
    }
}

/// One more owner of a program, if it is of this kind.
fn shared(
    program: Option<&Arc<Verified>>,
    kind: ImageKind,
) -> Result<Option<Arc<Verified>>, NotSeen>
    ensures { IfOk result (λ hook. option_map arc_value hook ≡ of_kind kind (option_map arc_value (option_copied program.entry))) }
{
    match program {
        Some(program) if is_of_kind(program, kind) => match Arc::try_clone(program) {
            Ok(program) => Ok(Some(program)),
            Err(_) => Err(NotSeen),
        },
        _ => Ok(None),
    }
}

/// Whether a program is of this kind.
fn is_of_kind(program: &Arc<Verified>, kind: ImageKind) -> bool
    ensures { result ≡ is_kind (arc_value program.now).kind kind }
{
    program.image().kind == kind
}

/// Whether a binding is to a name that has a program, or to none.
fn is_known(programs: &Programs, binding: &(ImageKind, Option<Bytes>)) -> bool
    ensures { result ≡ is_known (program_in programs.now) binding.now }
{
    match &binding.1 {
        Some(name) => programs.get(name.as_slice()).is_some(),
        None => true,
    }
}

/// Whether each binding is so.
fn are_known(programs: &Programs, bindings: &[(ImageKind, Option<Bytes>)]) -> bool
    ensures { result ≡ are_known (program_in programs.now) bindings.now }
{
    bindings.iter().all(|binding| is_known(programs, binding))
}

/// Whether a binding is to a name whose program is of that kind, or to none.
fn is_fitting(programs: &Programs, binding: &(ImageKind, Option<Bytes>)) -> bool
    ensures { result ≡ is_fitting (program_in programs.now) binding.now }
{
    match &binding.1 {
        Some(name) => match programs.get(name.as_slice()) {
            Some(program) => is_of_kind(program, binding.0),
            None => false,
        },
        None => true,
    }
}

/// Whether each binding is so.
fn are_fitting(programs: &Programs, bindings: &[(ImageKind, Option<Bytes>)]) -> bool
    ensures { result ≡ are_fitting (program_in programs.now) bindings.now }
{
    bindings.iter().all(|binding| is_fitting(programs, binding))
}

/// The bindings of a bucket with further ones, each in place of the one before it of its kind.
fn bound_anew(
    before: Option<&Bindings>,
    bindings: &[(ImageKind, Option<Bytes>)],
) -> Result<Bindings, AllocError>
    ensures { IfOk result (λ after. (kind : Kind) → bound_by after kind ≡ fold (binding_after kind) (bound_if (option_copied before.entry) kind) bindings.now) }
{
    let mut bound = copy_of_bindings(before)?;
    for binding in bindings {
        let name = copy_of(&binding.1)?;
        bound.bind(binding.0, name);
    }
    Ok(bound)
}

/// The same bindings, or none bound.
fn copy_of_bindings(before: Option<&Bindings>) -> Result<Bindings, AllocError>
    ensures { IfOk result (λ copy. (kind : Kind) → bound_by copy kind ≡ bound_if (option_copied before.entry) kind) }
{
    match before {
        Some(bindings) => bindings.copy(),
        None => Ok(Bindings::new()),
    }
}
