//! Programs that several events run.

ghost use Rattle.std.specs.Prelude.{◌≡◌, IfOk};

use bpf_verifier::Verified;
use std::alloc::{AllocError, Global};
use std::marker::Model;
use std::sync::Arc;

/// A verified program that an event runs as a hook. Events share it. Contracts see the program.
#[derive(Drop)]
pub struct Hook {
    program: Arc<Verified>,
}

impl Model for Hook {
    ghost use Rattle.std.specs.Arc.{arc_value};
    ghost use Rattle.bpf_verifier.specs.Program.{Program};

    ghost Value = { Program };

    ghost view = { λ hook. arc_value hook.program };
}

impl Hook {
    /// The hook of a program, with memory of its own.
    pub fn new(alloc: Global, program: Verified) -> Result<Hook, AllocError>
        ensures { IfOk result (λ hook. hook ≡ program) }
    {
        Ok(Hook {
            program: Arc::new(alloc, program)?,
        })
    }

    /// The same hook for one event more. It takes no memory; the error is that there are as many as can be counted.
    pub fn share(&self) -> Result<Hook, AllocError>
        ensures { IfOk result (λ hook. hook ≡ self.now) }
    {
        match Arc::try_clone(&self.program) {
            Ok(program) => Ok(Hook { program }),
            Err(_) => Err(AllocError),
        }
    }

    /// The program.
    pub fn program(&self) -> &Verified
        ensures { result.now ≡ self.now }
    {
        &self.program
    }
}
