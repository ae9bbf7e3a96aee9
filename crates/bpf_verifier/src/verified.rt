//! Programs that the verifier accepted.

use crate::candidate::Candidate;
use bpf_helpers::Sigs;
use bpf_image::Image;
use bpf_lowering::Low;
use std::marker::Model;

/// A program that the verifier accepted: it never goes wrong, whatever its input, and whatever its helpers answer.
#[derive(Drop)]
pub struct Verified {
    program: Candidate,
    lows: Vec<Low>,
}

impl Model for Verified {
    ghost use Rattle.bpf_verifier.specs.Program.{Program};

    ghost Value = { Program };

    ghost use Rattle.bpf_verifier.specs.Program.{program_of, HasLimits, IsSafeProgram};
    ghost use Rattle.bpf_verifier.specs.Candidates.{program_in};
    ghost use Rattle.bpf_verifier.specs.Lowered.{HasRunsOf};

    ghost view = { λ v. program_in v.program };

    ghost invariant = { λ v. IsSafeProgram (program_in v.program) × HasLimits (program_in v.program) × HasRunsOf (program_in v.program) v.lows.items };
}

impl Verified {
    ghost use Rattle.std.specs.Prelude.{◌≡◌};
    ghost use Rattle.bpf_verifier.specs.Program.{program_of, HasLimits, IsSafeProgram};
    ghost use Rattle.bpf_verifier.specs.Candidates.{program_in};
    ghost use Rattle.bpf_verifier.specs.Lowered.{HasRunsOf};

    /// Keeps a safe program, and its lowered code.
    pub(crate) fn new(program: Candidate, lows: Vec<Low>) -> Verified
        requires safe { IsSafeProgram (program_in program) }
        requires lowered { HasRunsOf (program_in program) lows.items }
        ensures { result ≡ program_in program }
    {
        Verified { program, lows }
    }

    /// The lowered code: one slot for each of the code's, with its meaning, of which each load and store names its region.
    pub fn lowered(&self) -> &[Low]
        ensures runs { HasRunsOf self.now result.now }
    {
        &self.lows
    }

    /// The image that was verified.
    pub fn image(&self) -> &Image
        ensures same { program_of result.now self.now.sigs ≡ self.now }
        ensures safe { IsSafeProgram self.now }
        ensures limits { HasLimits self.now }
    {
        &self.program.image
    }

    /// The Sigs with which it was verified.
    pub fn sigs(&self) -> &Sigs
        ensures same { result.now ≡ self.now.sigs }
    {
        &self.program.sigs
    }
}
