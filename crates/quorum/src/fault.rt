//! Why a get or a put gives no answer.

use hook_abi::BadAnswer;
use hook_run::{RunFault, Unresolved};
use key_state::MergeFault;
use peers::PeerFault;
use std::alloc::AllocError;
use thiserror::Error;
use vnode::VnodeFault;

/// Why a get or a put gives no answer. Where a pre-commit hook lets nothing through, nothing was put; of `Disagrees`, `TooLarge`,
/// `BadVerdict` and `Rejected` the first that stands is told. It is shown as its number, a rejection's code after it.
#[derive(Clone, Copy, Debug, PartialEq, Eq, Error)]
pub enum QuorumFault {
    /// Fewer vnodes answered than were asked for, or the coordinator of a put did not. What was stored stays.
    #[error("Q1")]
    TooFew,
    /// A refusal: the coordinator's of a put, or what came of a get can't be merged. `NoMemory` also where memory ran out in
    /// the get or the put itself, as for a hook's windows or for the value that it wrote.
    #[error("{0}")]
    Refused(VnodeFault),
    /// The hooks can't be seen now, so a put's pre-commit hook isn't known. No call on a vnode was made.
    #[error("G3")]
    Unseen,
    /// The pre-commit hook's table lacks a helper that the hook was verified with, or has it under another Sig.
    #[error("X4")]
    Disagrees,
    /// The new content and the coordinator's siblings are too large for the pre-commit hook's input window.
    #[error("X1")]
    TooLarge,
    /// The pre-commit hook's answer has no meaning.
    #[error("X2")]
    BadVerdict(BadAnswer),
    /// The pre-commit hook refused the new content, with this code of its own.
    #[error("X3 {0}")]
    Rejected(u8),
}

/// Why what a resolver was to write is left out of a get's answer.
#[derive(Clone, Copy, PartialEq, Eq)]
pub enum ResolveFault {
    /// The hooks can't be seen now, so the resolver isn't known. No call on a vnode was made.
    Unseen,
    /// The resolver's table lacks a helper, or memory ran out for its windows or for the value that it wrote. No call on a vnode
    /// was made.
    Undecided(Unresolved),
    /// One of the merges into the coordinator, the put there or the read after it was lost or refused. What was stored stays.
    Cut(PeerFault),
}

/// Why a resolver that was run chose nothing: the siblings are answered then.
#[derive(Clone, Copy, PartialEq, Eq)]
pub enum Unfit {
    /// There are over 64 siblings, or its input window is too short for them.
    TooLarge,
    /// Its answer has no meaning.
    Bad(BadAnswer),
}

impl From<AllocError> for QuorumFault {
    ghost use Rattle.std.specs.Prelude.{◌≡◌};
    ghost use Rattle.vnode.specs.declared.fault.VnodeFault.TheVariants.{NoMemory};
    ghost use Rattle.quorum.specs.declared.fault.QuorumFault.TheVariants.{Refused};

    ghost from_gives = { λ _ fault. fault ≡ Refused NoMemory };

    fn from(_error: AllocError) -> Self {
        QuorumFault::Refused(VnodeFault::NoMemory)
    }
}

impl From<MergeFault> for QuorumFault {
    ghost use Rattle.std.specs.Prelude.{◌≡◌};
    ghost use Rattle.quorum.specs.Faults.{fault_of_merge};

    ghost from_gives = { λ fault answer. answer ≡ fault_of_merge fault };

    fn from(fault: MergeFault) -> Self {
        match fault {
            MergeFault::ClockFull => QuorumFault::Refused(VnodeFault::MergedClockFull),
            MergeFault::NoMemory => QuorumFault::Refused(VnodeFault::NoMemory),
        }
    }
}

impl From<RunFault> for QuorumFault {
    ghost use Rattle.std.specs.Prelude.{◌≡◌};
    ghost use Rattle.quorum.specs.Faults.{fault_of_run};

    ghost from_gives = { λ fault answer. answer ≡ fault_of_run fault };

    fn from(fault: RunFault) -> Self {
        match fault {
            RunFault::Disagrees => QuorumFault::Disagrees,
            RunFault::TooLarge => QuorumFault::TooLarge,
            RunFault::Bad(bad) => QuorumFault::BadVerdict(bad),
            RunFault::NoMemory => QuorumFault::Refused(VnodeFault::NoMemory),
        }
    }
}
