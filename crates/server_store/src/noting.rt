//! Which answers to reads and writes are troubles, that are noted.

ghost use Rattle.std.specs.Prelude.{◌≡◌};
ghost use Rattle.server_store.specs.Noting.{of_cut, of_fault, of_put, of_resolver, of_unfit};

use hook_run::Unresolved;
use peers::PeerFault;
use quorum::{QuorumFault, ResolveFault, Unfit};
use server_log::{HookTrouble, Trouble};
use vnode::VnodeFault;

/// The trouble of a read or a write that was refused, if it is one.
pub(crate) fn of_fault(fault: QuorumFault) -> Option<Trouble>
    ensures { result ≡ of_fault fault }
{
    match fault {
        QuorumFault::Refused(VnodeFault::NoMemory) => Some(Trouble::NoMemory),
        QuorumFault::Unseen => Some(Trouble::PreCommit(HookTrouble::Unseen)),
        QuorumFault::Disagrees => Some(Trouble::PreCommit(HookTrouble::Disagrees)),
        QuorumFault::TooLarge => Some(Trouble::PreCommit(HookTrouble::TooLarge)),
        QuorumFault::BadVerdict(_) => Some(Trouble::PreCommit(HookTrouble::BadAnswer)),
        QuorumFault::TooFew | QuorumFault::Refused(_) | QuorumFault::Rejected(_) => None,
    }
}

/// The trouble of a write, if it came to one.
pub(crate) fn of_put<T>(back: &Result<T, QuorumFault>) -> Option<Trouble>
    ensures { result ≡ of_put back.now }
{
    match back {
        Ok(_) => None,
        Err(fault) => of_fault(*fault),
    }
}

/// The trouble of a resolver, of why what it was to write is left out and why it chose nothing, if there is one.
pub(crate) fn of_resolver(cut: Option<ResolveFault>, unfit: Option<Unfit>) -> Option<Trouble>
    ensures { result ≡ of_resolver cut unfit }
{
    match (cut, unfit) {
        (Some(cut), _) => Some(of_cut(cut)),
        (None, Some(unfit)) => Some(of_unfit(unfit)),
        (None, None) => None,
    }
}

// The trouble that a resolver's choice isn't written.
fn of_cut(cut: ResolveFault) -> Trouble
    ensures { result ≡ of_cut cut }
{
    match cut {
        ResolveFault::Unseen => Trouble::Resolver(HookTrouble::Unseen),
        ResolveFault::Undecided(Unresolved::Disagrees) => Trouble::Resolver(HookTrouble::Disagrees),
        ResolveFault::Undecided(Unresolved::NoMemory)
        | ResolveFault::Cut(PeerFault::Refused(VnodeFault::NoMemory)) => Trouble::NoMemory,
        ResolveFault::Cut(_) => Trouble::Unwritten,
    }
}

// The trouble that a resolver chose nothing.
fn of_unfit(unfit: Unfit) -> Trouble
    ensures { result ≡ of_unfit unfit }
{
    Trouble::Resolver(match unfit {
        Unfit::TooLarge => HookTrouble::TooLarge,
        Unfit::Bad(_) => HookTrouble::BadAnswer,
    })
}
