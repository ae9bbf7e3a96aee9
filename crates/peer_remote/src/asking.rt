//! Calls on vnodes of other servers. Each asks once, and is lost where no answer comes, or one that answers something else. An index past
//! 255 is no vnode's.

ghost use Rattle.std.specs.Prelude.{◌≡◌};
ghost use Rattle.peer_remote.specs.Asking.{IsAnswered};
ghost use Rattle.peers.specs.Calls.{PutAt, MergeAt, StateOf, SummaryAt, MergePartAt};

use crate::message::{Ask, Link, Told};
use dvv::{Clock, Dot, VNODES_PER_NUMBER};
use key_state::{Content, Key, KeyState, Part};
use peers::{Answer, PartAnswer, PeerFault, SummaryAnswer};

/// Puts at a vnode.
pub(crate) fn put<L: Link>(
    link: &mut L,
    i: usize,
    key: &Key,
    seen: &Clock,
    content: &Content,
) -> Result<Dot, PeerFault>
    ensures { IsAnswered L.sent (PutAt i key.now seen.now content.now result) }
{
    let Ok(vnode) = u8::try_from(i) else {
        return Err(PeerFault::Lost);
    };
    match link.ask(&Ask::Put {
        vnode,
        key,
        seen,
        content,
    }) {
        Some(Told::Dot(dot)) => Ok(dot),
        Some(Told::Refused(fault)) => Err(PeerFault::Refused(fault)),
        _ => Err(PeerFault::Lost),
    }
}

/// Merges a state, that the vnode `from` answered by the read at place `at` of its journal, at a vnode.
pub(crate) fn merge<L: Link>(
    link: &mut L,
    i: usize,
    key: &Key,
    from: u32,
    at: u64,
    state: &KeyState,
) -> Result<bool, PeerFault>
    ensures { IsAnswered L.sent (MergeAt i key.now from at state.now result) }
{
    let Ok(vnode) = u8::try_from(i) else {
        return Err(PeerFault::Lost);
    };
    match link.ask(&Ask::Merge {
        vnode,
        key,
        from,
        at,
        state,
    }) {
        Some(Told::Changed(changed)) => Ok(changed),
        Some(Told::Refused(fault)) => Err(PeerFault::Refused(fault)),
        _ => Err(PeerFault::Lost),
    }
}

/// Reads at a vnode. What another index answered is lost.
pub(crate) fn state_of<L: Link>(link: &mut L, i: usize, key: &Key) -> Result<Answer, PeerFault>
    ensures { IsAnswered L.sent (StateOf i key.now result) }
{
    let Ok(vnode) = u8::try_from(i) else {
        return Err(PeerFault::Lost);
    };
    match link.ask(&Ask::Read { vnode, key }) {
        Some(Told::State { from, at, state }) if (from % VNODES_PER_NUMBER) as usize == i => {
            Ok(Answer { from, at, state })
        }
        Some(Told::Refused(fault)) => Err(PeerFault::Refused(fault)),
        _ => Err(PeerFault::Lost),
    }
}

/// Reads a summary at a vnode. What another index answered is lost.
pub(crate) fn summary_at<L: Link>(
    link: &mut L,
    i: usize,
    key: &Key,
) -> Result<SummaryAnswer, PeerFault>
    ensures { IsAnswered L.sent (SummaryAt i key.now result) }
{
    let Ok(vnode) = u8::try_from(i) else {
        return Err(PeerFault::Lost);
    };
    match link.ask(&Ask::Summary { vnode, key }) {
        Some(Told::Summary { from, at, summary }) if (from % VNODES_PER_NUMBER) as usize == i => {
            Ok(SummaryAnswer { from, at, summary })
        }
        Some(Told::Refused(fault)) => Err(PeerFault::Refused(fault)),
        _ => Err(PeerFault::Lost),
    }
}

/// Merges a part of a state, that the vnode `from` answered by the read at place `at` of its journal, at a vnode.
pub(crate) fn merge_part<L: Link>(
    link: &mut L,
    i: usize,
    key: &Key,
    from: u32,
    at: u64,
    part: &Part,
) -> Result<PartAnswer, PeerFault>
    ensures { IsAnswered L.sent (MergePartAt i key.now from at part.now result) }
{
    let Ok(vnode) = u8::try_from(i) else {
        return Err(PeerFault::Lost);
    };
    match link.ask(&Ask::Part {
        vnode,
        key,
        from,
        at,
        part,
    }) {
        Some(Told::Changed(changed)) => Ok(PartAnswer::Merged(changed)),
        Some(Told::Missing) => Ok(PartAnswer::Missing),
        Some(Told::Refused(fault)) => Err(PeerFault::Refused(fault)),
        _ => Err(PeerFault::Lost),
    }
}
