//! The end of a cluster that was followed.

ghost use Rattle.std.specs.Prelude.{◌≡◌, ◌<◌, ◌≤◌, ◌+◌, ◌++◌, ℕ, [], All, Err, length, vec_len, None, Some, OnOk, IfOk, IfErr, IsTrue};
ghost use Rattle.std.specs.List.{flat_map};
ghost use Rattle.audit_faults.specs.declared.fault.AuditFault.{AuditFault as Faulted};
ghost use Rattle.audit_faults.specs.Unsaid.{IsNoYes};
ghost use Rattle.cluster_vnode.specs.Gathers.{IsGathered};
ghost use Rattle.world.specs.Represents.{log_at};
ghost use Rattle.audit_cluster.specs.Following.{AreFronts, AreNumbered, IsFollowedTo, IsLong, IsOfWatch, IsSaidOf, IsTakenTo, StopsIn, answers_kept};

use crate::copying::rest_of;
use crate::watch::{Left, Spot, Watch};
use audit_faults::{Followed, TakeFault, WatchFault};
use audit_follower::Follower;
use cluster::{Cluster, Pass, Room, hand_outs_are_a_front};
use std::alloc::{AllocError, Global};
use std::marker::Model;
use vnode::Vnode;

/// What is said of the journals of a cluster that was followed. That they are one run can only be had of [`close_watched`]: nobody else
/// makes a verdict, but one that says nothing of them.
#[derive(Debug, Drop)]
pub struct Verdict {
    said: Followed,
}

impl Model for Verdict {
    ghost use Rattle.std.specs.Prelude.{Result};
    ghost use Rattle.audit_faults.specs.declared.fault.WatchFault.{WatchFault};

    ghost Value = { Result (Unit {0}) WatchFault };

    ghost view = { λ v. v.said };
}

impl Verdict {
    /// There was no memory, and nothing is said of the journals.
    pub fn no_memory() -> Self
        ensures { result ≡ Err WatchFault.NoMemory }
    {
        Verdict {
            said: Err(WatchFault::NoMemory),
        }
    }

    /// That the journals are one run, or why it isn't found.
    pub fn said(&self) -> Followed
        ensures { result ≡ self.now }
    {
        self.said
    }
}

/// A cluster that has ended: its vnodes, and what is said of their journals.
#[derive(Drop)]
pub struct Closed {
    /// The vnodes, in the order of their identifiers.
    pub vnodes: Vec<Vnode>,
    /// That the journals are one run, or why it isn't found.
    pub said: Verdict,
}

/// Gathers a cluster, all of whose passes are back, the watch's too, and has what is left of the journals of its vnodes followed. So many
/// of the first entries of each vnode, by index, were there before: its front, from which the watch began. The journals are one run from
/// there on, for each beginning that has led to the fronts; where there are none, from their first entries on. Each of them stands at the
/// place of its vnode's number then. The vnodes are handed back, whatever is said of them.
///
/// What is said is the follower's fault, which may have been found while the cluster served: so much of the journals is one run, and the
/// entry that comes next is wrong so. `Lost` where it didn't take all that the vnodes handed out, or follows others, or began from other
/// fronts. `NoMemory` where a growth was refused. The error, `AllocError`: a growth was refused before the vnodes were gathered, and they
/// are lost.
pub fn close_watched<B: Room + Spot>(
    alloc: Global,
    cluster: Cluster<B>,
    mut passes: Vec<Pass<B>>,
    mut watch: Watch<B>,
    fronts: &[usize],
) -> Result<Closed, AllocError>
    requires back { cluster.passes ≤ vec_len passes + 1 }
    ensures kept { IfOk result (λ closed. IsGathered (flat_map (λ p. p.told) passes.items ++ watch.told) closed.vnodes.items × (vec_len closed.vnodes ≡ cluster.vnodes)) }
    ensures said { IfOk result (λ closed. IsSaidOf fronts.now closed.vnodes.items closed.said) }
    // A yes is of journals that stand at the places of their numbers, as the fronts do.
    ensures numbered { IfOk result (λ closed. IfOk closed.said (λ all. AreNumbered B.first closed.vnodes.items)) }
    // The calls of the watch are its own.
    ensures watched { All IsOfWatch watch.told }
    // Where nothing was there before, a yes is that of the journals from their first entries on.
    ensures followed { IfOk result (λ closed. fronts.now ≡ [] → IsFollowedTo (flat_map (λ p. p.told) passes.items ++ watch.told) cluster.vnodes closed.said) }
{
    watch.take_left();
    let Watch {
        pass,
        first,
        vnodes: count,
        mut follower,
        left,
        lost,
        ..
    } = watch;
    let lost = why_lost(lost, left);
    passes.push(pass)?;
    hand_outs_are_a_front();
    match cluster.gather(passes) {
        Ok(vnodes) => {
            let said = if are_numbered(&vnodes, first, count) {
                say(alloc, &mut follower, lost, &vnodes, fronts)
            } else {
                Err(WatchFault::Lost)
            };
            let said = Verdict { said };
            Ok(Closed { vnodes, said })
        }
        Err(_) => Err(AllocError),
    }
}

// Why not all that was handed out was taken.
fn why_lost(lost: Option<TakeFault>, left: Option<Left>) -> Option<TakeFault>
    ensures { result ≡ None → (lost ≡ None) × (left ≡ None) }
{
    match left {
        Some(_) => Some(TakeFault::NoMemory),
        None => lost,
    }
}

// Whether these are so many vnodes, numbered from the first identifier on.
fn are_numbered(vnodes: &[Vnode], first: u32, count: usize) -> bool
    ensures count { IsTrue result → length vnodes.now ≡ count }
    ensures numbers { IsTrue result → (index : ℕ) → index < length vnodes.now → (log_at vnodes.now index).vnode ≡ first + index }
{
    if vnodes.len() != count {
        return false;
    }
    for index in 0..count {
        if vnodes[index].id() as usize != first as usize + index {
            return false;
        }
    }
    true
}

// What is said of the journals of vnodes, from their fronts on.
fn say(
    alloc: Global,
    follower: &mut Follower,
    lost: Option<TakeFault>,
    vnodes: &[Vnode],
    fronts: &[usize],
) -> Followed
    requires fronts { lost ≡ None → follower.old.fault ≡ None → AreFronts follower.old vnodes.now × (length follower.old.followed ≡ length vnodes.now) }
    requires stopped { lost ≡ None → (fault : Faulted) → follower.old.fault ≡ Some fault → StopsIn follower.old.fronts vnodes.now fault }
    requires recent { follower.old.recent ≡ answers_kept }
    ensures said { IsSaidOf fronts.now vnodes.now result }
{
    if follower.fronts() != fronts {
        return Err(WatchFault::Lost);
    }
    if let Some(why) = lost {
        return Err(WatchFault::from(why));
    }
    match follower.fault() {
        Some(fault) => Err(WatchFault::Found(fault)),
        None => follow_rest(alloc, follower, vnodes),
    }
}

// Has what is left of the journals of vnodes followed.
fn follow_rest(alloc: Global, follower: &mut Follower, vnodes: &[Vnode]) -> Followed
    requires fronts { AreFronts follower.old vnodes.now }
    requires size { length follower.old.followed ≡ length vnodes.now }
    requires none { follower.old.fault ≡ None }
    requires recent { follower.old.recent ≡ answers_kept }
    ensures said { IsSaidOf follower.old.fronts vnodes.now result }
{
    take_rest(alloc, follower, vnodes)?;
    match follower.follow(u64::MAX) {
        Ok(()) if has_all(follower, vnodes) => Ok(()),
        Ok(()) => Err(WatchFault::Lost),
        Err(fault) => Err(WatchFault::Found(fault)),
    }
}

// Takes what is left of the journals of vnodes, which are those that are followed.
fn take_rest(alloc: Global, follower: &mut Follower, vnodes: &[Vnode]) -> Result<(), WatchFault>
    ensures taken { OnOk result (IsTakenTo follower.old follower.new vnodes.now (length vnodes.now)) }
    ensures same { OnOk result ((follower.new.fault ≡ follower.old.fault) × (follower.new.recent ≡ follower.old.recent) × (follower.new.fronts ≡ follower.old.fronts)) }
    ensures err { IfErr result IsNoYes }
{
    for index in 0..vnodes.len() {
        if index >= follower.count() || follower.id(index) != vnodes[index].id() {
            return Err(WatchFault::Lost);
        }
        let journal = vnodes[index].journal();
        let rest = rest_of(alloc, journal)?;
        if let Err(untaken) = follower.take_at(index, journal.first(), rest) {
            return Err(WatchFault::from(untaken.why));
        }
    }
    Ok(())
}

// Whether as many entries were followed of each vnode as it has.
fn has_all(follower: &Follower, vnodes: &[Vnode]) -> bool
    ensures { IsTrue result → IsLong follower.now vnodes.now }
{
    if follower.count() != vnodes.len() {
        return false;
    }
    for index in 0..vnodes.len() {
        let journal = vnodes[index].journal();
        if follower.followed(index) != journal.len() {
            return false;
        }
    }
    true
}
