//! A vnode answers a request.

ghost use Rattle.std.specs.Prelude.{◌≡◌, ◌≢◌, ◌<◌, OnOk, Err, length};
ghost use Rattle.journal.specs.Logs.{max_entries};
ghost use Rattle.vnode.specs.declared.fault.PartFault.{PartFault};
ghost use Rattle.vnode.specs.declared.fault.VnodeFault.{VnodeFault};
ghost use Rattle.cluster_stamps.specs.Answered.{IsOutcome, Refuses, with_made, asked};

use crate::request::{Prepared, Reply};
use crate::whole::Whole;
use vnode::{PartFault, Vnode};

/// A vnode answers a request. Where it is accepted the vnode has one entry more, with the stamp. Each refusal comes exactly where its
/// limit is the first that is passed, and leaves the vnode as it was; want of memory comes only where the request would be accepted. Only a
/// part is refused since a content that was left out isn't held, and that is told before all limits.
pub fn answer(vnode: &mut Vnode, stamp: u64, prepared: Prepared<'_>) -> Result<Reply, PartFault>
    ensures outcome { IsOutcome vnode.old stamp (asked prepared.entry) result }
    ensures log { vnode.new ≡ with_made vnode.old stamp (asked prepared.entry) result }
    ensures room { OnOk result (length vnode.old.entries < max_entries) }

    // No memory is asked for before a limit was looked at.
    ensures exact { (fault : PartFault) → fault ≢ PartFault.Refused VnodeFault.NoMemory → Refuses vnode.old (asked prepared.entry) fault → result ≡ Err fault }
{
    match prepared {
        Prepared::Put(write) => match vnode.put(stamp, write) {
            Ok(put) => Ok(Reply::Dot(put.dot)),
            Err(fault) => Err(PartFault::Refused(fault)),
        },
        Prepared::Merge(merged) => match vnode.merge(stamp, merged) {
            Ok(merge) => Ok(Reply::Changed(merge.changed)),
            Err(fault) => Err(PartFault::Refused(fault)),
        },
        Prepared::Read(key) => match vnode.read(stamp, key) {
            Ok((state, _)) => Ok(Reply::State(state)),
            Err(fault) => Err(PartFault::Refused(fault)),
        },
        Prepared::Summary(key) => match vnode.summary(stamp, key) {
            Ok((summary, _)) => Ok(Reply::Summary(summary)),
            Err(fault) => Err(PartFault::Refused(fault)),
        },
        Prepared::Part { merged, part } => match vnode.merge_part(stamp, merged, part) {
            Ok(merge) => Ok(Reply::Built {
                changed: merge.changed,
                whole: Whole::last_of(vnode),
            }),
            Err(fault) => Err(fault),
        },
        Prepared::Restart => match vnode.restart(stamp) {
            Ok(_) => Ok(Reply::Done),
            Err(fault) => Err(PartFault::Refused(fault)),
        },
    }
}
