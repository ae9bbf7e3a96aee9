//! A vnode of a cluster under its lock.

ghost use Rattle.std.specs.Prelude.{◌≡◌, ◌+◌, ◌≤◌, IfOk, IfErr, is_ok, if◌then◌else◌};
ghost use Rattle.cluster_stamps.specs.Answered.{asked};
ghost use Rattle.cluster_stamps.specs.Rule.{call_of};
ghost use Rattle.cluster_vnode.specs.Calls.{IsNews, IsFault, outcome_ok};
ghost use Rattle.cluster.specs.Guards.{IsReadBehind};

use cluster_stamps::{Prepared, Reply, STAMPS_EACH, Stamps};
use cluster_vnode::{CallFault, Locked, Pass, Receipt, Room};
use key_state::Key;
use std::marker::Model;
use std::sync::MutexGuard;

/// What a call that was answered came to, and the read of a key that was made behind it.
#[derive(Drop)]
pub struct CallAndRead {
    /// What the call was answered, and where its entry stands.
    pub call: (Reply, Receipt),
    /// What the read was answered, and where its entry stands: at the next place.
    pub read: Result<(Reply, Receipt), CallFault>,
}

/// A vnode under its lock, which is held until this is let go. Contracts see the vnode's identifier, and how many entries its journal has.
#[derive(Drop)]
pub struct VnodeGuard<'a, B: Room> {
    locked: MutexGuard<'a, Locked<B>>,
    stamps: &'a Stamps,
    id: u32,
}

impl<'a, B: Room> Model for VnodeGuard<'a, B> {
    ghost use Rattle.std.specs.Prelude.{◌≡◌};
    ghost use Rattle.std.specs.Sync.Mutex.{mutex_guard_value};
    ghost use Rattle.cluster_vnode.specs.Answers.{entries_told};
    ghost use Rattle.cluster.specs.Guards.{Held};

    ghost Value = { Held };

    ghost view = { λ g. record { id = g.id; entries = entries_told (mutex_guard_value g.locked) } };

    ghost invariant = { λ g. g.stamps.now.table.shared.table_id ≡ B.table };
}

impl<'a, B: Room> VnodeGuard<'a, B> {
    /// What lies under the lock of the vnode with this identifier.
    pub(crate) fn new(
        locked: MutexGuard<'a, Locked<B>>,
        stamps: &'a Stamps,
        id: u32,
    ) -> VnodeGuard<'a, B>
        requires { stamps.now.table.shared.table_id ≡ B.table }
        ensures { result.id ≡ id }
    {
        VnodeGuard { locked, stamps, id }
    }

    /// Makes a call on the vnode, of a request whose parts it may keep. The answer is that of one thread at the receipt's place, which is
    /// above all that the pass was told of there; its entry is the next of the journal. Refused where the pass has drawn all its stamps,
    /// and else as the vnode refuses it.
    pub fn call(
        &mut self,
        pass: &mut Pass<B>,
        prepared: Prepared<'_>,
    ) -> Result<(Reply, Receipt), CallFault>
        ensures ok { IfOk result (λ r. (r.1.vnode ≡ self.old.id) × IsNews pass.old pass.new (call_of self.old.id r.1.place r.1.stamp (asked prepared.entry) (outcome_ok r.0))) }
        ensures err { IfErr result (IsFault pass.old pass.new self.old.id (asked prepared.entry)) }
        ensures drawn { pass.new.drawn ≤ pass.old.drawn + 1 }
        ensures same { self.new.id ≡ self.old.id }
        ensures place { IfOk result (λ r. r.1.place ≡ self.old.entries) }
        ensures entries { self.new.entries ≡ self.old.entries + (if is_ok result then 1 else 0) }
    {
        if pass.drawn() >= STAMPS_EACH {
            return Err(CallFault::PassSpent);
        }
        self.locked.make(self.stamps, pass, self.id, prepared)
    }

    /// Makes a call on the vnode, as [`call`](VnodeGuard::call), and where it was answered a read of a key behind it. No other call's entry
    /// stands between the two. Where the call was refused no read is made.
    pub fn call_and_read(
        &mut self,
        pass: &mut Pass<B>,
        prepared: Prepared<'_>,
        key: &Key,
    ) -> Result<CallAndRead, CallFault>
        ensures ok { IfOk result (λ r. IsReadBehind pass.old pass.new self.old.id (asked prepared.entry) key.now r.call r.read) }
        ensures err { IfErr result (IsFault pass.old pass.new self.old.id (asked prepared.entry)) }
        ensures drawn { pass.new.drawn ≤ pass.old.drawn + 2 }
        ensures same { self.new.id ≡ self.old.id }
    {
        match self.call(pass, prepared) {
            Ok(call) => {
                let read = self.call(pass, Prepared::Read(key));
                Ok(CallAndRead { call, read })
            }
            Err(fault) => Err(fault),
        }
    }
}
