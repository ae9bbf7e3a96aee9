//! Merges of records at the head of a vnode's journal.

ghost use Rattle.std.specs.Prelude.{◌+◌, ◌<◌, IfOk, OnOk};
ghost use Rattle.kept_restore.specs.Loads.{HasLoaded, IsMerged};

use crate::fault::LoadFault;
use cluster::{CallFault, Cluster, Pass, Room};
use cluster_stamps::{Prepared, Reply};
use record_codec::Record;
use std::alloc::Global;
use std::sync::Wait;
use vnode::VnodeFault;

/// May have who merges records wait, for who goes over what they have merged.
pub trait Throttle {
    /// The record at a place is about to be merged at the vnode with an index. No lock is held.
    fn before(&self, vnode: usize, place: usize);
}

/// Where records are merged: the vnodes of a cluster, and who may have each of them wait.
#[derive(Drop)]
pub struct Loading<'a, B: Room, R, T> {
    /// What merges are put together in.
    pub alloc: Global,
    /// What vnodes are waited for by.
    pub rt: &'a R,
    /// The vnodes.
    pub cluster: &'a Cluster<B>,
    /// Who may have them wait.
    pub throttle: &'a T,
}

impl<B: Room, R: Wait, T: Throttle> Loading<'_, B, R, T> {
    /// Merges records at the vnode with an index, which nobody has called before, each once and in order: they are the first entries of its
    /// journal. The pass is told of each merge and of nothing else.
    pub fn load(
        &self,
        pass: &mut Pass<B>,
        index: usize,
        records: &[Record],
    ) -> Result<(), LoadFault>
        requires inside { index < self.now.cluster.now.vnodes }
        ensures loaded { OnOk result (HasLoaded pass.old pass.new (self.now.cluster.now.first + index) records.now) }
    {
        for (place, one) in records.iter().enumerate() {
            self.throttle.before(index, place);
            match self.merge(pass, index, one) {
                Ok(at) if at == place => {}
                Ok(_) => return Err(LoadFault::Elsewhere { place }),
                Err(fault) => return Err(LoadFault::Refused { place, fault }),
            }
        }
        Ok(())
    }

    /// Merges a record, and tells at which place of the journal it was merged.
    fn merge(&self, pass: &mut Pass<B>, index: usize, one: &Record) -> Result<usize, CallFault>
        requires inside { index < self.now.cluster.now.vnodes }
        ensures merged { IfOk result (λ at. IsMerged pass.old pass.new (self.now.cluster.now.first + index) at one.now) }
    {
        let Ok(merge) = Prepared::merge(self.alloc, &one.key, one.from, one.at, &one.state) else {
            return Err(CallFault::Refused(VnodeFault::NoMemory));
        };
        match self.cluster.call_prepared(self.rt, pass, index, merge) {
            Ok((Reply::Changed(_), receipt)) => Ok(receipt.place as usize),
            Ok(_) => unreachable!(),
            Err(fault) => Err(fault),
        }
    }
}
