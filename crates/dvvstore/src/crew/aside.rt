//! The passes by which workers read what they wrote, so that a log has it.

ghost use Rattle.std.specs.Prelude.{◌≡◌, [], All};
ghost use Rattle.dvvstore.specs.Reads.{IsRead};

use cluster::{Cluster, Pass, Room};
use cluster_peers::ClusterPeers;
use key_state::Key;
use peers::{Answer, PeerFault, Peers};
use std::alloc::Global;
use std::marker::Model;
use std::sync::Wait;

/// A pass by which a worker reads what it wrote, so that a log has it, and does nothing else: all that it was told are reads.
#[derive(Drop)]
pub struct Aside<B: Room> {
    pass: Pass<B>,
}

impl<B: Room> Model for Aside<B> {
    ghost use Rattle.std.specs.Prelude.{All};
    ghost use Rattle.dvvstore.specs.Reads.{IsRead};
    ghost use Rattle.cluster_stamps.specs.declared.view.View.{View};

    ghost Value = { View };

    ghost view = { λ a. a.pass };

    ghost invariant = { λ a. All IsRead a.pass.told };
}

impl<B: Room> Aside<B> {
    /// A pass that was told nothing yet.
    pub fn new(pass: Pass<B>) -> Aside<B>
        requires fresh { pass.told ≡ [] }
        ensures pass { result ≡ pass }
    {
        Aside { pass }
    }

    /// The pass.
    pub(crate) fn into_pass(self) -> Pass<B>
        ensures pass { result ≡ self }
        ensures read { All IsRead result.told }
    {
        self.pass
    }
}

/// The passes of a worker.
#[derive(Drop)]
pub struct Passes<B: Room> {
    /// What it calls the vnodes with.
    pub pass: Pass<B>,
    /// What it reads with what it wrote.
    pub aside: Aside<B>,
}

/// The vnodes, by a pass that only reads.
#[derive(Drop)]
pub(crate) struct Reader<'a, B: Room, R: Wait> {
    peers: ClusterPeers<'a, B, R>,
    ghost read: { All IsRead peers.pass.told },
}

impl<'a, B: Room, R: Wait> Reader<'a, B, R> {
    /// The vnodes of a cluster, by a pass that only reads.
    pub(crate) fn new(
        alloc: Global,
        rt: &'a R,
        cluster: &'a Cluster<B>,
        aside: Aside<B>,
    ) -> Reader<'a, B, R> {
        Reader {
            peers: ClusterPeers::new(alloc, rt, cluster, aside.into_pass()),
        }
    }

    /// What a vnode holds under a key. The error: there is no such vnode, or memory was refused.
    pub(crate) fn state_of(&mut self, vnode: usize, key: &Key) -> Result<Answer, PeerFault> {
        self.peers.state_of(vnode, key)
    }

    /// The pass, as its reads have left it.
    pub(crate) fn into_aside(self) -> Aside<B> {
        let Reader { peers } = self;
        Aside {
            pass: peers.into_pass(),
        }
    }
}
