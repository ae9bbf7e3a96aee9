//! Runs of events over vnodes.

ghost use Rattle.std.specs.Prelude.{◌≡◌, ℕ, ◌<◌, ◌≤◌, ◌^◌, ◌+◌, List, length, IfOk};
ghost use Rattle.world.specs.Knowledge.{Knowledge, id_under, ids_under};
ghost use Rattle.world.specs.Represents.{empty_logs};
ghost use Rattle.world.specs.Stamped.{AreStamped};
ghost use Rattle.world.specs.Running.{AreRunnableFrom, Begins, IsWorldFrom, max_vnodes};
ghost use Rattle.world.specs.Sources.{GoOnBy};

use crate::event::{Event, Reply};
use crate::turn::Turn;
use bpf_helpers::Table;
use dvv::VNODES_PER_INCARNATION;
use hook_run::Room;
use std::alloc::{AllocError, Global};
use vnode::Vnode;

/// The vnodes of a run, and the entries that they have made.
#[derive(Drop)]
pub(crate) struct Run {
    /// The vnodes by index, and behind them those that loads have closed, oldest first.
    pub(crate) vnodes: Vec<Vnode>,
    /// How many entries the journals have together. It is the stamp of the next one.
    pub(crate) made: u64,
}

impl Run {
    /// Runs events, and answers the replies. An event's kind of reply doesn't hang on what the journals say; what is known then does.
    /// The only error is want of memory for the list of replies.
    pub(crate) fn go_on(
        &mut self,
        alloc: Global,
        table: &Table,
        events: &[Event],
    ) -> Result<Vec<Reply>, AllocError>
        requires few { length self.old.vnodes.items ≤ max_vnodes }
        requires stamped { AreStamped self.old.vnodes.items self.old.made }
        requires room { self.old.made ≤ 2 ^ 63 }
        requires runnable { (used : List ℕ) × AreRunnableFrom used (length self.old.vnodes.items) table.now.listed events.now }
        ensures replies { IfOk result (λ replies. length replies.items ≡ length events.now) }
        ensures goes { IfOk result (λ replies. GoOnBy events.now replies.items self.old.vnodes.items self.new.vnodes.items) }
        ensures world { IfOk result (λ replies. (begin : Knowledge) → Begins self.old.vnodes.items events.now begin → IsWorldFrom begin (length self.old.vnodes.items) table.now.listed events.now (record { logs = self.new.vnodes.items; replies = replies.items })) }
    {
        let mut replies = Vec::with_capacity(alloc, events.len())?;
        let mut room = Room::new(alloc);
        for event in events {
            let before = &events[..replies.len()];
            let turn = Turn {
                alloc,
                table,
                before,
                replies: &replies,
            };
            let reply = self.happen(&mut room, turn, event);
            replies.push(reply)?;
        }
        Ok(replies)
    }
}

/// Vnodes of an incarnation at which nothing happened.
pub(crate) fn open(alloc: Global, vnodes: usize, incarnation: u16) -> Result<Vec<Vnode>, AllocError>
    requires { vnodes ≤ max_vnodes }
    ensures { IfOk result (λ made. made.items ≡ empty_logs (ids_under incarnation vnodes)) }
{
    let mut made = Vec::with_capacity(alloc, vnodes)?;
    for index in 0..vnodes {
        made.push(Vnode::new(alloc, identifier(incarnation, index)))?;
    }
    Ok(made)
}

/// The identifier of an index under an incarnation.
pub(crate) fn identifier(incarnation: u16, index: usize) -> u32
    requires { index < max_vnodes }
    ensures { result ≡ id_under incarnation index }
{
    incarnation as u32 * VNODES_PER_INCARNATION + index as u32
}
