//! Whole runs.

ghost use Rattle.std.specs.Prelude.{◌≡◌, ℕ, ◌<◌, ◌≤◌, [], ◌∷◌, length, slice_index_or, IfOk, IfErr, OnOk};
ghost use Rattle.journal.specs.Journals.{IsJournal};
ghost use Rattle.world.specs.Knowledge.{Knowledge, id_under, ids_under};
ghost use Rattle.world.specs.Represents.{log_at, empty_logs};
ghost use Rattle.world.specs.Running.{AreRunnable, AreRunnableFrom, IsWorldFrom, max_vnodes};
ghost use Rattle.world.specs.Sources.{GoOnBy, IsFrontOf};
ghost use Rattle.world.specs.Beginning.{BeginsWith, RefusesRecords, first_logs, merges_of};

use crate::beginning::{BeginFault, merge_all};
use crate::event::{Event, Reply};
use crate::run::{Run, open};
use bpf_helpers::Table;
use record_codec::Record;
use std::alloc::{AllocError, Global};
use std::marker::Model;
use vnode::Vnode;

/// A world after a run: its vnodes, each seen as its journal, and what each event replied.
#[derive(Drop)]
pub struct World {
    vnodes: Vec<Vnode>,
    replies: Vec<Reply>,
}

impl Model for World {
    ghost use Rattle.world.specs.Running.{Ran};

    ghost Value = { Ran };

    ghost view = { λ w. record { logs = w.vnodes.items; replies = w.replies.items } };
}

impl World {
    ghost use Rattle.std.specs.Prelude.{slice_index_or};
    ghost use Rattle.world.specs.Running.{IsWorldOf};

    /// Runs events, one after another, over so many vnodes at which nothing has happened. A vnode's index is its identifier. The
    /// stamp of an entry is the number of entries that all journals had before it: stamps rise in each journal, and no two
    /// journals share one. An event that is refused makes no entry, and draws no stamp.
    ///
    /// Each event's vnode exists, and what it names is an earlier get (of a context or an answer), summary (of dots), send (of a
    /// message, whole or in part), dump (of copies) or resolver's run (of a choice). A load's incarnation was not in use at its index,
    /// where 0 is from the start. What runs as a resolver is a resolver's program, and the table has the helpers that it was verified with.
    /// The only error is want of memory for the vnodes and the list of replies; within an event it is that event's reply.
    pub fn run(
        alloc: Global,
        vnodes: usize,
        table: &Table,
        events: &[Event],
    ) -> Result<World, AllocError>
        requires few { vnodes ≤ max_vnodes }
        requires runnable { AreRunnable vnodes table.now.listed events.now }
        ensures world { IfOk result (IsWorldOf vnodes table.now.listed events.now) }
        // Each merge names the read whose answer its delivery or load had.
        ensures sources { IfOk result (λ world. GoOnBy events.now world.replies (empty_logs (ids_under 0 vnodes)) world.logs) }
    {
        let opened = open(alloc, vnodes, 0)?;
        let mut run = Run {
            vnodes: opened,
            made: 0,
        };
        let replies = run.go_on(alloc, table, events)?;
        Ok(World {
            vnodes: run.vnodes,
            replies,
        })
    }

    /// As [`run`](World::run), at vnodes of this incarnation, the first of which has merged records, in order: its journal begins with a
    /// merge for each. A vnode's identifier is `incarnation * 65,536` and its index.
    ///
    /// Nothing is asked of the records. Where some world has led to them, in which no event of these loads an identifier that was in
    /// use, the run is one that goes on from it. Here 0 and this incarnation count as in use from the start. An error tells the record
    /// whose merge the first vnode refused, and why, or that memory ran out for the vnodes and the list of replies.
    pub fn run_from(
        alloc: Global,
        vnodes: usize,
        incarnation: u16,
        records: &[Record],
        table: &Table,
        events: &[Event],
    ) -> Result<World, BeginFault>
        requires first { 1 ≤ vnodes }
        requires few { vnodes ≤ max_vnodes }
        requires runnable { AreRunnableFrom (0 ∷ incarnation ∷ []) vnodes table.now.listed events.now }
        ensures world { IfOk result (λ world. (begin : Knowledge) → BeginsWith incarnation vnodes records.now events.now begin → IsWorldFrom begin vnodes table.now.listed events.now world) }

        // Each event is replied, whatever the records are.
        ensures replies { IfOk result (λ world. length world.replies ≡ length events.now) }

        // Each merge names the read that its record named, or the one whose answer its delivery or load had.
        ensures sources { IfOk result (λ world. GoOnBy events.now world.replies (first_logs incarnation vnodes records.now) world.logs) }

        // Each record is merged, as the first vnode's journal takes it: one of the journals begins with them.
        ensures first { IfOk result (λ world. (place : ℕ) × (place < length world.logs) × IsFrontOf (record { vnode = id_under incarnation 0; entries = merges_of 0 records.now }) (log_at world.logs place)) }
        ensures takes { OnOk result (IsJournal (id_under incarnation 0) (merges_of 0 records.now)) }
        ensures refused { IfErr result (RefusesRecords (id_under incarnation 0) records.now) }
    {
        let mut opened = open(alloc, vnodes, incarnation)?;
        merge_all(&mut opened[0], records)?;
        let made = records.len() as u64;
        let mut run = Run {
            vnodes: opened,
            made,
        };
        let replies = run.go_on(alloc, table, events)?;
        Ok(World {
            vnodes: run.vnodes,
            replies,
        })
    }

    /// What each event replied.
    pub fn replies(&self) -> &[Reply]
        ensures { result.now ≡ self.now.replies }
    {
        &self.replies
    }

    /// The vnodes by index, and behind them those that loads have closed, oldest first.
    pub fn vnodes(&self) -> &[Vnode]
        ensures { result.now ≡ self.now.logs }
    {
        &self.vnodes
    }

    /// The vnode at an index.
    pub fn vnode(&self, index: usize) -> &Vnode
        requires { index < length self.now.logs }
        ensures { result.now ≡ log_at self.now.logs index }
    {
        &self.vnodes[index]
    }
}
