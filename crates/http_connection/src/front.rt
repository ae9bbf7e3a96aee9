//! All requests of one connection over a source and a sink: those that are at hand in memory. Connections of a server have a seat in a hall
//! each, which goes the same steps of a `Talk` without waiting.

ghost use Rattle.std.specs.Prelude.{◌≡◌, ◌<◌, ◌≤◌, ◌++◌, ℕ, List, length, take, Some, [], IfOk, IfErr, OnOk, OnErr};
ghost use Rattle.std.specs.Io.KnownBytes.{Consumes, IsAtEnd, Keeps};
ghost use Rattle.http_connection.specs.Device.{Rises, HasRisen, Sends, Reads};
ghost use Rattle.http_connection.specs.Room.{room};
ghost use Rattle.http_connection.specs.Dialogue.{Completes, BreaksOff, AnswersAllThatCame};
ghost use Rattle.http_connection.specs.Pending.{IsPending};
ghost use Rattle.http_connection.specs.Turns.{SoFar, Leads, Progresses};

use crate::backend::Backend;
use crate::desk::Desk;
use crate::device::{Failed, Sink, Source, send};
use crate::fault::FrontFault;
use crate::limits::{FLUSH_BYTES, MAX_UNREAD_BYTES};
use crate::talk::Talk;
use crate::turn::{Step, Turn};
use std::alloc::{AllocError, Global};

/// What a worker keeps from one connection to the next: its desk, and the room for a read.
#[derive(Drop)]
pub struct Front {
    alloc: Global,
    desk: Desk,
    chunk: Vec<u8>,
    ghost sized: { length chunk.items ≡ room },
}

impl Front {
    /// A front with its room. The error is want of memory.
    pub fn new(alloc: Global) -> Result<Front, AllocError> {
        Ok(Front {
            alloc,
            desk: Desk::new(alloc)?,
            chunk: vec![in alloc; 0; MAX_UNREAD_BYTES]?,
        })
    }

    /// Answers the requests of a connection until it ends, and tells how many there were; the count stays at its greatest.
    /// The answers to requests that came together are written together. After an error the connection is over.
    pub fn serve<S: Source, W: Sink, B: Backend>(
        &mut self,
        source: &mut S,
        sink: &mut W,
        backend: &mut B,
    ) -> Result<u64, FrontFault>
        // However the bytes were cut: each request's call is made in order, and its answer written.
        ensures answers { IfOk result (λ count. (bytes before : List ℕ)
            → S.remaining source.old ≡ Some bytes → W.contents sink.old ≡ Some before
            → Completes B.gives (B.copies backend.old) bytes backend.old backend.new before (W.contents sink.new) count) }
        // Where it breaks off, the calls are those of a front of the bytes, and a front of its answers was written.
        ensures breaks { OnErr result ((bytes before : List ℕ)
            → S.remaining source.old ≡ Some bytes → W.contents sink.old ≡ Some before
            → BreaksOff B.gives (B.copies backend.old) bytes backend.old backend.new before (W.contents sink.new)) }
        // Whenever a read begins, all that could be answered is, and its answers are written: a read that fails shows it.
        ensures unread { IfErr result (λ fault. fault ≡ FrontFault.Read → (bytes before : List ℕ)
            → S.remaining source.old ≡ Some bytes → W.contents sink.old ≡ Some before
            → AnswersAllThatCame B.gives (B.copies backend.old) bytes backend.old backend.new before (W.contents sink.new) (S.remaining source.new)) }
        ensures read_fault { IfErr result (λ fault. fault ≡ FrontFault.Read → HasRisen (S.failures source.old) (S.failures source.new)) }
        ensures write_fault { IfErr result (λ fault. fault ≡ FrontFault.Write → HasRisen (W.failures sink.old) (W.failures sink.new)) }
        // Each of the two is told only where the device's own call failed.
        ensures read_fails { IfErr result (λ fault. fault ≡ FrontFault.Read → (mid : S) × S.fails mid source.new) }
        ensures write_fails { IfErr result (λ fault. fault ≡ FrontFault.Write → (mid : W) × W.fails mid sink.new) }
    {
        let mut talk = Talk::new(self.alloc);
        let mut answered = 0u64;
        'requests: loop {
            match self.take_turn(&mut talk, source, sink, backend) {
                Ok(Turn::Read) => {}
                Ok(Turn::Answered) => answered = answered.saturating_add(1),
                Ok(Turn::Last) => return Ok(answered.saturating_add(1)),
                Ok(Turn::Over) => return Ok(answered),
                Err(fault) => return Err(fault),
            }
        }
    }

    // Answers the first request of the bytes that wait, or reads more of them. What waits to be written is written before a
    // read, at the end, and where it is much.
    fn take_turn<S: Source, W: Sink, B: Backend>(
        &mut self,
        talk: &mut Talk,
        source: &mut S,
        sink: &mut W,
        backend: &mut B,
    ) -> Result<Turn, FrontFault>
        ensures leads { IfOk result (λ turn. (bytes before : List ℕ) (start : B) (count : ℕ)
            → SoFar B.gives B.copies bytes before start backend.old talk.old.waits (S.remaining source.old) (W.contents sink.old) talk.old.unsent count
            → Leads B.gives B.copies turn bytes before start backend.new talk.new.waits (S.remaining source.new) (W.contents sink.new) talk.new.unsent count) }
        ensures breaks { (bytes before : List ℕ) (start : B) (count : ℕ)
            → SoFar B.gives B.copies bytes before start backend.old talk.old.waits (S.remaining source.old) (W.contents sink.old) talk.old.unsent count
            → OnErr result (BreaksOff B.gives (B.copies start) bytes start backend.new before (W.contents sink.new)) }
        ensures unread { IfErr result (λ fault. fault ≡ FrontFault.Read → (bytes before : List ℕ) (start : B) (count : ℕ)
            → SoFar B.gives B.copies bytes before start backend.old talk.old.waits (S.remaining source.old) (W.contents sink.old) talk.old.unsent count
            → AnswersAllThatCame B.gives (B.copies start) bytes start backend.new before (W.contents sink.new) (S.remaining source.new)) }
        ensures progress { IfOk result (λ turn. Progresses turn (S.reads_left source.old) (S.reads_left source.new)
            (length talk.old.waits) (length talk.new.waits)) }
        ensures reads { OnOk result (S.failures source.new ≡ S.failures source.old) }
        ensures writes { OnOk result (W.failures sink.new ≡ W.failures sink.old) }
        ensures read_fault { IfErr result (λ fault. fault ≡ FrontFault.Read → Rises (S.failures source.old) (S.failures source.new)) }
        ensures write_fault { IfErr result (λ fault. fault ≡ FrontFault.Write → Rises (W.failures sink.old) (W.failures sink.new)) }
        ensures read_fails { IfErr result (λ fault. fault ≡ FrontFault.Read → (mid : S) × S.fails mid source.new) }
        ensures write_fails { IfErr result (λ fault. fault ≡ FrontFault.Write → (mid : W) × W.fails mid sink.new) }
    {
        let step = talk.step(&mut self.desk, backend)?;
        match step {
            Step::Waits(_) => {
                let n = self.read_more(talk, source, sink)?;
                Ok(if n == 0 { Turn::Over } else { Turn::Read })
            }
            Step::Answered => {
                flush_many(talk, &mut self.desk, sink)?;
                Ok(Turn::Answered)
            }
            Step::Last => {
                flush(talk, &mut self.desk, sink)?;
                Ok(Turn::Last)
            }
        }
    }

    // Writes what waits to be written, and reads more bytes behind those that wait, until these are worth a look or the end came.
    // Answers how many came: none come only at the end.
    fn read_more<S: Source, W: Sink>(
        &mut self,
        talk: &mut Talk,
        source: &mut S,
        sink: &mut W,
    ) -> Result<usize, FrontFault>
        requires pending { IsPending talk.old.waits }
        ensures read { IfOk result (λ n. (more : List ℕ) × (length more ≡ n) × (talk.new.waits ≡ talk.old.waits ++ more)
            × Consumes (S.remaining source.old) (S.remaining source.new) more × (n ≡ 0 → IsAtEnd (S.remaining source.new))) }
        ensures written { OnOk result (Sends (W.contents sink.old) (W.contents sink.new) talk.old.unsent talk.new.unsent) }
        ensures empty { OnOk result (talk.new.unsent ≡ []) }
        ensures breaks { OnErr result ((left : List ℕ) × Sends (W.contents sink.old) (W.contents sink.new) talk.old.unsent left) }
        ensures fits { OnOk result (length talk.new.waits ≤ room) }
        ensures unread { IfErr result (λ fault. fault ≡ FrontFault.Read → Reads talk.old.waits talk.new.waits (S.remaining source.old) (S.remaining source.new)
            × IsPending talk.new.waits × Sends (W.contents sink.old) (W.contents sink.new) talk.old.unsent []) }
        ensures ends { IfOk result (λ n. 0 < n → S.reads_left source.new < S.reads_left source.old) }
        ensures reads { OnOk result (S.failures source.new ≡ S.failures source.old) }
        ensures writes { OnOk result (W.failures sink.new ≡ W.failures sink.old) }
        ensures read_fault { IfErr result (λ fault. fault ≡ FrontFault.Read → Rises (S.failures source.old) (S.failures source.new)) }
        ensures write_fault { IfErr result (λ fault. fault ≡ FrontFault.Write → Rises (W.failures sink.old) (W.failures sink.new)) }
        ensures read_fails { IfErr result (λ fault. fault ≡ FrontFault.Read → (mid : S) × S.fails mid source.new) }
        ensures write_fails { IfErr result (λ fault. fault ≡ FrontFault.Write → (mid : W) × W.fails mid sink.new) }
    {
        flush(talk, &mut self.desk, sink)?;
        self.read_up(talk, source)
    }

    // Reads more bytes behind those that wait, until these are worth a look or the end came, and answers how many came.
    fn read_up<S: Source>(&mut self, talk: &mut Talk, source: &mut S) -> Result<usize, FrontFault>
        requires pending { IsPending talk.old.waits }
        ensures read { IfOk result (λ n. (more : List ℕ) × (length more ≡ n) × (talk.new.waits ≡ talk.old.waits ++ more)
            × Consumes (S.remaining source.old) (S.remaining source.new) more × (n ≡ 0 → IsAtEnd (S.remaining source.new))) }
        ensures unread { IfErr result (λ fault. fault ≡ FrontFault.Read → Reads talk.old.waits talk.new.waits (S.remaining source.old) (S.remaining source.new)
            × IsPending talk.new.waits) }
        ensures unsent { talk.new.unsent ≡ talk.old.unsent }
        ensures fits { OnOk result (length talk.new.waits ≤ room) }
        ensures ends { IfOk result (λ n. 0 < n → S.reads_left source.new < S.reads_left source.old) }
        ensures reads { OnOk result (S.failures source.new ≡ S.failures source.old) }
        ensures read_fault { IfErr result (λ fault. fault ≡ FrontFault.Read → Rises (S.failures source.old) (S.failures source.new)) }
        ensures read_fails { IfErr result (λ fault. fault ≡ FrontFault.Read → (mid : S) × S.fails mid source.new) }
        ensures no_write { IfErr result (λ fault. ¬ (fault ≡ FrontFault.Write)) }
    {
        let mut came = 0usize;
        'reads: loop {
            let n = self.read_once(talk, source)?;
            came += n;
            if n == 0 || talk.is_due() {
                return Ok(came);
            }
        }
    }

    // Reads once, behind the bytes that wait, and answers how many came. None come only at the end.
    fn read_once<S: Source>(&mut self, talk: &mut Talk, source: &mut S) -> Result<usize, FrontFault>
        requires pending { IsPending talk.old.waits }
        ensures ok { IfOk result (λ n. (more : List ℕ) × (length more ≡ n) × (talk.new.waits ≡ talk.old.waits ++ more)
            × Consumes (S.remaining source.old) (S.remaining source.new) more × (n ≡ 0 → IsAtEnd (S.remaining source.new))) }
        ensures unsent { talk.new.unsent ≡ talk.old.unsent }
        ensures fits { OnOk result (length talk.new.waits ≤ room) }
        ensures left { OnOk result (S.reads_left source.new ≤ S.reads_left source.old) }
        ensures ends { IfOk result (λ n. 0 < n → S.reads_left source.new < S.reads_left source.old) }
        ensures reads { OnOk result (S.failures source.new ≡ S.failures source.old) }
        ensures read_fault { IfErr result (λ fault. fault ≡ FrontFault.Read → Rises (S.failures source.old) (S.failures source.new)) }
        ensures kept { IfErr result (λ fault. fault ≡ FrontFault.Read → (talk.new.waits ≡ talk.old.waits) × Keeps (S.remaining source.old) (S.remaining source.new)) }
        ensures read_fails { IfErr result (λ fault. fault ≡ FrontFault.Read → (mid : S) × S.fails mid source.new) }
        ensures no_write { IfErr result (λ fault. ¬ (fault ≡ FrontFault.Write)) }
    {
        let most = MAX_UNREAD_BYTES - talk.waiting();
        match read_front(source, &mut self.chunk, most) {
            Ok(n) => {
                talk.hear(&mut self.desk, &self.chunk[..n])?;
                Ok(n)
            }
            Err(Failed) => Err(FrontFault::Read),
        }
    }
}

// Reads some bytes to the front of the buffer, so many at most.
fn read_front<S: Source>(source: &mut S, chunk: &mut [u8], most: usize) -> Result<usize, Failed>
    requires some { 0 < most }
    requires fits { most ≤ length chunk.old }
    ensures ok { IfOk result (λ n. (n ≤ most) × Consumes (S.remaining source.old) (S.remaining source.new) (take n chunk.new)
        × (n ≡ 0 → IsAtEnd (S.remaining source.new))) }
    ensures err { OnErr result (Keeps (S.remaining source.old) (S.remaining source.new)) }
    ensures counted { OnOk result (S.failures source.new ≡ S.failures source.old) }
    ensures failed { OnErr result (Rises (S.failures source.old) (S.failures source.new)) }
    ensures fails { OnErr result (S.fails source.old source.new) }
    ensures left { OnOk result (S.reads_left source.new ≤ S.reads_left source.old) }
    ensures ends { IfOk result (λ n. 0 < n → S.reads_left source.new < S.reads_left source.old) }
{
    source.read(&mut chunk[..most])
}

// Writes the answers that wait.
fn flush<W: Sink>(talk: &mut Talk, desk: &mut Desk, sink: &mut W) -> Result<(), FrontFault>
    ensures ok { OnOk result (Sends (W.contents sink.old) (W.contents sink.new) talk.old.unsent talk.new.unsent) }
    ensures empty { OnOk result (talk.new.unsent ≡ []) }
    ensures waits { talk.new.waits ≡ talk.old.waits }
    ensures fault { IfErr result (λ fault. fault ≡ FrontFault.Write) }
    ensures err { OnErr result ((left : List ℕ) × Sends (W.contents sink.old) (W.contents sink.new) talk.old.unsent left) }
    ensures counted { OnOk result (W.failures sink.new ≡ W.failures sink.old) }
    ensures failed { OnErr result (Rises (W.failures sink.old) (W.failures sink.new)) }
    ensures fails { OnErr result ((mid : W) × W.fails mid sink.new) }
{
    let unsent = talk.unsent();
    let len = unsent.len();
    if send(sink, unsent).is_err() {
        return Err(FrontFault::Write);
    }
    talk.sent(desk, len);
    Ok(())
}

// Writes the answers that wait, where they are much.
fn flush_many<W: Sink>(talk: &mut Talk, desk: &mut Desk, sink: &mut W) -> Result<(), FrontFault>
    ensures ok { OnOk result (Sends (W.contents sink.old) (W.contents sink.new) talk.old.unsent talk.new.unsent) }
    ensures waits { talk.new.waits ≡ talk.old.waits }
    ensures fault { IfErr result (λ fault. fault ≡ FrontFault.Write) }
    ensures err { OnErr result ((left : List ℕ) × Sends (W.contents sink.old) (W.contents sink.new) talk.old.unsent left) }
    ensures counted { OnOk result (W.failures sink.new ≡ W.failures sink.old) }
    ensures failed { OnErr result (Rises (W.failures sink.old) (W.failures sink.new)) }
    ensures fails { OnErr result ((mid : W) × W.fails mid sink.new) }
{
    if talk.unsent().len() < FLUSH_BYTES {
        return Ok(());
    }
    flush(talk, desk, sink)
}
