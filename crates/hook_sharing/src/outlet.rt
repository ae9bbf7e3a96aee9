//! Where changes go out to readers.

ghost use Rattle.std.specs.Prelude.{◌≡◌, ◌↔◌, ◌-◌, ◌<◌, ◌^◌, ◌++◌, ◌∷◌, [], length, take, None, IsTrue, MatchResult, IfOk, OnOk, OnErr};
ghost use Rattle.std.specs.Option.{option_to_list};
ghost use Rattle.std.specs.VecDeque.{deque_capacity, deque_len};
ghost use mathlib.Core.List.{IsPrefix};
ghost use Rattle.left_right.specs.Handles.{pending, published};
ghost use Rattle.hook_readers.specs.Edits.{changes_of};
ghost use Rattle.hook_sharing.specs.Lists.{last_of};

use crate::opening::Ground;
use hook_readers::{Edit, Op, Rack};
use left_right::{ReadHandle, WriteHandle};
use shared_prefix::{Book, Front, Naming};
use std::alloc::{AllocError, Global};
use std::collections::VecDeque;
use std::sync::Wait;

/// The writer, beside the front of all changes that were handed to it or are held back, and the changes that come after them.
pub(crate) struct Outlet<J: Naming, T: Rack<J> + Drop, R: Wait + Drop> {
    pub(crate) writer: WriteHandle<T, Op<J>, R>,
    pub(crate) book: Book<Edit, J>,
    pub(crate) front: Front<Edit, J>,
    /// The last change of the front, where the writer had no memory for it.
    pub(crate) held_back: Option<Op<J>>,
    pub(crate) waiting: VecDeque<Edit>,
    pub(crate) ghost agreed: { last_of (T.state (published writer)) (pending writer ++ option_to_list held_back) ≡ front },
    pub(crate) ghost begun: { take (length (T.state (published writer))) front ≡ T.state (published writer) },
}

impl<J: Naming, T: Rack<J> + Drop, R: Wait + Drop> Outlet<J, T, R> {
    /// Nothing is handed on, held back or waits.
    pub(crate) fn new(
        alloc: Global,
        rt: R,
        ground: Ground<J, T>,
        readers: usize,
    ) -> Result<Outlet<J, T, R>, AllocError>
        requires ground { (ground.front ≡ []) × (T.state ground.first ≡ []) × (T.state ground.second ≡ []) }
        requires readers { (0 < readers) × (readers < 2 ^ 32) }
        ensures { IfOk result (λ outlet. (outlet.front ≡ []) × (T.state (published outlet.writer) ≡ []) × (outlet.waiting.items ≡ [])) }
    {
        let Ground {
            book,
            front,
            first,
            second,
            hasher: _,
        } = ground;
        let writer = WriteHandle::new(alloc, rt, first, second, readers)?;
        Ok(Outlet {
            writer,
            book,
            front,
            held_back: None,
            waiting: VecDeque::new(alloc),
        })
    }

    /// A handle for a reader.
    pub(crate) fn handle(&self) -> Result<ReadHandle<T>, AllocError> {
        self.writer.handle()
    }

    /// What readers see now.
    pub(crate) fn shown(&self) -> &T
        ensures { result.now ≡ published self.now.writer }
    {
        self.writer.published()
    }

    /// Whether all changes of a front are among those that readers see, at their head; they are then among all changes, at their head.
    pub(crate) fn shows_all(&self, known: &Front<Edit, J>) -> bool
        ensures published { IsTrue result ↔ IsPrefix (changes_of known.now) (changes_of (T.state (published self.now.writer))) }
        ensures made { IsTrue result → IsPrefix (changes_of known.now) (changes_of (self.now.front ++ self.now.waiting.items)) }
    {
        let shown = self.shown().front();
        shown.longer(known).len() == shown.len()
    }

    /// Room for one change more.
    pub(crate) fn reserve(&mut self) -> Result<(), AllocError>
        ensures front { self.new.front ≡ self.old.front }
        ensures published { self.new.writer ≡ self.old.writer }
        ensures waiting { self.new.waiting.items ≡ self.old.waiting.items }
        ensures room { OnOk result (deque_len self.new.waiting < deque_capacity self.new.waiting) }
    {
        self.waiting.reserve(1)
    }

    /// Takes one change more in.
    pub(crate) fn take_in(&mut self, edit: Edit)
        requires { deque_len self.old.waiting < deque_capacity self.old.waiting }
        ensures front { self.new.front ≡ self.old.front }
        ensures published { self.new.writer ≡ self.old.writer }
        ensures waiting { self.new.waiting.items ≡ self.old.waiting.items ++ edit ∷ [] }
    {
        self.waiting.push_back_reserved(edit);
    }

    // Hands on what was held back.
    fn release(&mut self) -> Result<(), AllocError>
        ensures front { self.new.front ≡ self.old.front }
        ensures published { published self.new.writer ≡ published self.old.writer }
        ensures waiting { self.new.waiting ≡ self.old.waiting }
        ensures ok { OnOk result (self.new.held_back ≡ None) }
    {
        let Some(op) = self.held_back.take() else {
            return Ok(());
        };
        match self.writer.append(op) {
            Ok(()) => Ok(()),
            Err(op) => {
                self.held_back = Some(op);
                Err(AllocError)
            }
        }
    }

    // Adds a change to the front, and hands it on; it is held back where the writer has no memory for it. It comes back where the
    // list of all changes is longer than the front, as nobody else makes it.
    fn add(&mut self, edit: Edit) -> Result<(), Edit>
        requires { self.old.held_back ≡ None }
        ensures published { published self.new.writer ≡ published self.old.writer }
        ensures waiting { self.new.waiting ≡ self.old.waiting }
        ensures front { MatchResult result (λ _. self.new.front ≡ self.old.front ++ edit ∷ []) (λ back. (back ≡ edit) × (self.new.front ≡ self.old.front)) }
    {
        if self.front.is_full() {
            return Err(edit);
        }
        let mut front = self.front.again();
        if !front.grow(&self.book, &edit) {
            return Err(edit);
        }
        let op = Op::new(edit, front.again());
        self.front = front;
        self.held_back = match self.writer.append(op) {
            Ok(()) => None,
            Err(op) => Some(op),
        };
        Ok(())
    }

    // Hands on the change that waits longest.
    fn hand_on(&mut self) -> Result<(), AllocError>
        requires { self.old.held_back ≡ None }
        ensures all { self.new.front ++ self.new.waiting.items ≡ self.old.front ++ self.old.waiting.items }
        ensures published { published self.new.writer ≡ published self.old.writer }
        ensures ok { OnOk result (deque_len self.new.waiting ≡ deque_len self.old.waiting - 1) }
    {
        let Some(edit) = self.waiting.pop_front() else {
            return Ok(());
        };
        match self.add(edit) {
            Ok(()) => Ok(()),
            Err(edit) => {
                self.waiting.push_front_reserved(edit);
                Err(AllocError)
            }
        }
    }

    // Hands on all changes.
    fn hand_on_all(&mut self) -> Result<(), AllocError>
        ensures all { self.new.front ++ self.new.waiting.items ≡ self.old.front ++ self.old.waiting.items }
        ensures published { published self.new.writer ≡ published self.old.writer }
        ensures ok { OnOk result ((self.new.held_back ≡ None) × (self.new.waiting.items ≡ [])) }
    {
        for turn in 0..self.waiting.len() {
            self.release()?;
            self.hand_on()?;
        }
        self.release()
    }

    /// Shows readers all changes, and answers their front. Where it is refused readers see what they saw.
    pub(crate) fn publish(&mut self) -> Result<Front<Edit, J>, AllocError>
        ensures all { self.new.front ++ self.new.waiting.items ≡ self.old.front ++ self.old.waiting.items }
        ensures ok { IfOk result (λ front. (front ≡ self.old.front ++ self.old.waiting.items) × (T.state (published self.new.writer) ≡ self.old.front ++ self.old.waiting.items)) }
        ensures err { OnErr result (T.state (published self.new.writer) ≡ T.state (published self.old.writer)) }
    {
        self.hand_on_all()?;
        self.writer.publish()?;
        Ok(self.front.again())
    }
}
