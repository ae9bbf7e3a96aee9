//! How fast a snapshot of a vnode goes on.

use crate::crew::Signs;
use crate::limits::{
    CLOCK_LOOK_READS, MAX_REST_US, REST_PER_SPELL, REST_PER_WAIT, SPELL_KEYS, SPELL_US,
    TURN_WAIT_MS,
};
use kept_file::Pace;
use server_accept::{Post, Stint, Timer};
use std::sync::Wait;
use std::thread::Parker;
use std::time::Duration;

/// How many microseconds are rested behind a spell.
fn rest_behind(spell: &Stint) -> u64 {
    let by_time = spell.lasted().saturating_mul(REST_PER_SPELL);
    let by_waits = spell.waited().saturating_mul(REST_PER_WAIT);
    by_time.max(by_waits).min(MAX_REST_US)
}

/// How fast a snapshot of a vnode goes on, and how long: as its signs say. It reads spell by spell. Behind one in which somebody
/// else called the vnode it waits until each worker has ended the turn that it was in: so a merge that a client's request makes still finds
/// the answer that it names among the last that the follower keeps. Then it rests, the longer the longer the spell lasted and the more it
/// had to wait for a processor, so that clients have most of the time of those that are busy, of the vnode and of who follows. Where nobody
/// else calls the vnode it does neither. Where much waits to be followed it waits for that in any case, so that no client has to.
#[derive(Drop)]
pub(crate) struct Stride<'a, R> {
    rt: &'a R,
    signs: Signs<'a>,
    /// What the thread sleeps on. Nobody wakes it: by the server's bell one alone can wait.
    idle: Parker,
    /// The spell, as a piece of the thread's work.
    stint: Stint,
    /// How many keys it may still read.
    left: u32,
    /// Where the last key was read.
    last: Option<u64>,
    /// Whether somebody else called the vnode in the spell.
    is_shared: bool,
}

impl<'a, R: Wait> Stride<'a, R> {
    /// Its first spell begins.
    pub(crate) fn new(rt: &'a R, signs: Signs<'a>) -> Self {
        Stride {
            rt,
            signs,
            idle: Parker::new(),
            stint: Stint::begin(),
            left: SPELL_KEYS,
            last: None,
            is_shared: true,
        }
    }

    /// Another key was read, at a place of the vnode's journal.
    fn note(&mut self, place: u64) {
        self.left = self.left.saturating_sub(1);
        self.is_shared = self.is_shared
            || self.last.map(|last| last.wrapping_add(1)) != Some(place);
        self.last = Some(place);
    }

    /// Whether the spell is over.
    fn is_over(&self) -> bool {
        self.left == 0 || self.left % CLOCK_LOOK_READS == 0 && self.stint.lasted() >= SPELL_US
    }

    /// The spell ends, and another begins.
    fn rest(&mut self) {
        if self.is_shared {
            let micros = rest_behind(&self.stint);
            self.wait_for_workers();
            self.sleep(Duration::from_micros(micros));
        }
        self.wait_for_follower();
        self.stint = Stint::begin();
        self.left = SPELL_KEYS;
        self.is_shared = false;
    }

    /// Waits until each worker has ended the turn that it is in.
    fn wait_for_workers(&self) {
        let mut timer = Timer::new();
        let until = timer.now().saturating_add(TURN_WAIT_MS);
        for post in &self.signs.lobby.roster.posts {
            self.wait_for(post, &mut timer, until);
        }
    }

    /// Waits until a worker has ended the turn that it is in, and no longer than until a moment. One that sleeps is woken.
    fn wait_for(&self, post: &Post, timer: &mut Timer, until: u64) {
        let turns = post.turns();
        for _ in self.rt.forever() {
            self.wait_a_little();
            if post.turns() != turns || timer.now() >= until || !self.signs.go_on() {
                return;
            }
            post.inlet.wake();
        }
    }

    /// Waits until most of what was done is followed.
    fn wait_for_follower(&self) {
        for _ in self.rt.forever() {
            if !self.signs.is_trailing() || !self.signs.go_on() {
                return;
            }
            self.wait_a_little();
        }
    }

    /// Waits for a millisecond.
    fn wait_a_little(&self) {
        self.sleep(Duration::from_millis(1));
    }

    /// Sleeps for so long.
    fn sleep(&self, time: Duration) {
        self.idle.park_timeout(self.rt, time);
    }
}

impl<R: Wait> Pace for Stride<'_, R> {
    fn goes_on(&mut self, last: Option<u64>) -> bool {
        if let Some(place) = last {
            self.note(place);
        }
        if self.is_over() {
            self.rest();
        }
        self.signs.go_on()
    }
}
