//! What is told on standard error while requests are answered.

use audit_cluster::{Alarm, Notice};
use server_accept::Timer;
use server_log::{Line, Ration, Trouble};
use std::io::{Eprint, Stderr};
use std::sync::{Mutex, Wait};

/// Tells notices on standard error.
#[derive(Clone, Copy)]
pub(crate) struct Aloud(pub(crate) Stderr);

impl Alarm for Aloud {
    fn raise(&self, notice: Notice) {
        // A notice that can't be told is lost; a fault is told again at the end.
        let _ = self.0.eprintln(notice);
    }
}

/// How often troubles are told, and the clock that says when.
#[derive(Drop)]
struct Told {
    ration: Ration,
    timer: Timer,
}

impl Told {
    /// Whether a trouble is told now: if so, how many of its kind were left out since the last that was.
    fn ask(&mut self, trouble: Trouble) -> Option<u64> {
        let now = self.timer.now();
        self.ration.ask(trouble, now)
    }
}

/// Tells troubles on standard error, each in a line: the first of a kind at once, and then at most one of it a second, over all workers.
#[derive(Drop)]
pub(crate) struct Reporter {
    err: Stderr,
    told: Mutex<Told>,
}

impl Reporter {
    /// None was told.
    pub(crate) fn new(err: Stderr) -> Reporter {
        Reporter {
            err,
            told: Mutex::new(Told {
                ration: Ration::new(),
                timer: Timer::new(),
            }),
        }
    }

    /// Tells of troubles of one kind, so many, the last of them at this bucket, if at one.
    pub(crate) fn tell<R: Wait>(
        &self,
        rt: &R,
        trouble: Trouble,
        count: u64,
        bucket: Option<&[u8]>,
    ) {
        for _ in 0..count {
            if let Some(left_out) = self.ask(rt, trouble) {
                // What can't be told is lost.
                let _ = self.err.eprintln(Line {
                    trouble,
                    bucket,
                    left_out,
                });
            }
        }
    }

    // Whether one is told now: if so, how many of its kind were left out since the last that was.
    fn ask<R: Wait>(&self, rt: &R, trouble: Trouble) -> Option<u64> {
        self.told.lock(rt).ask(trouble)
    }
}
