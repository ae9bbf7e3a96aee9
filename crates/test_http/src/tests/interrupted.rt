//! Calls that are interrupted, and calls that fail.

use crate::tests::connections::bytes_of;
use crate::tests::opening::open;
use crate::tests::rows::HTTP_SIBLINGS;
use http_connection::{Front, FrontFault, ReadSource, WriteSink};
use std::alloc::{AllocError, Global};
use std::io;
use std::test::Fail;
use test_support::expect;

/// At most so many bytes at a time.
const STEP: usize = 7;

/// Before each call that goes through so many fail for one reason.
#[derive(Drop)]
struct Held<T> {
    inner: T,
    why: io::ErrorKind,
    times: u32,
    left: u32,
}

impl<T> Held<T> {
    fn new(inner: T, why: io::ErrorKind, times: u32) -> Held<T> {
        Held {
            inner,
            why,
            times,
            left: times,
        }
    }

    /// Counts a call. The error: it fails.
    fn count(&mut self) -> io::Result<()> {
        if self.left == 0 {
            self.left = self.times;
            return Ok(());
        }
        self.left = self.left.saturating_sub(1);
        Err(io::Error::from(self.why))
    }
}

impl<T: io::Read> io::Read for Held<T> {
    fn read(&mut self, buf: &mut [u8]) -> io::Result<usize> {
        self.count()?;
        let len = buf.len().min(STEP);
        self.inner.read(&mut buf[..len])
    }
}

impl<T: io::Write> io::Write for Held<T> {
    fn write(&mut self, bytes: &[u8]) -> io::Result<usize> {
        self.count()?;
        self.inner.write(&bytes[..bytes.len().min(STEP)])
    }

    fn flush(&mut self) -> io::Result<()> {
        self.inner.flush()
    }
}

/// What the dialogue of the rows comes to, and what is told, where each read and each write fails so often for a reason before it goes
/// through.
fn dialogue(
    alloc: Global,
    why: io::ErrorKind,
    times: u32,
) -> Result<(Result<u64, FrontFault>, Vec<u8>), AllocError> {
    let (asked, _) = bytes_of(alloc, &HTTP_SIBLINGS)?;
    let mut source = ReadSource::new(Held::new(asked.as_slice(), why, times));
    let mut told = Vec::new(alloc);
    let mut sink = WriteSink::new(Held::new(&mut told, why, times));
    let mut front = Front::new(alloc)?;
    let mut store = open(alloc, 0)?;
    let ended = server_one_thread::serve(&mut front, &mut source, &mut sink, &mut store);
    Ok((ended, told))
}

/// A call that was interrupted is made again, so that nothing is lost; one that fails for another reason ends the connection at its first
/// read.
#[test]
fn interrupted_calls(rt: HostRuntime) -> Result<(), Fail> {
    let (_, answers) = bytes_of(rt.alloc(), &HTTP_SIBLINGS)?;
    for times in [1, 3] {
        let (ended, told) = dialogue(rt.alloc(), io::ErrorKind::Interrupted, times)?;
        expect(ended == Ok(9) && told == answers, &times)?;
    }
    let (ended, told) = dialogue(rt.alloc(), io::ErrorKind::TimedOut, 1)?;
    expect(
        ended == Err(FrontFault::Read) && told.is_empty(),
        &told.len(),
    )
}
