//! The entries of clocks.

use dvv::{Clock, Dot};
use std::io;
use std::io::Write;

/// Tells the entries of a clock.
pub fn tell_clock(clock: &Clock, told: &mut Vec<u8>) -> io::Result<()> {
    told.write_all(b"|clock")?;
    for &Dot { vnode, n } in clock.entries() {
        write!(told, " {vnode}:{n}")?;
    }
    Ok(())
}
