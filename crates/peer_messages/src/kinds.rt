//! The bytes by which messages begin.

ghost use Rattle.std.specs.Prelude.{◌≡◌};
ghost use Rattle.peer_messages.specs.Messages.{fault_byte};
ghost use Rattle.peer_messages.specs.Reading.{fault_of};

use vnode::VnodeFault;

/// The kinds of questions.
pub(crate) const PUT: u8 = 0;

pub(crate) const MERGE: u8 = 1;

pub(crate) const READ: u8 = 2;

pub(crate) const SUMMARY: u8 = 3;

pub(crate) const PART: u8 = 4;

/// The kinds of answers.
pub(crate) const DOT: u8 = 0;

pub(crate) const SAME: u8 = 1;

pub(crate) const CHANGED: u8 = 2;

pub(crate) const STATE: u8 = 3;

pub(crate) const SUMMARIZED: u8 = 4;

pub(crate) const MISSING: u8 = 5;

pub(crate) const REFUSED: u8 = 6;

/// What stands for a content that was left out of a part. A tombstone has 0 there, and a value 1.
pub(crate) const LEFT_OUT: u8 = 2;

/// The byte of a refusal.
pub(crate) fn fault_byte(fault: VnodeFault) -> u8
    ensures { result ≡ fault_byte fault }
{
    match fault {
        VnodeFault::ContextAhead => 0,
        VnodeFault::TooManySiblings => 1,
        VnodeFault::ClockFull => 2,
        VnodeFault::MergedClockFull => 3,
        VnodeFault::JournalFull => 4,
        VnodeFault::NoMemory => 5,
    }
}

/// The refusal that has a byte, if one has.
pub(crate) fn fault_of(byte: u8) -> Option<VnodeFault>
    ensures { result ≡ fault_of byte }
{
    match byte {
        0 => Some(VnodeFault::ContextAhead),
        1 => Some(VnodeFault::TooManySiblings),
        2 => Some(VnodeFault::ClockFull),
        3 => Some(VnodeFault::MergedClockFull),
        4 => Some(VnodeFault::JournalFull),
        5 => Some(VnodeFault::NoMemory),
        _ => None,
    }
}
