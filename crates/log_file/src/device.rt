//! The device under a log: what stands in its file, and what a crash may leave of that.

ghost use Rattle.std.specs.Prelude.{◌≡◌, ◌≤◌, ◌++◌, ℕ, Bool, List, length, take, is_ok, IsTrue, OnOk};
ghost use Rattle.log_file.specs.Devices.{Cut, Elapses, Follows, Grown, HasCause, Only};

use thiserror::Error;

/// Why a call on a device wasn't done.
#[derive(Clone, Copy, Debug, PartialEq, Eq, Drop, Error)]
pub enum DeviceFault {
    /// There is no room for more.
    #[error("no room is left")]
    Full,
    /// The system refused it, or the device failed.
    #[error("the device failed")]
    Failed,
}

/// A file that grows at its end. What stands in it is never written over.
///
/// A process that is killed leaves what was written. A crash of the system may leave less, and behind that anything,
/// until a force. The model is the one of SQLite ("Atomic Commit In SQLite", section 2) with its property of powersafe
/// overwrite: a write behind the end leaves what stood before it.
pub trait Device {
    /// What a read returns, which a process that is killed leaves.
    ghost seen: { Self → List ℕ };

    /// What a crash of the system may leave at this moment.
    ghost may_leave: { Self → List ℕ → Type 0 };

    /// The moment, as a number that doesn't fall.
    ghost moment: { Self → ℕ };

    /// What a crash may have left at some moment from that one on, during a call or between two.
    ghost left_since: { Self → ℕ → List ℕ → Type 0 };

    /// Whether no force has failed. Behind one that has, one that succeeds says nothing: the system may have dropped what it was to write.
    ghost is_trusted: { Self → Bool };

    /// How many calls have failed. The count stays at its greatest.
    ghost faults: { Self → ℕ };

    /// Writes bytes behind all that stands there. Where that fails, some of them may stand there.
    fn append(&mut self, bytes: &[u8]) -> Result<(), DeviceFault>
        ensures written { OnOk result (seen self.new ≡ seen self.old ++ bytes.now) }
        ensures partly { Grown (seen self.old) (seen self.new) }
        ensures trusted { is_trusted self.new ≡ is_trusted self.old }
        ensures crash { Follows Grown (may_leave self.old) (may_leave self.new) }
        ensures time { Elapses (moment self.old) (moment self.new) (left_since self.old) (left_since self.new) (may_leave self.new) }
        ensures cause { HasCause (faults self.old) (faults self.new) result };

    /// Cuts the file to so many bytes. Where that fails, more may be left.
    fn cut(&mut self, len: usize) -> Result<(), DeviceFault>
        requires { len ≤ length (seen self.old) }
        ensures done { OnOk result (seen self.new ≡ take len (seen self.old)) }
        ensures partly { Cut len (seen self.old) (seen self.new) }
        ensures trusted { is_trusted self.new ≡ is_trusted self.old }
        ensures crash { Follows (Cut len) (may_leave self.old) (may_leave self.new) }
        ensures time { Elapses (moment self.old) (moment self.new) (left_since self.old) (left_since self.new) (may_leave self.new) }
        ensures cause { HasCause (faults self.old) (faults self.new) result };

    /// Forces what stands there to the device: a crash leaves that, and nothing else.
    fn force(&mut self) -> Result<(), DeviceFault>
        requires { IsTrue (is_trusted self.old) }
        ensures forced { OnOk result (Only (seen self.old) (may_leave self.new)) }
        ensures seen { seen self.new ≡ seen self.old }
        ensures trusted { is_trusted self.new ≡ is_ok result }
        ensures crash { (c : List ℕ) → may_leave self.new c → may_leave self.old c }
        ensures time { Elapses (moment self.old) (moment self.new) (left_since self.old) (left_since self.new) (may_leave self.new) }
        ensures cause { HasCause (faults self.old) (faults self.new) result };

    // From this moment on there is only this one.
    ghost only_now: { (file : Self) (c : List ℕ) → left_since file (moment file) c → may_leave file c };
}
