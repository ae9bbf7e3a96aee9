//! What a start finds of a log. Each of these functions does nothing: its contract is the law.

ghost use Rattle.std.specs.Prelude.{List, ℕ};
ghost use mathlib.Core.List.{IsPrefix};
ghost use Rattle.record_codec.specs.declared.record.Record.{Record as OneRecord};
ghost use Rattle.record_codec.specs.Lists.{AreSpelledBy};
ghost use Rattle.log_file.specs.LogFiles.{appended, device_of, forced};
ghost use Rattle.log_tail.specs.Fronts.{HasAllInFront};

use log_file::{Device, LogFile};

/// Whatever a crash leaves of a log, the records that were forced are the first that are found in it, in order. Behind them may be others,
/// which were appended and not forced.
pub fn found_after_crash<D: Device>(log: &LogFile<D>)
    ensures { (left : List ℕ) (found written : List OneRecord) → D.may_leave (device_of log.now) left → HasAllInFront left found
        → AreSpelledBy written (forced log.now) → IsPrefix written found }
{
    log.outlives();
}

/// Where a process is killed, the records that were appended are the first that are found in its log, in order.
pub fn found_after_kill<D: Device>(log: &LogFile<D>)
    ensures { (found written : List OneRecord) → HasAllInFront (D.seen (device_of log.now)) found
        → AreSpelledBy written (appended log.now) → IsPrefix written found }
{
    log.outlives();
}
