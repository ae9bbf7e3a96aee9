//! A log's file in a folder of the system.

ghost use Rattle.std.specs.Prelude.{◌≡◌};

use crate::SystemLog;
use log_file::Device;
use std::fs;
use std::fs::OpenFile as _;
use std::test::Fail;

const FOLDER: &str = "log_system_test";

const PATH: &str = "log_system_test/log-0";

/// A device that another thread may have.
fn handed<D: Device + Drop + Send>(device: D) -> D
    ensures { result ≡ device }
{
    device
}

/// What is written, cut and forced stands in the file.
#[test]
fn appends_cuts_and_forces(rt: HostRuntime) -> Result<(), Fail> {
    let _ = fs::remove_dir_all(&rt, FOLDER);
    fs::create_dir(&rt, FOLDER)?;
    fs::write(&rt, PATH, b"one".as_slice())?;
    let file = fs::OpenOptions::new().append(true).open(&rt, PATH)?;
    let mut log = handed(SystemLog::over(file, b"one"));
    log.append(b"two")?;
    log.cut(4)?;
    log.append(b"three")?;
    log.force()?;
    assert_eq!(rt; fs::read(&rt, PATH)?.as_slice(), b"onetthree".as_slice());
    fs::remove_dir_all(&rt, FOLDER)?;
    Ok(())
}
