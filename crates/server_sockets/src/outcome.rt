//! What the system's reads and writes of a socket come to.

ghost use Rattle.std.specs.Prelude.{◌≡◌, ◌≢◌, ◌<◌, ◌≤◌, ℕ, Ok, Err, Some, None, IfOk, IfErr};
ghost use Rattle.std.specs.IoError.{error_kind};
ghost use Rattle.http_connections.specs.Spoken.{FitsHeard, FitsTold};
ghost use Rattle.server_sockets.specs.Streams.{IsHeardAs, IsToldAs};

use http_connections::{Heard, Told};
use std::io;
use std::io::ErrorKind;

/// Why a read or a write of a socket came to nothing.
#[derive(Clone, Copy, Debug, PartialEq, Eq)]
pub(crate) enum Unmade {
    /// It was interrupted, and is to be made again.
    Interrupted,
    /// The connection failed.
    Failed,
}

/// What a read came to: exactly the bytes that the system gave, or none at the end of what comes.
pub(crate) fn heard_by(came: io::Result<usize>) -> Result<Heard, Unmade>
    ensures bytes { IfOk came (λ n. 0 < n → result ≡ Ok (Heard.Bytes n)) }
    ensures end { came ≡ Ok 0 → result ≡ Ok Heard.End }
    ensures not_now { IfErr came (λ error. error_kind error ≡ ErrorKind.WouldBlock → result ≡ Ok Heard.NotNow) }
    ensures interrupted { IfErr came (λ error. error_kind error ≡ ErrorKind.Interrupted → result ≡ Err Unmade.Interrupted) }
    ensures failed { IfErr came (λ error. error_kind error ≢ ErrorKind.WouldBlock → error_kind error ≢ ErrorKind.Interrupted → result ≡ Err Unmade.Failed) }
    ensures moved { IfOk result (IsHeardAs came) }
    ensures fits { (room : ℕ) → IfOk came (λ n. n ≤ room) → IfOk result (FitsHeard room) }
{
    match came {
        Ok(0) => Ok(Heard::End),
        Ok(n) => Ok(Heard::Bytes(n)),
        Err(error) => match why_unmade(&error) {
            Some(why) => Err(why),
            None => Ok(Heard::NotNow),
        },
    }
}

/// What a write came to: exactly the bytes that the system took. One that took none has failed.
pub(crate) fn told_by(came: io::Result<usize>) -> Result<Told, Unmade>
    ensures bytes { IfOk came (λ n. 0 < n → result ≡ Ok (Told.Bytes n)) }
    ensures none { came ≡ Ok 0 → result ≡ Err Unmade.Failed }
    ensures not_now { IfErr came (λ error. error_kind error ≡ ErrorKind.WouldBlock → result ≡ Ok Told.NotNow) }
    ensures interrupted { IfErr came (λ error. error_kind error ≡ ErrorKind.Interrupted → result ≡ Err Unmade.Interrupted) }
    ensures failed { IfErr came (λ error. error_kind error ≢ ErrorKind.WouldBlock → error_kind error ≢ ErrorKind.Interrupted → result ≡ Err Unmade.Failed) }
    ensures moved { IfOk result (IsToldAs came) }
    ensures fits { (len : ℕ) → IfOk came (λ n. n ≤ len) → IfOk result (FitsTold len) }
{
    match came {
        Ok(0) => Err(Unmade::Failed),
        Ok(n) => Ok(Told::Bytes(n)),
        Err(error) => match why_unmade(&error) {
            Some(why) => Err(why),
            None => Ok(Told::NotNow),
        },
    }
}

// Why a call that failed so came to nothing, unless it would have to wait.
fn why_unmade(error: &io::Error) -> Option<Unmade>
    ensures not_now { error_kind error.now ≡ ErrorKind.WouldBlock → result ≡ None }
    ensures interrupted { error_kind error.now ≡ ErrorKind.Interrupted → result ≡ Some Unmade.Interrupted }
    ensures failed { error_kind error.now ≢ ErrorKind.WouldBlock → error_kind error.now ≢ ErrorKind.Interrupted → result ≡ Some Unmade.Failed }
{
    match error.kind() {
        ErrorKind::WouldBlock => None,
        ErrorKind::Interrupted => Some(Unmade::Interrupted),
        _ => Some(Unmade::Failed),
    }
}
