//! The number of a start.

ghost use Rattle.std.specs.Prelude.{◌≡◌, ◌≢◌, ◌<◌, ◌+◌, ◌-◌, ◌/◌, ◌%◌, ◌^◌, ℕ, min};

use crate::limits::{COUNTED_FROM_S, MINUTE_S, SECOND_MS, START_NUMBERS};

/// A start of the server.
#[derive(Clone, Copy)]
pub struct Start {
    /// The number of its vnodes' identifiers.
    pub number: u32,
    /// So many milliseconds of the second that it took are left. Until they are over no connection is answered.
    pub left: u64,
}

/// The start at so many seconds since 1970, and so many milliseconds of the next one. A start in another second, less than 16,777,216
/// before it or behind it, has another number.
pub fn start_at(seconds: u64, millis: u32) -> Start
    requires part { millis < 1000 }
    ensures number { result.number ≡ seconds % 16777216 }
    ensures left { millis + result.left ≡ 1000 }
    ensures other { (second : ℕ) → second ≢ seconds → second < seconds + 16777216 → seconds < second + 16777216 → second % 16777216 ≢ result.number }
{
    Start {
        number: (seconds % START_NUMBERS) as u32,
        left: SECOND_MS - u64::from(millis),
    }
}

/// How many minutes of 2026 and of later years are over, at so many seconds since 1970; 0 before 2026, and 4,294,967,295 where they are more.
pub fn minute_at(seconds: u64) -> u32
    ensures { result ≡ min ((seconds - 1767225600) / 60) (2 ^ 32 - 1) }
{
    let minutes = seconds.saturating_sub(COUNTED_FROM_S) / MINUTE_S;
    minutes.min(u64::from(u32::MAX)) as u32
}
