//! The times of changes.

use jiff::Timestamp;
use messages::Failure;
use std::alloc::{AllocError, Global};
use std::rt::Clock;

/// The time now, as a [`Record`](crate::Record) has it: how many seconds after 1970-01-01T00:00:00Z.
///
/// # Errors
///
/// [`Failure::Read`] if the system tells no time, and [`Failure::Memory`] if memory was refused.
pub fn time_now<R: Clock + AllocGlobal>(rt: &R) -> Result<u64, Failure> {
    match rt.since_1970() {
        Ok(time) => Ok(time.as_secs()),
        Err(error) => Err(Failure::from_read(rt.alloc(), "the clock", error)),
    }
}

/// The time so many seconds after 1970-01-01T00:00:00Z, as ISO 8601 has it, in UTC: `2026-11-27T13:50:00Z`. If it is after
/// 9999-12-30T22:00:00Z, the seconds as a number, and ` s` after it. This fails only when out of memory.
pub fn time_text(alloc: Global, time: u64) -> Result<String, AllocError> {
    match timestamp(time) {
        Some(timestamp) => format!(in alloc; "{timestamp}"),
        None => format!(in alloc; "{time} s"),
    }
}

/// The time so many seconds after 1970, if it isn't too late for a date of four digits.
fn timestamp(time: u64) -> Option<Timestamp> {
    Timestamp::from_second(i64::try_from(time).ok()?).ok()
}
