//! What BootCurrent and Timeout hold, as it is shown (UEFI 2.10, 3.3).

use crate::content::ShownFault;
use crate::reason::{FaultReason, NOT_ONE_ENTRY};
use std::alloc::{AllocError, Global};
use std::fmt;

/// The variable with the number of the entry by which this system was started.
pub const BOOT_CURRENT: &str = "BootCurrent";

/// The number of seconds that stands for a wait without an end.
const FOR_EVER: u16 = 0xFFFF;

/// How many seconds the boot manager waits before it tries the order, of which 0xFFFF stand for a wait without an end.
#[derive(Clone, Copy)]
pub struct Timeout(pub u16);

impl fmt::Display for Timeout {
    fn fmt<W: fmt::Write>(&self, f: &mut fmt::Formatter<W>) -> fmt::Result {
        match self.0 {
            1 => f.write_str("1 second"),
            FOR_EVER => f.write_str("none: it waits until someone chooses"),
            seconds => write!(f, "{seconds} seconds"),
        }
    }
}

/// The number that two bytes are, little-endian: `None` if there are more or fewer.
pub fn number_of(bytes: &[u8]) -> Option<u16> {
    match bytes {
        [low, high] => Some(u16::from_le_bytes([*low, *high])),
        _ => None,
    }
}

/// What is shown of bytes of BootCurrent that aren't two.
///
/// # Errors
///
/// [`AllocError`] if memory was refused.
pub fn bad_current(alloc: Global, bytes: &[u8]) -> Result<ShownFault, AllocError> {
    bad_setting(alloc, "BadCurrent", NOT_ONE_ENTRY, bytes)
}

/// What is shown of bytes of Timeout that aren't two.
///
/// # Errors
///
/// [`AllocError`] if memory was refused.
pub fn bad_timeout(alloc: Global, bytes: &[u8]) -> Result<ShownFault, AllocError> {
    bad_setting(
        alloc,
        "BadTimeout",
        "it isn't the two bytes of a number of seconds",
        bytes,
    )
}

/// What is shown of bytes that have this fault, for this reason.
fn bad_setting(
    alloc: Global,
    fault: &str,
    reason: &'static str,
    bytes: &[u8],
) -> Result<ShownFault, AllocError> {
    Ok(ShownFault {
        fault: String::from_str(alloc, fault)?,
        place: None,
        reason: FaultReason::Words(reason),
        data: hex::encode(alloc, bytes)?,
    })
}
