//! Why bytes are no script and no stream, in plain words.

use crate::frame_reason::frame_reason;
use boot_requests::{FrameFault, ScriptFault, frame_len};
use uefi_vars::SET_MAGIC;
use value_texts::{FaultReason, Sizes};

/// What a line begins with that delivers a frame.
const DELIVER: &[u8] = b"deliver ";

/// Why the bytes, which have this fault, are no script or no stream.
pub(crate) fn script_reason(bytes: &[u8], fault: &ScriptFault) -> FaultReason {
    match fault {
        ScriptFault::BadLine(number) => line_reason(line_of(bytes, *number)),
        ScriptFault::Stream(fault) => frame_reason(&FrameFault::from(*fault)),
        ScriptFault::Rest(count) => rest_reason(bytes, *count),
        ScriptFault::OutOfMemory => FaultReason::Words("out of memory"),
    }
}

/// Why so many bytes at the end of a stream are no frame.
fn rest_reason(bytes: &[u8], count: usize) -> FaultReason {
    let start = bytes.len().saturating_sub(count);
    let sizes = Sizes {
        found: count,
        wanted: frame_len(bytes.get(start..).unwrap_or(&[])),
    };
    FaultReason::Sizes(
        "bytes are left after the last whole frame: one was cut, or something was added",
        sizes,
    )
}

/// The line of this number, counted from 1, of a text.
fn line_of(text: &[u8], number: usize) -> &[u8] {
    text.split(|byte| *byte == b'\n')
        .nth(number.saturating_sub(1))
        .unwrap_or(&[])
}

/// Why a line is none of a script.
fn line_reason(line: &[u8]) -> FaultReason {
    if line.starts_with(&SET_MAGIC) {
        FaultReason::Words("this is a set of variables, and no script")
    } else if line.ends_with(b"\r") {
        FaultReason::Words(
            "it ends with a carriage return, and a line of a script with a line feed alone",
        )
    } else if let Some(digits) = line.strip_prefix(DELIVER) {
        digits_reason(digits)
    } else if line.starts_with(b"deliver") {
        FaultReason::Words(
            "after `deliver` and one blank come hexadecimal digits, two for each byte of a frame",
        )
    } else {
        FaultReason::Words(
            "a line is `deliver` and the digits of a frame, `prepare`, `hand` or `restart`",
        )
    }
}

/// Why what comes after `deliver` and a blank isn't the digits of bytes.
fn digits_reason(digits: &[u8]) -> FaultReason {
    match digits.iter().position(|byte| !byte.is_ascii_hexdigit()) {
        Some(index) => {
            let before = DELIVER.len().saturating_add(index);
            FaultReason::Column(before.saturating_add(1))
        }
        None => FaultReason::Words(
            "it has an odd number of hexadecimal digits, and two are a byte of a frame",
        ),
    }
}
