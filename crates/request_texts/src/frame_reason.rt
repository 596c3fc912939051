//! Why requests can't be run, and why bytes are no frame of one, in plain words.

use boot_requests::{FrameFault, OpenFault};
use value_texts::{BAD_NEXT, BAD_ORDER, FaultReason, Sizes, option_sizes, option_words};

/// The bytes of a frame before its payload.
const FRAME_HEADER_LEN: usize = 12;

/// Why requests can't be run over variables.
pub fn open_reason(fault: &OpenFault) -> &'static str {
    match fault {
        OpenFault::BadOrder => BAD_ORDER,
        OpenFault::BadNext => BAD_NEXT,
        OpenFault::BadState => "what is kept of requests that were applied isn't as it is stored",
        OpenFault::OutOfMemory => "out of memory",
    }
}

/// Why bytes that have this fault are no frame, in words, with sizes if some are missing or too much.
pub(crate) fn frame_reason(fault: &FrameFault) -> FaultReason {
    FaultReason::with_sizes(frame_words(fault), frame_sizes(fault))
}

/// How many bytes there are and have to be of a frame, its payload, or its load option, which has this fault: `None` if no
/// bytes are missing or too much.
fn frame_sizes(fault: &FrameFault) -> Option<Sizes> {
    match fault {
        FrameFault::Short { found } => Some(Sizes {
            found: *found,
            wanted: FRAME_HEADER_LEN,
        }),
        FrameFault::BadSize { stated, found } => Some(Sizes {
            found: *found,
            wanted: *stated,
        }),
        FrameFault::Option(fault) => option_sizes(fault),
        _ => None,
    }
}

/// Why bytes are no frame, or a request has none.
pub fn frame_words(fault: &FrameFault) -> &'static str {
    match fault {
        FrameFault::Short { .. } => "it has fewer bytes than the twelve of a header",
        FrameFault::BadMagic => "a frame begins with the bytes 42 51",
        FrameFault::BadVersion => "its version is none of 1 to 3",
        FrameFault::TooLong => "its payload has more than 131072 bytes",
        FrameFault::BadSize { .. } => "its payload hasn't as many bytes as it states",
        FrameFault::BadKind => "no request of its version has its kind",
        FrameFault::BadNumber => "4294967295 is the number of no request",
        FrameFault::BadPayload => "its payload isn't one of its kind",
        FrameFault::Option(fault) => option_words(fault),
        FrameFault::OutOfMemory => "out of memory",
    }
}
