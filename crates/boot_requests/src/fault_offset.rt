//! Where in the bytes of a frame a fault is.

ghost use Rattle.uefi_option.specs.declared.fault.OptionFault.{OptionFault};
ghost use Rattle.boot_requests.specs.declared.fault.FrameFault.{FrameFault};
ghost use Rattle.boot_requests.specs.FrameFault.{IsFirstFault};
ghost use Rattle.boot_requests.specs.FaultOffset.{IsFaultOffset};

use crate::fault::FrameFault;
use crate::frame::{HEADER_LEN, Kind};
use crate::reader::split_header;

impl FrameFault {
    /// The offset of the fault in the bytes that have it as their first: of the field of the header that is at fault;
    /// of the end of bytes that are fewer than a header; of a payload that isn't one of its kind; and of the load
    /// option that is at fault, from which the offsets in the fault of the option count. Of
    /// [`FrameFault::OutOfMemory`] it is 0.
    pub fn offset(&self, bytes: &[u8]) -> usize
        ensures { IsFirstFault bytes.now self.now → IsFaultOffset bytes.now self.now result }
    {
        match self {
            FrameFault::Short { .. } => bytes.len(),
            FrameFault::BadMagic | FrameFault::OutOfMemory => 0,
            FrameFault::BadVersion => 2,
            FrameFault::BadKind => 3,
            FrameFault::BadNumber => 4,
            FrameFault::TooLong | FrameFault::BadSize { .. } => 8,
            FrameFault::BadPayload => HEADER_LEN,
            FrameFault::Option(_) => option_offset(bytes),
        }
    }
}

/// The offset of the load option in the bytes of a frame, if they have one.
fn option_offset(bytes: &[u8]) -> usize
    ensures { (fault : OptionFault) → IsFirstFault bytes.now (FrameFault.Option fault) →
        IsFaultOffset bytes.now (FrameFault.Option fault) result }
{
    let Some(raw) = split_header(bytes) else {
        return HEADER_LEN;
    };
    let Some(kind) = Kind::from_bytes(raw.version, raw.kind) else {
        return HEADER_LEN;
    };
    HEADER_LEN + kind.option_place()
}
