//! What frames and variables are refused for.

ghost use Rattle.std.specs.Prelude.{◌≡◌, IfOk};
ghost use Rattle.std.specs.String.{string_bytes};
ghost use Rattle.boot_requests.specs.declared.fault.FeedFault.TheVariants as feeding;
ghost use Rattle.boot_requests.specs.declared.fault.FrameFault.TheVariants as frame;
ghost use Rattle.boot_requests.specs.declared.fault.OpenFault.TheVariants as opening;

use std::alloc::{AllocError, AllocFailed, Global};
use thiserror::Error;
use uefi_option::OptionFault;

/// Why bytes aren't a frame, or a request has none.
#[derive(Clone, Copy, Debug, PartialEq, Eq, Hash, Error)]
pub enum FrameFault {
    /// There are fewer bytes than the twelve before the payload.
    #[error("Short")]
    Short {
        /// How many bytes there are.
        found: usize,
    },
    /// The bytes don't begin with 0x42 0x51.
    #[error("BadMagic")]
    BadMagic,
    /// The version is none of 1 to 3.
    #[error("BadVersion")]
    BadVersion,
    /// The payload is to have more than [`PAYLOAD_MAX`](crate::PAYLOAD_MAX) bytes.
    #[error("TooLong")]
    TooLong,
    /// There are fewer or more bytes than the twelve and those of the payload.
    #[error("BadSize")]
    BadSize {
        /// How many bytes of payload the header states.
        stated: usize,
        /// How many bytes follow the header.
        found: usize,
    },
    /// No request has this kind in this version.
    #[error("BadKind")]
    BadKind,
    /// The number is 4,294,967,295, which no request has.
    #[error("BadNumber")]
    BadNumber,
    /// The payload doesn't have the bytes that a request of this kind has.
    #[error("BadPayload")]
    BadPayload,
    /// The payload's load option isn't one. The fault's offsets count from the option's first byte.
    #[error("Option {0}")]
    Option(OptionFault),
    /// Memory was refused.
    #[error("OutOfMemory")]
    OutOfMemory,
}

/// Why a stream of frames can't be cut any further.
#[derive(Clone, Copy, Debug, PartialEq, Eq, Hash, Error)]
pub enum FeedFault {
    /// A header doesn't begin with 0x42 0x51.
    #[error("BadMagic")]
    BadMagic,
    /// The version of a header is none of 1 to 3.
    #[error("BadVersion")]
    BadVersion,
    /// A payload is to have more than [`PAYLOAD_MAX`](crate::PAYLOAD_MAX) bytes.
    #[error("TooLong")]
    TooLong,
    /// Memory was refused.
    #[error("OutOfMemory")]
    OutOfMemory,
}

/// Why variables can't be kept.
#[derive(Clone, Copy, Debug, PartialEq, Eq, Hash, Error)]
pub enum OpenFault {
    /// The bytes of BootOrder aren't a list of numbers.
    #[error("BadOrder")]
    BadOrder,
    /// The bytes of BootNext aren't a number.
    #[error("BadNext")]
    BadNext,
    /// The bytes of BootKeepState aren't ones that a keeper stores.
    #[error("BadState")]
    BadState,
    /// Memory was refused.
    #[error("OutOfMemory")]
    OutOfMemory,
}

impl FrameFault {
    ghost use Rattle.boot_requests.specs.Words.{frame_fault_words};

    /// The fault's name, and for [`FrameFault::Option`], after a blank, the words of the option's fault. This fails
    /// only when out of memory.
    pub fn words(&self, alloc: Global) -> Result<String, AllocError>
        ensures { IfOk result (λ text. string_bytes text ≡ frame_fault_words self.now) }
    {
        match self {
            FrameFault::Short { .. } => String::from_str(alloc, "Short"),
            FrameFault::BadMagic => String::from_str(alloc, "BadMagic"),
            FrameFault::BadVersion => String::from_str(alloc, "BadVersion"),
            FrameFault::TooLong => String::from_str(alloc, "TooLong"),
            FrameFault::BadSize { .. } => String::from_str(alloc, "BadSize"),
            FrameFault::BadKind => String::from_str(alloc, "BadKind"),
            FrameFault::BadNumber => String::from_str(alloc, "BadNumber"),
            FrameFault::BadPayload => String::from_str(alloc, "BadPayload"),
            FrameFault::Option(fault) => {
                let words = fault.words(alloc)?;
                format!(in alloc; "Option {words}")
            }
            FrameFault::OutOfMemory => String::from_str(alloc, "OutOfMemory"),
        }
    }
}

impl FeedFault {
    ghost use Rattle.boot_requests.specs.Words.{feed_fault_words};

    /// The fault's name. This fails only when out of memory.
    pub fn words(&self, alloc: Global) -> Result<String, AllocError>
        ensures { IfOk result (λ text. string_bytes text ≡ feed_fault_words self.now) }
    {
        match self {
            FeedFault::BadMagic => String::from_str(alloc, "BadMagic"),
            FeedFault::BadVersion => String::from_str(alloc, "BadVersion"),
            FeedFault::TooLong => String::from_str(alloc, "TooLong"),
            FeedFault::OutOfMemory => String::from_str(alloc, "OutOfMemory"),
        }
    }
}

impl OpenFault {
    ghost use Rattle.boot_requests.specs.Words.{open_fault_words};

    /// The fault's name. This fails only when out of memory.
    pub fn words(&self, alloc: Global) -> Result<String, AllocError>
        ensures { IfOk result (λ text. string_bytes text ≡ open_fault_words self.now) }
    {
        match self {
            OpenFault::BadOrder => String::from_str(alloc, "BadOrder"),
            OpenFault::BadNext => String::from_str(alloc, "BadNext"),
            OpenFault::BadState => String::from_str(alloc, "BadState"),
            OpenFault::OutOfMemory => String::from_str(alloc, "OutOfMemory"),
        }
    }
}

impl From<AllocError> for FrameFault {
    ghost from_gives = { λ _ made. made ≡ frame.OutOfMemory };

    fn from(_refusal: AllocError) -> FrameFault {
        FrameFault::OutOfMemory
    }
}

impl<T: Drop> From<AllocFailed<T>> for FrameFault {
    ghost from_gives = { λ _ made. made ≡ frame.OutOfMemory };

    fn from(_refusal: AllocFailed<T>) -> FrameFault {
        FrameFault::OutOfMemory
    }
}

impl From<FeedFault> for FrameFault {
    ghost use Rattle.std.specs.Prelude.{◌≡◌};
    ghost use Rattle.boot_requests.specs.Reader.{frame_fault_of};

    ghost from_gives = { λ fault made. made ≡ frame_fault_of fault };

    fn from(fault: FeedFault) -> FrameFault {
        match fault {
            FeedFault::BadMagic => FrameFault::BadMagic,
            FeedFault::BadVersion => FrameFault::BadVersion,
            FeedFault::TooLong => FrameFault::TooLong,
            FeedFault::OutOfMemory => FrameFault::OutOfMemory,
        }
    }
}

impl From<AllocError> for FeedFault {
    ghost from_gives = { λ _ made. made ≡ feeding.OutOfMemory };

    fn from(_refusal: AllocError) -> FeedFault {
        FeedFault::OutOfMemory
    }
}

impl<T: Drop> From<AllocFailed<T>> for FeedFault {
    ghost from_gives = { λ _ made. made ≡ feeding.OutOfMemory };

    fn from(_refusal: AllocFailed<T>) -> FeedFault {
        FeedFault::OutOfMemory
    }
}

impl From<AllocError> for OpenFault {
    ghost from_gives = { λ _ made. made ≡ opening.OutOfMemory };

    fn from(_refusal: AllocError) -> OpenFault {
        OpenFault::OutOfMemory
    }
}

impl<T: Drop> From<AllocFailed<T>> for OpenFault {
    ghost from_gives = { λ _ made. made ≡ opening.OutOfMemory };

    fn from(_refusal: AllocFailed<T>) -> OpenFault {
        OpenFault::OutOfMemory
    }
}
