//! Why an image has no digest.

use crate::fault::ImageFault;
use thiserror::Error;

/// Why an image has no Authenticode digest.
#[derive(Clone, Copy, Debug, PartialEq, Eq, Error)]
pub enum DigestFault {
    /// The headers aren't as firmware wants them.
    #[error("{0}")]
    Image(ImageFault),
    /// The headers and the sections have more bytes than the file, so some bytes are in several of them.
    #[error("the headers and sections have {found:#x} bytes, wanted in the file's {len:#x}")]
    Overlap {
        /// How many bytes they have.
        found: usize,
        /// How many bytes the file has.
        len: usize,
    },
    /// The certificate table has more bytes than are left of the file after the headers and sections.
    #[error("the certificate table has {size:#x} bytes, wanted after {found:#x} in the file's {len:#x}")]
    CertificatesOverlap {
        /// How many bytes the headers and sections have.
        found: usize,
        /// How many bytes the certificate table has.
        size: usize,
        /// How many bytes the file has.
        len: usize,
    },
    /// Memory was refused.
    #[error("OutOfMemory")]
    OutOfMemory,
}
