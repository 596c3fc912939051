//! Why a word is no precondition.

use thiserror::Error;

/// Why a word is no precondition: what it is, for a sentence that begins with it and `is`.
#[derive(Clone, Copy, Debug, PartialEq, Eq, Error)]
pub enum PreconditionFault {
    /// It has no `=`, or what is before that names nothing that can be expected.
    #[error("no precondition: that is journal=, next=, order= or an entry's four digits, as 0003=, and a value")]
    Subject,
    /// The value of `journal=` isn't an identity.
    #[error("no identity of a journal: that is 32 hexadecimal digits in lower case, or none")]
    Identity,
    /// The value of `next=` isn't the number of a request.
    #[error("no number of a request: that is decimal digits, at most 4294967295, of which the first is no 0")]
    Number,
    /// The value of an entry isn't a digest.
    #[error("no SHA-256 of an entry: that is 64 hexadecimal digits in lower case, or none")]
    Digest,
    /// The value of `order=` isn't a list of entries.
    #[error("no BootOrder: that is entries of four digits with commas between them, as 0003,0001, or none")]
    Order,
    /// Memory was refused.
    #[error("too long for the memory that there is")]
    OutOfMemory,
}
