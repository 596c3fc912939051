//! Identifiers of vendors, partitions and variables.

/// A globally unique identifier, as its sixteen bytes in stored order (UEFI 2.10, appendix A): the
/// first three fields, of four, two and two bytes, little-endian, and then the last eight bytes as
/// they are written.
#[derive(Clone, Copy, Debug, PartialEq, Eq, PartialOrd, Ord, Hash)]
pub struct Guid(pub [u8; 16]);
