//! The numbers of the generic node (UEFI 2.10, 10.3.1).

/// The bytes before a node's data: type, sub-type, and length in two bytes.
pub(crate) const HEADER_LEN: usize = 4;

/// The most bytes of data that a node can have: two bytes state its length.
pub const BODY_MAX: usize = 65_531;

/// The type of the end nodes.
pub(crate) const END: u8 = 0x7f;

/// The sub-type of the node that ends an instance.
pub(crate) const END_INSTANCE: u8 = 0x01;

/// The sub-type of the node that ends the whole path.
pub(crate) const END_ENTIRE: u8 = 0xff;
