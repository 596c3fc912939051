//! The attributes of variables.

/// How many bytes the attributes of a variable have (UEFI 2.10, 8.2).
pub const ATTRIBUTES_LEN: usize = 4;

/// The bytes of the attributes of a new variable of the boot manager, little-endian: it is kept without power, and is there
/// for loaders and for the system that they start (UEFI 2.10, 3.3 and 8.2).
pub const BOOT_ATTRIBUTES: [u8; ATTRIBUTES_LEN] = [7, 0, 0, 0];
