//! Descriptions, by which profiles name entries.

ghost use Rattle.std.specs.Prelude.{◌≡◌};

use std::marker::Model;

/// A description of a load option (UEFI 2.10, 3.1.3): the bytes of its CHAR16 units, two for each, little-endian,
/// without the zero unit that closes it. Bytes that are none, such as an odd number of them, are the description of no
/// entry.
#[derive(Debug, Drop)]
pub struct Description {
    bytes: Vec<u8>,
}

impl Model for Description {
    ghost use Rattle.std.specs.Prelude.{ℕ, List};

    ghost Value = { List ℕ };

    ghost view = { λ d. d.bytes.items };
}

impl Description {
    /// The description of these bytes.
    pub fn new(bytes: Vec<u8>) -> Description
        ensures { result ≡ bytes.items }
    {
        Description { bytes }
    }

    /// Its bytes.
    pub fn as_bytes(&self) -> &[u8]
        ensures { result.now ≡ self.now }
    {
        &self.bytes
    }
}
