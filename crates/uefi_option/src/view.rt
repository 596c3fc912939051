//! Load options where they are in the bytes.

ghost use Rattle.std.specs.Prelude.{◌≡◌, IfOk};
ghost use Rattle.std.specs.String.{string_bytes};
ghost use Rattle.uefi_path.specs.Units.{units_of};
ghost use Rattle.uefi_option.specs.Text.{units_text};

use crate::text::description_text;
use std::alloc::{AllocError, Global};
use uefi_path::read_units;

/// A load option where it is in its bytes (UEFI 2.10, 3.1.3).
#[derive(Clone, Copy, Debug, PartialEq, Eq)]
pub struct OptionView<'a> {
    /// The attributes, all 32 bits as they are stored.
    pub attributes: u32,
    /// The bytes of the description's CHAR16 units, two for each, little-endian, without the zero unit that closes it.
    pub description: &'a [u8],
    /// The bytes of the list of device paths, one path after the other.
    pub list: &'a [u8],
    /// The optional data: the bytes after the list.
    pub optional: &'a [u8],
}

impl OptionView<'_> {
    /// The description as one line of ASCII text, as [`description_text`] shows its units. This fails only when out of
    /// memory.
    pub fn description_text(&self, alloc: Global) -> Result<String, AllocError>
        ensures { IfOk result (λ text.
            string_bytes text ≡ units_text (units_of self.now.description.now)) }
    {
        let units = read_units(alloc, self.description)?;
        description_text(alloc, &units)
    }
}
