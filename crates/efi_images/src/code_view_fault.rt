//! What is wrong with the CodeView data of an image (PE/COFF, 6.1.2), or with the entry of the debug directory that leads there.

ghost use Rattle.std.specs.Prelude.{◌≡◌};
ghost use Rattle.efi_images.specs.Words.{code_view_effect, code_view_place};

use crate::fault::Effect;
use thiserror::Error;

/// What is wrong with the CodeView data of an image (PE/COFF, 6.1.2), or with the entry of the debug directory that leads there. A place
/// is an offset in bytes from the file's first byte.
#[derive(Clone, Copy, Debug, PartialEq, Eq, Hash, Error)]
pub enum CodeViewFault {
    /// The debug entry of CodeView data isn't in the image.
    #[error("the debug entry at offset {place:#x} is at {found:#x} in memory, wanted below SizeOfImage, {image_size:#x}")]
    EntryBeyondImage {
        /// The place of the entry.
        place: usize,
        /// Its address.
        found: usize,
        /// What SizeOfImage is.
        image_size: u32,
    },
    /// The debug entry of CodeView data isn't in one section, or the headers, once they are in memory.
    #[error("the debug entry at offset {place:#x} is in no section in memory, wanted in one")]
    EntryNotLoaded {
        /// The place of the entry.
        place: usize,
    },
    /// CodeView data aren't in the image.
    #[error("the debug entry at offset {place:#x} is of CodeView data at {found:#x} in memory, wanted below SizeOfImage, {image_size:#x}")]
    BeyondImage {
        /// The place of the entry.
        place: usize,
        /// The address of the data.
        found: u32,
        /// What SizeOfImage is.
        image_size: u32,
    },
    /// CodeView data aren't in one section, or the headers, once they are in memory.
    #[error("the debug entry at offset {place:#x} is of CodeView data at {found:#x} in memory, wanted in one section")]
    NotLoaded {
        /// The place of the entry.
        place: usize,
        /// The address of the data.
        found: u32,
    },
    /// CodeView data have fewer bytes than data with their signature.
    #[error("the debug entry at offset {place:#x} is of {found:#x} bytes of CodeView data, wanted {wanted:#x} at least")]
    Size {
        /// The place of the entry.
        place: usize,
        /// How many bytes the data have.
        found: u32,
        /// How many bytes data with this signature have at least.
        wanted: u32,
    },
}

impl CodeViewFault {
    /// What comes of the fault.
    pub fn effect(&self) -> Effect
        ensures { result ≡ code_view_effect self.now }
    {
        match self {
            CodeViewFault::EntryNotLoaded { .. } | CodeViewFault::NotLoaded { .. } =>
                Effect::Undecided,
            _ => Effect::Refused,
        }
    }

    /// Where the fault is: the offset in bytes, from the file's first byte, of what has it, or of what leads there.
    pub fn place(&self) -> usize
        ensures { result ≡ code_view_place self.now }
    {
        match self {
            CodeViewFault::EntryBeyondImage { place, .. }
            | CodeViewFault::EntryNotLoaded { place }
            | CodeViewFault::BeyondImage { place, .. }
            | CodeViewFault::NotLoaded { place, .. }
            | CodeViewFault::Size { place, .. } => *place,
        }
    }
}
