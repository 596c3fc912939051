//! What is wrong with the blocks of relocations of an image (PE/COFF, 6.6).

ghost use Rattle.std.specs.Prelude.{◌≡◌};
ghost use Rattle.efi_images.specs.Words.{relocation_effect, relocation_place};

use crate::fault::Effect;
use thiserror::Error;

/// What is wrong with the blocks of relocations of an image (PE/COFF, 6.6). A place
/// is an offset in bytes from the file's first byte.
#[derive(Clone, Copy, Debug, PartialEq, Eq, Hash, Error)]
pub enum RelocationFault {
    /// A block of relocations isn't in one section, or the headers.
    #[error("the relocations of offset {place:#x} are in no section, wanted in one")]
    BlockNotLoaded {
        /// The place of the block, or of directory 5 if nothing is known where that leads.
        place: usize,
    },
    /// A block of relocations has no bytes, or more than are left of the relocations.
    #[error("the block of relocations at offset {place:#x} has {found:#x} bytes, wanted {left:#x} at most, and some")]
    BlockSize {
        /// The place of the block.
        place: usize,
        /// How many bytes it has.
        found: u32,
        /// How many are left of the relocations.
        left: usize,
    },
    /// A block of relocations is of a page that isn't in the image.
    #[error("the block of relocations at offset {place:#x} is of {found:#x} in memory, wanted below SizeOfImage, {image_size:#x}")]
    BlockAddress {
        /// The place of the block.
        place: usize,
        /// The address of the page.
        found: u32,
        /// What SizeOfImage is.
        image_size: u32,
    },
    /// A relocation is of an address that isn't in the image.
    #[error("the relocation at offset {place:#x} is of {found:#x} in memory, wanted below SizeOfImage, {image_size:#x}")]
    BeyondImage {
        /// The place of the relocation.
        place: usize,
        /// The address.
        found: u32,
        /// What SizeOfImage is.
        image_size: u32,
    },
    /// A relocation is of a type that firmware doesn't know.
    #[error("the relocation at offset {place:#x} is of type {found}, wanted 0, 1, 2, 3 or 10")]
    UnknownType {
        /// The place of the relocation.
        place: usize,
        /// Its type.
        found: u16,
    },
}

impl RelocationFault {
    /// What comes of the fault.
    pub fn effect(&self) -> Effect
        ensures { result ≡ relocation_effect self.now }
    {
        match self {
            RelocationFault::BlockNotLoaded { .. } => Effect::Undecided,
            _ => Effect::Refused,
        }
    }

    /// Where the fault is: the offset in bytes, from the file's first byte, of what has it, or of what leads there.
    pub fn place(&self) -> usize
        ensures { result ≡ relocation_place self.now }
    {
        match self {
            RelocationFault::BlockNotLoaded { place }
            | RelocationFault::BlockSize { place, .. }
            | RelocationFault::BlockAddress { place, .. }
            | RelocationFault::BeyondImage { place, .. }
            | RelocationFault::UnknownType { place, .. } => *place,
        }
    }
}
