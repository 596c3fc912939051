//! What is wrong with the resource directory of an image (PE/COFF, 6.9).

ghost use Rattle.std.specs.Prelude.{◌≡◌};
ghost use Rattle.efi_images.specs.Words.{resource_effect, resource_place};

use crate::fault::Effect;
use thiserror::Error;

/// What is wrong with the resource directory of an image (PE/COFF, 6.9). A place
/// is an offset in bytes from the file's first byte.
#[derive(Clone, Copy, Debug, PartialEq, Eq, Hash, Error)]
pub enum ResourceFault {
    /// What the loader reads of the resources isn't in one section, or the headers.
    #[error("the resources of offset {place:#x} are in no section, wanted in one")]
    NotLoaded {
        /// The place of the directory, or of the entry of the resources.
        place: usize,
    },
    /// A directory, a name or the data of a resource begin after the resources.
    #[error("the resource of offset {place:#x} leads to {found:#x}, wanted in the resources, {size:#x}")]
    BeyondResources {
        /// The place of the directory, or of the entry that leads there.
        place: usize,
        /// Where that begins, from the first byte of the resources.
        found: u32,
        /// How many bytes the resources have.
        size: u32,
    },
    /// The entries of a directory of resources end after the resources.
    #[error("the resource directory of offset {place:#x} ends at {found:#x}, wanted in the resources, {size:#x}")]
    DirectorySize {
        /// The place of the directory, or of the entry that leads there.
        place: usize,
        /// Where they end, from the first byte of the resources.
        found: usize,
        /// How many bytes the resources have.
        size: u32,
    },
}

impl ResourceFault {
    /// What comes of the fault.
    pub fn effect(&self) -> Effect
        ensures { result ≡ resource_effect self.now }
    {
        match self {
            ResourceFault::NotLoaded { .. } => Effect::Undecided,
            _ => Effect::Refused,
        }
    }

    /// Where the fault is: the offset in bytes, from the file's first byte, of what has it, or of what leads there.
    pub fn place(&self) -> usize
        ensures { result ≡ resource_place self.now }
    {
        match self {
            ResourceFault::NotLoaded { place }
            | ResourceFault::BeyondResources { place, .. }
            | ResourceFault::DirectorySize { place, .. } => *place,
        }
    }
}
