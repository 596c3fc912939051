//! Sections of an image.

ghost use Rattle.std.specs.Prelude.{◌≡◌};
ghost use Rattle.efi_images.specs.Sections.{copied_size, written_size};

/// How many bytes a section's header has (PE/COFF, 4).
pub(crate) const SECTION_LEN: usize = 40;

/// What a section's header states (PE/COFF, 4).
#[derive(Clone, Copy, Debug, PartialEq, Eq, Hash)]
pub struct Section {
    /// Where the header is in the file: its offset in bytes from the first byte.
    pub place: usize,
    /// How many bytes the section has in memory: VirtualSize.
    pub virtual_size: u32,
    /// Its address in memory, from the image's first byte: VirtualAddress.
    pub virtual_address: u32,
    /// How many bytes it has in the file: SizeOfRawData.
    pub raw_size: u32,
    /// Where these begin in the file: PointerToRawData.
    pub raw_place: u32,
}

impl Section {
    /// How many bytes of the section the loader copies.
    pub(crate) fn copied_size(&self) -> u32
        ensures { result ≡ copied_size self.now }
    {
        if self.virtual_size == 0 || self.raw_size < self.virtual_size {
            return self.raw_size;
        }
        self.virtual_size
    }

    /// How many bytes of memory it writes for the section.
    pub(crate) fn written_size(&self) -> u32
        ensures { result ≡ written_size self.now }
    {
        self.copied_size().max(self.virtual_size)
    }
}
