//! The headers of an image (PE/COFF, 3), where they are in the bytes of its file.

ghost use Rattle.std.specs.Prelude.{◌≡◌, ◌↔◌, ◌+◌, ◌*◌, ◌<◌, ◌^◌, ◌≤◌, length, IsTrue};
ghost use Rattle.efi_images.specs.Headers.{HasHeaders, pe_place, machine, section_count, optional_size, is_stripped, magic, is_plus, entry_point, base_offset, image_base, alignment, image_size, headers_size, subsystem, fixed_size, count_place, directory_count, directory_place, directory_start, directory_size, table_place, table_end};
ghost use Rattle.efi_images.specs.Sections.{HasTable, section_at};
ghost use Rattle.efi_images.specs.Checks.{wanted_headers_size};

use crate::bytes::{u16_at, u32_at, u64_at};
use crate::section::{SECTION_LEN, Section};
use std::marker::Model;

/// Where e_lfanew is, which states where the PE signature begins.
pub(crate) const PE_PLACE: usize = 0x3C;

/// How many bytes a DOS header has.
pub(crate) const DOS_LEN: usize = 64;

/// How many bytes the signature and the headers of PE32+ have with 16 data directories.
pub(crate) const PE_LEN: usize = 264;

/// Magic of PE32.
pub(crate) const PE32: u16 = 0x10B;

/// Magic of PE32+.
pub(crate) const PE32_PLUS: u16 = 0x20B;

/// The headers of an image. Contracts see the bytes of its file.
#[derive(Drop)]
pub(crate) struct Headers<'a> {
    file: &'a [u8],
    pe: usize,
}

impl<'a> Model for Headers<'a> {
    ghost use Rattle.std.specs.Prelude.{◌≡◌, ℕ, ◌<◌, List};
    ghost use Rattle.efi_images.specs.Headers.{HasHeaders, pe_place};

    ghost Value = { List ℕ };

    ghost view = { λ headers. headers.file.now };

    ghost invariant = { λ headers. HasHeaders headers.file.now × (headers.pe ≡ pe_place headers.file.now) × (headers.pe < 4294967296) };
}

impl<'a> Headers<'a> {
    /// The headers of this file.
    pub(crate) fn new(file: &'a [u8]) -> Headers<'a>
        requires { HasHeaders file.now }
        ensures { result ≡ file.now }
    {
        Headers {
            file,
            pe: u32_at(file, PE_PLACE) as usize,
        }
    }

    /// The bytes of the file.
    pub(crate) fn file(&self) -> &'a [u8]
        ensures { result.now ≡ self.now }
    {
        self.file
    }

    /// Where the PE signature begins.
    pub(crate) fn pe(&self) -> usize
        ensures place { result ≡ pe_place self.now }
        ensures bound { result < 2 ^ 32 }
        ensures headers { HasHeaders self.now }
    {
        self.pe
    }

    /// Machine.
    pub(crate) fn machine(&self) -> u16
        ensures { result ≡ machine self.now }
    {
        u16_at(self.file, self.pe + 4)
    }

    /// NumberOfSections.
    pub(crate) fn section_count(&self) -> u16
        ensures { result ≡ section_count self.now }
    {
        u16_at(self.file, self.pe + 6)
    }

    /// SizeOfOptionalHeader.
    pub(crate) fn optional_size(&self) -> u16
        ensures { result ≡ optional_size self.now }
    {
        u16_at(self.file, self.pe + 20)
    }

    /// Whether Characteristics say that the relocations are stripped.
    pub(crate) fn is_stripped(&self) -> bool
        ensures { result ≡ is_stripped self.now }
    {
        u16_at(self.file, self.pe + 22) & 1 != 0
    }

    /// Magic.
    pub(crate) fn magic(&self) -> u16
        ensures { result ≡ magic self.now }
    {
        u16_at(self.file, self.pe + 24)
    }

    /// Whether the optional header is that of PE32+.
    fn is_plus(&self) -> bool
        ensures { result ≡ is_plus self.now }
    {
        self.magic() == PE32_PLUS
    }

    /// AddressOfEntryPoint.
    pub(crate) fn entry_point(&self) -> u32
        ensures { result ≡ entry_point self.now }
    {
        u32_at(self.file, self.pe + 40)
    }

    /// How far ImageBase is after the PE signature.
    pub(crate) fn base_offset(&self) -> usize
        ensures offset { result ≡ base_offset self.now }
        ensures bound { result ≤ 52 }
    {
        if self.is_plus() { 48 } else { 52 }
    }

    /// ImageBase.
    pub(crate) fn image_base(&self) -> u64
        ensures { result ≡ image_base self.now }
    {
        if self.is_plus() {
            return u64_at(self.file, self.pe + 48);
        }
        u64::from(u32_at(self.file, self.pe + 52))
    }

    /// SectionAlignment.
    pub(crate) fn alignment(&self) -> u32
        ensures { result ≡ alignment self.now }
    {
        u32_at(self.file, self.pe + 56)
    }

    /// SizeOfImage.
    pub(crate) fn image_size(&self) -> u32
        ensures { result ≡ image_size self.now }
    {
        u32_at(self.file, self.pe + 80)
    }

    /// SizeOfHeaders.
    pub(crate) fn headers_size(&self) -> u32
        ensures { result ≡ headers_size self.now }
    {
        u32_at(self.file, self.pe + 84)
    }

    /// Subsystem.
    pub(crate) fn subsystem(&self) -> u16
        ensures { result ≡ subsystem self.now }
    {
        u16_at(self.file, self.pe + 92)
    }

    /// How many bytes the optional header has before its data directories.
    #[tactic(auto, unfolding(crate::specs::Headers::fixed_size))]
    pub(crate) fn fixed_size(&self) -> usize
        ensures size { result ≡ fixed_size self.now }
        ensures bound { result ≤ 112 }
    {
        if self.is_plus() { 112 } else { 96 }
    }

    /// Where NumberOfRvaAndSizes is.
    pub(crate) fn count_place(&self) -> usize
        ensures place { result ≡ count_place self.now }
        ensures bound { result + 132 ≤ length self.now }
    {
        self.pe + (20 + self.fixed_size())
    }

    /// NumberOfRvaAndSizes.
    pub(crate) fn directory_count(&self) -> u32
        ensures { result ≡ directory_count self.now }
    {
        u32_at(self.file, self.count_place())
    }

    /// Where the data directory of this index is.
    pub(crate) fn directory_place(&self, index: usize) -> usize
        requires { index < 16 }
        ensures place { result ≡ directory_place self.now index }
        ensures bound { result + 8 ≤ length self.now }
    {
        self.pe + (24 + self.fixed_size()) + 8 * index
    }

    /// Where the table of this directory begins: an address, but an offset in the file for that of certificates.
    pub(crate) fn directory_start(&self, index: usize) -> u32
        requires { index < 16 }
        ensures { result ≡ directory_start self.now index }
    {
        u32_at(self.file, self.directory_place(index))
    }

    /// How many bytes the table of this directory has.
    pub(crate) fn directory_size(&self, index: usize) -> u32
        requires { index < 16 }
        ensures { result ≡ directory_size self.now index }
    {
        u32_at(self.file, self.directory_place(index) + 4)
    }

    /// Where the section table begins.
    pub(crate) fn table_place(&self) -> usize
        ensures place { result ≡ table_place self.now }
        ensures bound { result < 4295032856 }
    {
        self.pe + (24 + usize::from(self.optional_size()))
    }

    /// Where the section table ends.
    pub(crate) fn table_end(&self) -> usize
        ensures place { result ≡ table_end self.now }
        ensures bound { result < 2 ^ 33 }
    {
        self.table_place() + SECTION_LEN * usize::from(self.section_count())
    }

    /// What SizeOfHeaders has to be at least.
    pub(crate) fn least_headers_size(&self) -> usize
        ensures { result ≡ wanted_headers_size self.now }
    {
        self.table_place() + (SECTION_LEN * usize::from(self.section_count())).max(1)
    }

    /// The section of this index in the table.
    pub(crate) fn section(&self, index: u16) -> Section
        requires table { HasTable self.now }
        requires index { index < section_count self.now }
        ensures { result ≡ section_at self.now (table_place self.now + 40 * index) }
    {
        self.section_at(self.table_place() + SECTION_LEN * usize::from(index))
    }

    /// The section whose header is at this offset.
    #[tactic(auto, unfolding(crate::specs::Sections::section_at))]
    fn section_at(&self, place: usize) -> Section
        requires { place + 40 ≤ length self.now }
        ensures { result ≡ section_at self.now place }
    {
        Section {
            place,
            virtual_size: u32_at(self.file, place + 8),
            virtual_address: u32_at(self.file, place + 12),
            raw_size: u32_at(self.file, place + 16),
            raw_place: u32_at(self.file, place + 20),
        }
    }
}
