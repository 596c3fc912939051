//! An image in memory, as the loader copies it, told from its file.

ghost use Rattle.std.specs.Prelude.{◌≡◌, ◌+◌, ◌-◌, ◌<◌, ◌≤◌, ◌^◌, min};
ghost use Rattle.efi_images.specs.Sections.{HasTable, sections};
ghost use Rattle.efi_images.specs.Loaded.{loaded_at, loaded_headers, loaded_section, cut_at, written_over, is_written, is_after, or_zero, loaded_byte, loaded_u16, loaded_u32, file_offset};

use crate::headers::Headers;
use crate::section::Section;

/// What is known of an image's memory from an address on: bytes of the file, and zeros after them. It ends where other
/// bytes of the file begin, or where nothing was written.
#[derive(Clone, Copy, Debug, PartialEq, Eq, Hash)]
pub(crate) struct Loaded {
    /// Where its bytes begin in the file.
    pub(crate) place: usize,
    /// How many bytes of the file there are from there on; what is known may end before.
    pub(crate) filled: usize,
    /// How many bytes are known.
    pub(crate) size: usize,
}

impl Loaded {
    /// The byte that is so far after the first.
    #[tactic(auto, unfolding(crate::specs::Loaded::loaded_byte))]
    fn byte(&self, file: &[u8], offset: usize) -> u8
        requires place { self.now.place < 2 ^ 33 }
        requires offset { offset < 2 ^ 34 }
        ensures { result ≡ loaded_byte file.now self.now offset }
    {
        if offset >= self.filled {
            return 0;
        }
        match file.get(self.place + offset) {
            Some(byte) => *byte,
            None => 0,
        }
    }

    /// The number of two bytes that is so far after the first byte, little-endian.
    #[tactic(auto, unfolding(crate::specs::Loaded::loaded_u16))]
    pub(crate) fn u16(&self, file: &[u8], offset: usize) -> u16
        requires place { self.now.place < 2 ^ 33 }
        requires offset { offset < 2 ^ 33 }
        ensures { result ≡ loaded_u16 file.now self.now offset }
    {
        u16::from_le_bytes([self.byte(file, offset), self.byte(file, offset + 1)])
    }

    /// The number of four bytes that is so far after the first byte, little-endian.
    #[tactic(auto, unfolding(crate::specs::Loaded::loaded_u32))]
    pub(crate) fn u32(&self, file: &[u8], offset: usize) -> u32
        requires place { self.now.place < 2 ^ 33 }
        requires offset { offset < 2 ^ 33 }
        ensures { result ≡ loaded_u32 file.now self.now offset }
    {
        u32::from_le_bytes([
            self.byte(file, offset),
            self.byte(file, offset + 1),
            self.byte(file, offset + 2),
            self.byte(file, offset + 3),
        ])
    }

    /// Where the byte that is so far after the first is in the file, or where the bytes of the file end.
    pub(crate) fn file_offset(&self, offset: usize) -> usize
        requires place { self.now.place < 2 ^ 33 }
        requires offset { offset < 2 ^ 33 }
        ensures { result ≡ file_offset self.now offset }
    {
        self.place + offset.min(self.filled)
    }
}

/// What is known of the memory from this address on, once the headers and each section are copied.
#[tactic(auto, unfolding(crate::specs::Loaded::loaded_at))]
pub(crate) fn loaded_at(headers: &Headers<'_>, address: u32) -> Loaded
    requires { HasTable headers.now }
    ensures known { result ≡ loaded_at headers.now address }
    ensures bound { (result.place < 2 ^ 33) × (result.size < 2 ^ 32) }
{
    let mut loaded = loaded_headers(headers, address);
    for index in 0..headers.section_count() {
        loaded = written_over(headers.section(index), address, loaded);
    }
    loaded
}

/// What is known by the headers.
fn loaded_headers(headers: &Headers<'_>, address: u32) -> Loaded
    ensures known { result ≡ loaded_headers headers.now address }
    ensures bound { (result.place < 2 ^ 33) × (result.size < 2 ^ 32) }
{
    let size = headers.headers_size().saturating_sub(address) as usize;
    Loaded {
        place: address as usize,
        filled: size,
        size,
    }
}

/// What is known once this section is written too.
fn written_over(section: Section, address: u32, loaded: Loaded) -> Loaded
    requires { (loaded.place < 2 ^ 33) × (loaded.size < 2 ^ 32) }
    ensures known { result ≡ written_over section address loaded }
    ensures bound { (result.place < 2 ^ 33) × (result.size < 2 ^ 32) }
{
    let written = section.written_size();
    let start = section.virtual_address;
    if address < start {
        return if written > 0 {
            cut_at(start - address, loaded)
        } else {
            loaded
        };
    }
    let past = address - start;
    if past >= written {
        return loaded;
    }
    Loaded {
        place: section.raw_place as usize + past as usize,
        filled: section.copied_size().saturating_sub(past) as usize,
        size: (written - past) as usize,
    }
}

/// No more of what is known than so many bytes.
fn cut_at(size: u32, loaded: Loaded) -> Loaded
    requires { (loaded.place < 2 ^ 33) × (loaded.size < 2 ^ 32) }
    ensures { (result.place ≡ loaded.place) × (result.filled ≡ loaded.filled) × (result.size ≡ min loaded.size size) }
{
    Loaded {
        place: loaded.place,
        filled: loaded.filled,
        size: loaded.size.min(size as usize),
    }
}
