//! What isn't in an image as firmware wants it.

use crate::code_view_fault::CodeViewFault;
use crate::relocation_fault::RelocationFault;
use crate::resource_fault::ResourceFault;
use crate::section::Section;
use thiserror::Error;

/// Which part of firmware finds a fault.
#[derive(Clone, Copy, Debug, PartialEq, Eq, Hash)]
pub enum Stage {
    /// The boot manager, which takes a file with a fault for one that isn't there.
    BootManager,
    /// LoadImage (UEFI 2.10, 7.4.1). With Secure Boot the faults of [`ImageFault::DirectoryCount`] to
    /// [`ImageFault::DebugBeyondFile`] are found before, and access is denied.
    Loader,
    /// StartImage (UEFI 2.10, 7.4.2).
    Start,
}

/// What comes of a fault.
#[derive(Clone, Copy, Debug, PartialEq, Eq, Hash)]
pub enum Effect {
    /// Firmware doesn't start the file.
    Refused,
    /// Firmware doesn't look at the fault, and goes wrong: it writes after the image's memory, or runs what isn't in it.
    Unsafe,
    /// The file's bytes don't tell whether it starts: the machine decides.
    Undecided,
}

/// The first thing that isn't in an image as firmware wants it: where it is, what was found there, and what was wanted. A
/// place is an offset in bytes from the file's first byte.
#[derive(Clone, Copy, Debug, PartialEq, Eq, Hash, Error)]
pub enum ImageFault {
    /// The file has no bytes.
    #[error("the file has no bytes")]
    Empty,
    /// The file ends in its DOS header.
    #[error("the file has {len} bytes, wanted 64 at least")]
    ShortDosHeader {
        /// How many bytes the file has.
        len: usize,
    },
    /// The file doesn't begin with `MZ`.
    #[error("the signature at offset 0x0 is {found:#x}, wanted 0x5a4d, MZ")]
    DosSignature {
        /// The file's first two bytes.
        found: u16,
    },
    /// There are no 264 bytes from e_lfanew on, as many as headers with 16 data directories have.
    #[error("e_lfanew at offset 0x3c is {found:#x}, wanted 264 bytes from there on in the file's {len:#x}")]
    PePlace {
        /// What e_lfanew states.
        found: u32,
        /// How many bytes the file has.
        len: usize,
    },
    /// There is no PE signature where e_lfanew says.
    #[error("the signature at offset {place:#x} is {found:#x}, wanted 0x4550, PE")]
    PeSignature {
        /// Where it is looked for.
        place: usize,
        /// The four bytes there.
        found: u32,
    },
    /// Magic is neither that of PE32 nor that of PE32+.
    #[error("Magic at offset {place:#x} is {found:#x}, wanted 0x10b or 0x20b")]
    Magic {
        /// The place of Magic.
        place: usize,
        /// What it is.
        found: u16,
    },
    /// The image is no EFI application.
    #[error("Subsystem at offset {place:#x} is {found}, wanted 10, an EFI application")]
    Subsystem {
        /// The place of Subsystem.
        place: usize,
        /// What it is.
        found: u16,
    },
    /// There are more data directories than the format has.
    #[error("NumberOfRvaAndSizes at offset {place:#x} is {found}, wanted 16 at most")]
    DirectoryCount {
        /// The place of NumberOfRvaAndSizes.
        place: usize,
        /// What it is.
        found: u32,
    },
    /// The optional header isn't as long as one with so many data directories.
    #[error("SizeOfOptionalHeader at offset {place:#x} is {found}, wanted {wanted}")]
    OptionalHeaderSize {
        /// The place of SizeOfOptionalHeader.
        place: usize,
        /// What it is.
        found: u16,
        /// The length of one with so many data directories.
        wanted: usize,
    },
    /// The image has no room for its section table and one header more.
    #[error("SizeOfImage at offset {place:#x} is {found:#x}, wanted {wanted:#x} at least")]
    ImageSize {
        /// The place of SizeOfImage.
        place: usize,
        /// What it is.
        found: u32,
        /// What it has to be at least.
        wanted: usize,
    },
    /// The headers have no room for the section table.
    #[error("SizeOfHeaders at offset {place:#x} is {found:#x}, wanted {wanted:#x} at least")]
    HeadersSize {
        /// The place of SizeOfHeaders.
        place: usize,
        /// What it is.
        found: u32,
        /// What it has to be at least.
        wanted: usize,
    },
    /// The headers don't end in the image.
    #[error("SizeOfHeaders at offset {place:#x} is {found:#x}, wanted below SizeOfImage, {image_size:#x}")]
    HeadersBeyondImage {
        /// The place of SizeOfHeaders.
        place: usize,
        /// What it is.
        found: u32,
        /// What SizeOfImage is.
        image_size: u32,
    },
    /// The file ends in the headers.
    #[error("SizeOfHeaders at offset {place:#x} is {found:#x}, wanted in the file's {len:#x}")]
    HeadersBeyondFile {
        /// The place of SizeOfHeaders.
        place: usize,
        /// What it is.
        found: u32,
        /// How many bytes the file has.
        len: usize,
    },
    /// The file ends before the certificate table does.
    #[error("directory 4 at offset {place:#x} is {start:#x}+{size:#x}, wanted in the file's {len:#x}")]
    CertificatesBeyondFile {
        /// The place of the directory.
        place: usize,
        /// Where the table begins in the file.
        start: u32,
        /// How many bytes it has.
        size: u32,
        /// How many bytes the file has.
        len: usize,
    },
    /// The machine isn't one that firmware knows.
    #[error("Machine at offset {place:#x} is {found:#x}, wanted 0x8664, x86-64")]
    Machine {
        /// The place of Machine.
        place: usize,
        /// What it is.
        found: u16,
    },
    /// A section lies in the headers, in the file or in memory.
    #[error("the section of offset {:#x} is at {:#x}, in memory at {:#x}, wanted after the headers, {headers_size:#x}", .section.place, .section.raw_place, .section.virtual_address)]
    SectionInHeaders {
        /// What the section's header states.
        section: Section,
        /// What SizeOfHeaders is.
        headers_size: u32,
    },
    /// The file ends before a section does.
    #[error("the section of offset {:#x} is {:#x}+{:#x}, wanted in the file's {len:#x}", .section.place, .section.raw_place, .section.raw_size)]
    SectionBeyondFile {
        /// What the section's header states.
        section: Section,
        /// How many bytes the file has.
        len: usize,
    },
    /// The debug directory is at an offset of more than four bytes.
    #[error("directory 6 at offset {place:#x} is at {found:#x} in the file, wanted below 0x100000000")]
    DebugPlace {
        /// The place of the directory.
        place: usize,
        /// Where its entries are in the file.
        found: usize,
    },
    /// The file ends in an entry of the debug directory.
    #[error("the debug entry at offset {place:#x} has 28 bytes, wanted in the file's {len:#x}")]
    DebugBeyondFile {
        /// The place of the entry.
        place: usize,
        /// How many bytes the file has.
        len: usize,
    },
    /// CodeView data are in no section: firmware loads them after the sections.
    #[error("the debug entry at offset {place:#x} is of CodeView data in no section, wanted in one")]
    UnmappedCodeView {
        /// The place of the entry.
        place: usize,
    },
    /// The image is one for ARM64.
    #[error("Machine at offset {place:#x} is 0xaa64, ARM64, wanted 0x8664, x86-64")]
    Arm64 {
        /// The place of Machine.
        place: usize,
    },
    /// The image takes more memory than is taken for granted, 512 MiB.
    #[error("SizeOfImage at offset {place:#x} takes {found:#x} bytes in one piece, wanted 0x20000000 at most")]
    Memory {
        /// The place of SizeOfImage.
        place: usize,
        /// How many bytes of memory it takes.
        found: u64,
    },
    /// The relocations are stripped, and the image's address is in the first page of memory.
    #[error("ImageBase at offset {place:#x} is {found:#x} without relocations, wanted 0x1000 at least")]
    FixedBase {
        /// The place of ImageBase.
        place: usize,
        /// What it is.
        found: u64,
    },
    /// The relocations are stripped: the memory at the image's address has to be free.
    #[error("Characteristics at offset {place:#x} say that relocations are stripped, wanted with relocations")]
    RelocationsStripped {
        /// The place of Characteristics.
        place: usize,
    },
    /// Sections are aligned to nothing.
    #[error("SectionAlignment at offset {place:#x} is 0x0, wanted 0x1 at least")]
    SectionAlignment {
        /// The place of SectionAlignment.
        place: usize,
    },
    /// A section isn't in the image.
    #[error("the section of offset {:#x} is {:#x}+{:#x} in memory, wanted in SizeOfImage, {image_size:#x}", .section.place, .section.virtual_address, .section.virtual_size)]
    SectionBeyondImage {
        /// What the section's header states.
        section: Section,
        /// What SizeOfImage is.
        image_size: u32,
    },
    /// A section is written after the image's memory.
    #[error("the section of offset {:#x} is written at {:#x}, wanted in the image's {memory_size:#x}", .section.place, .section.virtual_address)]
    SectionBeyondMemory {
        /// What the section's header states.
        section: Section,
        /// How many bytes of memory the image takes.
        memory_size: u64,
    },
    /// A section without bytes in the file is written over the section table.
    #[error("the section of offset {:#x} is cleared at {:#x}, wanted after the section table, {table_end:#x}", .section.place, .section.virtual_address)]
    SectionOverTable {
        /// What the section's header states.
        section: Section,
        /// Where the section table ends.
        table_end: usize,
    },
    /// The CodeView data aren't in memory, or are cut.
    #[error("{0}")]
    CodeView(CodeViewFault),
    /// The resources aren't in memory, or what leads from one to another leads out of them.
    #[error("{0}")]
    Resources(ResourceFault),
    /// The directory of relocations is the first after those that there are, and isn't in the headers.
    #[error("directory 5 at offset {place:#x} is after the headers, wanted in them")]
    RelocationsNotLoaded {
        /// The place of the directory.
        place: usize,
    },
    /// The relocations end after the last address of four bytes.
    #[error("directory 5 at offset {place:#x} is {start:#x}+{size:#x} in memory, wanted below 0x100000000")]
    RelocationsOverflow {
        /// The place of the directory.
        place: usize,
        /// The address of the relocations.
        start: u32,
        /// How many bytes they have.
        size: u32,
    },
    /// The relocations aren't in the image.
    #[error("directory 5 at offset {place:#x} is {start:#x}+{size:#x} in memory, wanted in SizeOfImage, {image_size:#x}")]
    RelocationsBeyondImage {
        /// The place of the directory.
        place: usize,
        /// The address of the relocations.
        start: u32,
        /// How many bytes they have.
        size: u32,
        /// What SizeOfImage is.
        image_size: u32,
    },
    /// A block of relocations isn't in memory, or isn't one that firmware goes through.
    #[error("{0}")]
    Relocations(RelocationFault),
    /// The image is one for IA32, which is loaded and not started.
    #[error("Machine at offset {place:#x} is 0x14c, IA32, wanted 0x8664, x86-64")]
    Ia32 {
        /// The place of Machine.
        place: usize,
    },
    /// The image is EFI byte code, which needs an interpreter.
    #[error("Machine at offset {place:#x} is 0xebc, EFI byte code, wanted 0x8664, x86-64")]
    ByteCode {
        /// The place of Machine.
        place: usize,
    },
    /// The image's entry point isn't in it.
    #[error("AddressOfEntryPoint at offset {place:#x} is {found:#x}, wanted below SizeOfImage, {image_size:#x}")]
    EntryPoint {
        /// The place of AddressOfEntryPoint.
        place: usize,
        /// What it is.
        found: u32,
        /// What SizeOfImage is.
        image_size: u32,
    },
}
