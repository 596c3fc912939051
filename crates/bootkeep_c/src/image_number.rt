//! The numbers of faults of images.

ghost use Rattle.std.specs.Prelude.{◌≡◌};
ghost use Rattle.bootkeep_c.specs.Refusals.{image_number, code_view_number, resource_number, relocation_number};

use crate::refusal::{
    IMAGE_ARM64, IMAGE_BYTE_CODE, IMAGE_CERTIFICATES_BEYOND_FILE, IMAGE_CODE_VIEW_BEYOND_IMAGE,
    IMAGE_CODE_VIEW_ENTRY_BEYOND_IMAGE, IMAGE_CODE_VIEW_ENTRY_NOT_LOADED,
    IMAGE_CODE_VIEW_NOT_LOADED, IMAGE_CODE_VIEW_SIZE, IMAGE_DEBUG_BEYOND_FILE, IMAGE_DEBUG_PLACE,
    IMAGE_DIRECTORY_COUNT, IMAGE_DOS_SIGNATURE, IMAGE_EMPTY, IMAGE_ENTRY_POINT, IMAGE_FIXED_BASE,
    IMAGE_HEADERS_BEYOND_FILE, IMAGE_HEADERS_BEYOND_IMAGE, IMAGE_HEADERS_SIZE, IMAGE_IA32,
    IMAGE_IMAGE_SIZE, IMAGE_MACHINE, IMAGE_MAGIC, IMAGE_MEMORY, IMAGE_OPTIONAL_HEADER_SIZE,
    IMAGE_PE_PLACE, IMAGE_PE_SIGNATURE, IMAGE_RELOCATION_BEYOND_IMAGE,
    IMAGE_RELOCATION_BLOCK_ADDRESS, IMAGE_RELOCATION_BLOCK_NOT_LOADED, IMAGE_RELOCATION_BLOCK_SIZE,
    IMAGE_RELOCATION_UNKNOWN_TYPE, IMAGE_RELOCATIONS_BEYOND_IMAGE, IMAGE_RELOCATIONS_NOT_LOADED,
    IMAGE_RELOCATIONS_OVERFLOW, IMAGE_RELOCATIONS_STRIPPED, IMAGE_RESOURCE_BEYOND_RESOURCES,
    IMAGE_RESOURCE_DIRECTORY_SIZE, IMAGE_RESOURCES_NOT_LOADED, IMAGE_SECTION_ALIGNMENT,
    IMAGE_SECTION_BEYOND_FILE, IMAGE_SECTION_BEYOND_IMAGE, IMAGE_SECTION_BEYOND_MEMORY,
    IMAGE_SECTION_IN_HEADERS, IMAGE_SECTION_OVER_TABLE, IMAGE_SHORT_DOS_HEADER, IMAGE_SUBSYSTEM,
    IMAGE_UNMAPPED_CODE_VIEW,
};
use efi_images::{CodeViewFault, ImageFault, RelocationFault, ResourceFault};

/// The number of the fault.
pub(crate) fn image_number(fault: &ImageFault) -> u32
    ensures { result ≡ image_number fault.now }
{
    match fault {
        ImageFault::Empty => IMAGE_EMPTY,
        ImageFault::ShortDosHeader { .. } => IMAGE_SHORT_DOS_HEADER,
        ImageFault::DosSignature { .. } => IMAGE_DOS_SIGNATURE,
        ImageFault::PePlace { .. } => IMAGE_PE_PLACE,
        ImageFault::PeSignature { .. } => IMAGE_PE_SIGNATURE,
        ImageFault::Magic { .. } => IMAGE_MAGIC,
        ImageFault::Subsystem { .. } => IMAGE_SUBSYSTEM,
        ImageFault::DirectoryCount { .. } => IMAGE_DIRECTORY_COUNT,
        ImageFault::OptionalHeaderSize { .. } => IMAGE_OPTIONAL_HEADER_SIZE,
        ImageFault::ImageSize { .. } => IMAGE_IMAGE_SIZE,
        ImageFault::HeadersSize { .. } => IMAGE_HEADERS_SIZE,
        ImageFault::HeadersBeyondImage { .. } => IMAGE_HEADERS_BEYOND_IMAGE,
        ImageFault::HeadersBeyondFile { .. } => IMAGE_HEADERS_BEYOND_FILE,
        ImageFault::CertificatesBeyondFile { .. } => IMAGE_CERTIFICATES_BEYOND_FILE,
        ImageFault::Machine { .. } => IMAGE_MACHINE,
        ImageFault::SectionInHeaders { .. } => IMAGE_SECTION_IN_HEADERS,
        ImageFault::SectionBeyondFile { .. } => IMAGE_SECTION_BEYOND_FILE,
        ImageFault::DebugPlace { .. } => IMAGE_DEBUG_PLACE,
        ImageFault::DebugBeyondFile { .. } => IMAGE_DEBUG_BEYOND_FILE,
        ImageFault::UnmappedCodeView { .. } => IMAGE_UNMAPPED_CODE_VIEW,
        ImageFault::Arm64 { .. } => IMAGE_ARM64,
        ImageFault::Memory { .. } => IMAGE_MEMORY,
        ImageFault::FixedBase { .. } => IMAGE_FIXED_BASE,
        ImageFault::RelocationsStripped { .. } => IMAGE_RELOCATIONS_STRIPPED,
        ImageFault::SectionAlignment { .. } => IMAGE_SECTION_ALIGNMENT,
        ImageFault::SectionBeyondImage { .. } => IMAGE_SECTION_BEYOND_IMAGE,
        ImageFault::SectionBeyondMemory { .. } => IMAGE_SECTION_BEYOND_MEMORY,
        ImageFault::SectionOverTable { .. } => IMAGE_SECTION_OVER_TABLE,
        ImageFault::RelocationsNotLoaded { .. } => IMAGE_RELOCATIONS_NOT_LOADED,
        ImageFault::RelocationsOverflow { .. } => IMAGE_RELOCATIONS_OVERFLOW,
        ImageFault::RelocationsBeyondImage { .. } => IMAGE_RELOCATIONS_BEYOND_IMAGE,
        ImageFault::CodeView(fault) => code_view_number(fault),
        ImageFault::Resources(fault) => resource_number(fault),
        ImageFault::Relocations(fault) => relocation_number(fault),
        ImageFault::Ia32 { .. } => IMAGE_IA32,
        ImageFault::ByteCode { .. } => IMAGE_BYTE_CODE,
        ImageFault::EntryPoint { .. } => IMAGE_ENTRY_POINT,
    }
}

/// The same of a fault of CodeView data.
fn code_view_number(fault: &CodeViewFault) -> u32
    ensures { result ≡ code_view_number fault.now }
{
    match fault {
        CodeViewFault::EntryBeyondImage { .. } => IMAGE_CODE_VIEW_ENTRY_BEYOND_IMAGE,
        CodeViewFault::EntryNotLoaded { .. } => IMAGE_CODE_VIEW_ENTRY_NOT_LOADED,
        CodeViewFault::BeyondImage { .. } => IMAGE_CODE_VIEW_BEYOND_IMAGE,
        CodeViewFault::NotLoaded { .. } => IMAGE_CODE_VIEW_NOT_LOADED,
        CodeViewFault::Size { .. } => IMAGE_CODE_VIEW_SIZE,
    }
}

/// The same of a fault of resources.
fn resource_number(fault: &ResourceFault) -> u32
    ensures { result ≡ resource_number fault.now }
{
    match fault {
        ResourceFault::NotLoaded { .. } => IMAGE_RESOURCES_NOT_LOADED,
        ResourceFault::BeyondResources { .. } => IMAGE_RESOURCE_BEYOND_RESOURCES,
        ResourceFault::DirectorySize { .. } => IMAGE_RESOURCE_DIRECTORY_SIZE,
    }
}

/// The same of a fault of relocations.
fn relocation_number(fault: &RelocationFault) -> u32
    ensures { result ≡ relocation_number fault.now }
{
    match fault {
        RelocationFault::BlockNotLoaded { .. } => IMAGE_RELOCATION_BLOCK_NOT_LOADED,
        RelocationFault::BlockSize { .. } => IMAGE_RELOCATION_BLOCK_SIZE,
        RelocationFault::BlockAddress { .. } => IMAGE_RELOCATION_BLOCK_ADDRESS,
        RelocationFault::BeyondImage { .. } => IMAGE_RELOCATION_BEYOND_IMAGE,
        RelocationFault::UnknownType { .. } => IMAGE_RELOCATION_UNKNOWN_TYPE,
    }
}
