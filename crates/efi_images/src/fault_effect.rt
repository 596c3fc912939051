//! What comes of a fault, who finds it, and where it is.

ghost use Rattle.std.specs.Prelude.{◌≡◌};
ghost use Rattle.efi_images.specs.Words.{stage_of, effect_of, place_of};

use crate::fault::{Effect, ImageFault, Stage};
use crate::headers::PE_PLACE;

impl ImageFault {
    /// Which part of firmware finds the fault.
    pub fn stage(&self) -> Stage
        ensures { result ≡ stage_of self.now }
    {
        match self {
            ImageFault::Empty
            | ImageFault::ShortDosHeader { .. }
            | ImageFault::DosSignature { .. }
            | ImageFault::PePlace { .. }
            | ImageFault::PeSignature { .. }
            | ImageFault::Magic { .. }
            | ImageFault::Subsystem { .. } => Stage::BootManager,
            ImageFault::Ia32 { .. } | ImageFault::ByteCode { .. } | ImageFault::EntryPoint { .. } =>
                Stage::Start,
            _ => Stage::Loader,
        }
    }

    /// What comes of the fault.
    pub fn effect(&self) -> Effect
        ensures { result ≡ effect_of self.now }
    {
        match self {
            ImageFault::DebugPlace { .. }
            | ImageFault::UnmappedCodeView { .. }
            | ImageFault::Memory { .. }
            | ImageFault::RelocationsStripped { .. }
            | ImageFault::RelocationsNotLoaded { .. }
            | ImageFault::ByteCode { .. } => Effect::Undecided,
            ImageFault::SectionBeyondMemory { .. }
            | ImageFault::SectionOverTable { .. }
            | ImageFault::RelocationsOverflow { .. }
            | ImageFault::EntryPoint { .. } => Effect::Unsafe,
            ImageFault::CodeView(fault) => fault.effect(),
            ImageFault::Resources(fault) => fault.effect(),
            ImageFault::Relocations(fault) => fault.effect(),
            _ => Effect::Refused,
        }
    }

    /// Where the fault is: the offset in bytes, from the file's first byte, of the field that has it, or of a section's
    /// header.
    pub fn place(&self) -> usize
        ensures { result ≡ place_of self.now }
    {
        match self {
            ImageFault::Empty
            | ImageFault::ShortDosHeader { .. }
            | ImageFault::DosSignature { .. } => 0,
            ImageFault::PePlace { .. } => PE_PLACE,
            ImageFault::PeSignature { place, .. }
            | ImageFault::Magic { place, .. }
            | ImageFault::Subsystem { place, .. }
            | ImageFault::DirectoryCount { place, .. }
            | ImageFault::OptionalHeaderSize { place, .. }
            | ImageFault::ImageSize { place, .. }
            | ImageFault::HeadersSize { place, .. }
            | ImageFault::HeadersBeyondImage { place, .. }
            | ImageFault::HeadersBeyondFile { place, .. }
            | ImageFault::CertificatesBeyondFile { place, .. }
            | ImageFault::Machine { place, .. }
            | ImageFault::DebugPlace { place, .. }
            | ImageFault::DebugBeyondFile { place, .. }
            | ImageFault::UnmappedCodeView { place }
            | ImageFault::Arm64 { place }
            | ImageFault::Memory { place, .. }
            | ImageFault::FixedBase { place, .. }
            | ImageFault::RelocationsStripped { place }
            | ImageFault::SectionAlignment { place }
            | ImageFault::RelocationsNotLoaded { place }
            | ImageFault::RelocationsOverflow { place, .. }
            | ImageFault::RelocationsBeyondImage { place, .. }
            | ImageFault::Ia32 { place }
            | ImageFault::ByteCode { place }
            | ImageFault::EntryPoint { place, .. } => *place,
            ImageFault::SectionInHeaders { section, .. }
            | ImageFault::SectionBeyondFile { section, .. }
            | ImageFault::SectionBeyondImage { section, .. }
            | ImageFault::SectionBeyondMemory { section, .. }
            | ImageFault::SectionOverTable { section, .. } => section.place,
            ImageFault::CodeView(fault) => fault.place(),
            ImageFault::Resources(fault) => fault.place(),
            ImageFault::Relocations(fault) => fault.place(),
        }
    }
}
