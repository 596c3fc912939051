//! Why a call refuses what it was handed, by numbers that are never given out again.

/// What stands for no fault within.
pub const NO_KIND: u32 = 0;

/// What stands for no place.
pub const NO_PLACE: usize = usize::MAX;

/// [`PathFault::NoEnd`](uefi_path::PathFault::NoEnd).
pub const PATH_NO_END: u32 = 0x0101;

/// [`PathFault::ShortHeader`](uefi_path::PathFault::ShortHeader).
pub const PATH_SHORT_HEADER: u32 = 0x0102;

/// [`PathFault::BadLength`](uefi_path::PathFault::BadLength).
pub const PATH_BAD_LENGTH: u32 = 0x0103;

/// [`PathFault::PastEnd`](uefi_path::PathFault::PastEnd).
pub const PATH_PAST_END: u32 = 0x0104;

/// [`PathFault::BadEnd`](uefi_path::PathFault::BadEnd).
pub const PATH_BAD_END: u32 = 0x0105;

/// [`TextFault::BadSegment`](uefi_text::TextFault::BadSegment).
pub const TEXT_BAD_SEGMENT: u32 = 0x0201;

/// [`TextFault::BadNumber`](uefi_text::TextFault::BadNumber).
pub const TEXT_BAD_NUMBER: u32 = 0x0202;

/// [`TextFault::OutOfRange`](uefi_text::TextFault::OutOfRange).
pub const TEXT_OUT_OF_RANGE: u32 = 0x0203;

/// [`TextFault::BadEnd`](uefi_text::TextFault::BadEnd).
pub const TEXT_BAD_END: u32 = 0x0204;

/// The text isn't UTF-8 from the place on.
pub const TEXT_NOT_UTF8: u32 = 0x0205;

/// [`NamedFault::UnknownName`](uefi_names::NamedFault::UnknownName).
pub const TEXT_UNKNOWN_NAME: u32 = 0x0206;

/// [`NamedFault::BadArgument`](uefi_names::NamedFault::BadArgument).
pub const TEXT_BAD_ARGUMENT: u32 = 0x0207;

/// [`NamedFault::BadCount`](uefi_names::NamedFault::BadCount).
pub const TEXT_BAD_COUNT: u32 = 0x0208;

/// [`NamedFault::BadData`](uefi_names::NamedFault::BadData).
pub const TEXT_BAD_DATA: u32 = 0x0209;

/// [`OptionFault::Short`](uefi_option::OptionFault::Short).
pub const OPTION_SHORT: u32 = 0x0301;

/// [`OptionFault::NoTerminator`](uefi_option::OptionFault::NoTerminator).
pub const OPTION_NO_TERMINATOR: u32 = 0x0302;

/// [`OptionFault::ListPastEnd`](uefi_option::OptionFault::ListPastEnd).
pub const OPTION_LIST_PAST_END: u32 = 0x0303;

/// [`OptionFault::EmptyList`](uefi_option::OptionFault::EmptyList).
pub const OPTION_EMPTY_LIST: u32 = 0x0304;

/// [`OptionFault::Path`](uefi_option::OptionFault::Path), with the path's fault within.
pub const OPTION_PATH: u32 = 0x0305;

/// [`OptionFault::ZeroUnit`](uefi_option::OptionFault::ZeroUnit).
pub const OPTION_ZERO_UNIT: u32 = 0x0306;

/// [`OptionFault::ListTooLong`](uefi_option::OptionFault::ListTooLong).
pub const OPTION_LIST_TOO_LONG: u32 = 0x0307;

/// The description of which an option is to be made isn't UTF-8 from the place on.
pub const OPTION_NOT_UTF8: u32 = 0x0308;

/// The units of the description are no text: a half of a pair stands alone.
pub const OPTION_NOT_UTF16: u32 = 0x0309;

/// [`SetFault::BadMagic`](uefi_vars::SetFault::BadMagic).
pub const SET_BAD_MAGIC: u32 = 0x0401;

/// [`SetFault::Truncated`](uefi_vars::SetFault::Truncated).
pub const SET_TRUNCATED: u32 = 0x0402;

/// [`SetFault::BadName`](uefi_vars::SetFault::BadName).
pub const SET_BAD_NAME: u32 = 0x0403;

/// [`SetFault::BadData`](uefi_vars::SetFault::BadData).
pub const SET_BAD_DATA: u32 = 0x0404;

/// [`SetFault::NotRising`](uefi_vars::SetFault::NotRising).
pub const SET_NOT_RISING: u32 = 0x0405;

/// `BadOrder` of [`VarFault`](uefi_vars::VarFault) and [`OpenFault`](boot_requests::OpenFault).
pub const VARS_BAD_ORDER: u32 = 0x0501;

/// `BadNext` of [`VarFault`](uefi_vars::VarFault) and [`OpenFault`](boot_requests::OpenFault).
pub const VARS_BAD_NEXT: u32 = 0x0502;

/// [`OpenFault::BadState`](boot_requests::OpenFault::BadState).
pub const VARS_BAD_STATE: u32 = 0x0503;

/// [`PutFault::BadName`](uefi_vars::PutFault::BadName).
pub const PUT_BAD_NAME: u32 = 0x0601;

/// [`PutFault::EmptyData`](uefi_vars::PutFault::EmptyData).
pub const PUT_EMPTY_DATA: u32 = 0x0602;

/// [`PutFault::DataTooLong`](uefi_vars::PutFault::DataTooLong).
pub const PUT_DATA_TOO_LONG: u32 = 0x0603;

/// [`FeedFault::BadMagic`](boot_requests::FeedFault::BadMagic).
pub const STREAM_BAD_MAGIC: u32 = 0x0701;

/// [`FeedFault::BadVersion`](boot_requests::FeedFault::BadVersion).
pub const STREAM_BAD_VERSION: u32 = 0x0702;

/// [`FeedFault::TooLong`](boot_requests::FeedFault::TooLong).
pub const STREAM_TOO_LONG: u32 = 0x0703;

/// The last frame of a stream isn't whole.
pub const STREAM_REST: u32 = 0x0704;

/// [`FrameFault::Short`](boot_requests::FrameFault::Short).
pub const FRAME_SHORT: u32 = 0x0801;

/// [`FrameFault::BadMagic`](boot_requests::FrameFault::BadMagic).
pub const FRAME_BAD_MAGIC: u32 = 0x0802;

/// [`FrameFault::BadVersion`](boot_requests::FrameFault::BadVersion).
pub const FRAME_BAD_VERSION: u32 = 0x0803;

/// [`FrameFault::TooLong`](boot_requests::FrameFault::TooLong).
pub const FRAME_TOO_LONG: u32 = 0x0804;

/// [`FrameFault::BadSize`](boot_requests::FrameFault::BadSize).
pub const FRAME_BAD_SIZE: u32 = 0x0805;

/// [`FrameFault::BadKind`](boot_requests::FrameFault::BadKind).
pub const FRAME_BAD_KIND: u32 = 0x0806;

/// [`FrameFault::BadNumber`](boot_requests::FrameFault::BadNumber).
pub const FRAME_BAD_NUMBER: u32 = 0x0807;

/// [`FrameFault::BadPayload`](boot_requests::FrameFault::BadPayload).
pub const FRAME_BAD_PAYLOAD: u32 = 0x0808;

/// [`FrameFault::Option`](boot_requests::FrameFault::Option), with the option's fault beside it.
pub const FRAME_OPTION: u32 = 0x0809;

/// [`ImageFault::Empty`](efi_images::ImageFault::Empty).
pub const IMAGE_EMPTY: u32 = 0x0901;

/// [`ImageFault::ShortDosHeader`](efi_images::ImageFault::ShortDosHeader).
pub const IMAGE_SHORT_DOS_HEADER: u32 = 0x0902;

/// [`ImageFault::DosSignature`](efi_images::ImageFault::DosSignature).
pub const IMAGE_DOS_SIGNATURE: u32 = 0x0903;

/// [`ImageFault::PePlace`](efi_images::ImageFault::PePlace).
pub const IMAGE_PE_PLACE: u32 = 0x0904;

/// [`ImageFault::PeSignature`](efi_images::ImageFault::PeSignature).
pub const IMAGE_PE_SIGNATURE: u32 = 0x0905;

/// [`ImageFault::Magic`](efi_images::ImageFault::Magic).
pub const IMAGE_MAGIC: u32 = 0x0906;

/// [`ImageFault::Subsystem`](efi_images::ImageFault::Subsystem).
pub const IMAGE_SUBSYSTEM: u32 = 0x0907;

/// [`ImageFault::DirectoryCount`](efi_images::ImageFault::DirectoryCount).
pub const IMAGE_DIRECTORY_COUNT: u32 = 0x0908;

/// [`ImageFault::OptionalHeaderSize`](efi_images::ImageFault::OptionalHeaderSize).
pub const IMAGE_OPTIONAL_HEADER_SIZE: u32 = 0x0909;

/// [`ImageFault::ImageSize`](efi_images::ImageFault::ImageSize).
pub const IMAGE_IMAGE_SIZE: u32 = 0x090A;

/// [`ImageFault::HeadersSize`](efi_images::ImageFault::HeadersSize).
pub const IMAGE_HEADERS_SIZE: u32 = 0x090B;

/// [`ImageFault::HeadersBeyondImage`](efi_images::ImageFault::HeadersBeyondImage).
pub const IMAGE_HEADERS_BEYOND_IMAGE: u32 = 0x090C;

/// [`ImageFault::HeadersBeyondFile`](efi_images::ImageFault::HeadersBeyondFile).
pub const IMAGE_HEADERS_BEYOND_FILE: u32 = 0x090D;

/// [`ImageFault::CertificatesBeyondFile`](efi_images::ImageFault::CertificatesBeyondFile).
pub const IMAGE_CERTIFICATES_BEYOND_FILE: u32 = 0x090E;

/// [`ImageFault::Machine`](efi_images::ImageFault::Machine).
pub const IMAGE_MACHINE: u32 = 0x090F;

/// [`ImageFault::SectionInHeaders`](efi_images::ImageFault::SectionInHeaders).
pub const IMAGE_SECTION_IN_HEADERS: u32 = 0x0910;

/// [`ImageFault::SectionBeyondFile`](efi_images::ImageFault::SectionBeyondFile).
pub const IMAGE_SECTION_BEYOND_FILE: u32 = 0x0911;

/// [`ImageFault::DebugPlace`](efi_images::ImageFault::DebugPlace).
pub const IMAGE_DEBUG_PLACE: u32 = 0x0912;

/// [`ImageFault::DebugBeyondFile`](efi_images::ImageFault::DebugBeyondFile).
pub const IMAGE_DEBUG_BEYOND_FILE: u32 = 0x0913;

/// [`ImageFault::UnmappedCodeView`](efi_images::ImageFault::UnmappedCodeView).
pub const IMAGE_UNMAPPED_CODE_VIEW: u32 = 0x0914;

/// [`ImageFault::Arm64`](efi_images::ImageFault::Arm64).
pub const IMAGE_ARM64: u32 = 0x0915;

/// [`ImageFault::Memory`](efi_images::ImageFault::Memory).
pub const IMAGE_MEMORY: u32 = 0x0916;

/// [`ImageFault::FixedBase`](efi_images::ImageFault::FixedBase).
pub const IMAGE_FIXED_BASE: u32 = 0x0917;

/// [`ImageFault::RelocationsStripped`](efi_images::ImageFault::RelocationsStripped).
pub const IMAGE_RELOCATIONS_STRIPPED: u32 = 0x0918;

/// [`ImageFault::SectionAlignment`](efi_images::ImageFault::SectionAlignment).
pub const IMAGE_SECTION_ALIGNMENT: u32 = 0x0919;

/// [`ImageFault::SectionBeyondImage`](efi_images::ImageFault::SectionBeyondImage).
pub const IMAGE_SECTION_BEYOND_IMAGE: u32 = 0x091A;

/// [`ImageFault::SectionBeyondMemory`](efi_images::ImageFault::SectionBeyondMemory).
pub const IMAGE_SECTION_BEYOND_MEMORY: u32 = 0x091B;

/// [`ImageFault::SectionOverTable`](efi_images::ImageFault::SectionOverTable).
pub const IMAGE_SECTION_OVER_TABLE: u32 = 0x091C;

/// [`ImageFault::RelocationsNotLoaded`](efi_images::ImageFault::RelocationsNotLoaded).
pub const IMAGE_RELOCATIONS_NOT_LOADED: u32 = 0x091D;

/// [`ImageFault::RelocationsOverflow`](efi_images::ImageFault::RelocationsOverflow).
pub const IMAGE_RELOCATIONS_OVERFLOW: u32 = 0x091E;

/// [`ImageFault::RelocationsBeyondImage`](efi_images::ImageFault::RelocationsBeyondImage).
pub const IMAGE_RELOCATIONS_BEYOND_IMAGE: u32 = 0x091F;

/// [`ImageFault::Ia32`](efi_images::ImageFault::Ia32).
pub const IMAGE_IA32: u32 = 0x0920;

/// [`ImageFault::ByteCode`](efi_images::ImageFault::ByteCode).
pub const IMAGE_BYTE_CODE: u32 = 0x0921;

/// [`ImageFault::EntryPoint`](efi_images::ImageFault::EntryPoint).
pub const IMAGE_ENTRY_POINT: u32 = 0x0922;

/// [`DigestFault::Overlap`](efi_images::DigestFault::Overlap).
pub const IMAGE_OVERLAP: u32 = 0x0923;

/// [`DigestFault::CertificatesOverlap`](efi_images::DigestFault::CertificatesOverlap).
pub const IMAGE_CERTIFICATES_OVERLAP: u32 = 0x0924;

/// [`ListFault::CutHeader`](efi_images::ListFault::CutHeader).
pub const LISTS_CUT_HEADER: u32 = 0x0A01;

/// [`ListFault::BadListSize`](efi_images::ListFault::BadListSize).
pub const LISTS_BAD_LIST_SIZE: u32 = 0x0A02;

/// [`ListFault::BadSignatureSize`](efi_images::ListFault::BadSignatureSize).
pub const LISTS_BAD_SIGNATURE_SIZE: u32 = 0x0A03;

/// [`CodeViewFault::EntryBeyondImage`](efi_images::CodeViewFault::EntryBeyondImage).
pub const IMAGE_CODE_VIEW_ENTRY_BEYOND_IMAGE: u32 = 0x0B01;

/// [`CodeViewFault::EntryNotLoaded`](efi_images::CodeViewFault::EntryNotLoaded).
pub const IMAGE_CODE_VIEW_ENTRY_NOT_LOADED: u32 = 0x0B02;

/// [`CodeViewFault::BeyondImage`](efi_images::CodeViewFault::BeyondImage).
pub const IMAGE_CODE_VIEW_BEYOND_IMAGE: u32 = 0x0B03;

/// [`CodeViewFault::NotLoaded`](efi_images::CodeViewFault::NotLoaded).
pub const IMAGE_CODE_VIEW_NOT_LOADED: u32 = 0x0B04;

/// [`CodeViewFault::Size`](efi_images::CodeViewFault::Size).
pub const IMAGE_CODE_VIEW_SIZE: u32 = 0x0B05;

/// [`ResourceFault::NotLoaded`](efi_images::ResourceFault::NotLoaded).
pub const IMAGE_RESOURCES_NOT_LOADED: u32 = 0x0B06;

/// [`ResourceFault::BeyondResources`](efi_images::ResourceFault::BeyondResources).
pub const IMAGE_RESOURCE_BEYOND_RESOURCES: u32 = 0x0B07;

/// [`ResourceFault::DirectorySize`](efi_images::ResourceFault::DirectorySize).
pub const IMAGE_RESOURCE_DIRECTORY_SIZE: u32 = 0x0B08;

/// [`RelocationFault::BlockNotLoaded`](efi_images::RelocationFault::BlockNotLoaded).
pub const IMAGE_RELOCATION_BLOCK_NOT_LOADED: u32 = 0x0B09;

/// [`RelocationFault::BlockSize`](efi_images::RelocationFault::BlockSize).
pub const IMAGE_RELOCATION_BLOCK_SIZE: u32 = 0x0B0A;

/// [`RelocationFault::BlockAddress`](efi_images::RelocationFault::BlockAddress).
pub const IMAGE_RELOCATION_BLOCK_ADDRESS: u32 = 0x0B0B;

/// [`RelocationFault::BeyondImage`](efi_images::RelocationFault::BeyondImage).
pub const IMAGE_RELOCATION_BEYOND_IMAGE: u32 = 0x0B0C;

/// [`RelocationFault::UnknownType`](efi_images::RelocationFault::UnknownType).
pub const IMAGE_RELOCATION_UNKNOWN_TYPE: u32 = 0x0B0D;

/// [`JournalFault::BadMagic`](boot_journal::JournalFault::BadMagic).
pub const JOURNAL_BAD_MAGIC: u32 = 0x0C01;

/// [`JournalFault::BadMachine`](boot_journal::JournalFault::BadMachine).
pub const JOURNAL_BAD_MACHINE: u32 = 0x0C02;

/// [`JournalFault::Truncated`](boot_journal::JournalFault::Truncated).
pub const JOURNAL_TRUNCATED: u32 = 0x0C03;

/// [`JournalFault::ValueTooLong`](boot_journal::JournalFault::ValueTooLong).
pub const JOURNAL_VALUE_TOO_LONG: u32 = 0x0C04;

/// [`JournalFault::BadCourse`](boot_journal::JournalFault::BadCourse).
pub const JOURNAL_BAD_COURSE: u32 = 0x0C05;

/// [`JournalFault::BadIdentity`](boot_journal::JournalFault::BadIdentity).
pub const JOURNAL_BAD_IDENTITY: u32 = 0x0C06;

/// [`JournalFault::BadName`](boot_journal::JournalFault::BadName).
pub const JOURNAL_BAD_NAME: u32 = 0x0C07;

/// The journal is another machine's.
pub const JOURNAL_OF_ANOTHER: u32 = 0x0C08;

/// With attributes, what a change of a journal of version 1 has is too long.
pub const JOURNAL_TOO_LONG: u32 = 0x0C09;

/// The name of a machine has no byte, or more than 4,096.
pub const MACHINE_BAD_NAME: u32 = 0x0D01;

/// The identity of a start isn't one to 64 characters from 0x21 to 0x7E.
pub const MACHINE_BAD_START: u32 = 0x0D02;

/// [`RunFault::NoData`](journaled_requests::RunFault::NoData).
pub const MACHINE_NO_DATA: u32 = 0x0D03;

/// [`RunFault::TooLong`](journaled_requests::RunFault::TooLong).
pub const MACHINE_TOO_LONG: u32 = 0x0D04;

/// [`EditFault::Taken`](boot_edits::EditFault::Taken).
pub const UNEDITED_TAKEN: u32 = 0x0E01;

/// [`EditFault::NoFree`](boot_edits::EditFault::NoFree).
pub const UNEDITED_NO_FREE: u32 = 0x0E02;

/// [`EditFault::Twice`](boot_edits::EditFault::Twice).
pub const UNEDITED_TWICE: u32 = 0x0E03;

/// [`EditFault::Missing`](boot_edits::EditFault::Missing).
pub const UNEDITED_MISSING: u32 = 0x0E04;

/// [`EditFault::Stale`](boot_edits::EditFault::Stale).
pub const UNEDITED_STALE: u32 = 0x0E05;

/// [`EditFault::NoOption`](boot_edits::EditFault::NoOption).
pub const UNEDITED_NO_OPTION: u32 = 0x0E06;

/// [`EditFault::OrderTooLong`](boot_edits::EditFault::OrderTooLong).
pub const UNEDITED_ORDER_TOO_LONG: u32 = 0x0E07;

/// [`EditFault::OptionTooLong`](boot_edits::EditFault::OptionTooLong).
pub const UNEDITED_OPTION_TOO_LONG: u32 = 0x0E08;

/// The number of what is to be done is that of no edit.
pub const UNEDITED_BAD_KIND: u32 = 0x0E09;

/// The number of an entry, or of seconds, is above 65,536.
pub const UNEDITED_BAD_NUMBER: u32 = 0x0E0A;

/// The position of a new entry is none.
pub const UNEDITED_BAD_POSITION: u32 = 0x0E0B;

/// [`NotesFault::Truncated`](boot_notes::NotesFault::Truncated).
pub const NOTES_TRUNCATED: u32 = 0x0F01;

/// [`NotesFault::TooMany`](boot_notes::NotesFault::TooMany).
pub const NOTES_TOO_MANY: u32 = 0x0F02;

/// An identity hasn't 16 bytes.
pub const NOTES_BAD_IDENTITY: u32 = 0x0F03;

/// [`RecordFault::BadMagic`](change_records::RecordFault::BadMagic).
pub const RECORD_BAD_MAGIC: u32 = 0x1001;

/// [`RecordFault::Truncated`](change_records::RecordFault::Truncated).
pub const RECORD_TRUNCATED: u32 = 0x1002;

/// [`RecordFault::TooFewFields`](change_records::RecordFault::TooFewFields).
pub const RECORD_TOO_FEW_FIELDS: u32 = 0x1003;

/// [`RecordFault::BadMachine`](change_records::RecordFault::BadMachine).
pub const RECORD_BAD_MACHINE: u32 = 0x1004;

/// [`RecordFault::BadTime`](change_records::RecordFault::BadTime).
pub const RECORD_BAD_TIME: u32 = 0x1005;

/// [`RecordFault::BadBefore`](change_records::RecordFault::BadBefore).
pub const RECORD_BAD_BEFORE: u32 = 0x1006;

/// [`RecordFault::BadAfter`](change_records::RecordFault::BadAfter).
pub const RECORD_BAD_AFTER: u32 = 0x1007;

/// [`RecordFault::BadWord`](change_records::RecordFault::BadWord).
pub const RECORD_BAD_WORD: u32 = 0x1008;

/// No zero ends the last word that is given.
pub const RECORD_OPEN_WORD: u32 = 0x1009;

/// [`WriteFault::TooLong`](change_records::WriteFault::TooLong).
pub const RECORD_TOO_LONG: u32 = 0x100A;

/// The file doesn't begin with a firmware volume of variables.
pub const STORE_NO_VOLUME: u32 = 0x1101;

/// The header of the volume is damaged, or the file ends in the volume.
pub const STORE_BAD_HEADER: u32 = 0x1102;

/// No store of variables is in the volume.
pub const STORE_NO_STORE: u32 = 0x1103;

/// The store is of the older kind, whose records have no times.
pub const STORE_UNAUTHENTICATED: u32 = 0x1104;

/// The store isn't formatted or healthy, or ends after the volume.
pub const STORE_BAD_STORE: u32 = 0x1105;

/// The record at this place ends after the store.
pub const STORE_CUT_RECORD: u32 = 0x1106;

/// The store has no room for the records.
pub const STORE_FULL: u32 = 0x1107;

/// Why a call refuses: `struct bootkeep_refusal`.
#[repr(C)]
#[derive(Clone, Copy, Debug, PartialEq, Eq)]
pub struct Refusal {
    /// The number of the fault.
    pub kind: u32,
    /// The number of the fault within, or [`NO_KIND`].
    pub inner_kind: u32,
    /// Where the fault is, or [`NO_PLACE`].
    pub place: usize,
    /// Where the fault within is, from there on, or [`NO_PLACE`].
    pub inner_place: usize,
}

// As many bytes as the header asserts.
const _: () = prove!(size_of::<Refusal>() == 24);
