//! Faults to what a call answers of them.

ghost use Rattle.std.specs.Prelude.{◌≡◌};
ghost use Rattle.bootkeep_c.specs.declared.failure.Failure.TheVariants as failure;
ghost use Rattle.bootkeep_c.specs.Refusals.{at_place, bare, path_failure, text_failure, named_failure, list_failure, option_failure, set_failure, vars_failure, open_failure, put_failure, edit_failure, feed_failure, frame_failure, image_failure, digest_failure, lists_failure, journal_failure, notes_failure, record_failure, write_failure, part_failure, attributes_failure, store_failure, rewrite_failure, Tells};

use crate::image_number::image_number;
use crate::refusal::FRAME_BAD_KIND;
use crate::refusal::FRAME_BAD_MAGIC;
use crate::refusal::FRAME_BAD_NUMBER;
use crate::refusal::FRAME_BAD_PAYLOAD;
use crate::refusal::FRAME_BAD_SIZE;
use crate::refusal::FRAME_BAD_VERSION;
use crate::refusal::FRAME_SHORT;
use crate::refusal::FRAME_TOO_LONG;
use crate::refusal::IMAGE_CERTIFICATES_OVERLAP;
use crate::refusal::IMAGE_OVERLAP;
use crate::refusal::JOURNAL_BAD_COURSE;
use crate::refusal::JOURNAL_BAD_IDENTITY;
use crate::refusal::JOURNAL_BAD_MACHINE;
use crate::refusal::JOURNAL_BAD_MAGIC;
use crate::refusal::JOURNAL_BAD_NAME;
use crate::refusal::JOURNAL_TRUNCATED;
use crate::refusal::JOURNAL_VALUE_TOO_LONG;
use crate::refusal::LISTS_BAD_LIST_SIZE;
use crate::refusal::LISTS_BAD_SIGNATURE_SIZE;
use crate::refusal::LISTS_CUT_HEADER;
use crate::refusal::MACHINE_NO_DATA;
use crate::refusal::MACHINE_TOO_LONG;
use crate::refusal::NO_KIND;
use crate::refusal::NO_PLACE;
use crate::refusal::NOTES_TOO_MANY;
use crate::refusal::NOTES_TRUNCATED;
use crate::refusal::OPTION_EMPTY_LIST;
use crate::refusal::OPTION_LIST_PAST_END;
use crate::refusal::OPTION_LIST_TOO_LONG;
use crate::refusal::OPTION_NO_TERMINATOR;
use crate::refusal::OPTION_PATH;
use crate::refusal::OPTION_SHORT;
use crate::refusal::OPTION_ZERO_UNIT;
use crate::refusal::PATH_BAD_END;
use crate::refusal::PATH_BAD_LENGTH;
use crate::refusal::PATH_NO_END;
use crate::refusal::PATH_PAST_END;
use crate::refusal::PATH_SHORT_HEADER;
use crate::refusal::PUT_BAD_NAME;
use crate::refusal::PUT_DATA_TOO_LONG;
use crate::refusal::PUT_EMPTY_DATA;
use crate::refusal::RECORD_BAD_AFTER;
use crate::refusal::RECORD_BAD_BEFORE;
use crate::refusal::RECORD_BAD_MACHINE;
use crate::refusal::RECORD_BAD_MAGIC;
use crate::refusal::RECORD_BAD_TIME;
use crate::refusal::RECORD_BAD_WORD;
use crate::refusal::RECORD_TOO_FEW_FIELDS;
use crate::refusal::RECORD_TOO_LONG;
use crate::refusal::RECORD_TRUNCATED;
use crate::refusal::Refusal;
use crate::refusal::SET_BAD_DATA;
use crate::refusal::SET_BAD_MAGIC;
use crate::refusal::SET_BAD_NAME;
use crate::refusal::SET_NOT_RISING;
use crate::refusal::SET_TRUNCATED;
use crate::refusal::STORE_BAD_HEADER;
use crate::refusal::STORE_BAD_STORE;
use crate::refusal::STORE_CUT_RECORD;
use crate::refusal::STORE_FULL;
use crate::refusal::STORE_NO_STORE;
use crate::refusal::STORE_NO_VOLUME;
use crate::refusal::STORE_UNAUTHENTICATED;
use crate::refusal::STREAM_BAD_MAGIC;
use crate::refusal::STREAM_BAD_VERSION;
use crate::refusal::STREAM_TOO_LONG;
use crate::refusal::TEXT_BAD_ARGUMENT;
use crate::refusal::TEXT_BAD_COUNT;
use crate::refusal::TEXT_BAD_DATA;
use crate::refusal::TEXT_BAD_END;
use crate::refusal::TEXT_BAD_NUMBER;
use crate::refusal::TEXT_BAD_SEGMENT;
use crate::refusal::TEXT_OUT_OF_RANGE;
use crate::refusal::TEXT_UNKNOWN_NAME;
use crate::refusal::UNEDITED_MISSING;
use crate::refusal::UNEDITED_NO_FREE;
use crate::refusal::UNEDITED_NO_OPTION;
use crate::refusal::UNEDITED_OPTION_TOO_LONG;
use crate::refusal::UNEDITED_ORDER_TOO_LONG;
use crate::refusal::UNEDITED_STALE;
use crate::refusal::UNEDITED_TAKEN;
use crate::refusal::UNEDITED_TWICE;
use crate::refusal::VARS_BAD_NEXT;
use crate::refusal::VARS_BAD_ORDER;
use crate::refusal::VARS_BAD_STATE;
use crate::status::NO_MEMORY;
use crate::status::REFUSED;
use boot_edits::EditFault;
use boot_journal::AttributesFault;
use boot_journal::JournalFault;
use boot_notes::NotesFault;
use boot_requests::FeedFault;
use boot_requests::FrameFault;
use boot_requests::OpenFault;
use change_records::RecordFault;
use change_records::WriteFault;
use efi_images::DigestFault;
use efi_images::ImageFault;
use efi_images::ListFault;
use std::alloc::AllocError;
use std::alloc::AllocFailed;
use uefi_names::NamedFault;
use uefi_option::OptionFault;
use uefi_path::PathFault;
use uefi_text::TextFault;
use uefi_vars::PutFault;
use uefi_vars::SetFault;
use uefi_vars::VarFault;
use var_stores::StoreFault;
use var_stores::WriteFault as RewriteFault;

/// Why a call has no answer.
#[derive(Clone, Copy, Debug)]
pub enum Failure {
    /// What was handed in is refused for this.
    Refused(Refusal),
    /// Memory was refused.
    Memory,
}

impl Failure {
    /// A refusal of this number that has no place.
    pub(crate) fn bare(kind: u32) -> Failure
        ensures { result ≡ bare kind }
    {
        Failure::at(kind, NO_PLACE)
    }

    /// A refusal of this number at a place.
    pub(crate) fn at(kind: u32, place: usize) -> Failure
        ensures { result ≡ at_place kind place }
    {
        Failure::Refused(Refusal {
            kind,
            inner_kind: NO_KIND,
            place,
            inner_place: NO_PLACE,
        })
    }

    /// The refusal of a load option whose list has, at this place, bytes that fail so.
    pub(crate) fn in_list(self, place: usize) -> Failure
        ensures { result ≡ list_failure place self }
    {
        self.in_part(OPTION_PATH, place)
    }

    /// The refusal by this number of what has, at this place, a part with bytes that fail so.
    fn in_part(self, kind: u32, place: usize) -> Failure
        ensures { result ≡ part_failure kind place self }
    {
        match self {
            Failure::Refused(inner) => Failure::Refused(Refusal {
                kind,
                inner_kind: inner.kind,
                place,
                inner_place: inner.place,
            }),
            Failure::Memory => Failure::Memory,
        }
    }

    /// Tells the caller: the status, and at a refusal why.
    pub(crate) fn tell(self, refusal: &mut Refusal) -> u32
        ensures { Tells self result refusal.old refusal.new }
    {
        match self {
            Failure::Refused(told) => {
                *refusal = told;
                REFUSED
            }
            Failure::Memory => NO_MEMORY,
        }
    }
}

impl From<AllocError> for Failure {
    ghost from_gives = { λ _ made. made ≡ failure.Memory };

    fn from(_refusal: AllocError) -> Failure {
        Failure::Memory
    }
}

impl<T: Drop> From<AllocFailed<T>> for Failure {
    ghost from_gives = { λ _ made. made ≡ failure.Memory };

    fn from(_refusal: AllocFailed<T>) -> Failure {
        Failure::Memory
    }
}

impl From<PathFault> for Failure {
    ghost from_gives = { λ fault made. made ≡ path_failure fault };

    fn from(fault: PathFault) -> Failure {
        match fault {
            PathFault::NoEnd(place) => Failure::at(PATH_NO_END, place),
            PathFault::ShortHeader { offset: place, .. } => Failure::at(PATH_SHORT_HEADER, place),
            PathFault::BadLength(place) => Failure::at(PATH_BAD_LENGTH, place),
            PathFault::PastEnd { offset: place, .. } => Failure::at(PATH_PAST_END, place),
            PathFault::BadEnd(place) => Failure::at(PATH_BAD_END, place),
            PathFault::OutOfMemory => Failure::Memory,
        }
    }
}

impl From<TextFault> for Failure {
    ghost from_gives = { λ fault made. made ≡ text_failure fault };

    fn from(fault: TextFault) -> Failure {
        match fault {
            TextFault::BadSegment(place) => Failure::at(TEXT_BAD_SEGMENT, place),
            TextFault::BadNumber(place) => Failure::at(TEXT_BAD_NUMBER, place),
            TextFault::OutOfRange(place) => Failure::at(TEXT_OUT_OF_RANGE, place),
            TextFault::BadEnd(place) => Failure::at(TEXT_BAD_END, place),
            TextFault::OutOfMemory => Failure::Memory,
        }
    }
}

impl From<NamedFault> for Failure {
    ghost from_gives = { λ fault made. made ≡ named_failure fault };

    fn from(fault: NamedFault) -> Failure {
        match fault {
            NamedFault::BadSegment(place) => Failure::at(TEXT_BAD_SEGMENT, place),
            NamedFault::UnknownName(place, _) => Failure::at(TEXT_UNKNOWN_NAME, place),
            NamedFault::BadArgument(place, _) => Failure::at(TEXT_BAD_ARGUMENT, place),
            NamedFault::BadCount(place) => Failure::at(TEXT_BAD_COUNT, place),
            NamedFault::BadData(place) => Failure::at(TEXT_BAD_DATA, place),
            NamedFault::Exact(fault) => Failure::from(fault),
            NamedFault::OutOfMemory => Failure::Memory,
        }
    }
}

impl From<OptionFault> for Failure {
    ghost from_gives = { λ fault made. made ≡ option_failure fault };

    fn from(fault: OptionFault) -> Failure {
        match fault {
            OptionFault::Short { .. } => Failure::bare(OPTION_SHORT),
            OptionFault::NoTerminator => Failure::bare(OPTION_NO_TERMINATOR),
            OptionFault::ListPastEnd { .. } => Failure::bare(OPTION_LIST_PAST_END),
            OptionFault::EmptyList => Failure::bare(OPTION_EMPTY_LIST),
            OptionFault::Path(place, inner) => Failure::from(inner).in_list(place),
            OptionFault::ZeroUnit => Failure::bare(OPTION_ZERO_UNIT),
            OptionFault::ListTooLong => Failure::bare(OPTION_LIST_TOO_LONG),
            OptionFault::OutOfMemory => Failure::Memory,
        }
    }
}

impl From<SetFault> for Failure {
    ghost from_gives = { λ fault made. made ≡ set_failure fault };

    fn from(fault: SetFault) -> Failure {
        match fault {
            SetFault::BadMagic(place) => Failure::at(SET_BAD_MAGIC, place),
            SetFault::Truncated(place) => Failure::at(SET_TRUNCATED, place),
            SetFault::BadName(place) => Failure::at(SET_BAD_NAME, place),
            SetFault::BadData(place) => Failure::at(SET_BAD_DATA, place),
            SetFault::NotRising(place) => Failure::at(SET_NOT_RISING, place),
            SetFault::OutOfMemory => Failure::Memory,
        }
    }
}

impl From<VarFault> for Failure {
    ghost from_gives = { λ fault made. made ≡ vars_failure fault };

    fn from(fault: VarFault) -> Failure {
        match fault {
            VarFault::BadOrder => Failure::bare(VARS_BAD_ORDER),
            VarFault::BadNext => Failure::bare(VARS_BAD_NEXT),
            VarFault::OutOfMemory => Failure::Memory,
        }
    }
}

impl From<OpenFault> for Failure {
    ghost from_gives = { λ fault made. made ≡ open_failure fault };

    fn from(fault: OpenFault) -> Failure {
        match fault {
            OpenFault::BadOrder => Failure::bare(VARS_BAD_ORDER),
            OpenFault::BadNext => Failure::bare(VARS_BAD_NEXT),
            OpenFault::BadState => Failure::bare(VARS_BAD_STATE),
            OpenFault::OutOfMemory => Failure::Memory,
        }
    }
}

impl From<PutFault> for Failure {
    ghost from_gives = { λ fault made. made ≡ put_failure fault };

    fn from(fault: PutFault) -> Failure {
        match fault {
            PutFault::BadName => Failure::bare(PUT_BAD_NAME),
            PutFault::EmptyData => Failure::bare(PUT_EMPTY_DATA),
            PutFault::DataTooLong => Failure::bare(PUT_DATA_TOO_LONG),
            PutFault::OutOfMemory => Failure::Memory,
        }
    }
}

impl From<EditFault> for Failure {
    ghost from_gives = { λ fault made. made ≡ edit_failure fault };

    fn from(fault: EditFault) -> Failure {
        match fault {
            EditFault::BadOption(fault) => Failure::from(fault),
            EditFault::OptionTooLong => Failure::bare(UNEDITED_OPTION_TOO_LONG),
            EditFault::Taken(entry) => Failure::at(UNEDITED_TAKEN, usize::from(entry)),
            EditFault::NoFree => Failure::bare(UNEDITED_NO_FREE),
            EditFault::Twice(entry) => Failure::at(UNEDITED_TWICE, usize::from(entry)),
            EditFault::Missing(entry) => Failure::at(UNEDITED_MISSING, usize::from(entry)),
            EditFault::Stale(entry) => Failure::at(UNEDITED_STALE, usize::from(entry)),
            EditFault::NoOption(entry) => Failure::at(UNEDITED_NO_OPTION, usize::from(entry)),
            EditFault::BadOrder => Failure::bare(VARS_BAD_ORDER),
            EditFault::BadNext => Failure::bare(VARS_BAD_NEXT),
            EditFault::OrderTooLong => Failure::bare(UNEDITED_ORDER_TOO_LONG),
            EditFault::OutOfMemory => Failure::Memory,
        }
    }
}

impl From<FeedFault> for Failure {
    ghost from_gives = { λ fault made. made ≡ feed_failure fault };

    fn from(fault: FeedFault) -> Failure {
        match fault {
            FeedFault::BadMagic => Failure::bare(STREAM_BAD_MAGIC),
            FeedFault::BadVersion => Failure::bare(STREAM_BAD_VERSION),
            FeedFault::TooLong => Failure::bare(STREAM_TOO_LONG),
            FeedFault::OutOfMemory => Failure::Memory,
        }
    }
}

impl From<FrameFault> for Failure {
    ghost from_gives = { λ fault made. made ≡ frame_failure fault };

    fn from(fault: FrameFault) -> Failure {
        match fault {
            FrameFault::Short { .. } => Failure::bare(FRAME_SHORT),
            FrameFault::BadMagic => Failure::bare(FRAME_BAD_MAGIC),
            FrameFault::BadVersion => Failure::bare(FRAME_BAD_VERSION),
            FrameFault::TooLong => Failure::bare(FRAME_TOO_LONG),
            FrameFault::BadSize { .. } => Failure::bare(FRAME_BAD_SIZE),
            FrameFault::BadKind => Failure::bare(FRAME_BAD_KIND),
            FrameFault::BadNumber => Failure::bare(FRAME_BAD_NUMBER),
            FrameFault::BadPayload => Failure::bare(FRAME_BAD_PAYLOAD),
            FrameFault::Option(fault) => Failure::from(fault),
            FrameFault::OutOfMemory => Failure::Memory,
        }
    }
}

impl From<ImageFault> for Failure {
    ghost from_gives = { λ fault made. made ≡ image_failure fault };

    fn from(fault: ImageFault) -> Failure {
        Failure::at(image_number(&fault), fault.place())
    }
}

impl From<DigestFault> for Failure {
    ghost from_gives = { λ fault made. made ≡ digest_failure fault };

    fn from(fault: DigestFault) -> Failure {
        match fault {
            DigestFault::Image(fault) => Failure::from(fault),
            DigestFault::Overlap { .. } => Failure::bare(IMAGE_OVERLAP),
            DigestFault::CertificatesOverlap { .. } => Failure::bare(IMAGE_CERTIFICATES_OVERLAP),
            DigestFault::OutOfMemory => Failure::Memory,
        }
    }
}

impl From<ListFault> for Failure {
    ghost from_gives = { λ fault made. made ≡ lists_failure fault };

    fn from(fault: ListFault) -> Failure {
        match fault {
            ListFault::CutHeader(place) => Failure::at(LISTS_CUT_HEADER, place),
            ListFault::BadListSize(place, _) => Failure::at(LISTS_BAD_LIST_SIZE, place),
            ListFault::BadSignatureSize(place, _) => Failure::at(LISTS_BAD_SIGNATURE_SIZE, place),
            ListFault::OutOfMemory => Failure::Memory,
        }
    }
}

impl From<JournalFault> for Failure {
    ghost from_gives = { λ fault made. made ≡ journal_failure fault };

    fn from(fault: JournalFault) -> Failure {
        match fault {
            JournalFault::BadMagic => Failure::bare(JOURNAL_BAD_MAGIC),
            JournalFault::BadMachine(place) => Failure::at(JOURNAL_BAD_MACHINE, place),
            JournalFault::Truncated(place) => Failure::at(JOURNAL_TRUNCATED, place),
            JournalFault::ValueTooLong(place) => Failure::at(JOURNAL_VALUE_TOO_LONG, place),
            JournalFault::BadCourse(place) => Failure::at(JOURNAL_BAD_COURSE, place),
            JournalFault::BadIdentity(place) => Failure::at(JOURNAL_BAD_IDENTITY, place),
            JournalFault::BadName(place) => Failure::at(JOURNAL_BAD_NAME, place),
            JournalFault::OutOfMemory => Failure::Memory,
        }
    }
}

impl From<NotesFault> for Failure {
    ghost from_gives = { λ fault made. made ≡ notes_failure fault };

    fn from(fault: NotesFault) -> Failure {
        match fault {
            NotesFault::Truncated(place) => Failure::at(NOTES_TRUNCATED, place),
            NotesFault::TooMany(place) => Failure::at(NOTES_TOO_MANY, place),
            NotesFault::OutOfMemory => Failure::Memory,
        }
    }
}

impl From<RecordFault> for Failure {
    ghost from_gives = { λ fault made. made ≡ record_failure fault };

    fn from(fault: RecordFault) -> Failure {
        match fault {
            RecordFault::BadMagic => Failure::bare(RECORD_BAD_MAGIC),
            RecordFault::Truncated(place) => Failure::at(RECORD_TRUNCATED, place),
            RecordFault::TooFewFields => Failure::bare(RECORD_TOO_FEW_FIELDS),
            RecordFault::BadMachine => Failure::bare(RECORD_BAD_MACHINE),
            RecordFault::BadTime => Failure::bare(RECORD_BAD_TIME),
            RecordFault::BadBefore(fault) => Failure::from(fault).in_part(
                RECORD_BAD_BEFORE,
                NO_PLACE,
            ),
            RecordFault::BadAfter(fault) => Failure::from(fault).in_part(
                RECORD_BAD_AFTER,
                NO_PLACE,
            ),
            RecordFault::BadWord(number) => Failure::at(RECORD_BAD_WORD, number),
            RecordFault::OutOfMemory => Failure::Memory,
        }
    }
}

impl From<WriteFault> for Failure {
    ghost from_gives = { λ fault made. made ≡ write_failure fault };

    fn from(fault: WriteFault) -> Failure {
        match fault {
            WriteFault::TooLong => Failure::bare(RECORD_TOO_LONG),
            WriteFault::OutOfMemory => Failure::Memory,
        }
    }
}

impl From<AttributesFault> for Failure {
    ghost from_gives = { λ fault made. made ≡ attributes_failure fault };

    fn from(fault: AttributesFault) -> Failure {
        match fault {
            AttributesFault::NoData => Failure::bare(MACHINE_NO_DATA),
            AttributesFault::TooLong => Failure::bare(MACHINE_TOO_LONG),
            AttributesFault::OutOfMemory => Failure::Memory,
        }
    }
}

impl From<StoreFault> for Failure {
    ghost from_gives = { λ fault made. made ≡ store_failure fault };

    fn from(fault: StoreFault) -> Failure {
        match fault {
            StoreFault::NoVolume => Failure::bare(STORE_NO_VOLUME),
            StoreFault::BadHeader => Failure::bare(STORE_BAD_HEADER),
            StoreFault::NoStore => Failure::bare(STORE_NO_STORE),
            StoreFault::Unauthenticated => Failure::bare(STORE_UNAUTHENTICATED),
            StoreFault::BadStore => Failure::bare(STORE_BAD_STORE),
            StoreFault::CutRecord(place) => Failure::at(STORE_CUT_RECORD, place),
            StoreFault::OutOfMemory => Failure::Memory,
        }
    }
}

impl From<RewriteFault> for Failure {
    ghost from_gives = { λ fault made. made ≡ rewrite_failure fault };

    fn from(fault: RewriteFault) -> Failure {
        match fault {
            RewriteFault::Store(fault) => Failure::from(fault),
            RewriteFault::Full => Failure::bare(STORE_FULL),
            RewriteFault::OutOfMemory => Failure::Memory,
        }
    }
}
