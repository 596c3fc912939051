//! The words that statuses, refusals and outcomes have for a person, by their numbers.

ghost use Rattle.std.specs.Prelude.{◌≡◌, ◌≤◌, ◌<◌, length, IfSome};
ghost use Rattle.std.specs.Option.{option_map};
ghost use Rattle.bootkeep_c.specs.Status.{no_room};
ghost use Rattle.bootkeep_c.specs.Words.{word_max, status_word, refusal_word, path_word, text_word, option_word, set_word, vars_word, put_word, stream_word, frame_word, image_word, lists_word, loaded_word, file_word, outcome_word, GivesWord};

use crate::buffer::give;
use crate::loaded_word::word_of_loaded;
use crate::machine_word::word_of_change;
use crate::refusal::FRAME_BAD_KIND;
use crate::refusal::FRAME_BAD_MAGIC;
use crate::refusal::FRAME_BAD_NUMBER;
use crate::refusal::FRAME_BAD_PAYLOAD;
use crate::refusal::FRAME_BAD_SIZE;
use crate::refusal::FRAME_BAD_VERSION;
use crate::refusal::FRAME_OPTION;
use crate::refusal::FRAME_SHORT;
use crate::refusal::FRAME_TOO_LONG;
use crate::refusal::IMAGE_ARM64;
use crate::refusal::IMAGE_BYTE_CODE;
use crate::refusal::IMAGE_CERTIFICATES_BEYOND_FILE;
use crate::refusal::IMAGE_CERTIFICATES_OVERLAP;
use crate::refusal::IMAGE_DEBUG_BEYOND_FILE;
use crate::refusal::IMAGE_DEBUG_PLACE;
use crate::refusal::IMAGE_DIRECTORY_COUNT;
use crate::refusal::IMAGE_DOS_SIGNATURE;
use crate::refusal::IMAGE_EMPTY;
use crate::refusal::IMAGE_ENTRY_POINT;
use crate::refusal::IMAGE_FIXED_BASE;
use crate::refusal::IMAGE_HEADERS_BEYOND_FILE;
use crate::refusal::IMAGE_HEADERS_BEYOND_IMAGE;
use crate::refusal::IMAGE_HEADERS_SIZE;
use crate::refusal::IMAGE_IA32;
use crate::refusal::IMAGE_IMAGE_SIZE;
use crate::refusal::IMAGE_MACHINE;
use crate::refusal::IMAGE_MAGIC;
use crate::refusal::IMAGE_MEMORY;
use crate::refusal::IMAGE_OPTIONAL_HEADER_SIZE;
use crate::refusal::IMAGE_OVERLAP;
use crate::refusal::IMAGE_PE_PLACE;
use crate::refusal::IMAGE_PE_SIGNATURE;
use crate::refusal::IMAGE_RELOCATIONS_BEYOND_IMAGE;
use crate::refusal::IMAGE_RELOCATIONS_NOT_LOADED;
use crate::refusal::IMAGE_RELOCATIONS_OVERFLOW;
use crate::refusal::IMAGE_RELOCATIONS_STRIPPED;
use crate::refusal::IMAGE_SECTION_ALIGNMENT;
use crate::refusal::IMAGE_SECTION_BEYOND_FILE;
use crate::refusal::IMAGE_SECTION_BEYOND_IMAGE;
use crate::refusal::IMAGE_SECTION_BEYOND_MEMORY;
use crate::refusal::IMAGE_SECTION_IN_HEADERS;
use crate::refusal::IMAGE_SECTION_OVER_TABLE;
use crate::refusal::IMAGE_SHORT_DOS_HEADER;
use crate::refusal::IMAGE_SUBSYSTEM;
use crate::refusal::IMAGE_UNMAPPED_CODE_VIEW;
use crate::refusal::LISTS_BAD_LIST_SIZE;
use crate::refusal::LISTS_BAD_SIGNATURE_SIZE;
use crate::refusal::LISTS_CUT_HEADER;
use crate::refusal::OPTION_EMPTY_LIST;
use crate::refusal::OPTION_LIST_PAST_END;
use crate::refusal::OPTION_LIST_TOO_LONG;
use crate::refusal::OPTION_NO_TERMINATOR;
use crate::refusal::OPTION_NOT_UTF8;
use crate::refusal::OPTION_NOT_UTF16;
use crate::refusal::OPTION_PATH;
use crate::refusal::OPTION_SHORT;
use crate::refusal::OPTION_ZERO_UNIT;
use crate::refusal::PATH_BAD_END;
use crate::refusal::PATH_BAD_LENGTH;
use crate::refusal::PATH_NO_END;
use crate::refusal::PATH_PAST_END;
use crate::refusal::PATH_SHORT_HEADER;
use crate::refusal::PUT_BAD_NAME;
use crate::refusal::PUT_DATA_TOO_LONG;
use crate::refusal::PUT_EMPTY_DATA;
use crate::refusal::SET_BAD_DATA;
use crate::refusal::SET_BAD_MAGIC;
use crate::refusal::SET_BAD_NAME;
use crate::refusal::SET_NOT_RISING;
use crate::refusal::SET_TRUNCATED;
use crate::refusal::STREAM_BAD_MAGIC;
use crate::refusal::STREAM_BAD_VERSION;
use crate::refusal::STREAM_REST;
use crate::refusal::STREAM_TOO_LONG;
use crate::refusal::TEXT_BAD_ARGUMENT;
use crate::refusal::TEXT_BAD_COUNT;
use crate::refusal::TEXT_BAD_DATA;
use crate::refusal::TEXT_BAD_END;
use crate::refusal::TEXT_BAD_NUMBER;
use crate::refusal::TEXT_BAD_SEGMENT;
use crate::refusal::TEXT_NOT_UTF8;
use crate::refusal::TEXT_OUT_OF_RANGE;
use crate::refusal::TEXT_UNKNOWN_NAME;
use crate::refusal::VARS_BAD_NEXT;
use crate::refusal::VARS_BAD_ORDER;
use crate::refusal::VARS_BAD_STATE;
use crate::reply::OUTCOME_DONE;
use crate::reply::OUTCOME_EXISTS;
use crate::reply::OUTCOME_MISSING;
use crate::reply::OUTCOME_NO_FREE;
use crate::reply::OUTCOME_NONE;
use crate::reply::OUTCOME_ORDER_REPEATS;
use crate::reply::OUTCOME_ORDER_UNKNOWN;
use crate::status::ABSENT;
use crate::status::BAD_SIZE;
use crate::status::CLOSED;
use crate::status::DONE;
use crate::status::NO_MEMORY;
use crate::status::NO_ROOM;
use crate::status::REFUSED;

/// The word of a status, if one has this number. This takes no memory.
#[unsafe(no_mangle)]
pub extern "C" fn bootkeep_status_word(status: u32, out: &mut [u8], len: &mut usize) -> u32
    ensures word { GivesWord (status_word status) result out.old out.new len.old len.new }
    // There is always room for a word in so many bytes.
    ensures room { result ≡ no_room → length out.old < word_max }
{
    give_word(word_of_status(status), out, len)
}

/// The word of a refusal, if one has this number. This takes no memory.
#[unsafe(no_mangle)]
pub extern "C" fn bootkeep_refusal_word(kind: u32, out: &mut [u8], len: &mut usize) -> u32
    ensures word { GivesWord (refusal_word kind) result out.old out.new len.old len.new }
    // There is always room for a word in so many bytes.
    ensures room { result ≡ no_room → length out.old < word_max }
{
    give_word(word_of_refusal(kind), out, len)
}

/// The word of an outcome, if one has this number. This takes no memory.
#[unsafe(no_mangle)]
pub extern "C" fn bootkeep_outcome_word(outcome: u32, out: &mut [u8], len: &mut usize) -> u32
    ensures word { GivesWord (outcome_word outcome) result out.old out.new len.old len.new }
    // There is always room for a word in so many bytes.
    ensures room { result ≡ no_room → length out.old < word_max }
{
    give_word(word_of_outcome(outcome), out, len)
}

/// Gives the word, if there is one, and room for it.
fn give_word(word: Option<&str>, out: &mut [u8], len: &mut usize) -> u32
    ensures { GivesWord (option_map (λ text. text.now) word.entry) result out.old out.new len.old len.new }
{
    match word {
        Some(text) => give(text.as_bytes(), out, len),
        None => ABSENT,
    }
}

/// The word of a status.
fn word_of_status(status: u32) -> Option<&'static str>
    ensures word { option_map (λ word. word.now) result ≡ status_word status }
    ensures len { IfSome result (λ word. length word.now ≤ word_max) }
{
    match status {
        DONE => Some("Done"),
        REFUSED => Some("Refused"),
        NO_ROOM => Some("NoRoom"),
        ABSENT => Some("Absent"),
        NO_MEMORY => Some("NoMemory"),
        CLOSED => Some("Closed"),
        BAD_SIZE => Some("BadSize"),
        _ => None,
    }
}

/// The word of an outcome: that of its line in a reply.
fn word_of_outcome(outcome: u32) -> Option<&'static str>
    ensures word { option_map (λ word. word.now) result ≡ outcome_word outcome }
    ensures len { IfSome result (λ word. length word.now ≤ word_max) }
{
    match outcome {
        OUTCOME_NONE => Some("None"),
        OUTCOME_DONE => Some("Done"),
        OUTCOME_EXISTS => Some("Exists"),
        OUTCOME_MISSING => Some("Missing"),
        OUTCOME_ORDER_REPEATS => Some("OrderRepeats"),
        OUTCOME_ORDER_UNKNOWN => Some("OrderUnknown"),
        OUTCOME_NO_FREE => Some("NoFree"),
        _ => None,
    }
}

/// The word of a refusal. Its upper byte tells of what it is.
fn word_of_refusal(kind: u32) -> Option<&'static str>
    ensures word { option_map (λ word. word.now) result ≡ refusal_word kind }
    ensures len { IfSome result (λ word. length word.now ≤ word_max) }
{
    match kind / 0x100 {
        1 => word_of_path(kind),
        2 => word_of_text(kind),
        3 => word_of_option(kind),
        4 => word_of_set(kind),
        5 => word_of_vars(kind),
        6 => word_of_put(kind),
        7 => word_of_stream(kind),
        8 => word_of_frame(kind),
        _ => word_of_file(kind),
    }
}

/// The word of a refusal of what a file has, or of a change.
#[tactic(auto, unfolding(crate::specs::Words::file_word))]
fn word_of_file(kind: u32) -> Option<&'static str>
    ensures word { option_map (λ word. word.now) result ≡ file_word kind }
    ensures len { IfSome result (λ word. length word.now ≤ word_max) }
{
    match kind / 0x100 {
        9 => word_of_image(kind),
        10 => word_of_lists(kind),
        11 => word_of_loaded(kind),
        _ => word_of_change(kind),
    }
}

/// The word of a refusal of a path.
fn word_of_path(kind: u32) -> Option<&'static str>
    ensures word { option_map (λ word. word.now) result ≡ path_word kind }
    ensures len { IfSome result (λ word. length word.now ≤ word_max) }
{
    match kind {
        PATH_NO_END => Some("PathNoEnd"),
        PATH_SHORT_HEADER => Some("PathShortHeader"),
        PATH_BAD_LENGTH => Some("PathBadLength"),
        PATH_PAST_END => Some("PathPastEnd"),
        PATH_BAD_END => Some("PathBadEnd"),
        _ => None,
    }
}

/// The word of a refusal of a text.
fn word_of_text(kind: u32) -> Option<&'static str>
    ensures word { option_map (λ word. word.now) result ≡ text_word kind }
    ensures len { IfSome result (λ word. length word.now ≤ word_max) }
{
    match kind {
        TEXT_BAD_SEGMENT => Some("TextBadSegment"),
        TEXT_BAD_NUMBER => Some("TextBadNumber"),
        TEXT_OUT_OF_RANGE => Some("TextOutOfRange"),
        TEXT_BAD_END => Some("TextBadEnd"),
        TEXT_NOT_UTF8 => Some("TextNotUtf8"),
        TEXT_UNKNOWN_NAME => Some("TextUnknownName"),
        TEXT_BAD_ARGUMENT => Some("TextBadArgument"),
        TEXT_BAD_COUNT => Some("TextBadCount"),
        TEXT_BAD_DATA => Some("TextBadData"),
        _ => None,
    }
}

/// The word of a refusal of a load option.
fn word_of_option(kind: u32) -> Option<&'static str>
    ensures word { option_map (λ word. word.now) result ≡ option_word kind }
    ensures len { IfSome result (λ word. length word.now ≤ word_max) }
{
    match kind {
        OPTION_SHORT => Some("OptionShort"),
        OPTION_NO_TERMINATOR => Some("OptionNoTerminator"),
        OPTION_LIST_PAST_END => Some("OptionListPastEnd"),
        OPTION_EMPTY_LIST => Some("OptionEmptyList"),
        OPTION_PATH => Some("OptionPath"),
        OPTION_ZERO_UNIT => Some("OptionZeroUnit"),
        OPTION_LIST_TOO_LONG => Some("OptionListTooLong"),
        OPTION_NOT_UTF8 => Some("OptionNotUtf8"),
        OPTION_NOT_UTF16 => Some("OptionNotUtf16"),
        _ => None,
    }
}

/// The word of a refusal of a set.
fn word_of_set(kind: u32) -> Option<&'static str>
    ensures word { option_map (λ word. word.now) result ≡ set_word kind }
    ensures len { IfSome result (λ word. length word.now ≤ word_max) }
{
    match kind {
        SET_BAD_MAGIC => Some("SetBadMagic"),
        SET_TRUNCATED => Some("SetTruncated"),
        SET_BAD_NAME => Some("SetBadName"),
        SET_BAD_DATA => Some("SetBadData"),
        SET_NOT_RISING => Some("SetNotRising"),
        _ => None,
    }
}

/// The word of a refusal of variables.
fn word_of_vars(kind: u32) -> Option<&'static str>
    ensures word { option_map (λ word. word.now) result ≡ vars_word kind }
    ensures len { IfSome result (λ word. length word.now ≤ word_max) }
{
    match kind {
        VARS_BAD_ORDER => Some("VarsBadOrder"),
        VARS_BAD_NEXT => Some("VarsBadNext"),
        VARS_BAD_STATE => Some("VarsBadState"),
        _ => None,
    }
}

/// The word of a refusal of what is put.
fn word_of_put(kind: u32) -> Option<&'static str>
    ensures word { option_map (λ word. word.now) result ≡ put_word kind }
    ensures len { IfSome result (λ word. length word.now ≤ word_max) }
{
    match kind {
        PUT_BAD_NAME => Some("PutBadName"),
        PUT_EMPTY_DATA => Some("PutEmptyData"),
        PUT_DATA_TOO_LONG => Some("PutDataTooLong"),
        _ => None,
    }
}

/// The word of a refusal of a stream.
fn word_of_stream(kind: u32) -> Option<&'static str>
    ensures word { option_map (λ word. word.now) result ≡ stream_word kind }
    ensures len { IfSome result (λ word. length word.now ≤ word_max) }
{
    match kind {
        STREAM_BAD_MAGIC => Some("StreamBadMagic"),
        STREAM_BAD_VERSION => Some("StreamBadVersion"),
        STREAM_TOO_LONG => Some("StreamTooLong"),
        STREAM_REST => Some("StreamRest"),
        _ => None,
    }
}

/// The word of a refusal of a frame.
fn word_of_frame(kind: u32) -> Option<&'static str>
    ensures word { option_map (λ word. word.now) result ≡ frame_word kind }
    ensures len { IfSome result (λ word. length word.now ≤ word_max) }
{
    match kind {
        FRAME_SHORT => Some("FrameShort"),
        FRAME_BAD_MAGIC => Some("FrameBadMagic"),
        FRAME_BAD_VERSION => Some("FrameBadVersion"),
        FRAME_TOO_LONG => Some("FrameTooLong"),
        FRAME_BAD_SIZE => Some("FrameBadSize"),
        FRAME_BAD_KIND => Some("FrameBadKind"),
        FRAME_BAD_NUMBER => Some("FrameBadNumber"),
        FRAME_BAD_PAYLOAD => Some("FrameBadPayload"),
        FRAME_OPTION => Some("FrameOption"),
        _ => None,
    }
}

/// The word of a refusal of an image.
fn word_of_image(kind: u32) -> Option<&'static str>
    ensures word { option_map (λ word. word.now) result ≡ image_word kind }
    ensures len { IfSome result (λ word. length word.now ≤ word_max) }
{
    match kind {
        IMAGE_EMPTY => Some("ImageEmpty"),
        IMAGE_SHORT_DOS_HEADER => Some("ImageShortDosHeader"),
        IMAGE_DOS_SIGNATURE => Some("ImageDosSignature"),
        IMAGE_PE_PLACE => Some("ImagePePlace"),
        IMAGE_PE_SIGNATURE => Some("ImagePeSignature"),
        IMAGE_MAGIC => Some("ImageMagic"),
        IMAGE_SUBSYSTEM => Some("ImageSubsystem"),
        IMAGE_DIRECTORY_COUNT => Some("ImageDirectoryCount"),
        IMAGE_OPTIONAL_HEADER_SIZE => Some("ImageOptionalHeaderSize"),
        IMAGE_IMAGE_SIZE => Some("ImageImageSize"),
        IMAGE_HEADERS_SIZE => Some("ImageHeadersSize"),
        IMAGE_HEADERS_BEYOND_IMAGE => Some("ImageHeadersBeyondImage"),
        IMAGE_HEADERS_BEYOND_FILE => Some("ImageHeadersBeyondFile"),
        IMAGE_CERTIFICATES_BEYOND_FILE => Some("ImageCertificatesBeyondFile"),
        IMAGE_MACHINE => Some("ImageMachine"),
        IMAGE_SECTION_IN_HEADERS => Some("ImageSectionInHeaders"),
        IMAGE_SECTION_BEYOND_FILE => Some("ImageSectionBeyondFile"),
        IMAGE_DEBUG_PLACE => Some("ImageDebugPlace"),
        IMAGE_DEBUG_BEYOND_FILE => Some("ImageDebugBeyondFile"),
        IMAGE_UNMAPPED_CODE_VIEW => Some("ImageUnmappedCodeView"),
        IMAGE_ARM64 => Some("ImageArm64"),
        IMAGE_MEMORY => Some("ImageMemory"),
        IMAGE_FIXED_BASE => Some("ImageFixedBase"),
        IMAGE_RELOCATIONS_STRIPPED => Some("ImageRelocationsStripped"),
        IMAGE_SECTION_ALIGNMENT => Some("ImageSectionAlignment"),
        IMAGE_SECTION_BEYOND_IMAGE => Some("ImageSectionBeyondImage"),
        IMAGE_SECTION_BEYOND_MEMORY => Some("ImageSectionBeyondMemory"),
        IMAGE_SECTION_OVER_TABLE => Some("ImageSectionOverTable"),
        IMAGE_RELOCATIONS_NOT_LOADED => Some("ImageRelocationsNotLoaded"),
        IMAGE_RELOCATIONS_OVERFLOW => Some("ImageRelocationsOverflow"),
        IMAGE_RELOCATIONS_BEYOND_IMAGE => Some("ImageRelocationsBeyondImage"),
        IMAGE_IA32 => Some("ImageIa32"),
        IMAGE_BYTE_CODE => Some("ImageByteCode"),
        IMAGE_ENTRY_POINT => Some("ImageEntryPoint"),
        IMAGE_OVERLAP => Some("ImageOverlap"),
        IMAGE_CERTIFICATES_OVERLAP => Some("ImageCertificatesOverlap"),
        _ => None,
    }
}

/// The word of a refusal of signature lists.
fn word_of_lists(kind: u32) -> Option<&'static str>
    ensures word { option_map (λ word. word.now) result ≡ lists_word kind }
    ensures len { IfSome result (λ word. length word.now ≤ word_max) }
{
    match kind {
        LISTS_CUT_HEADER => Some("ListsCutHeader"),
        LISTS_BAD_LIST_SIZE => Some("ListsBadListSize"),
        LISTS_BAD_SIGNATURE_SIZE => Some("ListsBadSignatureSize"),
        _ => None,
    }
}
