//! Laws of the numbers that C sees. Each function's contract is one law; calling it does nothing.

ghost use Rattle.std.specs.Prelude.{◌≡◌};
ghost use Rattle.bootkeep_c.specs.Status.{done, refused, no_room, absent, no_memory, closed, bad_size};
ghost use Rattle.bootkeep_c.specs.Refusals.{no_place};
ghost use Rattle.bootkeep_c.specs.Words.{word_max};

use crate::limits::WORD_MAX;
use crate::refusal::FRAME_BAD_KIND;
use crate::refusal::FRAME_BAD_MAGIC;
use crate::refusal::FRAME_BAD_NUMBER;
use crate::refusal::FRAME_BAD_PAYLOAD;
use crate::refusal::FRAME_BAD_SIZE;
use crate::refusal::FRAME_BAD_VERSION;
use crate::refusal::FRAME_OPTION;
use crate::refusal::FRAME_SHORT;
use crate::refusal::FRAME_TOO_LONG;
use crate::refusal::IMAGE_ARM64;
use crate::refusal::IMAGE_BYTE_CODE;
use crate::refusal::IMAGE_CERTIFICATES_BEYOND_FILE;
use crate::refusal::IMAGE_CERTIFICATES_OVERLAP;
use crate::refusal::IMAGE_CODE_VIEW_BEYOND_IMAGE;
use crate::refusal::IMAGE_CODE_VIEW_ENTRY_BEYOND_IMAGE;
use crate::refusal::IMAGE_CODE_VIEW_ENTRY_NOT_LOADED;
use crate::refusal::IMAGE_CODE_VIEW_NOT_LOADED;
use crate::refusal::IMAGE_CODE_VIEW_SIZE;
use crate::refusal::IMAGE_DEBUG_BEYOND_FILE;
use crate::refusal::IMAGE_DEBUG_PLACE;
use crate::refusal::IMAGE_DIRECTORY_COUNT;
use crate::refusal::IMAGE_DOS_SIGNATURE;
use crate::refusal::IMAGE_EMPTY;
use crate::refusal::IMAGE_ENTRY_POINT;
use crate::refusal::IMAGE_FIXED_BASE;
use crate::refusal::IMAGE_HEADERS_BEYOND_FILE;
use crate::refusal::IMAGE_HEADERS_BEYOND_IMAGE;
use crate::refusal::IMAGE_HEADERS_SIZE;
use crate::refusal::IMAGE_IA32;
use crate::refusal::IMAGE_IMAGE_SIZE;
use crate::refusal::IMAGE_MACHINE;
use crate::refusal::IMAGE_MAGIC;
use crate::refusal::IMAGE_MEMORY;
use crate::refusal::IMAGE_OPTIONAL_HEADER_SIZE;
use crate::refusal::IMAGE_OVERLAP;
use crate::refusal::IMAGE_PE_PLACE;
use crate::refusal::IMAGE_PE_SIGNATURE;
use crate::refusal::IMAGE_RELOCATION_BEYOND_IMAGE;
use crate::refusal::IMAGE_RELOCATION_BLOCK_ADDRESS;
use crate::refusal::IMAGE_RELOCATION_BLOCK_NOT_LOADED;
use crate::refusal::IMAGE_RELOCATION_BLOCK_SIZE;
use crate::refusal::IMAGE_RELOCATION_UNKNOWN_TYPE;
use crate::refusal::IMAGE_RELOCATIONS_BEYOND_IMAGE;
use crate::refusal::IMAGE_RELOCATIONS_NOT_LOADED;
use crate::refusal::IMAGE_RELOCATIONS_OVERFLOW;
use crate::refusal::IMAGE_RELOCATIONS_STRIPPED;
use crate::refusal::IMAGE_RESOURCE_BEYOND_RESOURCES;
use crate::refusal::IMAGE_RESOURCE_DIRECTORY_SIZE;
use crate::refusal::IMAGE_RESOURCES_NOT_LOADED;
use crate::refusal::IMAGE_SECTION_ALIGNMENT;
use crate::refusal::IMAGE_SECTION_BEYOND_FILE;
use crate::refusal::IMAGE_SECTION_BEYOND_IMAGE;
use crate::refusal::IMAGE_SECTION_BEYOND_MEMORY;
use crate::refusal::IMAGE_SECTION_IN_HEADERS;
use crate::refusal::IMAGE_SECTION_OVER_TABLE;
use crate::refusal::IMAGE_SHORT_DOS_HEADER;
use crate::refusal::IMAGE_SUBSYSTEM;
use crate::refusal::IMAGE_UNMAPPED_CODE_VIEW;
use crate::refusal::JOURNAL_BAD_COURSE;
use crate::refusal::JOURNAL_BAD_IDENTITY;
use crate::refusal::JOURNAL_BAD_MACHINE;
use crate::refusal::JOURNAL_BAD_MAGIC;
use crate::refusal::JOURNAL_BAD_NAME;
use crate::refusal::JOURNAL_OF_ANOTHER;
use crate::refusal::JOURNAL_TOO_LONG;
use crate::refusal::JOURNAL_TRUNCATED;
use crate::refusal::JOURNAL_VALUE_TOO_LONG;
use crate::refusal::LISTS_BAD_LIST_SIZE;
use crate::refusal::LISTS_BAD_SIGNATURE_SIZE;
use crate::refusal::LISTS_CUT_HEADER;
use crate::refusal::MACHINE_BAD_NAME;
use crate::refusal::MACHINE_BAD_START;
use crate::refusal::MACHINE_NO_DATA;
use crate::refusal::MACHINE_TOO_LONG;
use crate::refusal::NO_KIND;
use crate::refusal::NO_PLACE;
use crate::refusal::NOTES_BAD_IDENTITY;
use crate::refusal::NOTES_TOO_MANY;
use crate::refusal::NOTES_TRUNCATED;
use crate::refusal::OPTION_EMPTY_LIST;
use crate::refusal::OPTION_LIST_PAST_END;
use crate::refusal::OPTION_LIST_TOO_LONG;
use crate::refusal::OPTION_NO_TERMINATOR;
use crate::refusal::OPTION_NOT_UTF8;
use crate::refusal::OPTION_NOT_UTF16;
use crate::refusal::OPTION_PATH;
use crate::refusal::OPTION_SHORT;
use crate::refusal::OPTION_ZERO_UNIT;
use crate::refusal::PATH_BAD_END;
use crate::refusal::PATH_BAD_LENGTH;
use crate::refusal::PATH_NO_END;
use crate::refusal::PATH_PAST_END;
use crate::refusal::PATH_SHORT_HEADER;
use crate::refusal::PUT_BAD_NAME;
use crate::refusal::PUT_DATA_TOO_LONG;
use crate::refusal::PUT_EMPTY_DATA;
use crate::refusal::RECORD_BAD_AFTER;
use crate::refusal::RECORD_BAD_BEFORE;
use crate::refusal::RECORD_BAD_MACHINE;
use crate::refusal::RECORD_BAD_MAGIC;
use crate::refusal::RECORD_BAD_TIME;
use crate::refusal::RECORD_BAD_WORD;
use crate::refusal::RECORD_OPEN_WORD;
use crate::refusal::RECORD_TOO_FEW_FIELDS;
use crate::refusal::RECORD_TOO_LONG;
use crate::refusal::RECORD_TRUNCATED;
use crate::refusal::SET_BAD_DATA;
use crate::refusal::SET_BAD_MAGIC;
use crate::refusal::SET_BAD_NAME;
use crate::refusal::SET_NOT_RISING;
use crate::refusal::SET_TRUNCATED;
use crate::refusal::STORE_BAD_HEADER;
use crate::refusal::STORE_BAD_STORE;
use crate::refusal::STORE_CUT_RECORD;
use crate::refusal::STORE_FULL;
use crate::refusal::STORE_NO_STORE;
use crate::refusal::STORE_NO_VOLUME;
use crate::refusal::STORE_UNAUTHENTICATED;
use crate::refusal::STREAM_BAD_MAGIC;
use crate::refusal::STREAM_BAD_VERSION;
use crate::refusal::STREAM_REST;
use crate::refusal::STREAM_TOO_LONG;
use crate::refusal::TEXT_BAD_ARGUMENT;
use crate::refusal::TEXT_BAD_COUNT;
use crate::refusal::TEXT_BAD_DATA;
use crate::refusal::TEXT_BAD_END;
use crate::refusal::TEXT_BAD_NUMBER;
use crate::refusal::TEXT_BAD_SEGMENT;
use crate::refusal::TEXT_NOT_UTF8;
use crate::refusal::TEXT_OUT_OF_RANGE;
use crate::refusal::TEXT_UNKNOWN_NAME;
use crate::refusal::UNEDITED_BAD_KIND;
use crate::refusal::UNEDITED_BAD_NUMBER;
use crate::refusal::UNEDITED_BAD_POSITION;
use crate::refusal::UNEDITED_MISSING;
use crate::refusal::UNEDITED_NO_FREE;
use crate::refusal::UNEDITED_NO_OPTION;
use crate::refusal::UNEDITED_OPTION_TOO_LONG;
use crate::refusal::UNEDITED_ORDER_TOO_LONG;
use crate::refusal::UNEDITED_STALE;
use crate::refusal::UNEDITED_TAKEN;
use crate::refusal::UNEDITED_TWICE;
use crate::refusal::VARS_BAD_NEXT;
use crate::refusal::VARS_BAD_ORDER;
use crate::refusal::VARS_BAD_STATE;
use crate::status::ABSENT;
use crate::status::BAD_SIZE;
use crate::status::CLOSED;
use crate::status::DONE;
use crate::status::NO_MEMORY;
use crate::status::NO_ROOM;
use crate::status::REFUSED;

/// The statuses are those of the definitions.
pub fn statuses_are_those_of_the_definitions()
    ensures done { DONE ≡ done }
    ensures refused { REFUSED ≡ refused }
    ensures no_room { NO_ROOM ≡ no_room }
    ensures absent { ABSENT ≡ absent }
    ensures no_memory { NO_MEMORY ≡ no_memory }
    ensures closed { CLOSED ≡ closed }
    ensures bad_size { BAD_SIZE ≡ bad_size }
{}

/// No word has more bytes than the constant says.
pub fn the_most_bytes_of_a_word_are_those_of_the_definition()
    ensures { WORD_MAX ≡ word_max }
{}

/// The numbers of refusals are those that were given out with version 1 of the interface. None is ever given out again.
pub fn numbers_of_refusals_stay()
    ensures no_kind { NO_KIND ≡ 0 }
    ensures path_no_end { PATH_NO_END ≡ 0x0101 }
    ensures path_short_header { PATH_SHORT_HEADER ≡ 0x0102 }
    ensures path_bad_length { PATH_BAD_LENGTH ≡ 0x0103 }
    ensures path_past_end { PATH_PAST_END ≡ 0x0104 }
    ensures path_bad_end { PATH_BAD_END ≡ 0x0105 }
    ensures text_bad_segment { TEXT_BAD_SEGMENT ≡ 0x0201 }
    ensures text_bad_number { TEXT_BAD_NUMBER ≡ 0x0202 }
    ensures text_out_of_range { TEXT_OUT_OF_RANGE ≡ 0x0203 }
    ensures text_bad_end { TEXT_BAD_END ≡ 0x0204 }
    ensures text_not_utf8 { TEXT_NOT_UTF8 ≡ 0x0205 }
    ensures text_unknown_name { TEXT_UNKNOWN_NAME ≡ 0x0206 }
    ensures text_bad_argument { TEXT_BAD_ARGUMENT ≡ 0x0207 }
    ensures text_bad_count { TEXT_BAD_COUNT ≡ 0x0208 }
    ensures text_bad_data { TEXT_BAD_DATA ≡ 0x0209 }
    ensures option_short { OPTION_SHORT ≡ 0x0301 }
    ensures option_no_terminator { OPTION_NO_TERMINATOR ≡ 0x0302 }
    ensures option_list_past_end { OPTION_LIST_PAST_END ≡ 0x0303 }
    ensures option_empty_list { OPTION_EMPTY_LIST ≡ 0x0304 }
    ensures option_path { OPTION_PATH ≡ 0x0305 }
    ensures option_zero_unit { OPTION_ZERO_UNIT ≡ 0x0306 }
    ensures option_list_too_long { OPTION_LIST_TOO_LONG ≡ 0x0307 }
    ensures option_not_utf8 { OPTION_NOT_UTF8 ≡ 0x0308 }
    ensures option_not_utf16 { OPTION_NOT_UTF16 ≡ 0x0309 }
    ensures set_bad_magic { SET_BAD_MAGIC ≡ 0x0401 }
    ensures set_truncated { SET_TRUNCATED ≡ 0x0402 }
    ensures set_bad_name { SET_BAD_NAME ≡ 0x0403 }
    ensures set_bad_data { SET_BAD_DATA ≡ 0x0404 }
    ensures set_not_rising { SET_NOT_RISING ≡ 0x0405 }
    ensures vars_bad_order { VARS_BAD_ORDER ≡ 0x0501 }
    ensures vars_bad_next { VARS_BAD_NEXT ≡ 0x0502 }
    ensures vars_bad_state { VARS_BAD_STATE ≡ 0x0503 }
    ensures put_bad_name { PUT_BAD_NAME ≡ 0x0601 }
    ensures put_empty_data { PUT_EMPTY_DATA ≡ 0x0602 }
    ensures put_data_too_long { PUT_DATA_TOO_LONG ≡ 0x0603 }
    ensures stream_bad_magic { STREAM_BAD_MAGIC ≡ 0x0701 }
    ensures stream_bad_version { STREAM_BAD_VERSION ≡ 0x0702 }
    ensures stream_too_long { STREAM_TOO_LONG ≡ 0x0703 }
    ensures stream_rest { STREAM_REST ≡ 0x0704 }
    ensures frame_short { FRAME_SHORT ≡ 0x0801 }
    ensures frame_bad_magic { FRAME_BAD_MAGIC ≡ 0x0802 }
    ensures frame_bad_version { FRAME_BAD_VERSION ≡ 0x0803 }
    ensures frame_too_long { FRAME_TOO_LONG ≡ 0x0804 }
    ensures frame_bad_size { FRAME_BAD_SIZE ≡ 0x0805 }
    ensures frame_bad_kind { FRAME_BAD_KIND ≡ 0x0806 }
    ensures frame_bad_number { FRAME_BAD_NUMBER ≡ 0x0807 }
    ensures frame_bad_payload { FRAME_BAD_PAYLOAD ≡ 0x0808 }
    ensures frame_option { FRAME_OPTION ≡ 0x0809 }
    ensures image_empty { IMAGE_EMPTY ≡ 0x0901 }
    ensures image_short_dos_header { IMAGE_SHORT_DOS_HEADER ≡ 0x0902 }
    ensures image_dos_signature { IMAGE_DOS_SIGNATURE ≡ 0x0903 }
    ensures image_pe_place { IMAGE_PE_PLACE ≡ 0x0904 }
    ensures image_pe_signature { IMAGE_PE_SIGNATURE ≡ 0x0905 }
    ensures image_magic { IMAGE_MAGIC ≡ 0x0906 }
    ensures image_subsystem { IMAGE_SUBSYSTEM ≡ 0x0907 }
    ensures image_directory_count { IMAGE_DIRECTORY_COUNT ≡ 0x0908 }
    ensures image_optional_header_size { IMAGE_OPTIONAL_HEADER_SIZE ≡ 0x0909 }
    ensures image_image_size { IMAGE_IMAGE_SIZE ≡ 0x090A }
    ensures image_headers_size { IMAGE_HEADERS_SIZE ≡ 0x090B }
    ensures image_headers_beyond_image { IMAGE_HEADERS_BEYOND_IMAGE ≡ 0x090C }
    ensures image_headers_beyond_file { IMAGE_HEADERS_BEYOND_FILE ≡ 0x090D }
    ensures image_certificates_beyond_file { IMAGE_CERTIFICATES_BEYOND_FILE ≡ 0x090E }
    ensures image_machine { IMAGE_MACHINE ≡ 0x090F }
    ensures image_section_in_headers { IMAGE_SECTION_IN_HEADERS ≡ 0x0910 }
    ensures image_section_beyond_file { IMAGE_SECTION_BEYOND_FILE ≡ 0x0911 }
    ensures image_debug_place { IMAGE_DEBUG_PLACE ≡ 0x0912 }
    ensures image_debug_beyond_file { IMAGE_DEBUG_BEYOND_FILE ≡ 0x0913 }
    ensures image_unmapped_code_view { IMAGE_UNMAPPED_CODE_VIEW ≡ 0x0914 }
    ensures image_arm64 { IMAGE_ARM64 ≡ 0x0915 }
    ensures image_memory { IMAGE_MEMORY ≡ 0x0916 }
    ensures image_fixed_base { IMAGE_FIXED_BASE ≡ 0x0917 }
    ensures image_relocations_stripped { IMAGE_RELOCATIONS_STRIPPED ≡ 0x0918 }
    ensures image_section_alignment { IMAGE_SECTION_ALIGNMENT ≡ 0x0919 }
    ensures image_section_beyond_image { IMAGE_SECTION_BEYOND_IMAGE ≡ 0x091A }
    ensures image_section_beyond_memory { IMAGE_SECTION_BEYOND_MEMORY ≡ 0x091B }
    ensures image_section_over_table { IMAGE_SECTION_OVER_TABLE ≡ 0x091C }
    ensures image_relocations_not_loaded { IMAGE_RELOCATIONS_NOT_LOADED ≡ 0x091D }
    ensures image_relocations_overflow { IMAGE_RELOCATIONS_OVERFLOW ≡ 0x091E }
    ensures image_relocations_beyond_image { IMAGE_RELOCATIONS_BEYOND_IMAGE ≡ 0x091F }
    ensures image_ia32 { IMAGE_IA32 ≡ 0x0920 }
    ensures image_byte_code { IMAGE_BYTE_CODE ≡ 0x0921 }
    ensures image_entry_point { IMAGE_ENTRY_POINT ≡ 0x0922 }
    ensures image_overlap { IMAGE_OVERLAP ≡ 0x0923 }
    ensures image_certificates_overlap { IMAGE_CERTIFICATES_OVERLAP ≡ 0x0924 }
    ensures lists_cut_header { LISTS_CUT_HEADER ≡ 0x0A01 }
    ensures lists_bad_list_size { LISTS_BAD_LIST_SIZE ≡ 0x0A02 }
    ensures lists_bad_signature_size { LISTS_BAD_SIGNATURE_SIZE ≡ 0x0A03 }
    ensures image_code_view_entry_beyond_image { IMAGE_CODE_VIEW_ENTRY_BEYOND_IMAGE ≡ 0x0B01 }
    ensures image_code_view_entry_not_loaded { IMAGE_CODE_VIEW_ENTRY_NOT_LOADED ≡ 0x0B02 }
    ensures image_code_view_beyond_image { IMAGE_CODE_VIEW_BEYOND_IMAGE ≡ 0x0B03 }
    ensures image_code_view_not_loaded { IMAGE_CODE_VIEW_NOT_LOADED ≡ 0x0B04 }
    ensures image_code_view_size { IMAGE_CODE_VIEW_SIZE ≡ 0x0B05 }
    ensures image_resources_not_loaded { IMAGE_RESOURCES_NOT_LOADED ≡ 0x0B06 }
    ensures image_resource_beyond_resources { IMAGE_RESOURCE_BEYOND_RESOURCES ≡ 0x0B07 }
    ensures image_resource_directory_size { IMAGE_RESOURCE_DIRECTORY_SIZE ≡ 0x0B08 }
    ensures image_relocation_block_not_loaded { IMAGE_RELOCATION_BLOCK_NOT_LOADED ≡ 0x0B09 }
    ensures image_relocation_block_size { IMAGE_RELOCATION_BLOCK_SIZE ≡ 0x0B0A }
    ensures image_relocation_block_address { IMAGE_RELOCATION_BLOCK_ADDRESS ≡ 0x0B0B }
    ensures image_relocation_beyond_image { IMAGE_RELOCATION_BEYOND_IMAGE ≡ 0x0B0C }
    ensures image_relocation_unknown_type { IMAGE_RELOCATION_UNKNOWN_TYPE ≡ 0x0B0D }
    ensures journal_bad_magic { JOURNAL_BAD_MAGIC ≡ 0x0C01 }
    ensures journal_bad_machine { JOURNAL_BAD_MACHINE ≡ 0x0C02 }
    ensures journal_truncated { JOURNAL_TRUNCATED ≡ 0x0C03 }
    ensures journal_value_too_long { JOURNAL_VALUE_TOO_LONG ≡ 0x0C04 }
    ensures journal_bad_course { JOURNAL_BAD_COURSE ≡ 0x0C05 }
    ensures journal_bad_identity { JOURNAL_BAD_IDENTITY ≡ 0x0C06 }
    ensures journal_bad_name { JOURNAL_BAD_NAME ≡ 0x0C07 }
    ensures journal_of_another { JOURNAL_OF_ANOTHER ≡ 0x0C08 }
    ensures journal_too_long { JOURNAL_TOO_LONG ≡ 0x0C09 }
    ensures machine_bad_name { MACHINE_BAD_NAME ≡ 0x0D01 }
    ensures machine_bad_start { MACHINE_BAD_START ≡ 0x0D02 }
    ensures machine_no_data { MACHINE_NO_DATA ≡ 0x0D03 }
    ensures machine_too_long { MACHINE_TOO_LONG ≡ 0x0D04 }
    ensures unedited_taken { UNEDITED_TAKEN ≡ 0x0E01 }
    ensures unedited_no_free { UNEDITED_NO_FREE ≡ 0x0E02 }
    ensures unedited_twice { UNEDITED_TWICE ≡ 0x0E03 }
    ensures unedited_missing { UNEDITED_MISSING ≡ 0x0E04 }
    ensures unedited_stale { UNEDITED_STALE ≡ 0x0E05 }
    ensures unedited_no_option { UNEDITED_NO_OPTION ≡ 0x0E06 }
    ensures unedited_order_too_long { UNEDITED_ORDER_TOO_LONG ≡ 0x0E07 }
    ensures unedited_option_too_long { UNEDITED_OPTION_TOO_LONG ≡ 0x0E08 }
    ensures unedited_bad_kind { UNEDITED_BAD_KIND ≡ 0x0E09 }
    ensures unedited_bad_number { UNEDITED_BAD_NUMBER ≡ 0x0E0A }
    ensures unedited_bad_position { UNEDITED_BAD_POSITION ≡ 0x0E0B }
    ensures notes_truncated { NOTES_TRUNCATED ≡ 0x0F01 }
    ensures notes_too_many { NOTES_TOO_MANY ≡ 0x0F02 }
    ensures notes_bad_identity { NOTES_BAD_IDENTITY ≡ 0x0F03 }
    ensures record_bad_magic { RECORD_BAD_MAGIC ≡ 0x1001 }
    ensures record_truncated { RECORD_TRUNCATED ≡ 0x1002 }
    ensures record_too_few_fields { RECORD_TOO_FEW_FIELDS ≡ 0x1003 }
    ensures record_bad_machine { RECORD_BAD_MACHINE ≡ 0x1004 }
    ensures record_bad_time { RECORD_BAD_TIME ≡ 0x1005 }
    ensures record_bad_before { RECORD_BAD_BEFORE ≡ 0x1006 }
    ensures record_bad_after { RECORD_BAD_AFTER ≡ 0x1007 }
    ensures record_bad_word { RECORD_BAD_WORD ≡ 0x1008 }
    ensures record_open_word { RECORD_OPEN_WORD ≡ 0x1009 }
    ensures record_too_long { RECORD_TOO_LONG ≡ 0x100A }
    ensures store_no_volume { STORE_NO_VOLUME ≡ 0x1101 }
    ensures store_bad_header { STORE_BAD_HEADER ≡ 0x1102 }
    ensures store_no_store { STORE_NO_STORE ≡ 0x1103 }
    ensures store_unauthenticated { STORE_UNAUTHENTICATED ≡ 0x1104 }
    ensures store_bad_store { STORE_BAD_STORE ≡ 0x1105 }
    ensures store_cut_record { STORE_CUT_RECORD ≡ 0x1106 }
    ensures store_full { STORE_FULL ≡ 0x1107 }
    ensures no_place { NO_PLACE ≡ no_place }
{}
