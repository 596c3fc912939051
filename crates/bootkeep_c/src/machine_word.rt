//! The words of refusals of machines, of their journals and what is kept beside these, and of edits.

ghost use Rattle.std.specs.Prelude.{◌≡◌, ◌≤◌, IfSome, length};
ghost use Rattle.std.specs.Option.{option_map};
ghost use Rattle.bootkeep_c.specs.Words.{word_max, change_word, journal_word, machine_word, edit_word, notes_word, record_word, store_word};

use crate::refusal::{
    JOURNAL_BAD_COURSE, JOURNAL_BAD_IDENTITY, JOURNAL_BAD_MACHINE, JOURNAL_BAD_MAGIC,
    JOURNAL_BAD_NAME, JOURNAL_OF_ANOTHER, JOURNAL_TOO_LONG, JOURNAL_TRUNCATED,
    JOURNAL_VALUE_TOO_LONG, MACHINE_BAD_NAME, MACHINE_BAD_START, MACHINE_NO_DATA, MACHINE_TOO_LONG,
    NOTES_BAD_IDENTITY, NOTES_TOO_MANY, NOTES_TRUNCATED, RECORD_BAD_AFTER, RECORD_BAD_BEFORE,
    RECORD_BAD_MACHINE, RECORD_BAD_MAGIC, RECORD_BAD_TIME, RECORD_BAD_WORD, RECORD_OPEN_WORD,
    RECORD_TOO_FEW_FIELDS, RECORD_TOO_LONG, RECORD_TRUNCATED, STORE_BAD_HEADER, STORE_BAD_STORE,
    STORE_CUT_RECORD, STORE_FULL, STORE_NO_STORE, STORE_NO_VOLUME, STORE_UNAUTHENTICATED,
    UNEDITED_BAD_KIND, UNEDITED_BAD_NUMBER, UNEDITED_BAD_POSITION, UNEDITED_MISSING,
    UNEDITED_NO_FREE, UNEDITED_NO_OPTION, UNEDITED_OPTION_TOO_LONG, UNEDITED_ORDER_TOO_LONG,
    UNEDITED_STALE, UNEDITED_TAKEN, UNEDITED_TWICE,
};

/// The word of a refusal of a change of a machine or of a set, or of what is kept of it.
#[tactic(auto, unfolding(crate::specs::Words::change_word))]
pub(crate) fn word_of_change(kind: u32) -> Option<&'static str>
    ensures word { option_map (λ word. word.now) result ≡ change_word kind }
    ensures len { IfSome result (λ word. length word.now ≤ word_max) }
{
    match kind / 0x100 {
        12 => word_of_journal(kind),
        13 => word_of_machine(kind),
        14 => word_of_edit(kind),
        15 => word_of_notes(kind),
        16 => word_of_record(kind),
        17 => word_of_store(kind),
        _ => None,
    }
}

/// The word of a refusal of a journal.
fn word_of_journal(kind: u32) -> Option<&'static str>
    ensures word { option_map (λ word. word.now) result ≡ journal_word kind }
    ensures len { IfSome result (λ word. length word.now ≤ word_max) }
{
    match kind {
        JOURNAL_BAD_MAGIC => Some("JournalBadMagic"),
        JOURNAL_BAD_MACHINE => Some("JournalBadMachine"),
        JOURNAL_TRUNCATED => Some("JournalTruncated"),
        JOURNAL_VALUE_TOO_LONG => Some("JournalValueTooLong"),
        JOURNAL_BAD_COURSE => Some("JournalBadCourse"),
        JOURNAL_BAD_IDENTITY => Some("JournalBadIdentity"),
        JOURNAL_BAD_NAME => Some("JournalBadName"),
        JOURNAL_OF_ANOTHER => Some("JournalOfAnother"),
        JOURNAL_TOO_LONG => Some("JournalTooLong"),
        _ => None,
    }
}

/// The word of a refusal of a machine.
fn word_of_machine(kind: u32) -> Option<&'static str>
    ensures word { option_map (λ word. word.now) result ≡ machine_word kind }
    ensures len { IfSome result (λ word. length word.now ≤ word_max) }
{
    match kind {
        MACHINE_BAD_NAME => Some("MachineBadName"),
        MACHINE_BAD_START => Some("MachineBadStart"),
        MACHINE_NO_DATA => Some("MachineNoData"),
        MACHINE_TOO_LONG => Some("MachineTooLong"),
        _ => None,
    }
}

/// The word of a refusal of an edit.
fn word_of_edit(kind: u32) -> Option<&'static str>
    ensures word { option_map (λ word. word.now) result ≡ edit_word kind }
    ensures len { IfSome result (λ word. length word.now ≤ word_max) }
{
    match kind {
        UNEDITED_TAKEN => Some("UneditedTaken"),
        UNEDITED_NO_FREE => Some("UneditedNoFree"),
        UNEDITED_TWICE => Some("UneditedTwice"),
        UNEDITED_MISSING => Some("UneditedMissing"),
        UNEDITED_STALE => Some("UneditedStale"),
        UNEDITED_NO_OPTION => Some("UneditedNoOption"),
        UNEDITED_ORDER_TOO_LONG => Some("UneditedOrderTooLong"),
        UNEDITED_OPTION_TOO_LONG => Some("UneditedOptionTooLong"),
        UNEDITED_BAD_KIND => Some("UneditedBadKind"),
        UNEDITED_BAD_NUMBER => Some("UneditedBadNumber"),
        UNEDITED_BAD_POSITION => Some("UneditedBadPosition"),
        _ => None,
    }
}

/// The word of a refusal of notes.
fn word_of_notes(kind: u32) -> Option<&'static str>
    ensures word { option_map (λ word. word.now) result ≡ notes_word kind }
    ensures len { IfSome result (λ word. length word.now ≤ word_max) }
{
    match kind {
        NOTES_TRUNCATED => Some("NotesTruncated"),
        NOTES_TOO_MANY => Some("NotesTooMany"),
        NOTES_BAD_IDENTITY => Some("NotesBadIdentity"),
        _ => None,
    }
}

/// The word of a refusal of a record.
fn word_of_record(kind: u32) -> Option<&'static str>
    ensures word { option_map (λ word. word.now) result ≡ record_word kind }
    ensures len { IfSome result (λ word. length word.now ≤ word_max) }
{
    match kind {
        RECORD_BAD_MAGIC => Some("RecordBadMagic"),
        RECORD_TRUNCATED => Some("RecordTruncated"),
        RECORD_TOO_FEW_FIELDS => Some("RecordTooFewFields"),
        RECORD_BAD_MACHINE => Some("RecordBadMachine"),
        RECORD_BAD_TIME => Some("RecordBadTime"),
        RECORD_BAD_BEFORE => Some("RecordBadBefore"),
        RECORD_BAD_AFTER => Some("RecordBadAfter"),
        RECORD_BAD_WORD => Some("RecordBadWord"),
        RECORD_OPEN_WORD => Some("RecordOpenWord"),
        RECORD_TOO_LONG => Some("RecordTooLong"),
        _ => None,
    }
}

/// The word of a refusal of an emulator's variable file.
fn word_of_store(kind: u32) -> Option<&'static str>
    ensures word { option_map (λ word. word.now) result ≡ store_word kind }
    ensures len { IfSome result (λ word. length word.now ≤ word_max) }
{
    match kind {
        STORE_NO_VOLUME => Some("StoreNoVolume"),
        STORE_BAD_HEADER => Some("StoreBadHeader"),
        STORE_NO_STORE => Some("StoreNoStore"),
        STORE_UNAUTHENTICATED => Some("StoreUnauthenticated"),
        STORE_BAD_STORE => Some("StoreBadStore"),
        STORE_CUT_RECORD => Some("StoreCutRecord"),
        STORE_FULL => Some("StoreFull"),
        _ => None,
    }
}
