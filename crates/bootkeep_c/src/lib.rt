//! The calls of Bootkeep for C, as `libraries/c/include/bootkeep.h` declares them: bytes in, bytes out, a status, and at a refusal
//! its numbers.
//!
//! Each export calls the library that does the work, and repeats what that promises of what C sees. Slices are a
//! pointer and a length there, and [`Global`](std::alloc::Global) is nothing: memory comes from the program's `malloc`.
#![tactic(auto)]

mod answer;
mod buffer;
mod change;
mod command_line;
mod description;
mod edit;
mod end;
mod entry;
mod failure;
mod frame;
mod frame_parts;
mod handle;
mod image;
mod image_number;
mod journal;
mod keeper;
mod keeper_reply;
pub mod laws;
mod limits;
mod lists;
mod loaded_word;
mod machine_word;
mod making;
mod moves;
mod moves_notes;
mod named;
mod named_path;
mod named_text;
mod notes;
mod open;
mod option;
mod path;
mod record;
mod record_places;
mod record_undo;
mod refusal;
mod reply;
mod run;
mod session;
mod session_begin;
mod session_handle;
mod set;
mod status;
mod store;
mod text;
mod variable;
mod version;
mod wanted_run;
mod word;

pub use change::{ChangeNumbers, bootkeep_vars_changes};
pub use description::bootkeep_option_description_utf8;
pub use edit::{EditNumbers, EditedNumbers, bootkeep_vars_edit};
pub use end::EndNumbers;
pub use entry::{EntryState, bootkeep_vars_entry, bootkeep_vars_lowest_free};
pub use failure::Failure;
pub use frame::{Asked, bootkeep_frame_make};
pub use frame_parts::{FrameParts, bootkeep_frame_parts};
pub use handle::{KeeperHandle, KeeperRoom};
pub use image::{bootkeep_image_check, bootkeep_image_digest};
pub use journal::bootkeep_journal_is_idle;
pub use keeper::{
    bootkeep_keeper_close, bootkeep_keeper_deliver, bootkeep_keeper_hand,
    bootkeep_keeper_next_number, bootkeep_keeper_open, bootkeep_keeper_prepare,
    bootkeep_keeper_restart, bootkeep_keeper_set,
};
pub use keeper_reply::{
    bootkeep_keeper_deliver_reply, bootkeep_keeper_hand_reply, bootkeep_keeper_prepare_reply,
    bootkeep_keeper_restart_reply,
};
pub use lists::{ListPlaces, bootkeep_signature_lists};
pub use making::{bootkeep_option_make, bootkeep_option_make_units};
pub use moves::{
    bootkeep_moves_bytes, bootkeep_moves_close, bootkeep_moves_edit, bootkeep_moves_end,
    bootkeep_moves_name, bootkeep_moves_next, bootkeep_moves_reply, bootkeep_moves_requests,
    bootkeep_moves_restore, bootkeep_moves_settle, bootkeep_moves_tell,
};
pub use moves_notes::{bootkeep_moves_notes, bootkeep_moves_same};
pub use named::{NamedEntry, bootkeep_vars_named};
pub use named_path::bootkeep_path_names;
pub use named_text::bootkeep_path_parse;
pub use notes::{bootkeep_notes_identity, bootkeep_notes_len, bootkeep_notes_make};
pub use option::{OptionPlaces, bootkeep_option_description, bootkeep_option_parts};
pub use path::{bootkeep_path_check, bootkeep_path_text};
pub use record::bootkeep_record_make;
pub use record_places::{RecordPlaces, bootkeep_record_parts, bootkeep_record_word};
pub use record_undo::{bootkeep_record_back, bootkeep_record_standing};
pub use refusal::Refusal;
pub use reply::ReplyNumbers;
pub use run::bootkeep_run;
pub use session_handle::{MovesHandle, MovesRoom};
pub use set::{
    bootkeep_vars_at_risk, bootkeep_vars_get, bootkeep_vars_plan, bootkeep_vars_put,
    bootkeep_vars_remove,
};
pub use store::{bootkeep_store_vars, bootkeep_store_with};
pub use text::bootkeep_path_parse_exact;
pub use variable::{VariablePlaces, bootkeep_vars_list};
pub use version::{VERSION, bootkeep_version};
pub use word::{bootkeep_outcome_word, bootkeep_refusal_word, bootkeep_status_word};
