//! What the words of the command `bootvars` ask for: values alone, with no file and no machine.
//!
//! [`read_words`] has `clap` read them, by the table of commands of `bootvars_words`, and [`action_of`] makes an [`Action`] of
//! what it finds, in which entries, numbers and options are as they are written.
#![tactic(auto)]

mod action;
mod command_line;

pub use action::{
    Action, AddWords, ApplyWords, AttributeWords, ChangeWords, CheckedWords, EntryChange, Form,
    Job, KeptWords, LoadOptionWords, LoaderWords, OptionalWords, PathWords, RequestWords, SetWords,
    StartWords, TrialJob, TrialWords,
};
pub use command_line::{action_of, read_words};
