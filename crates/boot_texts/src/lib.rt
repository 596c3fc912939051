//! What the command `bootvars` prints of boot variables, of what a check finds in them, and of their changes: values and texts
//! alone, with no file and no machine (UEFI specification, version 2.10, chapters 3 and 10).
//!
//! [`vars_report`] shows variables, [`timeout_report`] how long the boot manager waits, [`diff_report`] what differs
//! between two sets, [`change_report`] one change, [`check_report`] what a check finds, [`record_line`] a change that can be
//! undone, and [`trial_line`] a start on trial, each as lines for a person. [`vars_json`], [`diff_json`], [`check_json`],
//! [`record_json`] and [`trial_json`] have the same as JSON; docs/formats.md has each line and each field. Single values are
//! printed as `value_texts` has them. [`UnnamedWords`] says of an entry that a change leaves it in no order.
#![tactic(auto)]

mod at_risk;
mod changes;
mod shown_addition;
mod shown_check;
mod shown_order;
mod shown_record;
mod shown_timeout;
mod shown_trial;
mod shown_vars;

pub use at_risk::UnnamedWords;
pub use changes::{change_report, changes_text, diff_json, diff_report};
pub use shown_addition::{AdditionView, addition_json, addition_line};
pub use shown_check::{
    CheckView, Detail, EntryView, FindingView, NextView, OrderView, check_json, check_report,
};
pub use shown_record::{RecordView, record_json, record_line};
pub use shown_timeout::{timeout_json, timeout_report};
pub use shown_trial::{TellsTrial, TrialStanding, TrialView, trial_json, trial_line};
pub use shown_vars::{ShownVars, vars_json, vars_report};
