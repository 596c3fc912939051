//! A start on trial, as it is shown, by `bootvars try`, `confirm`, `show`, `check` and `update --look`.

use messages::Failure;
use std::alloc::{AllocError, Global};
use std::fmt;
use uefi_vars::{EntryDigits, EntryName, Vars};
use value_texts::json::{JsonObject, JsonWriter, Leaf, append_leaves, append_object, json_line};

/// What there is to tell of a trial.
#[derive(Clone, Copy, Debug, PartialEq, Eq)]
pub enum TrialStanding {
    /// There is none.
    Nothing,
    /// It begins.
    Begun,
    /// Firmware hasn't tried the entry yet.
    Open,
    /// The machine came up by the entry, which is confirmed.
    Confirmed,
    /// The machine had come up by the entry, which was confirmed before.
    Done,
    /// The machine came up by the entry, whose data is other than what was tried.
    Changed,
    /// The machine came up by another entry.
    Failed,
    /// The machine had come up by the entry, and what followed was cut off.
    Interrupted,
    /// The machine came up by the entry, which isn't confirmed yet.
    CameUp,
    /// It is ended, and nothing is changed.
    Ended,
}

impl TrialStanding {
    /// The word for it in JSON.
    fn word(self) -> &'static str {
        match self {
            TrialStanding::Nothing => "none",
            TrialStanding::Begun => "begun",
            TrialStanding::Open => "open",
            TrialStanding::CameUp => "due",
            TrialStanding::Confirmed | TrialStanding::Done => "confirmed",
            TrialStanding::Changed => "changed",
            TrialStanding::Failed => "failed",
            TrialStanding::Interrupted => "interrupted",
            TrialStanding::Ended => "ended",
        }
    }

    /// The words for a person, which go on from the trial's name and name no other entry.
    fn words(self) -> &'static str {
        match self {
            TrialStanding::Nothing => "isn't there",
            TrialStanding::Begun => "begun: the next start tries it once",
            TrialStanding::Open => "open: firmware hasn't started the machine since it began",
            TrialStanding::CameUp => "due: the machine came up by it, and it isn't confirmed yet",
            TrialStanding::Confirmed => "confirmed: the machine came up by it",
            TrialStanding::Done => "confirmed: it was put first before",
            TrialStanding::Changed => {
                "failed: the machine came up by it, but its data isn't what was tried"
            }
            TrialStanding::Failed => {
                "failed: BootCurrent doesn't tell by which entry the machine came up"
            }
            TrialStanding::Interrupted => {
                "interrupted: the machine came up by it, but it isn't first in BootOrder"
            }
            TrialStanding::Ended => "ended: nothing is changed",
        }
    }
}

/// A trial, or that there is none, as it is shown.
#[derive(Clone, Copy, Debug)]
pub struct TrialView {
    /// What there is to tell.
    pub standing: TrialStanding,
    /// The entry that is tried, if that is known.
    pub entry: Option<u16>,
    /// The entry by which the machine came up, if that is known and matters.
    pub current: Option<u16>,
}

impl fmt::Display for TrialView {
    fn fmt<W: fmt::Write>(&self, f: &mut fmt::Formatter<W>) -> fmt::Result {
        match (self.entry, self.standing) {
            (None, TrialStanding::Nothing) => return f.write_str("no trial"),
            (None, _) => f.write_str("trial ")?,
            (Some(entry), _) => {
                let name = EntryName(entry);
                write!(f, "trial of {name} ")?;
            }
        }
        match (self.standing, self.current) {
            (TrialStanding::Failed, Some(by)) => {
                let by = EntryName(by);
                write!(f, "failed: the machine came up by {by}")
            }
            (standing, _) => f.write_str(standing.words()),
        }
    }
}

impl JsonObject for TrialView {
    fn append_members(&self, out: &mut JsonWriter) -> Result<(), AllocError> {
        append_leaves(
            &[
                ("trial", Leaf::Word(Some(self.standing.word()))),
                ("entry", Leaf::Entry(self.entry.map(EntryDigits))),
                ("current", Leaf::Entry(self.current.map(EntryDigits))),
            ],
            out,
        )
    }
}

/// What tells of a machine's start on trial.
pub trait TellsTrial {
    /// What there is to tell of the trial that is kept of the machine, if one is, with these variables, which have no
    /// attributes.
    ///
    /// # Errors
    ///
    /// [`Failure::Memory`] if memory was refused.
    fn told(&self, vars: &Vars) -> Result<Option<TrialView>, Failure>;
}

/// Tells a trial as a line for a person; docs/formats.md has each.
///
/// # Errors
///
/// [`AllocError`] if memory was refused.
pub fn trial_line(alloc: Global, trial: TrialView) -> Result<String, AllocError> {
    format!(in alloc; "{trial}\n")
}

/// Tells a trial as an object of JSON on one line that ends with a line feed; docs/formats.md has each member.
///
/// # Errors
///
/// [`AllocError`] if memory was refused.
pub fn trial_json(alloc: Global, trial: TrialView) -> Result<String, AllocError> {
    json_line(alloc, &trial)
}

/// Appends the member of a trial, if there is one.
pub(crate) fn append_trial_member(
    trial: Option<&TrialView>,
    out: &mut JsonWriter,
) -> Result<(), AllocError> {
    match trial {
        Some(trial) => append_object("trial", Some(trial), out),
        None => Ok(()),
    }
}

/// Appends the line of a trial, if there is one.
pub(crate) fn append_trial(
    trial: Option<TrialView>,
    report: &mut String,
) -> Result<(), AllocError> {
    match trial {
        Some(trial) => writeln!(report, "{trial}"),
        None => Ok(()),
    }
}
