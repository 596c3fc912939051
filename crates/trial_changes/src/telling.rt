//! What is told of trials.

use boot_texts::{TrialStanding, TrialView, changes_text, trial_json, trial_line};
use boot_trials::Outcome;
use std::alloc::{AllocError, Global};
use wanted_changes::SetChange;

/// How a trial is told.
#[derive(Clone, Copy, Debug, PartialEq, Eq)]
pub enum TrialForm {
    /// As lines for a person.
    Lines,
    /// As JSON.
    Json,
}

/// What there is to tell of a trial of which this came, and of which what follows is made.
pub(crate) fn standing_of(outcome: Outcome) -> TrialStanding {
    match outcome {
        Outcome::CameUp => TrialStanding::Confirmed,
        Outcome::TooEarly => TrialStanding::Open,
        Outcome::Changed => TrialStanding::Changed,
        Outcome::Failed { .. } => TrialStanding::Failed,
        Outcome::Interrupted => TrialStanding::Interrupted,
        Outcome::Done => TrialStanding::Done,
    }
}

/// Whether something may be changed for a trial of which this is told.
fn changes_some(standing: TrialStanding) -> bool {
    matches!(standing, TrialStanding::Begun | TrialStanding::Confirmed)
}

/// Tells a trial in this form: as a line, or as an object of JSON on one.
///
/// # Errors
///
/// [`AllocError`] if memory was refused.
pub(crate) fn told_trial(
    alloc: Global,
    form: TrialForm,
    trial: TrialView,
) -> Result<String, AllocError> {
    match form {
        TrialForm::Lines => trial_line(alloc, trial),
        TrialForm::Json => trial_json(alloc, trial),
    }
}

/// Tells a trial in this form, and then what is changed for it, as `diff` does, if something may be.
///
/// # Errors
///
/// [`AllocError`] if memory was refused.
pub(crate) fn trial_text(
    alloc: Global,
    form: TrialForm,
    trial: TrialView,
    change: SetChange<'_>,
) -> Result<String, AllocError> {
    let mut text = told_trial(alloc, form, trial)?;
    if changes_some(trial.standing) {
        let json = form == TrialForm::Json;
        text.push_str(&changes_text(alloc, change.from, change.to, json)?)?;
    }
    Ok(text)
}

/// Tells in this form that there is no trial: a line `no trial`, or an object of JSON on one.
///
/// # Errors
///
/// [`AllocError`] if memory was refused.
pub(crate) fn no_trial(alloc: Global, form: TrialForm) -> Result<String, AllocError> {
    let trial = TrialView {
        standing: TrialStanding::Nothing,
        entry: None,
        current: None,
    };
    told_trial(alloc, form, trial)
}
