//! Trials that are ended without a change.

use crate::telling::{TrialForm, no_trial, told_trial};
use crate::trial_file::{forget_trial, stored_trial};
use boot_texts::{TrialStanding, TrialView};
use messages::Failure;
use std::rt::Files;

/// Ends the trial that is kept in the state folder at this path, whatever came of it, and also a damaged one. No variable is
/// changed. Gives what is told of that in this form. The caller keeps others from the folder.
///
/// # Errors
///
/// [`Failure::Read`] and [`Failure::Write`] if it can't be read or taken away, and [`Failure::Memory`] if memory was refused.
pub(crate) fn end_stored<R: Files + AllocGlobal>(
    rt: &R,
    state: &str,
    form: TrialForm,
) -> Result<String, Failure> {
    let alloc = rt.alloc();
    let Some(kept) = kept_trial(rt, state)? else {
        return Ok(no_trial(alloc, form)?);
    };
    let trial = TrialView {
        standing: TrialStanding::Ended,
        entry: kept.entry,
        current: None,
    };
    let text = told_trial(alloc, form, trial)?;
    forget_trial(rt, state)?;
    Ok(text)
}

/// A trial that is kept.
#[derive(Clone, Copy)]
struct KeptTrial {
    /// The number of its entry, unless it is damaged.
    entry: Option<u16>,
}

/// The trial that is kept in the state folder at this path, if there is one.
fn kept_trial<R: Files + AllocGlobal>(rt: &R, state: &str) -> Result<Option<KeptTrial>, Failure> {
    match stored_trial(rt, state) {
        Ok(None) => Ok(None),
        Ok(Some(trial)) => Ok(Some(KeptTrial {
            entry: Some(trial.entry()),
        })),
        Err(failure) => {
            if matches!(failure, Failure::Refused { .. }) {
                Ok(Some(KeptTrial { entry: None }))
            } else {
                Err(failure)
            }
        }
    }
}
