//! What came of trials.

ghost use Rattle.std.specs.Prelude.{◌≡◌, ◌≢◌, ◌↔◌, ℕ, List, Some, IfOk, IsTrue};
ghost use Rattle.boot_trials.specs.Outcome.{IsOutcome, IsFirst, IsTried, digest_of};
ghost use Rattle.boot_trials.specs.declared.stage.Stage.TheVariants as stage;

use crate::current::boot_next;
use crate::stage::Stage;
use crate::trial::{DIGEST_LEN, Trial};
use boot_journal::BootId;
use sha2::{Digest, Sha256};
use std::alloc::{AllocError, Global};
use uefi_vars::{VarFault, Vars, boot_order, laws as vars_laws};

/// What is seen of a machine, by which it is told what came of a trial.
#[derive(Clone, Copy, Debug)]
pub struct Facts<'a> {
    /// The identity of its start.
    pub start: &'a BootId,
    /// The entry by which it came up, if that is known.
    pub current: Option<u16>,
    /// Its variables, without attributes.
    pub vars: &'a Vars,
}

/// What came of a trial.
#[derive(Clone, Copy, Debug, PartialEq, Eq, Hash)]
pub enum Outcome {
    /// Nothing as yet: firmware hasn't tried the entry, since the machine wasn't started since the trial began, or BootNext still
    /// names the entry.
    TooEarly,
    /// The machine came up by the entry, whose data is what it was.
    CameUp,
    /// The machine came up by the entry, whose data is other than it was, or which isn't there any more.
    Changed,
    /// The machine came up by another entry.
    Failed {
        /// The entry, if it is known.
        by: Option<u16>,
    },
    /// The machine had come up by the entry, and what followed was cut off: the entry isn't first in BootOrder.
    Interrupted,
    /// The machine had come up by the entry, which is first in BootOrder since.
    Done,
}

/// What came of this trial, by these facts.
///
/// # Errors
///
/// [`AllocError`] if memory was refused.
pub fn outcome_of(alloc: Global, trial: &Trial, facts: &Facts<'_>) -> Result<Outcome, AllocError>
    ensures { IfOk result (IsOutcome trial.now facts.now.start.now facts.now.current facts.now.vars.now) }
{
    match trial.stage {
        Stage::Open => Ok(open_outcome(trial, facts)),
        Stage::Confirming => Ok(if is_first(alloc, facts.vars, trial.entry)? {
            Outcome::Done
        } else {
            Outcome::Interrupted
        }),
    }
}

/// What came of a trial that is open.
fn open_outcome(trial: &Trial, facts: &Facts<'_>) -> Outcome
    requires { trial.now.stage ≡ stage.Open }
    ensures { IsOutcome trial.now facts.now.start.now facts.now.current facts.now.vars.now result }
{
    if !is_tried(trial, facts) {
        Outcome::TooEarly
    } else if facts.current != Some(trial.entry) {
        Outcome::Failed { by: facts.current }
    } else if digest_of(facts.vars, trial.entry) == Some(trial.digest) {
        Outcome::CameUp
    } else {
        Outcome::Changed
    }
}

/// Whether firmware has tried the entry.
fn is_tried(trial: &Trial, facts: &Facts<'_>) -> bool
    ensures { IsTrue result ↔ IsTried trial.now facts.now.start.now facts.now.vars.now }
{
    !is_same_start(facts.start, &trial.start) && boot_next(facts.vars) != Some(trial.entry)
}

/// Whether the two are one start.
fn is_same_start(a: &BootId, b: &BootId) -> bool
    ensures { IsTrue result ↔ (a.now ≡ b.now) }
{
    a.as_str() == b.as_str()
}

/// The SHA-256 of the data of the entry of this number, if it is there.
pub(crate) fn digest_of(vars: &Vars, number: u16) -> Option<[u8; DIGEST_LEN]>
    ensures { result ≡ digest_of vars.now number }
{
    let data = vars.entry(number)?;
    Some(Sha256::digest(data))
}

/// Whether the entry of this number is first in BootOrder. One that can't be read has no first.
fn is_first(alloc: Global, vars: &Vars, number: u16) -> Result<bool, AllocError>
    ensures { IfOk result (λ first. IsTrue first ↔ IsFirst vars.now number) }
{
    vars_laws::variables_have_one_order();
    vars_laws::a_bad_order_gives_no_order();
    match boot_order(alloc, vars) {
        Ok(order) => Ok(order.first() == Some(&number)),
        Err(VarFault::BadOrder) => Ok(false),
        Err(_) => Err(AllocError),
    }
}
