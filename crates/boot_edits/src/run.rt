//! Runs of edits over a machine's variables.

ghost use Rattle.std.specs.Prelude.{◌≡◌, ◌≢◌, IfOk, IfErr};
ghost use Rattle.boot_journal.specs.Cause.{IfRefused};
ghost use Rattle.boot_edits.specs.declared.fault.EditFault.{EditFault};
ghost use Rattle.boot_edits.specs.Edit.{IsEdited};
ghost use Rattle.boot_edits.specs.Run.{IsEditRefusal};

use crate::answer::EditAnswer;
use crate::edit::{Edit, make_edit};
use crate::fault::EditFault;
use boot_journal::{
    CallError, Run, laws as journal_laws, with_attributes_or, without_attributes_or,
};
use std::alloc::{AllocError, Global};
use thiserror::Error;
use uefi_vars::Vars;

/// An edit that is run over a machine's variables, as by [`make_edit`]. It gives what that tells.
#[derive(Clone, Copy, Debug)]
pub struct EditRun<'a> {
    /// The edit.
    pub edit: Edit<'a>,
}

/// Why a run of an edit refuses what a machine keeps.
#[derive(Clone, Copy, Debug, PartialEq, Eq, Hash, Error)]
pub enum EditRunFault {
    /// The edit of the variables, without their attributes, isn't made. The fault is never [`EditFault::OutOfMemory`].
    #[error("Edit {0}")]
    Edit(EditFault),
    /// Under the name of a variable of the boot manager there is no byte after its attributes.
    #[error("NoData")]
    NoData,
    /// With its attributes, the data that a variable of the boot manager would have after the edit has more than
    /// [`DATA_MAX`](uefi_vars::DATA_MAX) bytes.
    #[error("TooLong")]
    TooLong,
}

impl EditRunFault {
    ghost use Rattle.std.specs.String.{string_bytes};
    ghost use Rattle.boot_edits.specs.Words.{edit_run_fault_words};

    /// The fault's name and, after a blank, the words of the edit's fault. This fails only when out of memory.
    pub fn words(&self, alloc: Global) -> Result<String, AllocError>
        ensures { IfOk result (λ text. string_bytes text ≡ edit_run_fault_words self.now) }
    {
        match self {
            EditRunFault::Edit(fault) => {
                let words = fault.words(alloc)?;
                format!(in alloc; "Edit {words}")
            }
            EditRunFault::NoData => String::from_str(alloc, "NoData"),
            EditRunFault::TooLong => String::from_str(alloc, "TooLong"),
        }
    }
}

/// What an edit leads to over a machine's variables.
#[derive(Drop)]
pub struct EditedVars {
    /// The variables before it, without their attributes.
    pub from: Vars,
    /// The variables after it, without their attributes.
    pub to: Vars,
    /// The variables after it, as the machine is to keep them.
    pub kept: Vars,
    /// What the edit tells.
    pub answer: EditAnswer,
}

impl EditRun<'_> {
    ghost use Rattle.boot_journal.specs.Attributes.{data_of};
    ghost use Rattle.boot_edits.specs.Run.{IsRun, IsRunFault};

    /// Takes the attributes off the variables of the boot manager, edits what is left, and puts the attributes on again: a
    /// variable that is replaced has those that it had, and a new one has
    /// [`BOOT_ATTRIBUTES`](uefi_vars::BOOT_ATTRIBUTES).
    ///
    /// # Errors
    ///
    /// [`CallError::Refused`] with the fault that the edit or what the machine keeps has, and [`CallError::OutOfMemory`] if
    /// memory was refused.
    pub fn make(&self, alloc: Global, vars: &Vars) -> Result<EditedVars, CallError<EditRunFault>>
        ensures edited { IfOk result (λ led. IsRun self.now.edit vars.now led.kept led.answer) }
        ensures from { IfOk result (λ led. led.from ≡ data_of vars.now) }
        ensures to { IfOk result (λ led. led.to ≡ data_of led.kept) }
        ensures refused { IfErr result (λ error. IfRefused error (IsRunFault self.now.edit vars.now)) }
    {
        journal_laws::attributes_and_data_are_what_is_kept();
        let from = without_attributes_or(alloc, vars, EditRunFault::NoData)?;
        let (to, answer) = edited(alloc, &from, &self.edit)?;
        let kept = with_attributes_or(alloc, &to, vars, EditRunFault::TooLong)?;
        Ok(EditedVars {
            from,
            to,
            kept,
            answer,
        })
    }
}

impl Run for EditRun<'_> {
    ghost use Rattle.boot_edits.specs.Run.{IsRun, IsRunFault};

    type Answer = EditAnswer;

    type Fault = EditRunFault;

    ghost leads = { λ run from to answer. IsRun run.edit from to answer };

    ghost refuses = { λ run from fault. IsRunFault run.edit from fault };

    /// Makes the edit as [`EditRun::make`] does.
    fn run(
        self,
        alloc: Global,
        vars: &Vars,
    ) -> Result<(Vars, EditAnswer), CallError<EditRunFault>> {
        let EditedVars {
            from: _,
            to: _,
            kept,
            answer,
        } = self.make(alloc, vars)?;
        Ok((kept, answer))
    }
}

/// What becomes of variables by this edit.
fn edited(
    alloc: Global,
    vars: &Vars,
    wanted: &Edit<'_>,
) -> Result<(Vars, EditAnswer), CallError<EditRunFault>>
    ensures done { IfOk result (λ done. IsEdited vars.now wanted.now done.0 done.1) }
    ensures refused { IfErr result (λ error. IfRefused error (IsEditRefusal vars.now wanted.now)) }
{
    match make_edit(alloc, vars, wanted) {
        Ok(done) => Ok(done),
        Err(fault) => Err(edit_error(fault)),
    }
}

/// What it is to a run that an edit isn't made.
fn edit_error(fault: EditFault) -> CallError<EditRunFault>
    ensures { IfRefused result (λ reason.
        (reason ≡ EditRunFault.Edit fault) × (fault ≢ EditFault.OutOfMemory)) }
{
    match fault {
        EditFault::OutOfMemory => CallError::OutOfMemory,
        fault => CallError::Refused(EditRunFault::Edit(fault)),
    }
}
