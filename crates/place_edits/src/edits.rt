//! Edits that are wanted of a machine.

use crate::edit_remarks::told_of;
use crate::fault_words::from_edit_run_in;
use crate::left_out::check_edit;
use crate::voice::Voice;
use boot_edits::{Edit, EditAnswer, EditRun, EditRunFault, EditedVars};
use boot_journal::CallError;
use messages::Failure;
use std::alloc::Global;
use uefi_vars::{EntryFamily, Vars};
use wanted_changes::{Led, Seen, SetChange, Sets, Told, Wanted};

/// How an edit is printed: the name of an entry that is added, and then what differs, as `diff` has it.
#[derive(Clone, Copy, Debug, PartialEq, Eq)]
pub enum EditForm {
    /// Not at all: standard error is told in the words of `efibootmgr`, of entries of this family, and which of the boot
    /// manager's are left in no order.
    Silent(EntryFamily),
    /// As lines.
    Lines,
    /// As JSON.
    Json,
}

impl EditForm {
    /// Whose words it is told in.
    pub(crate) fn voice(self) -> Voice {
        match self {
            EditForm::Silent(family) => Voice::Efibootmgr(family),
            EditForm::Lines | EditForm::Json => Voice::Bootvars,
        }
    }
}

/// An edit that is wanted of a machine. Standard error is told what it loses and repairs.
#[derive(Clone, Copy, Debug)]
pub struct WantedEdit<'a> {
    /// The path of the machine's place.
    pub place: &'a str,
    /// What is to be changed.
    pub edit: Edit<'a>,
    /// How it is printed.
    pub form: EditForm,
}

impl Wanted for WantedEdit<'_> {
    ghost use Rattle.boot_edits.specs.Run.{IsRun, IsRunFault};

    type Answer = EditAnswer;

    type Fault = EditRunFault;

    type Refusal = Failure;

    ghost leads = { λ wanted seen from to answer. IsRun wanted.edit from to answer };

    ghost refuses = { λ wanted seen from fault. IsRunFault wanted.edit from fault };

    fn check(&self, alloc: Global, left_out: &[String]) -> Result<(), Failure> {
        check_edit(alloc, (self.place, self.form.voice()), &self.edit, left_out)
    }

    fn replaced(&self) -> Option<&Vars> {
        None
    }

    fn has_requests(&self) -> bool {
        false
    }

    fn run(
        &self,
        alloc: Global,
        _seen: &Seen<'_>,
        vars: &Vars,
    ) -> Result<Led<EditAnswer>, CallError<EditRunFault>> {
        let run = EditRun { edit: self.edit };
        let EditedVars {
            from,
            to,
            kept,
            answer,
        } = run.make(alloc, vars)?;
        Ok(Led {
            sets: Sets { from, to },
            kept,
            answer,
        })
    }

    fn tell(
        &self,
        alloc: Global,
        seen: &Seen<'_>,
        change: SetChange<'_>,
        answer: &EditAnswer,
    ) -> Result<Told, Failure> {
        Ok(told_of(alloc, self, seen.is_folder, change, *answer)?)
    }

    fn refusal(&self, alloc: Global, fault: EditRunFault) -> Failure {
        from_edit_run_in(alloc, self.place, self.form.voice(), fault)
    }

    fn end(&self, _answer: &EditAnswer) {}
}
