//! The boot variables of a set, wanted of a machine.

ghost use Rattle.std.specs.Prelude.{◌≡◌, IfOk, IfErr};
ghost use Rattle.boot_journal.specs.Attributes.{with_attributes};
ghost use Rattle.change_records.specs.Timeout.{or_timeout_of};
ghost use Rattle.boot_journal.specs.Cause.{IfRefused};
ghost use Rattle.place_edits.specs.Brought.{IsNoMemory};

use crate::brought::{brought, restored};
use crate::takeable::{Takeable, check_numbers, remark_missing};
use crate::unnamed::remark_unnamed;
use boot_journal::{AttributesFault, CallError, with_attributes};
use boot_texts::{change_report, changes_text};
use change_records::or_timeout_of;
use messages::Failure;
use std::alloc::{AllocError, Global};
use uefi_vars::{KEEP_STATE, Vars, boot_changes};
use wanted_changes::{Led, Remarks, Seen, SetChange, Told, Wanted, sets_of};

/// The boot variables of a set, wanted of a machine, whose Timeout stays if the set has none. Entries that would have to be
/// stored in a folder and that firmware refuses are left out, which standard error is told. What is printed is each change, and
/// standard error is told which entries are in no order then and weren't so before; or, as JSON or for a dry run, all that `diff`
/// has.
#[derive(Clone, Copy)]
pub struct WantedSet<'a> {
    /// What the set is called.
    pub name: &'a str,
    /// The set.
    pub set: &'a Vars,
    /// The path of the machine's place.
    pub place: &'a str,
    /// Whether the place is a set file, and so no machine's.
    pub into_set_file: bool,
    /// Whether JSON is printed.
    pub json: bool,
}

impl Wanted for WantedSet<'_> {
    ghost use Rattle.std.specs.Prelude.{map};
    ghost use Rattle.std.specs.String.{string_bytes};
    ghost use Rattle.place_edits.specs.Brought.{IsWritten, IsNoMemory};

    type Answer = Takeable;

    type Fault = Failure;

    type Refusal = Failure;

    ghost leads = { λ wanted seen from to brought.
        IsWritten (map string_bytes seen.left_out.now) wanted.set.now from to brought };

    ghost refuses = { λ wanted seen from failure. IsNoMemory failure };

    fn check(&self, _alloc: Global, _left_out: &[String]) -> Result<(), Failure> {
        Ok(())
    }

    fn replaced(&self) -> Option<&Vars> {
        Some(self.set)
    }

    fn has_requests(&self) -> bool {
        false
    }

    /// Gives each variable of the set the attributes that it has on the machine, and brings those that firmware takes.
    fn run(
        &self,
        alloc: Global,
        seen: &Seen<'_>,
        vars: &Vars,
    ) -> Result<Led<Takeable>, CallError<Failure>> {
        let wanted = self.wanted(alloc, vars)?;
        let brought = brought(alloc, seen, vars, wanted)?;
        self.check_brought(alloc, seen, vars, &brought.vars)?;
        let kept = restored(alloc, vars, &brought.vars)?;
        match sets_of(alloc, self.place, vars, &kept) {
            Ok(sets) => Ok(Led {
                sets,
                kept,
                answer: brought,
            }),
            Err(failure) => Err(call_error(failure)),
        }
    }

    fn tell(
        &self,
        alloc: Global,
        _seen: &Seen<'_>,
        change: SetChange<'_>,
        brought: &Takeable,
    ) -> Result<Told, Failure> {
        let mut remarks = self.remarks(alloc, &brought.missing)?;
        if self.json || change.is_coming {
            return Ok(Told {
                text: changes_text(alloc, change.from, change.to, self.json)?,
                remarks,
            });
        }
        remark_unnamed(alloc, &mut remarks, self.place, change)?;
        Ok(Told {
            text: change_lines(alloc, change)?,
            remarks,
        })
    }

    fn refusal(&self, _alloc: Global, fault: Failure) -> Failure {
        fault
    }

    fn end(&self, _brought: &Takeable) {}
}

impl WantedSet<'_> {
    /// The set with the attributes of what the machine keeps, and its Timeout if the set has none.
    fn wanted(&self, alloc: Global, vars: &Vars) -> Result<Vars, CallError<Failure>>
        ensures wanted { IfOk result (λ wanted. wanted ≡ or_timeout_of vars.now (with_attributes vars.now self.now.set.now)) }
        ensures refused { IfErr result (λ error. IfRefused error IsNoMemory) }
    {
        match with_attributes(alloc, self.set, vars) {
            Ok(wanted) => {
                let wanted = or_timeout_of(wanted, vars)?;
                Ok(wanted)
            }
            Err(AttributesFault::OutOfMemory) => Err(CallError::OutOfMemory),
            Err(fault) => Err(call_error(self.too_long(alloc, fault))),
        }
    }

    /// What it is to the program that a variable of the set has no room for attributes.
    fn too_long(&self, alloc: Global, fault: AttributesFault) -> Failure {
        Failure::from_fault(alloc, self.name, fault)
    }

    /// Refuses to bring what firmware refuses.
    fn check_brought(
        &self,
        alloc: Global,
        seen: &Seen<'_>,
        vars: &Vars,
        brought: &Vars,
    ) -> Result<(), CallError<Failure>>
        ensures { IfErr result (λ error. IfRefused error IsNoMemory) }
    {
        if !seen.is_folder {
            return Ok(());
        }
        match check_numbers(alloc, self.name, vars, brought) {
            Ok(()) => Ok(()),
            Err(failure) => Err(call_error(failure)),
        }
    }

    /// What standard error is told of the set, of which these entries are left out.
    fn remarks(&self, alloc: Global, missing: &[u16]) -> Result<Remarks, AllocError> {
        let mut remarks = Remarks::new(alloc);
        if !self.into_set_file && self.set.get(KEEP_STATE).is_some() {
            remarks.push(
                self.name,
                format!(in alloc; "{KEEP_STATE} stays here, since firmware refuses it")?,
            )?;
        }
        remark_missing(alloc, &mut remarks, self.name, (self.set, missing))?;
        Ok(remarks)
    }
}

/// What it is to a run that something failed.
fn call_error(failure: Failure) -> CallError<Failure>
    ensures { IfRefused result IsNoMemory }
{
    match failure {
        Failure::Memory => CallError::OutOfMemory,
        failure => CallError::Refused(failure),
    }
}

/// The lines of the changes from the one set to the other.
fn change_lines(alloc: Global, change: SetChange<'_>) -> Result<String, AllocError> {
    let mut lines = String::new(alloc);
    for change in &boot_changes(alloc, change.from, change.to)? {
        lines.push_str(&change_report(alloc, change)?)?;
    }
    Ok(lines)
}
