//! What was there before a change, kept so that the change can be undone.

ghost use Rattle.std.specs.Prelude.{◌≡◌, ◌≢◌, ◌↔◌, [], IsTrue, IfOk, IfErr};
ghost use Rattle.uefi_vars.specs.BootChange.{changes_from};
ghost use Rattle.boot_journal.specs.Cause.{IfRefused};

use boot_history::{newest, push, remove, time_now};
use boot_journal::CallError;
use change_records::{Record, Standing, standing_of};
use machine_names::MachineName;
use machine_storage::copies;
use messages::Failure;
use std::alloc::{AllocError, Global};
use std::rt::{Clock, Files};
use uefi_vars::{Vars, boot_changes};
use whole_files::OutputFile;

/// Where what was there before the changes of a machine is kept, and by which words a change is told.
#[derive(Clone, Copy, Debug)]
pub(crate) struct History<'a, 'm> {
    /// The path of the state folder, which is locked.
    pub(crate) state: &'a str,
    /// The machine.
    pub(crate) machine: &'m MachineName,
    /// The words of the command: `None` if nothing is kept of the change.
    pub(crate) command: Option<&'a [String]>,
}

impl History<'_, '_> {
    /// Keeps what the machine keeps before and after a change that is yet to be made, unless nothing is to be kept of it, or
    /// it changes none of the boot manager's variables.
    ///
    /// # Errors
    ///
    /// [`CallError::Refused`] if there is a change: with [`Failure::Read`] and [`Failure::Write`] with the system's reason, and
    /// with [`Failure::Refused`] if it would be too long. [`CallError::OutOfMemory`] if memory was refused.
    pub(crate) fn keep<R: Files<File: OutputFile> + Clock + AllocGlobal>(
        &self,
        rt: &R,
        from: &Vars,
        to: &Vars,
    ) -> Result<(), CallError<Failure>>
        ensures { IfErr result (λ error. IfRefused error (λ _. changes_from from.now to.now ≢ [])) }
    {
        let Some(command) = self.command else {
            return Ok(());
        };
        if !changes_some(rt.alloc(), from, to)? {
            return Ok(());
        }
        match self.keep_change(rt, command, (from, to)) {
            Ok(()) => Ok(()),
            Err(Failure::Memory) => Err(CallError::OutOfMemory),
            Err(failure) => Err(CallError::Refused(failure)),
        }
    }

    /// Keeps what the machine keeps before and after a change.
    fn keep_change<R: Files<File: OutputFile> + Clock + AllocGlobal>(
        &self,
        rt: &R,
        command: &[String],
        (from, to): (&Vars, &Vars),
    ) -> Result<(), Failure> {
        let alloc = rt.alloc();
        let time = time_now(rt)?;
        let machine = same_name(alloc, self.machine)?;
        let command = copies(alloc, command)?;
        let record = Record::new(alloc, machine, time, command, from, to)?;
        push(rt, self.state, &record)?;
        Ok(())
    }

    /// Takes out what was kept of a change that was taken back, which left what the machine keeps now.
    ///
    /// # Errors
    ///
    /// [`Failure::Read`] and [`Failure::Write`] with the system's reason, [`Failure::Refused`] if something that is kept is
    /// damaged, and [`Failure::Memory`] if memory was refused.
    pub(crate) fn forget_unmade<R: Files<File: OutputFile> + AllocGlobal>(
        &self,
        rt: &R,
        now: &Vars,
    ) -> Result<(), Failure> {
        if self.command.is_none() {
            return Ok(());
        }
        let Some(kept) = newest(rt, self.state, self.machine)? else {
            return Ok(());
        };
        match standing_of(rt.alloc(), &kept.record, now)? {
            Standing::NotMade => remove(rt, self.state, kept.number),
            Standing::Unchanged | Standing::Changed => Ok(()),
        }
    }
}

/// Whether a change from the one set to the other changes some of the boot manager's variables. This fails only when out of
/// memory.
fn changes_some(alloc: Global, from: &Vars, to: &Vars) -> Result<bool, AllocError>
    ensures { IfOk result (λ some. IsTrue some ↔ (changes_from from.now to.now ≢ [])) }
{
    Ok(!boot_changes(alloc, from, to)?.is_empty())
}

/// The same name. This fails only when out of memory.
fn same_name(alloc: Global, name: &MachineName) -> Result<MachineName, AllocError> {
    MachineName::new(Vec::from_slice(alloc, name.as_bytes())?).ok_or(AllocError)
}
