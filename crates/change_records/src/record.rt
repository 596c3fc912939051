//! Records of changes.

ghost use Rattle.std.specs.Prelude.{◌≡◌, IfOk};
ghost use Rattle.change_records.specs.BootPart.{IsBootPart};
ghost use Rattle.change_records.specs.Record.{record_parts};
ghost use Rattle.change_records.specs.Timeout.{has_timeout, with_timeout_of};

use crate::boot_part::boot_part;
use crate::timeout::or_timeout_of;
use machine_names::MachineName;
use std::alloc::{AllocError, Global};
use uefi_vars::{TIMEOUT, Vars, laws as vars_laws};

/// One change of a machine's boot variables.
#[derive(Debug, Drop)]
pub struct Record {
    /// The name of the machine.
    pub machine: MachineName,
    /// When the change was made: how many seconds after 1970-01-01T00:00:00Z.
    pub time: u64,
    /// The words of the command that made it.
    pub words: Vec<String>,
    /// The boot manager's variables before it (Boot####, BootOrder, BootNext, Timeout; UEFI 2.10, 3.3), as a machine
    /// keeps them: under each name four bytes of attributes and then the data.
    pub before: Vars,
    /// Those after it.
    pub after: Vars,
}

impl Record {
    /// The record of a change of what a machine keeps, from what it was before to what it is to be after it. Of both only
    /// the boot manager's variables (Boot####, BootOrder, BootNext, Timeout; UEFI 2.10, 3.3) are in the record.
    ///
    /// # Errors
    ///
    /// [`AllocError`] if memory was refused.
    pub fn new(
        alloc: Global,
        machine: MachineName,
        time: u64,
        words: Vec<String>,
        before: &Vars,
        after: &Vars,
    ) -> Result<Record, AllocError>
        ensures kept { IfOk result (λ r. (r.machine ≡ machine) × (r.time ≡ time) × (r.words ≡ words)) }
        ensures before { IfOk result (λ r. IsBootPart before.now r.before) }
        ensures after { IfOk result (λ r. IsBootPart after.now r.after) }
    {
        Ok(Record {
            machine,
            time,
            words,
            before: boot_part(alloc, before)?,
            after: boot_part(alloc, after)?,
        })
    }

    /// The record beside the variables that are there now. If it has no Timeout before the change and none after it, it is one
    /// of a version that kept none, or the machine had none: the change left it alone, so the one that is there now was there
    /// before and after.
    ///
    /// # Errors
    ///
    /// [`AllocError`] if memory was refused.
    pub fn with_timeout_of(self, now: &Vars) -> Result<Record, AllocError>
        ensures { IfOk result (λ r. record_parts r ≡ with_timeout_of now.now (record_parts self)) }
    {
        let Record {
            machine,
            time,
            words,
            before,
            after,
        } = self;
        if has_timeout(&before) || has_timeout(&after) {
            return Ok(Record {
                machine,
                time,
                words,
                before,
                after,
            });
        }
        Ok(Record {
            machine,
            time,
            words,
            before: or_timeout_of(before, now)?,
            after: or_timeout_of(after, now)?,
        })
    }
}

/// Whether there is a Timeout.
fn has_timeout(vars: &Vars) -> bool
    ensures { result ≡ has_timeout vars.now }
{
    vars_laws::constants_are_those_of_the_definitions();
    vars.get(TIMEOUT).is_some()
}
