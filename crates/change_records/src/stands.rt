//! How a change stands that was recorded.

ghost use Rattle.std.specs.Prelude.{◌≡◌, IfOk};
ghost use Rattle.std.specs.FinMap.{remove};
ghost use Rattle.uefi_vars.specs.Name.{next_text};
ghost use Rattle.change_records.specs.Record.{record_parts};
ghost use Rattle.change_records.specs.BootPart.{IsStanding, IsUsedStanding, as_used};

use crate::boot_part::boot_part;
use crate::record::Record;
use std::alloc::{AllocError, Global};
use uefi_vars::{BOOT_NEXT, Vars, laws as vars_laws};

/// What the boot manager's variables are now, beside a record of a change.
#[derive(Clone, Copy, Debug, PartialEq, Eq)]
pub enum Standing {
    /// They are those after the change: it can be undone. A BootNext may be gone, which a start uses.
    Unchanged,
    /// They are those before the change, perhaps but for such a BootNext, and not those after it: it was cut off before it
    /// was made, or was taken back; or it only set a BootNext, which was used.
    NotMade,
    /// They are neither: something else has changed them since.
    Changed,
}

/// What a machine's variables of the boot manager (Boot####, BootOrder, BootNext, Timeout; UEFI 2.10, 3.3) are now, beside
/// a record of a change. `now` is all that the machine keeps; other variables of it don't matter.
///
/// # Errors
///
/// [`AllocError`] if memory was refused.
pub fn standing_of(alloc: Global, record: &Record, now: &Vars) -> Result<Standing, AllocError>
    ensures { IfOk result (IsStanding (record_parts «record».now) now.now) }
{
    let part = boot_part(alloc, now)?;
    if part == record.after {
        Ok(Standing::Unchanged)
    } else if part == record.before {
        Ok(Standing::NotMade)
    } else {
        let standing = used_standing(alloc, record, &part)?;
        Ok(standing)
    }
}

/// The same of the boot manager's variables, if a start may have used a BootNext of those after the change, or before it.
fn used_standing(alloc: Global, record: &Record, part: &Vars) -> Result<Standing, AllocError>
    ensures { IfOk result (IsUsedStanding (record_parts «record».now) part.now) }
{
    let after = as_used(alloc, part, &record.after)?;
    let before = as_used(alloc, part, &record.before)?;
    if *part == after {
        Ok(Standing::Unchanged)
    } else if *part == before {
        Ok(Standing::NotMade)
    } else {
        Ok(Standing::Changed)
    }
}

/// The second variables, without a BootNext if the first have none (UEFI 2.10, 3.3): what a start leaves of them that uses
/// BootNext, and changes nothing else.
///
/// # Errors
///
/// [`AllocError`] if memory was refused.
pub fn as_used(alloc: Global, now: &Vars, vars: &Vars) -> Result<Vars, AllocError>
    ensures { IfOk result (λ used. used ≡ as_used now.now vars.now) }
{
    vars_laws::constants_are_those_of_the_definitions();
    let used = vars.copy(alloc)?;
    match now.get(BOOT_NEXT) {
        Some(_) => Ok(used),
        None => Ok(without_next(used)),
    }
}

/// The variables without BootNext.
pub(crate) fn without_next(vars: Vars) -> Vars
    ensures { result ≡ remove vars next_text }
{
    vars_laws::constants_are_those_of_the_definitions();
    let mut vars = vars;
    vars.remove(BOOT_NEXT);
    vars
}
