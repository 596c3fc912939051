//! The numbers that no entry has.

ghost use Rattle.uefi_vars.specs.Vars.{IsVars, entry_of};
ghost use Rattle.uefi_vars.specs.Free.{IsLowestFreeIfAny};

use crate::name::entry_number;
use crate::vars::Vars;

/// The least number under which no entry is stored (UEFI 2.10, 3.3), or `None` if all of 0x0000 to 0xFFFF are taken. A
/// number is taken by the variable `Boot####` (3.1.1), whatever its data is. The call takes no memory, and goes over
/// the variables once.
pub fn lowest_free(vars: &Vars) -> Option<u16>
    ensures free { IsLowestFreeIfAny (entry_of vars.now) result }
    ensures valid { IsVars vars.now }
{
    let mut free = 0;
    // The names of entries rise with their numbers, so the entry of the next number can't have come before.
    for variable in vars.variables() {
        if entry_number(variable.name.as_str()) == Some(free) {
            free = free.checked_add(1)?;
        }
    }
    Some(free)
}
