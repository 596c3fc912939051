//! The entries that variables name: that by which a machine came up, and that which its next start tries first.

ghost use Rattle.std.specs.Prelude.{◌≡◌};
ghost use Rattle.boot_trials.specs.Outcome.{current_of, next_of, number_in};

use uefi_vars::{BOOT_NEXT, Vars, laws as vars_laws};

/// The variable with the number of the entry by which the machine came up.
const BOOT_CURRENT: &str = "BootCurrent";

/// The number of the entry by which the machine came up, as BootCurrent tells it in two bytes, little-endian (UEFI 2.10, 3.3):
/// `None` if it isn't there or has another number of bytes.
pub fn boot_current(vars: &Vars) -> Option<u16>
    ensures { result ≡ current_of vars.now }
{
    number_in(vars.get(BOOT_CURRENT)?)
}

/// The number of the entry that the next start tries first, as BootNext tells it in two bytes, little-endian (UEFI 2.10, 3.3):
/// `None` if it isn't there or has another number of bytes.
pub(crate) fn boot_next(vars: &Vars) -> Option<u16>
    ensures { result ≡ next_of vars.now }
{
    vars_laws::constants_are_those_of_the_definitions();
    number_in(vars.get(BOOT_NEXT)?)
}

/// The number that these bytes are, if they are two.
fn number_in(data: &[u8]) -> Option<u16>
    ensures { result ≡ number_in data.now }
{
    match data {
        [low, high] => Some(u16::from_le_bytes([*low, *high])),
        _ => None,
    }
}
