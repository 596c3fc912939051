//! Values of variables in a set.

ghost use Rattle.std.specs.Prelude.{◌≡◌, OnOk};
ghost use Rattle.std.specs.Option.{option_map};
ghost use Rattle.uefi_vars.specs.NameChanges.{with_data};

use std::alloc::AllocError;
use uefi_vars::Vars;

/// Sets the variable to this value, or takes it out. Only memory can be refused: a journal has no name and no value that
/// a set can't hold.
pub fn set_value(vars: &mut Vars, name: &str, value: Option<&[u8]>) -> Result<(), AllocError>
    ensures { OnOk result (vars.new ≡ with_data vars.old name.now (option_map (λ b. b.now) value.entry)) }
{
    match value {
        Some(value) => vars.put(name, value).map_err(|_| AllocError),
        None => {
            vars.remove(name);
            Ok(())
        }
    }
}
