//! Laws of the definitions. Each function's contract is one law; calling it does nothing.

ghost use Rattle.std.specs.Prelude.{◌≡◌};
ghost use Rattle.machine_names.specs.MachineName.{machine_name_max};

use crate::machine_name::MACHINE_NAME_MAX;

/// The constants have the values of the definitions.
pub fn constants_are_those_of_the_definitions()
    ensures machine_name_max { MACHINE_NAME_MAX ≡ machine_name_max }
{}
