//! Variables of a machine that no set can hold.

ghost use Rattle.std.specs.Prelude.{◌≡◌, ◌↔◌, IsTrue, map};
ghost use Rattle.std.specs.String.{string_bytes};
ghost use Rattle.wanted_changes.specs.LeftOut.{IsOneOf, without_names};

use uefi_vars::{Vars, entry_number};

/// Why such a variable isn't changed, in words that go on from its name.
pub const LEFT_OUT: &str = "has no value or too long a one, and stays as it is";

/// Whether it is the name of one of these entries.
pub fn is_one_of(entries: &[u16], name: &str) -> bool
    ensures { IsTrue result ↔ IsOneOf entries.now name.now }
{
    match entry_number(name) {
        Some(number) => entries.contains(&number),
        None => false,
    }
}

/// Takes the variables of these names out.
pub fn leave_out(vars: &mut Vars, names: &[String])
    ensures { vars.new ≡ without_names vars.old (map string_bytes names.now) }
{
    for name in names {
        vars.remove(name.as_str());
    }
}
