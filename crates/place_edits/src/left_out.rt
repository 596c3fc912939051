//! Changes of variables that no set can hold, and that so stay as they are.

ghost use Rattle.std.specs.Prelude.{◌↔◌, All, Contains, map, IfSome, IfNone, IsTrue};
ghost use Rattle.std.specs.String.{string_bytes};
ghost use Rattle.place_edits.specs.LeftOut.{IsTouched};

use crate::voice::Voice;
use boot_edits::{Edit, Position};
use messages::Failure;
use std::alloc::Global;
use uefi_vars::{BOOT_NEXT, BOOT_ORDER, NameIn, TIMEOUT, laws as vars_laws};
use wanted_changes::{LEFT_OUT, is_one_of};

/// Refuses a change of one of the variables of these names, which no set can hold, in the place of this name, in these words.
///
/// # Errors
///
/// [`Failure::Run`] with the first such variable, and [`Failure::Memory`] if memory was refused.
pub(crate) fn check_edit(
    alloc: Global,
    (place, voice): (&str, Voice),
    edit: &Edit<'_>,
    left_out: &[String],
) -> Result<(), Failure> {
    let Some(variable) = changed_by(edit, left_out) else {
        return Ok(());
    };
    let name = NameIn(voice.family(), variable);
    let fault = format!(in alloc; "{name} {LEFT_OUT}")?;
    Err(Failure::from_run(alloc, place, fault.as_str()))
}

/// The first of these variables that the edit would change, or name.
fn changed_by<'a>(edit: &Edit<'_>, left_out: &'a [String]) -> Option<&'a str>
    ensures some { IfSome result (λ name. Contains (map string_bytes left_out.now) name.now × IsTouched edit.now name.now) }
    ensures none { IfNone result (All (λ name. ¬ IsTouched edit.now (string_bytes name)) left_out.now) }
{
    left_out
        .iter()
        .map(String::as_str)
        .find(|name| touches(edit, name))
}

/// Whether the edit changes the variable of this name, or names its entry. One that makes an entry passes taken numbers over.
fn touches(edit: &Edit<'_>, name: &str) -> bool
    ensures { IsTrue result ↔ IsTouched edit.now name.now }
{
    vars_laws::constants_are_those_of_the_definitions();
    match edit {
        Edit::Add(addition) => addition.position != Position::NoOrder && name == BOOT_ORDER,
        Edit::Remove(entries) => {
            is_one_of(entries, name) || name == BOOT_ORDER || name == BOOT_NEXT
        }
        Edit::First(entries) => is_one_of(entries, name) || name == BOOT_ORDER,
        Edit::Order(new) => is_one_of(new.entries, name) || name == BOOT_ORDER,
        Edit::Unrepeat => name == BOOT_ORDER,
        Edit::Next(Some(entry)) => is_one_of(&[*entry], name) || name == BOOT_NEXT,
        Edit::Next(None) => name == BOOT_NEXT,
        Edit::Timeout(_) => name == TIMEOUT,
        Edit::Activate(entries) | Edit::Deactivate(entries) => is_one_of(entries, name),
    }
}
