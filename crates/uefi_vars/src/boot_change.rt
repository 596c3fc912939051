//! What changes of the boot manager's variables from one set to another.

ghost use Rattle.std.specs.Prelude.{◌≡◌, ◌++◌, map, IfOk, OnOk};
ghost use Rattle.uefi_vars.specs.BootChange.{change_parts, same_name, is_entry_name, is_boot_name, differs, put_names, removed_names, if_differs, change_under, changes_from};

use crate::laws;
use crate::name::{BOOT_NEXT, BOOT_ORDER, TIMEOUT, entry_number};
use crate::vars::Vars;
use std::alloc::{AllocError, Global};

/// A change of one variable of the boot manager: Boot####, BootOrder, BootNext or Timeout (UEFI 2.10, 3.3).
#[derive(Clone, Copy, Debug)]
pub struct BootChange<'a> {
    /// The variable's name, in ASCII.
    pub name: &'a str,
    /// Its data before the change: `None` if it wasn't there, and is new.
    pub before: Option<&'a [u8]>,
    /// Its data after the change: `None` if it is taken out.
    pub after: Option<&'a [u8]>,
}

/// The changes that make the boot manager's variables of the one set those of the other, each of another variable: the
/// entries that are new or have new data, in the order of their numbers, then BootOrder, BootNext and Timeout, and then
/// the entries that are taken out, in the order of their numbers (UEFI 2.10, 3.3). Variables of other names, `BootKeepState`
/// among them, are left alone. Names and data are those of the sets, and aren't copied.
///
/// # Errors
///
/// [`AllocError`] if memory was refused.
pub fn boot_changes<'a>(
    alloc: Global,
    from: &'a Vars,
    to: &'a Vars,
) -> Result<Vec<BootChange<'a>>, AllocError>
    ensures { IfOk result (λ changes. map change_parts changes.items ≡ changes_from from.now to.now) }
{
    laws::constants_are_those_of_the_definitions();
    let mut changes = Vec::new(alloc);
    push_puts(&mut changes, from, to)?;
    push_single(&mut changes, from, to, BOOT_ORDER)?;
    push_single(&mut changes, from, to, BOOT_NEXT)?;
    push_single(&mut changes, from, to, TIMEOUT)?;
    push_removals(&mut changes, from, to)?;
    Ok(changes)
}

/// Appends the entries that are new, or have new data.
fn push_puts<'a>(
    changes: &mut Vec<BootChange<'a>>,
    from: &'a Vars,
    to: &'a Vars,
) -> Result<(), AllocError>
    ensures { OnOk result (map change_parts changes.new.items
        ≡ map change_parts changes.old.items ++ map (change_under from.now to.now) (put_names from.now to.now)) }
{
    for (name, _data) in to.iter() {
        if is_entry(name) && is_changed(from, to, name) {
            changes.push(change(from, to, name))?;
        }
    }
    Ok(())
}

/// Appends the entries that are taken out.
fn push_removals<'a>(
    changes: &mut Vec<BootChange<'a>>,
    from: &'a Vars,
    to: &'a Vars,
) -> Result<(), AllocError>
    ensures { OnOk result (map change_parts changes.new.items
        ≡ map change_parts changes.old.items ++ map (change_under from.now to.now) (removed_names from.now to.now)) }
{
    for (name, _data) in from.iter() {
        if is_entry(name) && to.get(name).is_none() {
            changes.push(change(from, to, name))?;
        }
    }
    Ok(())
}

/// Appends the variable of this name, if it is changed.
fn push_single<'a>(
    changes: &mut Vec<BootChange<'a>>,
    from: &'a Vars,
    to: &'a Vars,
    name: &'a str,
) -> Result<(), AllocError>
    ensures { OnOk result (map change_parts changes.new.items
        ≡ map change_parts changes.old.items ++ map (change_under from.now to.now) (if_differs from.now to.now name.now)) }
{
    if is_changed(from, to, name) {
        changes.push(change(from, to, name))?;
    }
    Ok(())
}

/// The change of the variable of this name.
fn change<'a>(from: &'a Vars, to: &'a Vars, name: &'a str) -> BootChange<'a>
    ensures { change_parts result ≡ change_under from.now to.now name.now }
{
    BootChange {
        name,
        before: from.get(name),
        after: to.get(name),
    }
}

/// Whether it is the name of an entry.
fn is_entry(name: &str) -> bool
    ensures { result ≡ is_entry_name name.now }
{
    entry_number(name).is_some()
}

/// Whether it is the name of a variable of the boot manager: Boot####, BootOrder, BootNext or Timeout (UEFI 2.10, 3.3).
pub fn is_boot_name(name: &str) -> bool
    ensures { result ≡ is_boot_name name.now }
{
    laws::constants_are_those_of_the_definitions();
    is_entry(name)
        || is_same(name, BOOT_ORDER)
        || is_same(name, BOOT_NEXT)
        || is_same(name, TIMEOUT)
}

/// Whether the two names are the same.
fn is_same(name: &str, other: &str) -> bool
    ensures { result ≡ same_name name.now other.now }
{
    name == other
}

/// Whether the two sets have other data under the name, or one of them has none.
fn is_changed(from: &Vars, to: &Vars, name: &str) -> bool
    ensures { result ≡ differs from.now to.now name.now }
{
    from.get(name) != to.get(name)
}
