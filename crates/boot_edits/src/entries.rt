//! Variables without some entries.

ghost use Rattle.std.specs.Prelude.{◌≡◌, ◌↔◌, ℕ, List, IsTrue, IfOk, OnOk};
ghost use Rattle.std.specs.FinMap as map;
ghost use Rattle.boot_edits.specs.Steps.{Tells, IsNameOf, AreWithout, IsStep};

use std::alloc::{AllocError, Global};
use std::collections::BTreeSet;
use uefi_vars::{Vars, entry_number};

/// The variables without the entries of these numbers. They are gone over once, however many numbers there are.
pub(crate) fn without_entries(
    alloc: Global,
    vars: &Vars,
    listed: &BTreeSet<u16>,
) -> Result<Vars, AllocError>
    ensures { IfOk result (λ others.
        (numbers : List ℕ) → Tells listed.now numbers → AreWithout numbers vars.now others) }
{
    let mut others = Vars::new(alloc);
    for (name, value) in vars.iter() {
        copy_unlisted(&mut others, listed, name, value)?;
    }
    Ok(others)
}

/// Sets the variable of this name to this data, unless it is the entry of one of these numbers.
fn copy_unlisted(
    vars: &mut Vars,
    listed: &BTreeSet<u16>,
    name: &str,
    value: &[u8],
) -> Result<(), AllocError>
    ensures { OnOk result ((numbers : List ℕ) → Tells listed.now numbers →
        IsStep (IsNameOf numbers) vars.old (name.now, value.now) vars.new) }
{
    if is_listed(listed, name) {
        return Ok(());
    }
    copy_variable(vars, name, value)?;
    Ok(())
}

/// Whether it is the name of an entry of these numbers.
fn is_listed(listed: &BTreeSet<u16>, name: &str) -> bool
    ensures { (numbers : List ℕ) → Tells listed.now numbers → IsTrue result ↔ IsNameOf numbers name.now }
{
    match entry_number(name) {
        Some(number) => listed.contains(&number),
        None => false,
    }
}

/// Sets the variable of this name, which another set has, to its data there.
pub(crate) fn copy_variable(vars: &mut Vars, name: &str, value: &[u8]) -> Result<(), AllocError>
    ensures { OnOk result (vars.new ≡ map.insert vars.old name.now value.now) }
{
    match vars.put(name, value) {
        Ok(()) => Ok(()),
        Err(_) => Err(AllocError),
    }
}
