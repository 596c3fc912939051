//! Entries that a start of firmware may write over or delete.

ghost use Rattle.std.specs.Prelude.{◌≡◌, ◌↔◌, ℕ, Contains, Some, Err, IfSome, IfOk, IsTrue};
ghost use Rattle.std.specs.BTreeSet.{contains};
ghost use Rattle.std.specs.FinMap as map;
ghost use Rattle.std.specs.Ordering.{nat_cmp};
ghost use Rattle.uefi_vars.specs.declared.fault.VarFault.{VarFault};
ghost use Rattle.uefi_vars.specs.Vars.{IsVars};
ghost use Rattle.uefi_vars.specs.Order.{HasBadOrder, HasBadNext};
ghost use Rattle.uefi_vars.specs.AtRisk.{IsUnnamed, IsUndecodable, AreThose};
ghost use Rattle.uefi_vars.specs.Records.{pair_of};
ghost use Rattle.uefi_vars.specs.RiskOfVariable.{IsUnnamedEntry, IsUndecodableEntry, IsOfSome};

use crate::fault::VarFault;
use crate::laws;
use crate::name::entry_number;
use crate::order::{boot_next, order_bytes};
use crate::vars::{Variable, Vars};
use std::alloc::{AllocError, Global};
use std::collections::BTreeSet;
use uefi_option::check_option;
use uefi_path::read_units;

/// The numbers of the entries that a start of firmware may write over or delete. Each list rises, so no number is in it
/// twice, and no number is in both.
#[derive(Debug, PartialEq, Eq, Drop)]
pub struct AtRisk {
    /// Entries that neither BootOrder nor BootNext names. Firmware that gives an entry of its own the lowest number that
    /// neither names may write over them.
    pub unnamed: Vec<u16>,
    /// Entries that BootOrder names and that are no load option. Firmware may delete them.
    pub undecodable: Vec<u16>,
}

/// The entries of a set that a start of firmware may write over or delete: those that neither BootOrder nor BootNext
/// names, and those of BootOrder that are no load option (UEFI 2.10, 3.1.3 and 3.3). The standard asks for neither.
/// edk2 was seen to do both, when it makes entries for its own applications, for disks and for the network. The
/// variables are gone over once, and the call takes memory for numbers alone.
///
/// # Errors
///
/// [`VarFault::BadOrder`] if the bytes of BootOrder are odd in number or more than two for each of
/// [`ORDER_MAX`](crate::ORDER_MAX) numbers; otherwise [`VarFault::BadNext`] if BootNext has another number of bytes
/// than two; otherwise [`VarFault::OutOfMemory`] if memory was refused.
pub fn entries_at_risk(alloc: Global, vars: &Vars) -> Result<AtRisk, VarFault>
    ensures unnamed { IfOk result (λ risk. AreThose (IsUnnamed vars.now) risk.unnamed.items) }
    ensures undecodable { IfOk result (λ risk.
        AreThose (IsUndecodable vars.now) risk.undecodable.items) }
    ensures bad_order { (result ≡ Err VarFault.BadOrder) ↔ HasBadOrder vars.now }
    ensures bad_next { (result ≡ Err VarFault.BadNext)
        ↔ ((¬ HasBadOrder vars.now) × HasBadNext vars.now) }
    ensures valid { IsVars vars.now }
{
    laws::variables_have_one_order();
    laws::variables_have_one_next();
    laws::a_bad_order_gives_no_order();
    let bytes = order_bytes(vars)?;
    let next = boot_next(vars)?;
    let order = read_units(alloc, bytes)?;
    let named = set_of(alloc, &order)?;
    Ok(numbers_at_risk(alloc, vars, &named, next)?)
}

/// These numbers as a set.
fn set_of(alloc: Global, numbers: &[u16]) -> Result<BTreeSet<u16>, AllocError>
    ensures { IfOk result (λ set. (number : ℕ) →
        IsTrue (contains nat_cmp set number) ↔ Contains numbers.now number) }
{
    numbers.iter().copied().collect(alloc)
}

/// The entries that are neither among these numbers nor the next one, and those among these numbers that are no load
/// option.
fn numbers_at_risk(
    alloc: Global,
    vars: &Vars,
    named: &BTreeSet<u16>,
    next: Option<u16>,
) -> Result<AtRisk, AllocError>
    ensures unnamed { IfOk result (λ risk.
        AreThose (IsOfSome (IsUnnamedEntry named.now next) (map.entries vars.now)) risk.unnamed.items) }
    ensures undecodable { IfOk result (λ risk.
        AreThose (IsOfSome (IsUndecodableEntry named.now) (map.entries vars.now)) risk.undecodable.items) }
{
    let mut unnamed = Vec::new(alloc);
    let mut undecodable = Vec::new(alloc);
    for variable in vars.variables() {
        if let Some(number) = unnamed_number(variable, named, next) {
            unnamed.push(number)?;
        }
        if let Some(number) = undecodable_number(variable, named) {
            undecodable.push(number)?;
        }
    }
    Ok(AtRisk {
        unnamed,
        undecodable,
    })
}

/// The number of the entry that this variable is, if it is one, and neither among these numbers nor the next one.
fn unnamed_number(variable: &Variable, named: &BTreeSet<u16>, next: Option<u16>) -> Option<u16>
    ensures found { IfSome result (IsUnnamedEntry named.now next (pair_of variable.now)) }
    ensures only { (number : ℕ) → IsUnnamedEntry named.now next (pair_of variable.now) number →
        result ≡ Some number }
{
    let number = entry_number(variable.name.as_str())?;
    if named.contains(&number) || next == Some(number) {
        return None;
    }
    Some(number)
}

/// The number of the entry that this variable is, if it is one, among these numbers, and no load option.
fn undecodable_number(variable: &Variable, named: &BTreeSet<u16>) -> Option<u16>
    ensures found { IfSome result (IsUndecodableEntry named.now (pair_of variable.now)) }
    ensures only { (number : ℕ) → IsUndecodableEntry named.now (pair_of variable.now) number →
        result ≡ Some number }
{
    let number = entry_number(variable.name.as_str())?;
    if !named.contains(&number) {
        return None;
    }
    match check_option(variable.kept.as_slice()) {
        Ok(_) => None,
        Err(_) => Some(number),
    }
}
