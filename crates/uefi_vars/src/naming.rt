//! What a change of variables makes of entries that are in no order.

ghost use Rattle.std.specs.Prelude.{◌↔◌, Contains, IfSome, IfOk, IsSome, IsTrue};
ghost use Rattle.std.specs.List.Sorted.{IsStrictlySortedBy};
ghost use Rattle.std.specs.Ordering.{nat_cmp};
ghost use Rattle.uefi_vars.specs.AtRisk.{AreThose};
ghost use Rattle.uefi_vars.specs.NamingChange.{AreReadable, IsKnownUnnamed, BecomesUnnamed, BecomesNamed, IsEntryOnlyIn};

use crate::at_risk::{AtRisk, entries_at_risk};
use crate::fault::VarFault;
use crate::vars::Vars;
use std::alloc::{AllocError, Global};

/// Which entries are in no order after a change of variables and weren't before it, and which the other way round. In
/// no order are those that neither BootOrder nor BootNext names (UEFI 2.10, 3.3). Each list has its numbers in rising
/// order, without repetition.
#[derive(Debug, PartialEq, Eq, Drop)]
pub struct NamingChange {
    /// The entries after the change that are in no order then, and that were named before it or weren't there.
    pub unnamed: Vec<u16>,
    /// The entries after the change that are named then, and that were in no order before it.
    pub named: Vec<u16>,
}

/// What a change from the first set to the second makes of entries in no order. A set whose BootOrder or BootNext can't
/// be read counts as one that has no entry in no order; if that is the second set, both lists are empty.
///
/// # Errors
///
/// [`AllocError`] if memory was refused.
pub fn naming_change(alloc: Global, from: &Vars, to: &Vars) -> Result<NamingChange, AllocError>
    ensures unnamed { IfOk result (λ change.
        AreThose (BecomesUnnamed from.now to.now) change.unnamed.items) }
    ensures named { IfOk result (λ change.
        AreThose (BecomesNamed from.now to.now) change.named.items) }
{
    let before = known_unnamed(alloc, from)?;
    let Some(AtRisk { unnamed: after, .. }) = known_risks(alloc, to)? else {
        return Ok(NamingChange {
            unnamed: Vec::new(alloc),
            named: Vec::new(alloc),
        });
    };
    Ok(NamingChange {
        unnamed: entries_only_in(alloc, to, &after, &before)?,
        named: entries_only_in(alloc, to, &before, &after)?,
    })
}

/// The entries that neither BootOrder nor BootNext names: none if either can't be read.
fn known_unnamed(alloc: Global, vars: &Vars) -> Result<Vec<u16>, AllocError>
    ensures { IfOk result (λ numbers. AreThose (IsKnownUnnamed vars.now) numbers.items) }
{
    match known_risks(alloc, vars)? {
        Some(at_risk) => Ok(at_risk.unnamed),
        None => Ok(Vec::new(alloc)),
    }
}

/// Which entries are at risk, or `None` if BootOrder or BootNext can't be read.
pub fn known_risks(alloc: Global, vars: &Vars) -> Result<Option<AtRisk>, AllocError>
    ensures readable { IfOk result (λ known. IsSome known ↔ AreReadable vars.now) }
    ensures unnamed { IfOk result (λ known. IfSome known (λ at_risk.
        AreThose (IsKnownUnnamed vars.now) at_risk.unnamed.items)) }
{
    match entries_at_risk(alloc, vars) {
        Ok(at_risk) => Ok(Some(at_risk)),
        Err(VarFault::BadOrder | VarFault::BadNext) => Ok(None),
        Err(VarFault::OutOfMemory) => Err(AllocError),
    }
}

/// The entries whose numbers are among the first numbers and not among the others. Both rise.
fn entries_only_in(
    alloc: Global,
    vars: &Vars,
    numbers: &[u16],
    others: &[u16],
) -> Result<Vec<u16>, AllocError>
    requires numbers { IsStrictlySortedBy nat_cmp numbers.now }
    requires others { IsStrictlySortedBy nat_cmp others.now }
    ensures { IfOk result (λ found.
        AreThose (IsEntryOnlyIn vars.now numbers.now others.now) found.items) }
{
    let mut found = Vec::new(alloc);
    for number in numbers {
        if vars.entry(*number).is_some() && !is_among(others, *number) {
            found.push(*number)?;
        }
    }
    Ok(found)
}

/// Whether a number is among these, which rise.
fn is_among(numbers: &[u16], number: u16) -> bool
    ensures { IsStrictlySortedBy nat_cmp numbers.now → (IsTrue result ↔ Contains numbers.now number) }
{
    numbers.binary_search(&number).is_ok()
}
