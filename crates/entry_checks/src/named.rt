//! What is found of BootOrder and BootNext (UEFI 2.10, 3.3).

ghost use Rattle.std.specs.Prelude.{◌≡◌, IfOk};
ghost use Rattle.uefi_vars.specs.Vars.{entry_of};
ghost use Rattle.uefi_vars.specs.Order.{HasOrder};
ghost use Rattle.entry_checks.specs.Named.{IsOrderFinding, IsNextFinding, is_order_wrong, stale_in, stale_of};

use crate::numbers::{distinct, repeated};
use std::alloc::{AllocError, Global};
use uefi_vars::{VarFault, Vars, boot_next, boot_order};

/// What is found of BootOrder.
#[derive(Debug, PartialEq, Eq, Drop)]
pub enum OrderFindings {
    /// It can't be read.
    Unreadable,
    /// It can be read, or isn't there. Each list has a number once, in the order of BootOrder.
    Numbers {
        /// Its numbers under which no entry is stored.
        stale: Vec<u16>,
        /// Its numbers that are in it more than once.
        twice: Vec<u16>,
    },
}

/// What is wrong with BootNext.
#[derive(Clone, Copy, Debug, PartialEq, Eq)]
pub enum NextFinding {
    /// It can't be read.
    Unreadable,
    /// No entry is stored under its number.
    Missing(u16),
}

/// What is found of BootOrder.
///
/// # Errors
///
/// [`AllocError`] if memory was refused.
pub fn order_findings(alloc: Global, vars: &Vars) -> Result<OrderFindings, AllocError>
    ensures { IfOk result (IsOrderFinding vars.now) }
{
    match boot_order(alloc, vars) {
        Ok(order) => findings_of_order(alloc, vars, &order),
        Err(VarFault::BadOrder) => Ok(OrderFindings::Unreadable),
        Err(_) => Err(AllocError),
    }
}

/// What is found of this order of the variables.
fn findings_of_order(alloc: Global, vars: &Vars, order: &[u16]) -> Result<OrderFindings, AllocError>
    ensures { IfOk result (λ found. HasOrder vars.now order.now → IsOrderFinding vars.now found) }
{
    Ok(OrderFindings::Numbers {
        stale: stale_numbers(alloc, vars, order)?,
        twice: repeated(alloc, order)?,
    })
}

/// The numbers of an order under which no entry is stored, each once.
fn stale_numbers(alloc: Global, vars: &Vars, order: &[u16]) -> Result<Vec<u16>, AllocError>
    ensures { IfOk result (λ stale. stale.items ≡ stale_of (entry_of vars.now) order.now) }
{
    stale_among(alloc, vars, &distinct(alloc, order)?)
}

/// Those of the numbers under which no entry is stored.
fn stale_among(alloc: Global, vars: &Vars, numbers: &[u16]) -> Result<Vec<u16>, AllocError>
    ensures { IfOk result (λ stale. stale.items ≡ stale_in (entry_of vars.now) numbers.now) }
{
    let mut stale = Vec::new(alloc);
    for number in numbers {
        if vars.entry(*number).is_none() {
            stale.push(*number)?;
        }
    }
    Ok(stale)
}

/// Whether something is wrong with BootOrder by these findings, where it names a normal entry or none: numbers without an
/// entry do harm only then, and numbers that come again do none.
pub fn is_order_wrong(found: &OrderFindings, has_normal: bool) -> bool
    ensures { result ≡ is_order_wrong found.now has_normal }
{
    match found {
        OrderFindings::Unreadable => true,
        OrderFindings::Numbers { stale, .. } => !has_normal && !stale.is_empty(),
    }
}

/// What is wrong with BootNext, if anything.
pub fn next_finding(vars: &Vars) -> Option<NextFinding>
    ensures { IsNextFinding vars.now result }
{
    match boot_next(vars) {
        Ok(None) => None,
        Ok(Some(number)) if vars.entry(number).is_some() => None,
        Ok(Some(number)) => Some(NextFinding::Missing(number)),
        Err(_) => Some(NextFinding::Unreadable),
    }
}
