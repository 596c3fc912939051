//! The order in which entries are told.

ghost use Rattle.std.specs.Prelude.{◌≡◌, IfOk};
ghost use Rattle.entry_checks.specs.Listed.{listed_of};

use crate::numbers::distinct;
use std::alloc::{AllocError, Global};
use uefi_vars::PlanNumbers;

/// The numbers of these entries, each once: those of the plan first, in its order, and then the others, in theirs.
///
/// # Errors
///
/// [`AllocError`] if memory was refused.
pub fn listed(alloc: Global, plan: &PlanNumbers, entries: &[u16]) -> Result<Vec<u16>, AllocError>
    ensures { IfOk result (λ numbers. numbers.items ≡ listed_of plan.now.next plan.now.normal.items entries.now) }
{
    let mut numbers = Vec::new(alloc);
    if let Some(next) = plan.next {
        numbers.push(next)?;
    }
    numbers.extend_from_slice(&plan.normal)?;
    numbers.extend_from_slice(entries)?;
    distinct(alloc, &numbers)
}
