//! What a boot would try, as it is shown.

use crate::content::NumberList;
use crate::json::{JsonObject, JsonWriter, Leaf, append_leaves};
use std::alloc::AllocError;
use uefi_vars::{EntryDigits, PlanNumbers};

/// What a boot would try, as JSON has it.
#[derive(Clone, Copy)]
pub struct ShownPlan<'a> {
    plan: &'a PlanNumbers,
}

/// What is shown of what a boot would try, if that is known.
pub fn shown_plan(plan: &Option<PlanNumbers>) -> Option<ShownPlan<'_>> {
    match plan {
        Some(plan) => Some(ShownPlan { plan }),
        None => None,
    }
}

impl JsonObject for ShownPlan<'_> {
    fn append_members(&self, out: &mut JsonWriter) -> Result<(), AllocError> {
        append_leaves(
            &[
                ("next", Leaf::Entry(self.plan.next.map(EntryDigits))),
                ("normal", Leaf::Numbers(Some(&self.plan.normal))),
            ],
            out,
        )
    }
}

/// Appends the line of what a boot would try (UEFI 2.10, 3.1.1): the entry of BootNext and the normal ones of BootOrder, or
/// that it isn't known, since one of the two can't be read.
///
/// # Errors
///
/// [`AllocError`] if memory was refused.
pub fn append_plan(plan: Option<&PlanNumbers>, report: &mut String) -> Result<(), AllocError> {
    match plan {
        Some(plan) => {
            let next = NumberList(plan.next.as_slice());
            let normal = NumberList(&plan.normal);
            writeln!(report, "plan next{next} normal{normal}")
        }
        None => report.push_str("plan none: it takes an order and a next entry that can be read\n"),
    }
}
