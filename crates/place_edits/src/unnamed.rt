//! Entries that a change leaves in no order.

use boot_texts::UnnamedWords;
use std::alloc::{AllocError, Global};
use uefi_vars::naming_change;
use wanted_changes::{Remarks, SetChange};

/// Remarks which entries are in no order after a change of this place and weren't so before it. What is printed of the change
/// doesn't say so.
///
/// # Errors
///
/// [`AllocError`] if memory was refused.
pub(crate) fn remark_unnamed(
    alloc: Global,
    remarks: &mut Remarks,
    place: &str,
    change: SetChange<'_>,
) -> Result<(), AllocError> {
    for entry in &naming_change(alloc, change.from, change.to)?.unnamed {
        remarks.push(place, format!(in alloc; "{}", UnnamedWords(*entry))?)?;
    }
    Ok(())
}
