//! What is told of an edit: what is printed of it, and what standard error is told.

use crate::edits::{EditForm, WantedEdit};
use crate::unnamed::remark_unnamed;
use boot_edits::EditAnswer;
use boot_texts::{AdditionView, addition_json, addition_line, changes_text};
use messages::Shortened;
use std::alloc::{AllocError, Global};
use uefi_option::check_option;
use uefi_vars::{
    BOOT_NEXT, BOOT_ORDER, EntryFamily, EntryNameIn, NameIn, VarFault, boot_changes, boot_next,
    boot_order, entry_number,
};
use wanted_changes::{Remarks, SetChange, Told};

/// What is told of an edit from the one set to the other, of a folder or a file, which answers so: what it adds, what differs,
/// what it loses and repairs, and which entries it leaves in no order.
///
/// # Errors
///
/// [`AllocError`] if memory was refused.
pub(crate) fn told_of(
    alloc: Global,
    wanted: &WantedEdit<'_>,
    is_folder: bool,
    change: SetChange<'_>,
    answer: EditAnswer,
) -> Result<Told, AllocError> {
    let place = wanted.place;
    let mut remarks = Remarks::new(alloc);
    let family = wanted.form.voice().family();
    remark_present(alloc, &mut remarks, (place, family), answer)?;
    remark_repairs_of(alloc, &mut remarks, (place, family), change)?;
    if is_folder {
        remark_losses(alloc, &mut remarks, (place, family), change)?;
    }
    if wanted.form == EditForm::Silent(EntryFamily::Boot) {
        remark_unnamed(alloc, &mut remarks, place, change)?;
    }
    Ok(Told {
        text: printed(alloc, wanted.form, change, answer)?,
        remarks,
    })
}

/// What is printed of an edit in this form: of a new entry its name, and then what differs.
fn printed(
    alloc: Global,
    form: EditForm,
    change: SetChange<'_>,
    answer: EditAnswer,
) -> Result<String, AllocError> {
    if matches!(form, EditForm::Silent(_)) {
        return Ok(String::new(alloc));
    }
    let json = form == EditForm::Json;
    let mut text = name_line(alloc, json, answer)?;
    text.push_str(&changes_text(alloc, change.from, change.to, json)?)?;
    Ok(text)
}

/// The line that names the entry that was to be added, if one was.
fn name_line(alloc: Global, json: bool, answer: EditAnswer) -> Result<String, AllocError> {
    let (entry, is_added) = match answer {
        EditAnswer::Done => return Ok(String::new(alloc)),
        EditAnswer::Added(entry) => (entry, true),
        EditAnswer::Present(entry) => (entry, false),
    };
    let addition = AdditionView { entry, is_added };
    if json {
        addition_json(alloc, addition)
    } else {
        addition_line(alloc, addition)
    }
}

/// Remarks that the entry was there already, if that is the answer.
fn remark_present(
    alloc: Global,
    remarks: &mut Remarks,
    (place, family): (&str, EntryFamily),
    answer: EditAnswer,
) -> Result<(), AllocError> {
    if let EditAnswer::Present(entry) = answer {
        let name = EntryNameIn(family, entry);
        remarks.push(
            place,
            format!(in alloc;
                "{name} has this description and these paths already, and nothing is changed: --again adds another one"
            )?,
        )?;
    }
    Ok(())
}

/// Remarks what was there of a BootOrder or a BootNext that couldn't be read, and that is changed.
///
/// # Errors
///
/// [`AllocError`] if memory was refused.
pub fn remark_repairs(
    alloc: Global,
    remarks: &mut Remarks,
    place: &str,
    change: SetChange<'_>,
) -> Result<(), AllocError> {
    remark_repairs_of(alloc, remarks, (place, EntryFamily::Boot), change)
}

/// The same of a family.
fn remark_repairs_of(
    alloc: Global,
    remarks: &mut Remarks,
    at: (&str, EntryFamily),
    change: SetChange<'_>,
) -> Result<(), AllocError> {
    let from = change.from;
    match boot_order(alloc, from) {
        Err(VarFault::OutOfMemory) => return Err(AllocError),
        Err(_) => remark_repair(alloc, remarks, at, BOOT_ORDER, change)?,
        Ok(_) => {}
    }
    if boot_next(from).is_err() {
        remark_repair(alloc, remarks, at, BOOT_NEXT, change)?;
    }
    Ok(())
}

/// Remarks what was there of the variable of this name, which couldn't be read, if it is changed.
fn remark_repair(
    alloc: Global,
    remarks: &mut Remarks,
    (place, family): (&str, EntryFamily),
    name: &str,
    change: SetChange<'_>,
) -> Result<(), AllocError> {
    let before = change.from.get(name);
    if let Some(bytes) = before
        && before != change.to.get(name)
    {
        let digits = hex::encode(alloc, bytes)?;
        let count = bytes.len();
        let digits = Shortened(&digits);
        let name = NameIn(family, name);
        remarks.push(
            place,
            format!(in alloc;
                "{name} couldn't be read, and has a new value: it had {count} bytes {digits}"
            )?,
        )?;
    }
    Ok(())
}

/// Remarks which entries are taken out that firmware wouldn't take again.
fn remark_losses(
    alloc: Global,
    remarks: &mut Remarks,
    (place, family): (&str, EntryFamily),
    change: SetChange<'_>,
) -> Result<(), AllocError> {
    for change in &boot_changes(alloc, change.from, change.to)? {
        if let (Some(entry), Some(before), None) = (
            entry_number(change.name),
            change.before,
            change.after,
        )
            && check_option(before).is_err()
        {
            let name = EntryNameIn(family, entry);
            remarks.push(
                place,
                format!(in alloc;
                    "{name} is no load option: firmware refuses such data, so it can't be made again"
                )?,
            )?;
        }
    }
    Ok(())
}
