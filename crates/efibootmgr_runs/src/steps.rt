//! What is done, step by step.

ghost use Rattle.std.specs.Prelude.{◌↔◌, IsTrue};
ghost use Rattle.std.specs.List.{AllByRecursion};
ghost use Rattle.efibootmgr_runs.specs.Free.{IsFree, IsNotNamed};

use crate::edit_of::edit_of;
use crate::machine::Machine;
use crate::new_entry::option_bytes;
use crate::planned::{Planned, plan_changes};
use crate::stopped::{Step, Stopped};
use boot_edits::Edit;
use boot_history::{DEFAULT_STATE, make_state_folder};
use efibootmgr_words::Asked;
use machine_storage::{StateFolder, lock_folder};
use messages::{Failure, IsThere, NoSuch};
use place_edits::{EditForm, WantedEdit};
use std::alloc::Global;
use std::rt::{Clock, Files};
use uefi_vars::{BOOT_NEXT, EntryFamily, EntryNameIn, TIMEOUT};
use var_places::PlaceVars;
use wanted_changes::{ChangeOptions, Machines, PlaceKind, StateUse, is_one_of};
use whole_files::OutputFile;

/// Makes each change that is asked for, in the order in which `efibootmgr` makes them.
///
/// # Errors
///
/// What couldn't be done first. What came before it is done.
pub(crate) fn make_changes<R, M>(
    rt: &R,
    machines: &M,
    machine: &Machine<'_>,
    asked: &Asked<'_>,
) -> Result<(), Stopped>
where
    R: Files<File: OutputFile> + Clock + Input + Print + Eprint + AllocGlobal,
    M: Machines,
{
    for change in &plan_changes(rt.alloc(), asked)? {
        make(rt, machines, machine, asked, change)?;
    }
    Ok(())
}

/// Makes one of them, if what it needs is there.
fn make<R, M>(
    rt: &R,
    machines: &M,
    machine: &Machine<'_>,
    asked: &Asked<'_>,
    change: &Planned,
) -> Result<(), Stopped>
where
    R: Files<File: OutputFile> + Clock + Input + Print + Eprint + AllocGlobal,
    M: Machines,
{
    let step = Step::of(change);
    match change {
        Planned::Create => {
            // A number that is taken is told before a disk that isn't there.
            if let Some(entry) = asked.entry {
                check_free(rt, machine, entry)?;
            }
            match option_bytes(rt, &asked.new, &asked.others) {
                Ok(option) => edit(rt, machines, machine, step, edit_of(asked, change, &option)),
                Err(failure) => Err(Stopped::at(step, failure)),
            }
        }
        Planned::DeleteNext => {
            check_there(rt, machine, step, BOOT_NEXT)?;
            edit(rt, machines, machine, step, edit_of(asked, change, &[]))
        }
        Planned::DeleteTimeout => {
            check_there(rt, machine, step, TIMEOUT)?;
            edit(rt, machines, machine, step, edit_of(asked, change, &[]))
        }
        _ => edit(rt, machines, machine, step, edit_of(asked, change, &[])),
    }
}

/// Tests whether there is no entry of this number, also none that no set can hold.
fn check_free<R: Files + Eprint + AllocGlobal>(
    rt: &R,
    machine: &Machine<'_>,
    entry: u16,
) -> Result<(), Stopped> {
    if is_free(&found_at(rt, machine, Step::Create)?, entry) {
        return Ok(());
    }
    let fault = format!(in rt.alloc(); "{}", IsThere(EntryNameIn(machine.family, entry)))?;
    Err(refused(rt.alloc(), machine, Step::CreateTaken, fault.as_str()))
}

/// Whether there is no entry of this number, also none that no set can hold.
fn is_free(found: &PlaceVars, entry: u16) -> bool
    ensures { IsTrue result ↔ IsFree found.now entry }
{
    found.vars.entry(entry).is_none() && names_no(entry, &found.left_out)
}

/// Whether none of these names of variables is that of this entry.
fn names_no(entry: u16, names: &[String]) -> bool
    ensures { IsTrue result ↔ AllByRecursion (IsNotNamed entry) names.now }
{
    names.iter().all(|name| !is_one_of(&[entry], name.as_str()))
}

/// Tests whether the variable of this name, which is to be taken out, is there.
fn check_there<R: Files + Eprint + AllocGlobal>(
    rt: &R,
    machine: &Machine<'_>,
    step: Step,
    name: &str,
) -> Result<(), Stopped> {
    if found_at(rt, machine, step)?.vars.get(name).is_some() {
        return Ok(());
    }
    let fault = format!(in rt.alloc(); "{}", NoSuch(name))?;
    Err(refused(rt.alloc(), machine, step, fault.as_str()))
}

/// What the machine has, which is needed for this.
fn found_at<R: Files + Eprint + AllocGlobal>(
    rt: &R,
    machine: &Machine<'_>,
    step: Step,
) -> Result<PlaceVars, Stopped> {
    match machine.read(rt) {
        Ok(folder) => Ok(folder.found),
        Err(failure) => Err(Stopped::at(step, failure)),
    }
}

/// What it is to a run that the machine has something that this can't be done with.
fn refused(alloc: Global, machine: &Machine<'_>, step: Step, fault: &str) -> Stopped {
    Stopped::at(step, Failure::from_run(alloc, machine.place, fault))
}

/// The folder in which the state folder of another family than the boot manager's is, locked. It is made if nothing is there,
/// and refused if others may write it, who could put another one in the place of what is in it.
fn parent_of<R: Files<File: OutputFile> + AllocGlobal>(
    rt: &R,
    machine: &Machine<'_>,
    step: Step,
) -> Result<Option<StateFolder<R::File>>, Stopped> {
    if machine.family == EntryFamily::Boot {
        return Ok(None);
    }
    match made_parent(rt) {
        Ok(folder) => Ok(Some(folder)),
        Err(failure) => Err(Stopped::at(step, failure)),
    }
}

/// Makes the state folder of the boot manager's entries, if nothing is there, and locks it.
fn made_parent<R: Files<File: OutputFile> + AllocGlobal>(
    rt: &R,
) -> Result<StateFolder<R::File>, Failure> {
    make_state_folder(rt, DEFAULT_STATE)?;
    lock_folder(rt, DEFAULT_STATE)
}

/// Makes a change of boot entries, and tells standard error what there is to tell of it.
fn edit<R, M>(
    rt: &R,
    machines: &M,
    machine: &Machine<'_>,
    step: Step,
    edit: Edit<'_>,
) -> Result<(), Stopped>
where
    R: Files<File: OutputFile> + Clock + Input + Print + Eprint + AllocGlobal,
    M: Machines,
{
    // Held until the change is made.
    let _parent = parent_of(rt, machine, step)?;
    let wanted = WantedEdit {
        place: machine.place,
        edit,
        form: EditForm::Silent(machine.family),
    };
    let options = ChangeOptions {
        machine: machine.words(),
        command: machine.kept_command(),
        dry_run: false,
        state: StateUse::Made,
    };
    match machines.change(rt, &options, PlaceKind::Folder, &wanted) {
        Ok(answered) => {
            answered.told.remark(rt);
            Ok(())
        }
        Err(failure) => Err(Stopped::at(step, failure)),
    }
}
