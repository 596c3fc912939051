//! The one way in which the boot variables of a machine are changed.

use crate::file_changes::{changed_bytes, changed_set_bytes};
use crate::history::History;
use crate::kept_run::{KeptFault, KeptRun, SeenChange, ToldChange, kept_command};
use crate::state_use::{file_state, keep_before, state_folder};
use boot_journal::{CallError, CommandError};
use boot_notes::{IDENTITY_LEN, Notes};
use machine_names::MachineName;
use machine_storage::{
    KeptFile, KeptVars, Machine, OpenedPlace, SettledMachine, begin_notes, from_settling,
    from_updating, name_of_machine, notes_of, open_machine, open_place, read_kept, read_kept_file,
    read_kept_set, settle_left, settled_file, settled_machine, tell_of_due,
};
use messages::{Failure, note};
use std::alloc::Global;
use std::cell::RefCell;
use std::rc::Rc;
use std::rt::{Clock, Files};
use uefi_vars::Vars;
use var_places::{lock_place, write};
use wanted_changes::{
    ChangeOptions, KeptNotes, MachineWords, PlaceKind, Seen, ToldAnswer, Wanted, journal_identity,
};
use whole_files::OutputFile;

/// Does what is left of earlier updates of a machine, and then makes a change of its variables, or looks what it would be
/// for a dry run. A folder as Linux shows variables is changed by the journal in the state folder, so that a cut leaves the old
/// variables or the new ones, and an emulator's variable file is replaced as a whole, unless it is changed by the journal too. A
/// set file is replaced as a whole, and nothing is kept of what was there. What is told of the change is made before it, and
/// what is there is kept, if it is to be. Whatever fails, nothing was changed, or what was is taken back.
///
/// # Errors
///
/// Those of the change; [`Failure::Refused`] if the place or the journal is; [`Failure::Busy`] and [`Failure::Held`] if another
/// change is at work; [`Failure::Words`] if the identity of the start is needed and isn't given, or it or the machine's name
/// isn't one; [`Failure::Read`] and [`Failure::Write`] with the system's reason; [`Failure::TakenBack`] if the system refused a
/// change, and nothing has happened; [`Failure::Unsettled`] if it couldn't be taken back either; and [`Failure::Memory`] if
/// memory was refused.
pub fn change_machine<R, W>(
    rt: &R,
    options: &ChangeOptions<'_>,
    kind: PlaceKind,
    wanted: &W,
) -> Result<ToldAnswer<W::Answer>, W::Refusal>
where
    R: Files<File: OutputFile> + Clock + Input + Print + Eprint + AllocGlobal,
    W: Wanted,
{
    match kind {
        PlaceKind::Set => change_set(rt, options, wanted),
        PlaceKind::Folder | PlaceKind::VariableFile if options.dry_run => plan(rt, options, wanted),
        PlaceKind::VariableFile if !wanted.has_requests() => change_file(rt, options, wanted),
        PlaceKind::Folder | PlaceKind::VariableFile => change_by_journal(rt, options, wanted),
    }
}

/// What the change would be, once what is left of earlier updates is done.
fn plan<R, W>(
    rt: &R,
    options: &ChangeOptions<'_>,
    wanted: &W,
) -> Result<ToldAnswer<W::Answer>, W::Refusal>
where
    R: Files + Input + Eprint + AllocGlobal,
    W: Wanted,
{
    let machine = &options.machine;
    let mut kept = read_kept(rt, machine)?;
    prepare(rt.alloc(), wanted, &mut kept)?;
    let by_journal = kept.is_folder || wanted.has_requests();
    let SettledMachine { settled, notes } = settled(rt, machine, &kept, by_journal)?;
    if settled.is_due {
        tell_of_due(rt, machine.state);
    }
    Ok(lead(rt, options, wanted, &kept, (&settled.vars, notes))?.answered)
}

/// Takes what the change replaces out of what can't be held, and refuses one of the rest of that.
fn prepare<W: Wanted>(alloc: Global, wanted: &W, kept: &mut KeptVars) -> Result<(), W::Refusal> {
    if let Some(replaced) = wanted.replaced() {
        kept.let_go(replaced);
    }
    wanted.check(alloc, &kept.left_out)
}

/// What the machine, which keeps this, stands for. Another machine's journal is refused if the change goes by the journal, and
/// counts as none otherwise.
fn settled<R: Files + Eprint + AllocGlobal>(
    rt: &R,
    machine: &MachineWords<'_>,
    kept: &KeptVars,
    by_journal: bool,
) -> Result<SettledMachine, Failure> {
    if by_journal {
        settled_machine(rt, machine, kept)
    } else {
        settled_file(rt, machine, kept)
    }
}

/// What the change leads to from these variables of the machine, which keeps this, and has these notes beside its journal.
fn lead<R, W>(
    rt: &R,
    options: &ChangeOptions<'_>,
    wanted: &W,
    kept: &KeptVars,
    (vars, notes): (&Vars, Option<Notes>),
) -> Result<ToldChange<W::Answer>, W::Refusal>
where
    R: Files + AllocGlobal,
    W: Wanted,
{
    let name = name_of_machine(rt, &options.machine, kept.is_folder)?;
    let notes = RefCell::new(notes);
    let seen = Seen {
        left_out: &kept.left_out,
        machine: &name,
        is_folder: kept.is_folder,
        journal: journal_identity(&notes),
        notes: &notes,
    };
    let change = SeenChange {
        wanted,
        seen: &seen,
        is_coming: options.dry_run,
    };
    change.lead(rt.alloc(), vars).map_err(|error| match error {
        CallError::OutOfMemory => W::Refusal::from(Failure::Memory),
        CallError::Refused(fault) => refusal_of(rt.alloc(), wanted, fault),
    })
}

/// Makes the change by the journal.
fn change_by_journal<R, W>(
    rt: &R,
    options: &ChangeOptions<'_>,
    wanted: &W,
) -> Result<ToldAnswer<W::Answer>, W::Refusal>
where
    R: Files<File: OutputFile> + Clock + Input + Print + Eprint + AllocGlobal,
    W: Wanted,
{
    let machine = &options.machine;
    let folder = state_folder(rt, machine, options.state)?;
    let mut opened = open_place(rt, machine)?;
    prepare(rt.alloc(), wanted, &mut opened.kept)?;
    let name = name_of_machine(rt, machine, opened.kept.is_folder)?;
    let answered = change_opened(rt, options, (opened, &name), (wanted, folder.journal()))?;
    wanted.end(&answered.answer);
    Ok(answered)
}

/// Makes the change in a place that was opened, whose machine has this name, by the journal at this path, whose folder is
/// locked.
fn change_opened<R, W>(
    rt: &R,
    options: &ChangeOptions<'_>,
    (opened, name): (OpenedPlace<R::File>, &MachineName),
    (wanted, journal_path): (&W, &str),
) -> Result<ToldAnswer<W::Answer>, W::Refusal>
where
    R: Files<File: OutputFile> + Clock + Input + Print + Eprint + AllocGlobal,
    W: Wanted,
{
    let machine = &options.machine;
    let is_folder = opened.kept.is_folder;
    let left_out = opened.kept.copy_left_out(rt.alloc())?;
    let (mut kept, boot) = open_machine(rt, machine, opened, journal_path)?;
    let notes = notes_to_keep(rt, wanted, &kept)?;
    let seen = Seen {
        left_out: &left_out,
        machine: name,
        is_folder,
        journal: notes.journal,
        notes: &notes.kept,
    };
    let change = SeenChange {
        wanted,
        seen: &seen,
        is_coming: false,
    };
    let run = KeptRun {
        rt,
        change: &change,
        history: history_of(options, name),
    };
    kept_command(&mut kept, run, &boot).map_err(|error| from_command(
        rt.alloc(),
        machine,
        wanted,
        error,
    ))
}

/// What is kept beside a machine's journal.
#[derive(Drop)]
struct NotesToKeep {
    /// The notes, which are written with the journal.
    kept: Rc<KeptNotes>,
    /// The identity that was kept there before, if one was.
    journal: Option<[u8; IDENTITY_LEN]>,
}

/// What is kept beside the journal of the machine. For requests notes are begun, if there are none.
fn notes_to_keep<R, W>(rt: &R, wanted: &W, machine: &Machine<'_, R>) -> Result<NotesToKeep, Failure>
where
    R: Files<File: OutputFile> + Input + Print + AllocGlobal,
    W: Wanted,
{
    let kept = notes_of(machine.storage())?;
    let journal = journal_identity(&kept);
    if wanted.has_requests() {
        begin_notes(rt, machine)?;
    }
    Ok(NotesToKeep { kept, journal })
}

/// Where what was there before a change of the machine of this name is kept.
fn history_of<'a, 'm>(options: &ChangeOptions<'a>, name: &'m MachineName) -> History<'a, 'm> {
    History {
        state: options.machine.state,
        machine: name,
        command: options.command,
    }
}

/// What keeps a change from being made if its command failed.
fn from_command<W: Wanted>(
    alloc: Global,
    machine: &MachineWords<'_>,
    wanted: &W,
    error: CommandError<Failure, KeptFault<W::Fault>>,
) -> W::Refusal {
    match error {
        CommandError::OutOfMemory => W::Refusal::from(Failure::Memory),
        CommandError::Run(fault) => refusal_of(alloc, wanted, fault),
        CommandError::Settling(error) => W::Refusal::from(from_settling(alloc, machine, error)),
        CommandError::Updating(error) => W::Refusal::from(from_updating(alloc, machine, error)),
    }
}

/// What keeps a change from being made that has this fault.
fn refusal_of<W: Wanted>(alloc: Global, wanted: &W, fault: KeptFault<W::Fault>) -> W::Refusal {
    match fault {
        KeptFault::Run(fault) => wanted.refusal(alloc, fault),
        KeptFault::Telling(failure) | KeptFault::History(failure) | KeptFault::Beginning(failure) =>
            W::Refusal::from(failure),
    }
}

/// Makes the change in a variable file, which is replaced as a whole.
fn change_file<R, W>(
    rt: &R,
    options: &ChangeOptions<'_>,
    wanted: &W,
) -> Result<ToldAnswer<W::Answer>, W::Refusal>
where
    R: Files<File: OutputFile> + Clock + Input + Print + Eprint + AllocGlobal,
    W: Wanted,
{
    let state = file_state(rt, &options.machine, options.state)?;
    if let Some(folder) = &state {
        settle_left(rt, &options.machine, folder.journal())?;
    }
    let answered = change_locked_file(rt, options, wanted, state.is_some())?;
    wanted.end(&answered.answer);
    Ok(answered)
}

/// Makes the change in a variable file, which is locked from before it is read until it is replaced. The state folder may keep
/// what was there before.
fn change_locked_file<R, W>(
    rt: &R,
    options: &ChangeOptions<'_>,
    wanted: &W,
    is_kept: bool,
) -> Result<ToldAnswer<W::Answer>, W::Refusal>
where
    R: Files<File: OutputFile> + Clock + Input + Print + Eprint + AllocGlobal,
    W: Wanted,
{
    let output = lock_place(rt, options.machine.place)?;
    let LedFile { bytes, answered } = led_of_file(rt, options, wanted, is_kept)?;
    if let Some(bytes) = bytes {
        write(rt, output, &bytes)?;
    }
    Ok(answered)
}

/// What a change leads to in a file.
#[derive(Drop)]
struct LedFile<A> {
    /// What the file is to be: `None` if the change changes nothing.
    bytes: Option<Vec<u8>>,
    /// What the change answers, and what is told of it.
    answered: ToldAnswer<A>,
}

/// What the change leads to in the variable file. What was there before is kept, if the state folder is to keep it.
fn led_of_file<R, W>(
    rt: &R,
    options: &ChangeOptions<'_>,
    wanted: &W,
    is_kept: bool,
) -> Result<LedFile<W::Answer>, W::Refusal>
where
    R: Files<File: OutputFile> + Clock + Input + Eprint + AllocGlobal,
    W: Wanted,
{
    let machine = &options.machine;
    let KeptFile { bytes, mut kept } = read_kept_file(rt, machine)?;
    prepare(rt.alloc(), wanted, &mut kept)?;
    let ToldChange {
        set,
        kept: to,
        answered,
    } = lead(rt, options, wanted, &kept, (&kept.vars, None))?;
    let bytes = changed_bytes(rt.alloc(), machine.place, (&bytes, &kept), (set, &to))?;
    if is_kept && bytes.is_some() {
        keep_of_file(rt, options, (&kept.vars, &to))?;
    }
    Ok(LedFile { bytes, answered })
}

/// Keeps what was there before a change of the variable file, and what is there after it.
fn keep_of_file<R: Files<File: OutputFile> + Clock + Eprint + AllocGlobal>(
    rt: &R,
    options: &ChangeOptions<'_>,
    change: (&Vars, &Vars),
) -> Result<(), Failure> {
    let machine = &options.machine;
    let name = name_of_machine(rt, machine, false)?;
    keep_before(rt, machine, (&name, options.command), change)
}

/// Makes the change in a set file, which is no machine, or looks what it would be for a dry run: then it isn't locked. Tells on
/// standard error that it is one.
fn change_set<R, W>(
    rt: &R,
    options: &ChangeOptions<'_>,
    wanted: &W,
) -> Result<ToldAnswer<W::Answer>, W::Refusal>
where
    R: Files<File: OutputFile> + Input + Print + Eprint + AllocGlobal,
    W: Wanted,
{
    let place = options.machine.place;
    note(
        rt,
        place,
        "it is a set file: this changes a file, and no machine",
    );
    if options.dry_run {
        return Ok(led_of_set(rt, options, wanted)?.answered);
    }
    let output = lock_place(rt, place)?;
    let LedFile { bytes, answered } = led_of_set(rt, options, wanted)?;
    if let Some(bytes) = bytes {
        write(rt, output, &bytes)?;
    }
    wanted.end(&answered.answer);
    Ok(answered)
}

/// What the change leads to in the set file.
fn led_of_set<R, W>(
    rt: &R,
    options: &ChangeOptions<'_>,
    wanted: &W,
) -> Result<LedFile<W::Answer>, W::Refusal>
where
    R: Files + Input + AllocGlobal,
    W: Wanted,
{
    let place = options.machine.place;
    let KeptFile { bytes, mut kept } = read_kept_set(rt, place)?;
    prepare(rt.alloc(), wanted, &mut kept)?;
    let ToldChange {
        set,
        kept: to,
        answered,
    } = lead(rt, options, wanted, &kept, (&kept.vars, None))?;
    Ok(LedFile {
        bytes: changed_set_bytes(rt.alloc(), place, (&bytes, &kept), (set, &to))?,
        answered,
    })
}
