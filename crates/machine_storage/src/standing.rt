//! What a machine stands for, told without changing anything.

ghost use Rattle.std.specs.Prelude.{◌≡◌, IfOk};
ghost use Rattle.boot_journal.specs.Changes.{made};
ghost use Rattle.boot_journal.specs.Store.{with_state, stands_for};

use crate::boot_identity::boot_id;
use crate::kept_vars::KeptVars;
use crate::owner::{Names, OwnJournal, Owner, identity_of};
use crate::state_folder::{StoredJournal, journal_path, stored_with_notes};
use crate::values::set_value;
use boot_journal::{BootId, Change, Journal, JournalFile};
use boot_notes::Notes;
use machine_names::MachineName;
use messages::{Failure, note};
use std::alloc::{AllocError, Global};
use std::io::ErrorKind;
use std::rt::Files;
use uefi_vars::{KEEP_STATE, Vars};
use wanted_changes::MachineWords;

/// What a machine stands for: its variables once what an earlier update has left to do is done.
#[derive(Drop)]
pub struct SettledVars {
    /// The variables, as the machine keeps them, with the BootKeepState of the journal.
    pub vars: Vars,
    /// Whether an earlier update has left something to do.
    pub is_due: bool,
}

/// What a machine stands for, with what is kept beside its journal.
#[derive(Drop)]
pub struct SettledMachine {
    /// What it stands for.
    pub settled: SettledVars,
    /// What is kept beside its journal: `None` if nothing is, or if the journal was another machine's.
    pub notes: Option<Notes>,
}

/// What the machine of the words stands for, if it keeps this now, with what is kept beside its journal. Nothing is changed.
///
/// # Errors
///
/// [`Failure::Read`] if the journal can't be read; [`Failure::Refused`] if it is damaged, or is another machine's;
/// [`Failure::Words`] if something is left to do, and the identity of the start is needed for it and isn't given, or it or
/// the machine's name isn't one; and [`Failure::Memory`] if memory was refused.
pub fn settled_machine<R: Files + Eprint + AllocGlobal>(
    rt: &R,
    words: &MachineWords<'_>,
    kept: &KeptVars,
) -> Result<SettledMachine, Failure> {
    let TakenJournal { journal, notes } = taken_journal(rt, words, kept)?;
    Ok(SettledMachine {
        settled: settled_vars(rt, words, kept, &journal)?,
        notes,
    })
}

/// A machine's own journal, with what is kept beside it: `None` also if the journal was another machine's.
#[derive(Drop)]
struct TakenJournal {
    journal: Journal,
    notes: Option<Notes>,
}

/// The journal that is stored, as the machine's own. Its file isn't replaced.
fn taken_journal<R: Files + Eprint + AllocGlobal>(
    rt: &R,
    words: &MachineWords<'_>,
    kept: &KeptVars,
) -> Result<TakenJournal, Failure> {
    let alloc = rt.alloc();
    let path = journal_path(alloc, words.state)?;
    let path = path.as_path().as_str();
    let stored = readable_journal(rt, path)?;
    let identity = identity_of(rt, words, kept.is_folder)?;
    let owner = Owner {
        words,
        identity: &identity,
        path,
    };
    let (file, notes) = match stored {
        Some(StoredJournal { notes, file }) => (Some(file), notes),
        None => (None, None),
    };
    let OwnJournal {
        journal,
        is_unnamed: _,
        was_others,
    } = owner.take(alloc, file, &kept.vars)?;
    Ok(TakenJournal {
        journal,
        notes: if was_others { None } else { notes },
    })
}

/// The same of a machine in a variable file that isn't changed by the journal: another machine's counts as none.
///
/// # Errors
///
/// As of [`settled_machine`], but of another machine's journal.
pub fn settled_file<R: Files + Eprint + AllocGlobal>(
    rt: &R,
    words: &MachineWords<'_>,
    kept: &KeptVars,
) -> Result<SettledMachine, Failure> {
    let settled = match left_to_do(rt, words, kept)? {
        Some(vars) => SettledVars { vars, is_due: true },
        None => SettledVars {
            vars: kept.vars.copy(rt.alloc())?,
            is_due: false,
        },
    };
    Ok(SettledMachine {
        settled,
        notes: None,
    })
}

/// What the machine of the words stands for, if it keeps this now, and an earlier update has left something to do by a
/// journal that is its own, and that the user may read: otherwise `None`. Nothing is changed.
///
/// # Errors
///
/// As of [`settled_machine`], but that another machine's journal counts as none.
fn left_to_do<R: Files + Eprint + AllocGlobal>(
    rt: &R,
    words: &MachineWords<'_>,
    kept: &KeptVars,
) -> Result<Option<Vars>, Failure> {
    let path = journal_path(rt.alloc(), words.state)?;
    let Some(StoredJournal { file, .. }) = readable_journal(rt, path.as_path().as_str())? else {
        return Ok(None);
    };
    if !is_left_to(rt, words, kept.is_folder, &file)? {
        return Ok(None);
    }
    let SettledMachine { settled, notes: _ } = settled_machine(rt, words, kept)?;
    Ok(Some(settled.vars))
}

/// What the machine of the words stands for, if it keeps this now, and its journal is this.
fn settled_vars<R: Files + Eprint + AllocGlobal>(
    rt: &R,
    words: &MachineWords<'_>,
    kept: &KeptVars,
    journal: &Journal,
) -> Result<SettledVars, Failure> {
    let alloc = rt.alloc();
    match journal.began_under() {
        None => Ok(SettledVars {
            vars: with_state(alloc, &kept.vars, journal)?,
            is_due: false,
        }),
        Some(_) => {
            let boot = boot_id(rt, words, kept.is_folder)?;
            Ok(SettledVars {
                vars: after_due(alloc, &kept.vars, journal, &boot)?,
                is_due: true,
            })
        }
    }
}

/// The journal that is stored at this path, if there is one, and the user may read it. If not, standard error says so.
fn readable_journal<R: Files + Eprint + AllocGlobal>(
    rt: &R,
    path: &str,
) -> Result<Option<StoredJournal>, Failure> {
    let stored = stored_with_notes(rt, path);
    if may_be_read(&stored) {
        return stored;
    }
    note(
        rt,
        path,
        "it may not be read, so what an earlier update has left to do isn't counted",
    );
    Ok(None)
}

/// Whether the user may read the journal, of which this was read.
fn may_be_read(stored: &Result<Option<StoredJournal>, Failure>) -> bool {
    match stored {
        Err(Failure::Read { error, .. }) => error.kind() != ErrorKind::PermissionDenied,
        _ => true,
    }
}

/// Whether an earlier update of this machine has left something to do, by the journal that was stored: one that names no
/// machine counts as its own.
///
/// # Errors
///
/// As of [`name_of_machine`](crate::name_of_machine).
pub(crate) fn is_left_to<R: Files + AllocGlobal>(
    rt: &R,
    words: &MachineWords<'_>,
    is_folder: bool,
    stored: &JournalFile,
) -> Result<bool, Failure> {
    if stored.journal.is_idle() {
        return Ok(false);
    }
    match &stored.machine {
        Some(machine) => {
            let identity = identity_of(rt, words, is_folder)?;
            Ok(identity.names(machine) != Names::Another)
        }
        None => Ok(true),
    }
}

/// The variables with the journal's BootKeepState. This fails only if memory is refused.
fn with_state(alloc: Global, vars: &Vars, journal: &Journal) -> Result<Vars, AllocError>
    ensures { IfOk result (λ after. after ≡ with_state journal.now.state vars.now) }
{
    let mut after = vars.copy(alloc)?;
    set_value(&mut after, KEEP_STATE, journal.state())?;
    Ok(after)
}

/// What a machine with these variables and this journal stands for under this identity of its start. This fails only if memory
/// is refused.
fn after_due(
    alloc: Global,
    vars: &Vars,
    journal: &Journal,
    boot: &BootId,
) -> Result<Vars, AllocError>
    ensures { IfOk result (λ after. after ≡ stands_for boot.now (record { variables = vars.now; journal = journal.now })) }
{
    let mut after = after_changes(alloc, vars, &journal.due(alloc, boot)?)?;
    set_value(&mut after, KEEP_STATE, journal.state())?;
    Ok(after)
}

/// The variables once the changes are made. This fails only if memory is refused.
fn after_changes(alloc: Global, vars: &Vars, changes: &[Change]) -> Result<Vars, AllocError>
    ensures { IfOk result (λ after. after ≡ made changes.now vars.now) }
{
    let mut after = vars.copy(alloc)?;
    for change in changes {
        set_value(&mut after, change.name(), change.after())?;
    }
    Ok(after)
}
