//! What is told before an earlier update is finished.

use boot_journal::{BootId, Change, Journal};
use messages::note;
use std::alloc::AllocError;
use uefi_vars::{BOOT_NEXT, NameIn, Vars};
use wanted_changes::MachineWords;

/// Tells on standard error what finishing an earlier update, by this journal and under this identity, will do that wasn't
/// meant: which variables it changes although somebody else changed them since, and that BootNext isn't set again.
///
/// # Errors
///
/// [`AllocError`] if memory was refused.
pub(crate) fn tell_of_settling<R: Eprint + AllocGlobal>(
    rt: &R,
    words: &MachineWords<'_>,
    vars: &Vars,
    journal: &Journal,
    boot: &BootId,
) -> Result<(), AllocError> {
    let alloc = rt.alloc();
    let Some(began) = journal.began_under() else {
        return Ok(());
    };
    let begun = journal.due(alloc, began)?;
    for (due, begun) in journal.due(alloc, boot)?.iter().zip(&begun) {
        if is_overwriting(vars, due, begun) {
            let name = NameIn(words.family, due.name());
            note(
                rt,
                words.place,
                format_args!(
                    "{name} was changed meanwhile, and is overwritten by what an earlier update has left to do"
                ),
            );
        }
    }
    if began.as_str() != boot.as_str() && sets_next(&begun) {
        note(
            rt,
            words.place,
            "BootNext not set again: the machine was started in between",
        );
    }
    Ok(())
}

/// Tells on standard error that an earlier update, by the journal in the folder at this path, has left something to do.
pub fn tell_of_due<R: Eprint>(rt: &R, state: &str) {
    note(
        rt,
        state,
        "an earlier update has something left to do, which the next change begins with: what follows is after that",
    );
}

/// Whether a change that is due, and was begun as this one, changes a variable that is neither what it was before nor what
/// it was to be.
fn is_overwriting(vars: &Vars, due: &Change, begun: &Change) -> bool {
    let now = vars.get(due.name());
    now != due.after() && now != begun.before() && now != begun.after()
}

/// Whether one of the changes sets BootNext.
fn sets_next(changes: &[Change]) -> bool {
    changes.iter().any(|change| change.name() == BOOT_NEXT && change.after().is_some())
}
