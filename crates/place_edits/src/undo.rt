//! Undoings that are wanted of a machine.

use crate::takeable::remark_missing;
use crate::undo_run::{ChangedSince, UndoFault, UndoRun, Undone, call_error};
use boot_history::{records_to_undo, remove, time_text};
use boot_journal::{CallError, Run};
use boot_texts::changes_text;
use messages::{Failure, note, print};
use std::alloc::Global;
use std::rt::Files;
use uefi_vars::Vars;
use wanted_changes::{Led, MachineWords, Remarks, Seen, SetChange, Told, Wanted, set_of, sets_of};
use whole_files::OutputFile;

/// The words of an undoing.
#[derive(Clone, Copy, Debug)]
pub struct UndoWords<'a> {
    /// The machine.
    pub machine: MachineWords<'a>,
    /// Whether the last change is undone although something else has changed since.
    pub force: bool,
    /// Whether nothing is changed, and what would be is printed.
    pub dry_run: bool,
    /// Whether JSON is printed.
    pub json: bool,
}

/// An undoing that is wanted of a machine: it brings back what was there before the last change that its state folder keeps,
/// but for entries that firmware refuses, which standard error is told. What is printed of it is what differs, as `diff` does.
#[derive(Drop)]
pub struct WantedUndo<'a, 'b, 'w, R> {
    /// What reaches the files.
    pub rt: &'a R,
    /// The words of the undoing.
    pub words: &'b UndoWords<'w>,
}

impl<R: Files<File: OutputFile> + Print + Eprint + AllocGlobal> Wanted
    for WantedUndo<'_, '_, '_, R> {
    ghost use Rattle.std.specs.Prelude.{map};
    ghost use Rattle.std.specs.String.{string_bytes};
    ghost use Rattle.place_edits.specs.Undo.{IsUndoingSome, IsSomeUndoFault};

    type Answer = Undone;

    type Fault = UndoFault;

    type Refusal = Failure;

    ghost leads = { λ wanted seen from to undone.
        IsUndoingSome wanted.words.now.force (map string_bytes seen.left_out.now) from to undone };

    ghost refuses = { λ wanted seen from fault.
        IsSomeUndoFault wanted.words.now.force wanted.words.now.dry_run (map string_bytes seen.left_out.now) from fault };

    fn check(&self, _alloc: Global, _left_out: &[String]) -> Result<(), Failure> {
        Ok(())
    }

    fn replaced(&self) -> Option<&Vars> {
        None
    }

    fn has_requests(&self) -> bool {
        false
    }

    fn run(
        &self,
        alloc: Global,
        seen: &Seen<'_>,
        vars: &Vars,
    ) -> Result<Led<Undone>, CallError<UndoFault>> {
        let words = self.words;
        let changes = match records_to_undo(self.rt, words.machine.state, seen.machine, vars) {
            Ok(changes) => changes,
            Err(failure) => return Err(call_error(failure)),
        };
        let run = UndoRun {
            rt: self.rt,
            words,
            changes: &changes,
            seen,
        };
        match run.run(alloc, vars) {
            Ok((kept, undone)) => match sets_of(alloc, words.machine.place, vars, &kept) {
                Ok(sets) => Ok(Led {
                    sets,
                    kept,
                    answer: undone,
                }),
                Err(failure) => Err(call_error(failure)),
            },
            Err(error) => Err(error),
        }
    }

    fn tell(
        &self,
        alloc: Global,
        _seen: &Seen<'_>,
        change: SetChange<'_>,
        undone: &Undone,
    ) -> Result<Told, Failure> {
        let words = self.words;
        let place = words.machine.place;
        let before = set_of(alloc, place, &undone.before)?;
        let mut remarks = Remarks::new(alloc);
        remark_missing(alloc, &mut remarks, place, (&before, &undone.back.missing))?;
        Ok(Told {
            text: changes_text(alloc, change.from, change.to, words.json)?,
            remarks,
        })
    }

    fn refusal(&self, _alloc: Global, fault: UndoFault) -> Failure {
        from_undo(self.rt, self.words, fault)
    }

    /// Takes away what the state folder keeps of the change that is undone. If that fails, it is told, and the next undoing
    /// passes the change over.
    fn end(&self, undone: &Undone) {
        let words = self.words;
        let state = words.machine.state;
        if let Err(failure) = remove(self.rt, state, undone.number) {
            note(
                self.rt,
                state,
                format_args!(
                    "what was kept of the change stays, and the next undo passes it over: {failure}"
                ),
            );
        }
    }
}

/// What it is to the program that nothing is undone. If something else has changed since, that is printed.
fn from_undo<R: Print + AllocGlobal>(rt: &R, words: &UndoWords<'_>, fault: UndoFault) -> Failure {
    let alloc = rt.alloc();
    let place = words.machine.place;
    match fault {
        UndoFault::Nothing => Failure::from_run(
            alloc,
            place,
            "nothing is kept that could be undone",
        ),
        UndoFault::Failure(failure) => failure,
        UndoFault::Changed(since) => match tell_of_change(rt, words, &since) {
            Ok(failure) | Err(failure) => failure,
        },
    }
}

/// Prints what has changed since the last change that is kept, and gives what that is to the program.
fn tell_of_change<R: Print + AllocGlobal>(
    rt: &R,
    words: &UndoWords<'_>,
    since: &ChangedSince,
) -> Result<Failure, Failure> {
    let alloc = rt.alloc();
    let place = words.machine.place;
    let after = set_of(alloc, place, &since.after)?;
    let now = set_of(alloc, place, &since.now)?;
    let text = changes_text(alloc, &after, &now, words.json)?;
    let time = time_text(alloc, since.time)?;
    let fault = format!(in alloc;
        "something else has changed since the change of {time}, which is shown: --force undoes that all the same"
    )?;
    let failure = Failure::from_run(alloc, place, fault.as_str());
    if !matches!(failure, Failure::Memory) {
        print(rt, text.as_bytes())?;
    }
    Ok(failure)
}
