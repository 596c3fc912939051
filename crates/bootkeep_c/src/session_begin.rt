//! Where commands over a machine begin: what was read of it, and what is to be run.

ghost use Rattle.std.specs.Prelude.{◌≡◌, ◌≢◌, ◌↔◌, Some, None, IfOk, IfErr, IsTrue};
ghost use Rattle.uefi_vars.specs.Name.{IsName};
ghost use Rattle.uefi_vars.specs.Set.{SpellsSet};
ghost use Rattle.machine_names.specs.MachineName.{IsMachineName};
ghost use Rattle.bootkeep_c.specs.declared.failure.Failure.{Failure};
ghost use Rattle.bootkeep_c.specs.Refusals.{bare};
ghost use Rattle.bootkeep_c.specs.Sessions.{IsBegun, IsBegunBy, IsBegunWith, IsBeginFailure, IsUnbegunBy, IsUnbegunWith, IsBegunBack, IsBackFailure, IsUnbegunBack, IsJournalOf, IsJournalFailure};

use crate::edit::{EditNumbers, edit_asked};
use crate::failure::Failure;
use crate::refusal::{
    JOURNAL_OF_ANOTHER, JOURNAL_TOO_LONG, MACHINE_BAD_NAME, MACHINE_BAD_START, MACHINE_NO_DATA,
};
use crate::run::read_events;
use crate::session::Session;
use crate::set::name_text;
use crate::wanted_run::{OwnedEdit, WantedRun};
use boot_journal::{
    AttributesFault, BootId, Journal, JournalFile, read_journal, without_attributes,
};
use boot_moves::Dialogue;
use machine_names::MachineName;
use std::alloc::Global;
use uefi_vars::{Vars, read_set};

/// What was read of a machine.
#[derive(Clone, Copy, Debug)]
pub(crate) struct Read<'a> {
    /// What it is called.
    pub(crate) machine: &'a [u8],
    /// The identity of its start.
    pub(crate) start: &'a [u8],
    /// Its variables, a set of what it keeps of each.
    pub(crate) set: &'a [u8],
    /// The file of its journal, or nothing.
    pub(crate) journal: &'a [u8],
}

/// Begins a command that runs a stream of frames.
pub(crate) fn begun_by(
    alloc: Global,
    read: Read<'_>,
    stream: &[u8],
) -> Result<Box<Session>, Failure>
    ensures begun { IfOk result (λ session.
        IsBegunBy read.entry.machine.now read.entry.start.now read.entry.set.now read.entry.journal.now stream.now session.value) }
    ensures fault { IfErr result (λ failed. failed ≢ Failure.Memory →
        IsUnbegunBy read.entry.machine.now read.entry.start.now read.entry.set.now read.entry.journal.now stream.now failed) }
{
    let events = read_events(alloc, stream)?;
    begun(alloc, read, WantedRun::Frames(events))
}

/// Begins a command that makes an edit.
pub(crate) fn begun_with(
    alloc: Global,
    read: Read<'_>,
    asked: &EditNumbers,
    numbers: &[u16],
    option: &[u8],
) -> Result<Box<Session>, Failure>
    ensures begun { IfOk result (λ session.
        IsBegunWith read.entry.machine.now read.entry.start.now read.entry.set.now read.entry.journal.now
        asked.now numbers.now option.now session.value) }
    ensures fault { IfErr result (λ failed. failed ≢ Failure.Memory →
        IsUnbegunWith read.entry.machine.now read.entry.start.now read.entry.set.now read.entry.journal.now
        asked.now numbers.now option.now failed) }
{
    let _ = edit_asked(asked, numbers, option)?;
    let owned = OwnedEdit {
        asked: *asked,
        numbers: Vec::from_slice(alloc, numbers)?,
        option: Vec::from_slice(alloc, option)?,
    };
    begun(alloc, read, WantedRun::Edit(owned))
}

/// Begins a command that brings back the boot manager's variables of a set.
pub(crate) fn begun_back(
    alloc: Global,
    read: Read<'_>,
    back: &[u8],
) -> Result<Box<Session>, Failure>
    ensures begun { IfOk result (λ session.
        IsBegunBack read.entry.machine.now read.entry.start.now read.entry.set.now read.entry.journal.now back.now session.value) }
    ensures fault { IfErr result (λ failed. failed ≢ Failure.Memory →
        IsUnbegunBack read.entry.machine.now read.entry.start.now read.entry.set.now read.entry.journal.now back.now failed) }
{
    let back = set_back(alloc, back)?;
    begun(alloc, read, WantedRun::Restore(back))
}

/// The set of these bytes, if each variable of the boot manager in it has data after its attributes.
fn set_back(alloc: Global, bytes: &[u8]) -> Result<Vars, Failure>
    ensures read { IfOk result (λ back. SpellsSet bytes.now back) }
    ensures fault { IfErr result (λ failed. failed ≢ Failure.Memory → IsBackFailure bytes.now failed) }
{
    let back = read_set(alloc, bytes)?;
    match without_attributes(alloc, &back) {
        Ok(_) => Ok(back),
        Err(AttributesFault::NoData) => Err(Failure::bare(MACHINE_NO_DATA)),
        Err(_) => Err(Failure::Memory),
    }
}

/// Begins a command that runs this.
pub(crate) fn begun(
    alloc: Global,
    read: Read<'_>,
    wanted: WantedRun,
) -> Result<Box<Session>, Failure>
    ensures begun { IfOk result (λ session.
        IsBegun read.entry.machine.now read.entry.start.now read.entry.set.now read.entry.journal.now wanted session.value) }
    ensures fault { IfErr result (λ failed. failed ≢ Failure.Memory →
        IsBeginFailure read.entry.machine.now read.entry.start.now read.entry.set.now read.entry.journal.now failed) }
{
    let machine = machine_name(alloc, read.machine)?;
    let start = start_identity(alloc, read.start)?;
    let vars = read_set(alloc, read.set)?;
    let journal = journal_of(alloc, &machine, &vars, read.journal)?;
    let session = Session {
        dialogue: Dialogue::new(alloc, machine, vars, journal, start),
        wanted,
        ended: None,
    };
    Ok(Box::new(alloc, session)?)
}

/// The machine's name.
pub(crate) fn machine_name(alloc: Global, bytes: &[u8]) -> Result<MachineName, Failure>
    ensures name { IfOk result (λ name. (name ≡ bytes.now) × IsMachineName bytes.now) }
    ensures fault { IfErr result (λ failed. failed ≢ Failure.Memory →
        (¬ IsMachineName bytes.now) × (failed ≡ bare 0x0D01)) }
{
    match MachineName::new(Vec::from_slice(alloc, bytes)?) {
        Some(name) => {
            // A name's bytes are valid.
            let _ = name.as_bytes();
            Ok(name)
        }
        None => Err(Failure::bare(MACHINE_BAD_NAME)),
    }
}

/// The identity of the machine's start.
fn start_identity(alloc: Global, bytes: &[u8]) -> Result<BootId, Failure>
    ensures start { IfOk result (λ start. (start ≡ bytes.now) × IsName bytes.now) }
    ensures fault { IfErr result (λ failed. failed ≢ Failure.Memory →
        (¬ IsName bytes.now) × (failed ≡ bare 0x0D02)) }
{
    match BootId::new(String::from_str(alloc, name_text(bytes))?) {
        Some(start) => {
            // And so is an identity's text.
            let _ = start.as_str();
            Ok(start)
        }
        None => Err(Failure::bare(MACHINE_BAD_START)),
    }
}

/// The journal of the bytes of its file, if it is the machine's.
fn journal_of(
    alloc: Global,
    machine: &MachineName,
    vars: &Vars,
    bytes: &[u8],
) -> Result<Journal, Failure>
    ensures read { IfOk result (λ journal. IsJournalOf machine.now vars.now bytes.now journal) }
    ensures fault { IfErr result (λ failed. failed ≢ Failure.Memory → IsJournalFailure machine.now bytes.now failed) }
{
    if bytes.is_empty() {
        return Ok(Journal::new());
    }
    let JournalFile {
        machine: owner,
        journal,
    } = read_journal(alloc, bytes)?;
    match owner {
        Some(owner) => {
            if is_same(&owner, machine) {
                Ok(journal)
            } else {
                Err(Failure::bare(JOURNAL_OF_ANOTHER))
            }
        }
        None => match journal.with_attributes(alloc, vars) {
            Ok(journal) => Ok(journal),
            Err(AttributesFault::TooLong) => Err(Failure::bare(JOURNAL_TOO_LONG)),
            Err(_) => Err(Failure::Memory),
        },
    }
}

/// Whether the two names are the same.
fn is_same(one: &MachineName, other: &MachineName) -> bool
    ensures { IsTrue result ↔ (one.now ≡ other.now) }
{
    one.as_bytes() == other.as_bytes()
}
