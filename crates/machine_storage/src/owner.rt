//! Whose a journal is.

ghost use Rattle.std.specs.Prelude.{◌≡◌, ◌≢◌, ◌↔◌, IfOk, IsTrue, OnOk};
ghost use Rattle.std.specs.List.{AllByRecursion};
ghost use Rattle.machine_storage.specs.Owner.{IsOther, IsNamedBy, IsAdopted, IsTaken};
ghost use Rattle.boot_journal.specs.JournalAttributes.{journal_kept};

use crate::storage::PlaceStorage;
use boot_journal::{AttributesFault, Journal, JournalFile};
use machine_names::MachineName;
use messages::{Failure, Quoted};
use std::alloc::Global;
use std::io;
use std::rt::Files;
use uefi_vars::{EntryFamily, Vars};
use var_places::{MachineIdentity, PRODUCT_UUID, machine_identity};
use wanted_changes::MachineWords;
use whole_files::OutputFile;

/// What a machine is called.
#[derive(Drop)]
pub(crate) struct Identity {
    /// Its name.
    pub(crate) name: MachineName,
    /// What earlier versions called it, if that differs from its name.
    pub(crate) former: Vec<String>,
    /// Why what should name it can't be read, if that is so.
    pub(crate) unread: Option<io::Error>,
}

/// What the machine of the place is called: what `--machine` says, or what the system or the place's path says.
///
/// # Errors
///
/// [`Failure::Words`] if `--machine` is no name, and those of [`machine_identity`].
pub fn name_of_machine<R: Files + AllocGlobal>(
    rt: &R,
    words: &MachineWords<'_>,
    is_folder: bool,
) -> Result<MachineName, Failure> {
    Ok(identity_of(rt, words, is_folder)?.name)
}

/// The same, with what else is known of its name.
///
/// # Errors
///
/// As of [`name_of_machine`].
pub(crate) fn identity_of<R: Files + AllocGlobal>(
    rt: &R,
    words: &MachineWords<'_>,
    is_folder: bool,
) -> Result<Identity, Failure> {
    let alloc = rt.alloc();
    match words.machine {
        Some(text) => Ok(Identity {
            name: name_in(alloc, words.family, text)?,
            former: Vec::new(alloc),
            unread: None,
        }),
        None => {
            let MachineIdentity {
                name,
                former,
                unread,
            } = machine_identity(rt, words.place, is_folder)?;
            Ok(Identity {
                name: name_in(alloc, words.family, name.as_str())?,
                // No earlier version had a journal of another family than the boot manager's.
                former: if words.family == EntryFamily::Boot {
                    former
                } else {
                    Vec::new(alloc)
                },
                unread,
            })
        }
    }
}

/// The name by which the journal of a family knows the machine of this text: of another family than the boot manager's the
/// family is told in it, so that no command takes the one journal for the other.
fn name_in(alloc: Global, family: EntryFamily, text: &str) -> Result<MachineName, Failure> {
    if family == EntryFamily::Boot {
        return name_of_text(alloc, text);
    }
    let name = format!(in alloc; "{text} {}", family.prefix())?;
    name_of_text(alloc, name.as_str())
}

/// The name of a machine that is this text.
fn name_of_text(alloc: Global, text: &str) -> Result<MachineName, Failure> {
    match MachineName::new(Vec::from_slice(alloc, text.as_bytes())?) {
        Some(name) => Ok(name),
        None => Err(Failure::from_word(
            alloc,
            "--machine is one to 4096 bytes: a text that no other machine has",
        )),
    }
}

/// A stored journal as a machine's own.
#[derive(Drop)]
pub(crate) struct OwnJournal {
    /// The journal.
    pub(crate) journal: Journal,
    /// Whether its file is yet to be replaced by one that names the machine.
    pub(crate) is_unnamed: bool,
    /// Whether it was another machine's, so that what is kept beside it is that machine's too.
    pub(crate) was_others: bool,
}

/// The journal of the storage's machine, of what was stored: a new one if nothing was. A journal that names no machine is
/// taken, and so is one that an earlier version of this program made of the machine under another name, whatever is left to
/// do, and another machine's by `--adopt` if nothing is left to do: all are replaced by one that names this machine. What
/// `there` has under the name of a variable begins with its attributes.
///
/// # Errors
///
/// [`Failure::Refused`] if it is another machine's, and [`Failure::Write`] with the system's reason if it can't be
/// replaced. Nothing was changed then. [`Failure::Memory`] if memory was refused.
pub(crate) fn own_journal<R: Files<File: OutputFile> + Input + Print + AllocGlobal>(
    words: &MachineWords<'_>,
    storage: &PlaceStorage<'_, R>,
    stored: Option<JournalFile>,
    there: &Vars,
) -> Result<Journal, Failure> {
    let path = storage.journal.as_str();
    let owner = Owner {
        words,
        identity: &storage.identity,
        path,
    };
    let OwnJournal {
        journal,
        is_unnamed,
        was_others,
    } = owner.take(storage.rt.alloc(), stored, there)?;
    if was_others {
        // The identity was that of another journal.
        let _ = storage.notes.try_replace(None);
    }
    if is_unnamed {
        storage.replace(&journal)?;
    }
    Ok(journal)
}

/// A machine to which the journal at a path is to belong.
#[derive(Clone, Copy)]
pub(crate) struct Owner<'a, 'w> {
    /// The words that name them.
    pub(crate) words: &'a MachineWords<'w>,
    /// What the machine is called.
    pub(crate) identity: &'a Identity,
    /// The path of the journal.
    pub(crate) path: &'a str,
}

impl Owner<'_, '_> {
    /// The journal of this machine, of what was stored, as by [`own_journal`]; its file isn't replaced.
    ///
    /// # Errors
    ///
    /// [`Failure::Refused`] if it is another machine's, and [`Failure::Memory`] if memory was refused.
    pub(crate) fn take(
        &self,
        alloc: Global,
        stored: Option<JournalFile>,
        there: &Vars,
    ) -> Result<OwnJournal, Failure>
        ensures { IfOk result (IsTaken self.now stored there.now) }
    {
        let Some(JournalFile { machine, journal }) = stored else {
            return Ok(OwnJournal {
                journal: Journal::new(),
                is_unnamed: false,
                was_others: false,
            });
        };
        let Some(machine) = machine else {
            return Ok(OwnJournal {
                journal: self.with_attributes(alloc, &journal, there)?,
                is_unnamed: true,
                was_others: true,
            });
        };
        match self.identity.names(&machine) {
            Names::This => Ok(OwnJournal {
                journal,
                is_unnamed: false,
                was_others: false,
            }),
            Names::Former => Ok(OwnJournal {
                journal,
                is_unnamed: true,
                was_others: false,
            }),
            Names::Another => {
                self.check_adoption(alloc, &machine, &journal)?;
                Ok(OwnJournal {
                    journal,
                    is_unnamed: true,
                    was_others: true,
                })
            }
        }
    }

    /// The journal of a file without a name: its changes have no attributes, and get those that are there.
    fn with_attributes(
        &self,
        alloc: Global,
        journal: &Journal,
        there: &Vars,
    ) -> Result<Journal, Failure>
        ensures { IfOk result (λ kept. kept ≡ journal_kept there.now journal.now) }
    {
        match journal.with_attributes(alloc, there) {
            Ok(kept) => Ok(kept),
            Err(AttributesFault::OutOfMemory) => Err(Failure::Memory),
            Err(fault) => Err(Failure::from_fault(alloc, self.path, fault)),
        }
    }

    /// Refuses the journal of another machine, unless it is to be taken over and has nothing left to do. If the machine's
    /// UUID can't be read, nobody knows whether it is another one.
    fn check_adoption(
        &self,
        alloc: Global,
        machine: &MachineName,
        journal: &Journal,
    ) -> Result<(), Failure>
        ensures { OnOk result (IsAdopted self.now journal.now) }
    {
        if let Some(error) = &self.identity.unread {
            return Err(self.unread(alloc, machine, error));
        }
        let is_adopted = self.words.adopt;
        if is_adopted && journal.is_idle() {
            return Ok(());
        }
        let why = if is_adopted {
            "an update of that machine has something left to do, which --settle does there"
        } else {
            "give each machine a folder of its own, or take this one over by --adopt"
        };
        let theirs = Quoted(text_of(machine));
        let own = Quoted(text_of(&self.identity.name));
        Err(Failure::from_fault(
            alloc,
            self.path,
            format_args!("it is the journal of machine {theirs}, and this is {own}: {why}"),
        ))
    }

    /// What it is to the program that the journal names this machine, and which one this is can't be read for this reason.
    fn unread(&self, alloc: Global, machine: &MachineName, error: &io::Error) -> Failure {
        let theirs = Quoted(text_of(machine));
        Failure::from_fault(
            alloc,
            self.path,
            format_args!(
                "it is the journal of machine {theirs}, and which one this is can't be read of {PRODUCT_UUID}: {error}: be root, or name it by --machine"
            ),
        )
    }
}

/// Whom the name of a machine names.
#[derive(Clone, Copy, Debug, PartialEq, Eq)]
pub(crate) enum Names {
    /// This machine.
    This,
    /// This machine, as earlier versions called it.
    Former,
    /// Another machine.
    Another,
}

impl Identity {
    /// Whom this name names.
    pub(crate) fn names(&self, machine: &MachineName) -> Names
        ensures { IsNamedBy self.now machine.now result }
    {
        let name = machine.as_bytes();
        if name == self.name.as_bytes() {
            Names::This
        } else if are_others(&self.former, name) {
            Names::Another
        } else {
            Names::Former
        }
    }
}

/// Whether none of these names is this one.
fn are_others(names: &[String], name: &[u8]) -> bool
    ensures { IsTrue result ↔ AllByRecursion (IsOther name.now) names.now }
{
    names.iter().all(|other| is_other(other.as_str(), name))
}

/// Whether the first isn't the second name.
fn is_other(other: &str, name: &[u8]) -> bool
    ensures { IsTrue result ↔ (other.now ≢ name.now) }
{
    other.as_bytes() != name
}

/// The name of a machine as a text.
fn text_of(machine: &MachineName) -> &str {
    str::from_utf8(machine.as_bytes()).unwrap_or("of other bytes than UTF-8")
}
