//! Journals: what a machine keeps beside its variables.

ghost use Rattle.std.specs.Prelude.{◌≡◌, ◌↔◌, IfOk, IfErr, IfSome, IsTrue, Some, None, map as list_map};
ghost use Rattle.std.specs.Option.{option_map};
ghost use Rattle.std.specs.List.{AllByRecursion};
ghost use Rattle.std.specs.FinMap as map;
ghost use Rattle.uefi_vars.specs.Vars.{IsData, IsVars};
ghost use Rattle.uefi_vars.specs.BootChange.{change_parts, changes_from};
ghost use Rattle.uefi_vars.specs.Name.{keep_text};
ghost use Rattle.boot_journal.specs.Changes.{taken_back, spent};
ghost use Rattle.boot_journal.specs.Journal.{JournalParts, idle, begun, due, turned, is_making, began_under, ChangesNothing};
ghost use Rattle.boot_journal.specs.JournalAttributes.{change_kept, pending_kept, journal_kept, IsFaultOfChanges, IsFaultOfJournal};
ghost use Rattle.boot_journal.specs.JournalValue.{IsJournal, IsPending, pending_of, state_turned, pending_turned, in_order, IsAlike};
ghost use Rattle.boot_journal.specs.Values.{bytes_of, IsBootChange};

use crate::attributes::AttributesFault;
use crate::boot_id::BootId;
use crate::change::{Change, copied, is_same, is_same_data};
use std::alloc::{AllocError, Global};
use std::marker::Model;
use uefi_vars::{BootChange, KEEP_STATE, Vars, boot_changes, laws as vars_laws};

/// What is still to be done, and under which identity of the machine's start that was begun.
#[derive(Debug, Drop)]
pub(crate) struct Pending {
    /// The changes, in the order in which they are made.
    pub(crate) changes: Vec<Change>,
    /// Whether they are made or taken back.
    pub(crate) course: Course,
    /// The identity.
    pub(crate) boot: BootId,
}

/// Whether changes are made or taken back.
#[derive(Debug, Drop)]
pub(crate) enum Course {
    /// They are made. If one is refused, they are taken back, and BootKeepState is this again.
    Making(Option<Vec<u8>>),
    /// They are taken back, the last of them first.
    TakingBack,
}

/// What a machine keeps beside the variables of its firmware: the bytes of BootKeepState, and, while an update is being
/// made, the changes that it makes, each with what was there before.
#[derive(Debug, Drop)]
pub struct Journal {
    pub(crate) state: Option<Vec<u8>>,
    pub(crate) pending: Option<Pending>,
}

impl Model for Journal {
    ghost use Rattle.boot_journal.specs.Journal.{JournalParts};
    ghost use Rattle.boot_journal.specs.JournalAttributes.{change_kept, pending_kept, journal_kept, IsFaultOfChanges, IsFaultOfJournal};
    ghost use Rattle.boot_journal.specs.JournalValue.{IsJournal, IsPending, journal_of};

    ghost Value = { JournalParts };

    ghost view = { λ j. journal_of j.state j.pending };

    ghost invariant = { λ j. IsJournal (journal_of j.state j.pending) };
}

impl Journal {
    /// The journal of a machine on which nothing was done yet.
    pub fn new() -> Journal
        ensures { result ≡ idle None }
    {
        Journal {
            state: None,
            pending: None,
        }
    }

    /// The journal of an update from these variables to those, which begins under this identity. This fails only if memory
    /// is refused.
    pub(crate) fn begin(
        alloc: Global,
        from: &Vars,
        to: &Vars,
        boot: &BootId,
    ) -> Result<Journal, AllocError>
        ensures { IfOk result (λ journal. journal ≡ begun (map.get to.now keep_text)
            (map.get from.now keep_text) (changes_from from.now to.now) boot.now) }
    {
        let changes = owned_changes(alloc, from, to)?;
        let former = kept_state(alloc, from)?;
        let state = kept_state(alloc, to)?;
        let boot = boot.copy()?;
        Ok(Journal {
            state,
            pending: Some(Pending {
                changes,
                course: Course::Making(former),
                boot,
            }),
        })
    }

    /// The bytes of BootKeepState: `None` if it isn't there, as if no request was applied.
    pub fn state(&self) -> Option<&[u8]>
        ensures value { option_map (λ b. b.now) result ≡ self.now.state }
        ensures valid { IsJournal self.now }
    {
        self.state.as_deref()
    }

    /// Whether nothing is to be done.
    pub fn is_idle(&self) -> bool
        ensures { IsTrue result ↔ (self.now.pending ≡ None) }
    {
        self.pending.is_none()
    }

    /// The identity of the machine's start under which what is still to be done was begun: `None` if nothing is to be done.
    pub fn began_under(&self) -> Option<&BootId>
        ensures { option_map (λ boot. boot.now) result ≡ began_under self.now.pending }
    {
        match &self.pending {
            Some(pending) => Some(&pending.boot),
            None => None,
        }
    }

    /// Whether changes are being made, and not taken back.
    pub(crate) fn is_making(&self) -> bool
        ensures { result ≡ is_making self.now.pending }
    {
        match &self.pending {
            Some(pending) => pending.is_making(),
            None => false,
        }
    }

    /// Whether no change is to be made or taken back, and BootKeepState is the same whichever of the two is done.
    pub(crate) fn changes_nothing(&self) -> bool
        ensures { IsTrue result ↔ ChangesNothing self.now }
    {
        match &self.pending {
            Some(pending) => {
                pending.changes.is_empty()
                    && is_same_data(pending.state_after(&self.state), self.state.as_deref())
            }
            None => true,
        }
    }

    /// The changes that a settling makes under this identity of the machine's start, in the order in which it makes them:
    /// those that are still to be made or, if they are being taken back, what takes them back, the last of them first. If
    /// they were begun under another identity than this, the machine was started in between, and a change of BootNext takes
    /// it out. There is no change if nothing is to be done. Under [`Journal::began_under`] the changes are those that were
    /// begun. This fails only if memory is refused.
    pub fn due(&self, alloc: Global, boot: &BootId) -> Result<Vec<Change>, AllocError>
        ensures { IfOk result (λ changes. changes.items ≡ due boot.now self.now.pending) }
    {
        match &self.pending {
            Some(pending) => pending.due(alloc, boot),
            None => Ok(Vec::new(alloc)),
        }
    }

    /// The journal of a file of version 1 as one of version 2 has it: what each of its changes has before and after has the
    /// attributes of what `there` has under the variable's name before its data. These are the first four bytes there, or
    /// [`BOOT_ATTRIBUTES`](uefi_vars::BOOT_ATTRIBUTES) if it has nothing there, or fewer bytes. BootKeepState stays as it
    /// is.
    ///
    /// # Errors
    ///
    /// [`AttributesFault::TooLong`] if what a change has before or after has more than [`DATA_MAX`](uefi_vars::DATA_MAX)
    /// bytes then, and [`AttributesFault::OutOfMemory`] if memory was refused.
    pub fn with_attributes(&self, alloc: Global, there: &Vars) -> Result<Journal, AttributesFault>
        ensures value { IfOk result (λ journal. journal ≡ journal_kept there.now self.now) }
        ensures fault { IfErr result (IsFaultOfJournal self.now) }
    {
        let state = copied(alloc, self.state.as_deref())?;
        match &self.pending {
            Some(pending) => Ok(Journal {
                state,
                pending: Some(pending.with_attributes(alloc, there)?),
            }),
            None => Ok(Journal {
                state,
                pending: None,
            }),
        }
    }

    /// An equal journal. This fails only if memory is refused.
    pub(crate) fn copy(&self, alloc: Global) -> Result<Journal, AllocError>
        ensures { IfOk result (λ copy. copy ≡ self.now) }
    {
        let state = copied(alloc, self.state.as_deref())?;
        match &self.pending {
            Some(pending) => Ok(Journal {
                state,
                pending: Some(pending.copy(alloc)?),
            }),
            None => Ok(Journal {
                state,
                pending: None,
            }),
        }
    }

    /// The journal by which changes that are being made are taken back instead. This fails only if memory is refused.
    pub(crate) fn turned(&self, alloc: Global) -> Result<Journal, AllocError>
        ensures { IfOk result (λ journal. journal ≡ turned self.now) }
    {
        let Some(pending) = &self.pending else {
            return self.finished(alloc);
        };
        Ok(Journal {
            state: copied(alloc, pending.state_after(&self.state))?,
            pending: Some(pending.turned(alloc)?),
        })
    }

    /// The journal once all is done. This fails only if memory is refused.
    pub(crate) fn finished(&self, alloc: Global) -> Result<Journal, AllocError>
        ensures { IfOk result (λ journal. journal ≡ idle self.now.state) }
    {
        Ok(Journal {
            state: copied(alloc, self.state.as_deref())?,
            pending: None,
        })
    }
}

impl Pending {
    /// Whether the changes are being made.
    fn is_making(&self) -> bool
        ensures { result ≡ is_making (Some (pending_of self.now)) }
    {
        matches!(self.course, Course::Making(_))
    }

    /// BootKeepState once the changes are taken back, if it is this otherwise.
    fn state_after<'a>(&'a self, state: &'a Option<Vec<u8>>) -> Option<&'a [u8]>
        ensures { option_map (λ b. b.now) result ≡ state_turned (bytes_of state.now) (pending_of self.now) }
    {
        match &self.course {
            Course::Making(former) => former.as_deref(),
            Course::TakingBack => state.as_deref(),
        }
    }

    /// An equal value. This fails only if memory is refused.
    fn copy(&self, alloc: Global) -> Result<Pending, AllocError>
        ensures { IfOk result (λ copy. pending_of copy ≡ pending_of self.now) }
    {
        Ok(Pending {
            changes: copy_all(alloc, &self.changes)?,
            course: self.course.copy(alloc)?,
            boot: self.boot.copy()?,
        })
    }

    /// The same with changes of what is kept, whose attributes are those of what is there.
    fn with_attributes(&self, alloc: Global, there: &Vars) -> Result<Pending, AttributesFault>
        requires { IsPending (pending_of self.now) }
        ensures value { IfOk result (λ pending. pending_of pending ≡ pending_kept there.now (pending_of self.now)) }
        ensures valid { IfOk result (λ pending. IsPending (pending_of pending)) }
        ensures fault { IfErr result (IsFaultOfChanges self.now.changes.items) }
    {
        let changes = all_with_attributes(alloc, &self.changes, there)?;
        Ok(Pending {
            changes,
            course: self.course.copy(alloc)?,
            boot: self.boot.copy()?,
        })
    }

    /// The same changes, which are taken back. This fails only if memory is refused.
    fn turned(&self, alloc: Global) -> Result<Pending, AllocError>
        ensures { IfOk result (λ pending. pending_of pending ≡ pending_turned (pending_of self.now)) }
    {
        Ok(Pending {
            changes: copy_all(alloc, &self.changes)?,
            course: Course::TakingBack,
            boot: self.boot.copy()?,
        })
    }

    /// The changes that are to be made under this identity.
    fn due(&self, alloc: Global, boot: &BootId) -> Result<Vec<Change>, AllocError>
        ensures { IfOk result (λ changes. changes.items ≡ due boot.now (Some (pending_of self.now))) }
    {
        let changes = self.in_order(alloc)?;
        if is_same(boot.as_str(), self.boot.as_str()) {
            Ok(changes)
        } else {
            all_spent(alloc, changes)
        }
    }

    /// The changes in the order in which they are made: if they are taken back, what takes back the last of them first.
    fn in_order(&self, alloc: Global) -> Result<Vec<Change>, AllocError>
        ensures { IfOk result (λ changes. changes.items ≡ in_order (pending_of self.now)) }
    {
        let changes = copy_all(alloc, &self.changes)?;
        match self.course {
            Course::Making(_) => Ok(changes),
            Course::TakingBack => taken_back(alloc, changes),
        }
    }
}

impl Course {
    /// An equal value. This fails only if memory is refused.
    fn copy(&self, alloc: Global) -> Result<Course, AllocError>
        ensures { IfOk result (λ copy. IsAlike copy self.now) }
    {
        match self {
            Course::Making(former) => Ok(Course::Making(copied(alloc, former.as_deref())?)),
            Course::TakingBack => Ok(Course::TakingBack),
        }
    }
}

/// The bytes of BootKeepState, copied.
fn kept_state(alloc: Global, vars: &Vars) -> Result<Option<Vec<u8>>, AllocError>
    ensures value { IfOk result (λ state. bytes_of state ≡ map.get vars.now keep_text) }
    ensures valid { IfOk result (λ state. IfSome (bytes_of state) IsData) }
{
    copied(alloc, vars.get(KEEP_STATE))
}

/// The changes of the boot manager's variables from the one set to the other, with bytes of their own.
fn owned_changes(alloc: Global, from: &Vars, to: &Vars) -> Result<Vec<Change>, AllocError>
    ensures changes { IfOk result (λ changes. changes.items ≡ changes_from from.now to.now) }
    ensures valid { IfOk result (λ changes. AllByRecursion IsBootChange changes.items) }
{
    vars_laws::each_change_is_needed();
    let changes = boot_changes(alloc, from, to)?;
    prove_valid(from, to);
    own_all(alloc, &changes)
}

/// The changes, with bytes of their own.
fn own_all(alloc: Global, changes: &[BootChange<'_>]) -> Result<Vec<Change>, AllocError>
    requires { AllByRecursion IsBootChange (list_map change_parts changes.now) }
    ensures { IfOk result (λ owned. owned.items ≡ list_map change_parts changes.now) }
{
    let mut owned = Vec::new(alloc);
    for change in changes {
        owned.push(Change::new(alloc, change)?)?;
    }
    Ok(owned)
}

/// Looks at both sets, for the contract alone: what is stored under a name is data.
fn prove_valid(from: &Vars, to: &Vars)
    ensures from { IsVars from.now }
    ensures to { IsVars to.now }
{
    let _ = (from.len(), to.len());
}

/// The changes, copied.
fn copy_all(alloc: Global, changes: &[Change]) -> Result<Vec<Change>, AllocError>
    ensures { IfOk result (λ copies. copies.items ≡ changes.now) }
{
    let mut copies = Vec::new(alloc);
    for change in changes {
        copies.push(change.copy(alloc)?)?;
    }
    Ok(copies)
}

/// The changes of what is kept, whose attributes are those of what is there.
#[tactic(auto, using(crate::proofs::ChangeLoop::one_more, crate::proofs::KeptChanges::one_fails))]
fn all_with_attributes(
    alloc: Global,
    changes: &[Change],
    there: &Vars,
) -> Result<Vec<Change>, AttributesFault>
    ensures value { IfOk result (λ kept. kept.items ≡ list_map (change_kept there.now) changes.now) }
    ensures valid { IfOk result (λ kept. AllByRecursion IsBootChange kept.items) }
    ensures fault { IfErr result (IsFaultOfChanges changes.now) }
{
    let mut kept = Vec::new(alloc);
    for change in changes {
        let made = change.with_attributes(alloc, there)?;
        kept.push(made)?;
    }
    Ok(kept)
}

/// The changes that take these back, the last of them first.
fn taken_back(alloc: Global, changes: Vec<Change>) -> Result<Vec<Change>, AllocError>
    ensures { IfOk result (λ back. back.items ≡ taken_back changes.items) }
{
    let mut back = Vec::new(alloc);
    for change in changes {
        back.push(change.undone())?;
    }
    back.reverse();
    Ok(back)
}

/// The changes, of which none sets BootNext any more.
fn all_spent(alloc: Global, changes: Vec<Change>) -> Result<Vec<Change>, AllocError>
    ensures { IfOk result (λ spent_ones. spent_ones.items ≡ list_map spent changes.items) }
{
    let mut all = Vec::new(alloc);
    for change in changes {
        all.push(change.spent())?;
    }
    Ok(all)
}
