//! Machines over storage, with a record of what was done.

ghost use Rattle.std.specs.Prelude.{◌≡◌, ◌⊎◌, Bool, List, [], Option, None, IfOk, IfErr, OnOk, OnErr, is_ok, ◌∷◌, ◌++◌, ◌+◌, ◌<◌, ◌≤◌};
ghost use Rattle.std.specs.Coded.{codes};
ghost use Rattle.std.specs.FinMap.{code as map_code};
ghost use Rattle.std.specs.Option.{option_map};
ghost use Rattle.std.specs.Vec.{vec_len, vec_capacity};
ghost use Rattle.uefi_vars.specs.NameChanges.{with_data};
ghost use Rattle.boot_journal.specs.Asked.{Ask, ToMake, HasMade, ToReplace, HasReplaced, and_then};
ghost use Rattle.boot_journal.specs.Cause.{and_failed, failures_of};
ghost use Rattle.boot_journal.specs.Changes.{made};
ghost use Rattle.boot_journal.specs.Recorded.{done_to, past, refusals_in};
ghost use Rattle.boot_journal.specs.Store.{with_made, with_journal, seen};
ghost use Rattle.boot_journal.specs.RecordedValue.{store_of};
ghost use Rattle.boot_journal.specs.declared.machine.CallError.{CallError};
ghost use Rattle.boot_journal.specs.declared.recorded.Move.TheVariants as Move;

use crate::change::Change;
use crate::journal::Journal;
use crate::machine::{CallError, Machine};
use std::alloc::{AllocError, Global};
use uefi_vars::{KEEP_STATE, Vars};

/// What a machine's variables and its journal are kept in, such as a folder of the system. What it does isn't proved. It is
/// trusted that each call does the whole of what it is asked to, or nothing, and tells which; that a call for what is there
/// already succeeds; and that nobody else changes the boot manager's variables meanwhile.
pub trait Storage: Drop {
    /// Why it refuses something.
    type Refusal: Drop;

    /// What it was asked, each with whether it answered that it did or has that, the first call first, if it tells that.
    ghost asked: { Self → Option (List Ask) } = { λ _. None };

    /// The errors with which it failed, the first one first, if it tells that.
    ghost failures: { Self → Option (List (CallError Self.Refusal)) } = { λ _. None };

    /// Sets the variable to its attributes and its data after the change, or takes it out.
    fn make(&mut self, change: &Change) -> Result<(), CallError<Self::Refusal>>
        ensures failed { failures self.new ≡ and_failed (failures self.old) (failures_of result) }
        ensures asks { asked self.new ≡ and_then (asked self.old) (ToMake change.now (is_ok result) ∷ []) };

    /// Whether the variable has its attributes and its data after the change, or is out if it is taken out, although
    /// `make` failed.
    fn has_made(&mut self, change: &Change) -> bool
        ensures failed { failures self.new ≡ failures self.old }
        ensures asks { asked self.new ≡ and_then (asked self.old) (HasMade change.now result ∷ []) };

    /// Replaces the journal.
    fn replace_journal(&mut self, journal: &Journal) -> Result<(), CallError<Self::Refusal>>
        ensures failed { failures self.new ≡ and_failed (failures self.old) (failures_of result) }
        ensures asks { asked self.new ≡ and_then (asked self.old) (ToReplace journal.now (is_ok result) ∷ []) };

    /// Whether the journal is this one, although `replace_journal` failed.
    fn has_replaced(&mut self, journal: &Journal) -> bool
        ensures failed { failures self.new ≡ failures self.old }
        ensures asks { asked self.new ≡ and_then (asked self.old) (HasReplaced journal.now result ∷ []) };
}

/// What was done to a machine.
#[derive(Debug, Drop)]
pub(crate) enum Move {
    /// A change was made.
    Made(Change),
    /// The journal was replaced by this one.
    Replaced(Journal),
    /// A call failed, and nothing was done.
    Refused,
}

/// What is kept of a machine.
#[derive(Debug, Drop)]
pub(crate) struct Kept {
    /// The variables of its firmware.
    pub(crate) vars: Vars,
    /// Its journal.
    pub(crate) journal: Journal,
}

/// A machine over storage. It keeps what the storage has, and a record of what was done to it: what the storage was asked for
/// and answered that it did.
#[derive(Drop)]
pub struct Recorded<D: Storage> {
    storage: D,
    alloc: Global,
    first: Kept,
    moves: Vec<Move>,
    now: Kept,

    ghost vars_are: { now.vars ≡ (done_to (store_of first) moves.items).variables } by { Prim.hlevel (codes, map_code) },
    ghost journal_is: { now.journal ≡ (done_to (store_of first) moves.items).journal },
}

impl<D: Storage> Recorded<D> {
    /// The machine over this storage, which has these variables and this journal. Those of the boot manager are given
    /// with their attributes, as [`with_attributes`](crate::with_attributes) makes them of a set. A BootKeepState among
    /// the variables doesn't count: the journal has it. This fails only if memory is refused.
    pub fn new(
        alloc: Global,
        storage: D,
        vars: Vars,
        journal: Journal,
    ) -> Result<Recorded<D>, AllocError>
        ensures { IfOk result (λ machine. (store_of machine.now ≡ record { variables = vars; journal = journal }) × (machine.moves.items ≡ [])
            × (machine.storage ≡ storage)) }
    {
        let first = Kept {
            vars: vars.copy(alloc)?,
            journal: journal.copy(alloc)?,
        };
        Ok(Recorded {
            storage,
            alloc,
            first,
            moves: Vec::new(alloc),
            now: Kept { vars, journal },
        })
    }

    /// The storage.
    pub fn storage(&self) -> &D
        ensures { result.now ≡ self.entry.now.storage }
    {
        &self.storage
    }

    /// Keeps that the change was made, which leads to these variables.
    fn keep_change(&mut self, change: Change, vars: Vars)
        requires room { vec_len self.old.moves < vec_capacity self.old.moves }
        requires leads { vars ≡ made (change ∷ []) self.old.now.vars }
        ensures store { store_of self.new.now ≡ with_made (change ∷ []) (store_of self.old.now) }
        ensures first { self.new.first ≡ self.old.first }
        ensures moves { self.new.moves.items ≡ self.old.moves.items ++ Move.Made change ∷ [] }
        ensures len { vec_len self.new.moves ≡ vec_len self.old.moves + 1 }
        ensures capacity { vec_capacity self.new.moves ≡ vec_capacity self.old.moves }
        ensures storage { self.new.storage ≡ self.old.storage }
    {
        self.now.vars = vars;
        self.moves.push_reserved(Move::Made(change));
    }

    /// Keeps that the journal was replaced by this one.
    fn keep_journal(&mut self, kept: Journal, journal: Journal)
        requires room { vec_len self.old.moves < vec_capacity self.old.moves }
        requires same { kept ≡ journal }
        ensures store { store_of self.new.now ≡ with_journal journal (store_of self.old.now) }
        ensures first { self.new.first ≡ self.old.first }
        ensures moves { self.new.moves.items ≡ self.old.moves.items ++ Move.Replaced journal ∷ [] }
        ensures len { vec_len self.new.moves ≡ vec_len self.old.moves + 1 }
        ensures capacity { vec_capacity self.new.moves ≡ vec_capacity self.old.moves }
        ensures storage { self.new.storage ≡ self.old.storage }
    {
        self.now.journal = journal;
        self.moves.push_reserved(Move::Replaced(kept));
    }

    /// Keeps that a call failed.
    fn keep_refusal(&mut self)
        requires room { vec_len self.old.moves < vec_capacity self.old.moves }
        ensures store { store_of self.new.now ≡ store_of self.old.now }
        ensures first { self.new.first ≡ self.old.first }
        ensures moves { self.new.moves.items ≡ self.old.moves.items ++ Move.Refused ∷ [] }
        ensures storage { self.new.storage ≡ self.old.storage }
    {
        self.moves.push_reserved(Move::Refused);
    }
}

impl<D: Storage> Recorded<D> {
    /// Makes room in the record for what a call may do. This fails only if memory is refused.
    fn reserve(&mut self) -> Result<(), AllocError>
        ensures room { OnOk result (vec_len self.new.moves + 2 ≤ vec_capacity self.new.moves) }
        ensures now { store_of self.new.now ≡ store_of self.old.now }
        ensures first { self.new.first ≡ self.old.first }
        ensures moves { self.new.moves.items ≡ self.old.moves.items }
        ensures storage { self.new.storage ≡ self.old.storage }
    {
        self.moves.reserve(2)
    }
}

impl<D: Storage> Machine for Recorded<D> {
    ghost use Rattle.boot_journal.specs.Cause.{HasCause, HaveFailed, IsFailureOf};
    ghost use Rattle.boot_journal.specs.Moments.{Leaves, IsRecorded};
    ghost use Rattle.boot_journal.specs.Recorded.{past, refusals_in, Makes, RefusesToMake, Replaces, RefusesToReplace, Tells, TellsNothing};
    ghost use Rattle.boot_journal.specs.RecordedValue.{store_of};
    ghost use Rattle.boot_journal.specs.Store.{IsEither};

    type Refusal = D::Refusal;

    ghost store = { λ machine. store_of machine.now };

    ghost history = { λ machine. past (store_of machine.first) machine.moves.items };

    ghost refusals = { λ machine. refusals_in machine.moves.items };

    fn read_vars(&self, alloc: Global) -> Result<Vars, AllocError> {
        read_seen(alloc, &self.now)
    }

    fn read_journal(&self, alloc: Global) -> Result<Journal, AllocError> {
        self.now.journal.copy(alloc)
    }

    fn is_idle(&self) -> bool {
        self.now.journal.is_idle()
    }

    #[tactic(auto, using(crate::proofs::Failures::untold))]
    fn make(&mut self, change: &Change) -> Result<(), CallError<D::Refusal>>
        ensures cause { HasCause (refusals_in self.old.moves.items) (refusals_in self.new.moves.items) result }
        ensures failed { HaveFailed {E = D.Refusal} None None (failures_of result) }
        ensures made { OnOk result (store_of self.new.now ≡ with_made (change.now ∷ []) (store_of self.old.now)) }
        ensures recorded { IsRecorded (store_of self.old.now) (store_of self.new.now)
            (past (store_of self.old.first) self.old.moves.items) (past (store_of self.new.first) self.new.moves.items) }
        ensures whole { IsEither (store_of self.old.now) (with_made (change.now ∷ []) (store_of self.old.now)) (store_of self.new.now) }
        ensures moments { Leaves (IsEither (store_of self.old.now) (with_made (change.now ∷ []) (store_of self.old.now)))
            (past (store_of self.old.first) self.old.moves.items) (past (store_of self.new.first) self.new.moves.items) }
        // What it tells of moves is what its storage was asked for, and answered.
        ensures asked { OnOk result (Tells (Makes change.now)
            (D.asked self.old.storage) (D.asked self.new.storage) self.old.moves.items self.new.moves.items) }
        ensures refused { OnErr result (TellsNothing (D.asked self.old.storage) (D.asked self.new.storage) self.old.moves.items self.new.moves.items
            ⊎ ((has : Bool) × Tells (RefusesToMake change.now has)
            (D.asked self.old.storage) (D.asked self.new.storage) self.old.moves.items self.new.moves.items)) }
        // The reason is that of its storage, unless memory was refused before that was asked.
        ensures told { IfErr result (IsFailureOf (D.failures self.old.storage) (D.failures self.new.storage)) }
    {
        let vars = changed(self.alloc, &self.now.vars, change)?;
        let copy = change.copy(self.alloc)?;
        self.reserve()?;
        match self.storage.make(change) {
            Ok(()) => {
                self.keep_change(copy, vars);
                Ok(())
            }
            Err(error) => {
                if self.storage.has_made(change) {
                    self.keep_change(copy, vars);
                    self.keep_refusal();
                    Err(error)
                } else {
                    self.keep_refusal();
                    Err(error)
                }
            }
        }
    }

    #[tactic(auto, using(crate::proofs::Failures::untold))]
    fn replace_journal(&mut self, journal: &Journal) -> Result<(), CallError<D::Refusal>>
        ensures cause { HasCause (refusals_in self.old.moves.items) (refusals_in self.new.moves.items) result }
        ensures failed { HaveFailed {E = D.Refusal} None None (failures_of result) }
        ensures replaced { OnOk result (store_of self.new.now ≡ with_journal journal.now (store_of self.old.now)) }
        ensures recorded { IsRecorded (store_of self.old.now) (store_of self.new.now)
            (past (store_of self.old.first) self.old.moves.items) (past (store_of self.new.first) self.new.moves.items) }
        ensures whole { IsEither (store_of self.old.now) (with_journal journal.now (store_of self.old.now)) (store_of self.new.now) }
        ensures moments { Leaves (IsEither (store_of self.old.now) (with_journal journal.now (store_of self.old.now)))
            (past (store_of self.old.first) self.old.moves.items) (past (store_of self.new.first) self.new.moves.items) }
        // What it tells of moves is what its storage was asked for, and answered.
        ensures asked { OnOk result (Tells (Replaces journal.now)
            (D.asked self.old.storage) (D.asked self.new.storage) self.old.moves.items self.new.moves.items) }
        ensures refused { OnErr result (TellsNothing (D.asked self.old.storage) (D.asked self.new.storage) self.old.moves.items self.new.moves.items
            ⊎ ((has : Bool) × Tells (RefusesToReplace journal.now has)
            (D.asked self.old.storage) (D.asked self.new.storage) self.old.moves.items self.new.moves.items)) }
        // The reason is that of its storage, unless memory was refused before that was asked.
        ensures told { IfErr result (IsFailureOf (D.failures self.old.storage) (D.failures self.new.storage)) }
    {
        let kept = journal.copy(self.alloc)?;
        let copy = journal.copy(self.alloc)?;
        self.reserve()?;
        match self.storage.replace_journal(journal) {
            Ok(()) => {
                self.keep_journal(kept, copy);
                Ok(())
            }
            Err(error) => {
                if self.storage.has_replaced(journal) {
                    self.keep_journal(kept, copy);
                    self.keep_refusal();
                    Err(error)
                } else {
                    self.keep_refusal();
                    Err(error)
                }
            }
        }
    }
}

/// What is read of a machine: its variables with BootKeepState. This fails only if memory is refused.
fn read_seen(alloc: Global, kept: &Kept) -> Result<Vars, AllocError>
    ensures { IfOk result (λ vars. vars ≡ seen (store_of kept.now)) }
{
    with_value(alloc, &kept.vars, KEEP_STATE, kept.journal.state())
}

/// The variables after the change. This fails only if memory is refused.
fn changed(alloc: Global, vars: &Vars, change: &Change) -> Result<Vars, AllocError>
    ensures { IfOk result (λ after. after ≡ made (change.now ∷ []) vars.now) }
{
    with_value(alloc, vars, change.name(), change.after())
}

/// The variables with this data under the name, or without the name. This fails only if memory is refused, since the set
/// can hold it.
fn with_value(
    alloc: Global,
    vars: &Vars,
    name: &str,
    value: Option<&[u8]>,
) -> Result<Vars, AllocError>
    ensures { IfOk result (λ after. after ≡ with_data vars.now name.now (option_map (λ b. b.now) value.entry)) }
{
    let mut vars = vars.copy(alloc)?;
    match value {
        Some(value) => match vars.put(name, value) {
            Ok(()) => Ok(vars),
            Err(_) => Err(AllocError),
        },
        None => {
            vars.remove(name);
            Ok(vars)
        }
    }
}
