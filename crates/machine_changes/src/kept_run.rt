//! Runs over a machine's variables, before whose change all is done that may fail: what is told of it is made, and what is
//! there is kept.

ghost use Rattle.std.specs.Prelude.{◌≢◌, [], IfOk, IfErr};
ghost use Rattle.uefi_vars.specs.BootChange.{changes_from};
ghost use Rattle.boot_journal.specs.Cause.{IfRefused};
ghost use Rattle.machine_changes.specs.KeptFault.{IsKeptFault, IsUnprepared, LeadsToChange};

use crate::history::History;
use boot_journal::{BootId, CallError, CommandError, Machine, Run, UpdateError, command};
use messages::Failure;
use std::alloc::Global;
use std::rt::{Clock, Files};
use uefi_vars::Vars;
use wanted_changes::{Led, Seen, SetChange, Sets, Told, ToldAnswer, Wanted};
use whole_files::OutputFile;

/// What a change leads to.
#[derive(Drop)]
pub(crate) struct ToldChange<A> {
    /// The variables after it, without attributes.
    pub(crate) set: Vars,
    /// The variables after it, as the machine is to keep them.
    pub(crate) kept: Vars,
    /// What it answers, and what is told of it.
    pub(crate) answered: ToldAnswer<A>,
}

/// Why such a change isn't made of variables.
#[derive(Debug, Drop)]
pub(crate) enum KeptFault<F> {
    /// The run itself refuses them.
    Run(F),
    /// What is to be told of it can't be. The failure is never [`Failure::Memory`].
    Telling(Failure),
    /// The run leads to a change, and what is there can't be kept.
    History(Failure),
    /// What is to be done right before the change can't be. The failure is never [`Failure::Memory`].
    Beginning(Failure),
}

/// A change that is wanted of a machine of which this is known.
#[derive(Drop)]
pub(crate) struct SeenChange<'a, 's, W> {
    /// The change.
    pub(crate) wanted: &'a W,
    /// What is known of the machine.
    pub(crate) seen: &'s Seen<'s>,
    /// Whether nothing is changed, and what would be is told.
    pub(crate) is_coming: bool,
}

impl<W: Wanted> SeenChange<'_, '_, W> {
    /// What the change leads to from these variables. What is told of it is made before anything is changed: afterwards a refusal
    /// of memory would tell of a change that was made as if it weren't.
    pub(crate) fn lead(
        &self,
        alloc: Global,
        vars: &Vars,
    ) -> Result<ToldChange<W::Answer>, CallError<KeptFault<W::Fault>>>
        ensures done { IfOk result (λ change.
            W.leads self.now.wanted.now self.now.seen.now vars.now change.kept change.answered.answer) }
        ensures refused { IfErr result (λ error. IfRefused error (λ fault. IsKeptFault fault
            (W.refuses self.now.wanted.now self.now.seen.now vars.now)
            (LeadsToChange (W.leads self.now.wanted.now self.now.seen.now) vars.now))) }
    {
        match self.wanted.run(alloc, self.seen, vars) {
            Ok(led) => {
                let Led { sets, kept, answer } = led;
                let Sets { from, to } = sets;
                let change = SetChange {
                    from: &from,
                    to: &to,
                    is_coming: self.is_coming,
                };
                match self.tell(alloc, change, &answer) {
                    Ok(told) => Ok(ToldChange {
                        set: to,
                        kept,
                        answered: ToldAnswer { answer, told },
                    }),
                    Err(error) => Err(error),
                }
            }
            Err(CallError::OutOfMemory) => Err(CallError::OutOfMemory),
            Err(CallError::Refused(fault)) => Err(CallError::Refused(KeptFault::Run(fault))),
        }
    }

    /// What is told of the change from the one set to the other, which answers so.
    fn tell<F>(
        &self,
        alloc: Global,
        change: SetChange<'_>,
        answer: &W::Answer,
    ) -> Result<Told, CallError<KeptFault<F>>>
        ensures { IfErr result (λ error. IfRefused error (IsUnprepared ⊥)) }
    {
        match self.wanted.tell(alloc, self.seen, change, answer) {
            Ok(told) => Ok(told),
            Err(Failure::Memory) => Err(CallError::OutOfMemory),
            Err(failure) => Err(CallError::Refused(KeptFault::Telling(failure))),
        }
    }
}

/// The run of a change that is wanted.
#[derive(Drop)]
pub(crate) struct KeptRun<'a, 's, 'm, R, W> {
    /// What reaches the files.
    pub(crate) rt: &'a R,
    /// The change.
    pub(crate) change: &'s SeenChange<'a, 's, W>,
    /// Where what was there before is kept.
    pub(crate) history: History<'a, 'm>,
}

impl<R, W> Run for KeptRun<'_, '_, '_, R, W>
where
    R: Files<File: OutputFile> + Clock + AllocGlobal,
    W: Wanted,
{
    ghost use Rattle.machine_changes.specs.KeptFault.{IsKeptFault, LeadsToChange};

    type Answer = ToldAnswer<W::Answer>;

    type Fault = KeptFault<W::Fault>;

    ghost leads = { λ run from to answered.
        W.leads run.change.now.wanted.now run.change.now.seen.now from to answered.answer };

    ghost refuses = { λ run from fault. IsKeptFault fault
        (W.refuses run.change.now.wanted.now run.change.now.seen.now from)
        (LeadsToChange (W.leads run.change.now.wanted.now run.change.now.seen.now) from) };

    fn run(
        self,
        alloc: Global,
        vars: &Vars,
    ) -> Result<(Vars, ToldAnswer<W::Answer>), CallError<KeptFault<W::Fault>>> {
        match self.change.lead(alloc, vars) {
            Ok(
                ToldChange {
                    set: _,
                    kept,
                    answered,
                },
            ) => match self.prepare(alloc, vars, &kept, &answered.answer) {
                Ok(()) => Ok((kept, answered)),
                Err(error) => Err(error),
            },
            Err(error) => Err(error),
        }
    }
}

impl<R, W> KeptRun<'_, '_, '_, R, W>
where
    R: Files<File: OutputFile> + Clock + AllocGlobal,
    W: Wanted,
{
    /// Keeps what is there before a change that is yet to be made and answers so, and then does what is to be done right before
    /// it.
    fn prepare<F>(
        &self,
        alloc: Global,
        from: &Vars,
        to: &Vars,
        answer: &W::Answer,
    ) -> Result<(), CallError<KeptFault<F>>>
        ensures { IfErr result (λ error. IfRefused error (IsUnprepared (changes_from from.now to.now ≢ []))) }
    {
        match self.history.keep(self.rt, from, to) {
            Ok(()) => {}
            Err(CallError::OutOfMemory) => return Err(CallError::OutOfMemory),
            Err(CallError::Refused(failure)) => {
                return Err(CallError::Refused(KeptFault::History(failure)));
            }
        }
        match self.change.wanted.begin(answer) {
            Ok(()) => Ok(()),
            Err(Failure::Memory) => Err(CallError::OutOfMemory),
            Err(failure) => Err(CallError::Refused(KeptFault::Beginning(failure))),
        }
    }
}

/// Does what is left of earlier updates of a machine, runs a change over its variables, and makes what that leads to, as
/// [`command`] does; what is told of the change is made before it, and what is there is kept, so that the change can be
/// undone; then it is done what is to be right before the change, which is taken back if the change is. The identity is that of
/// the machine's start.
///
/// # Errors
///
/// Those of [`command`]: [`CommandError::Run`] also if what is to be told can't be, what is there can't be kept, or what is to be
/// done right before the change can't be, and nothing was changed then.
pub(crate) fn kept_command<R, M, W>(
    machine: &mut M,
    run: KeptRun<'_, '_, '_, R, W>,
    boot: &BootId,
) -> Result<ToldAnswer<W::Answer>, CommandError<M::Refusal, KeptFault<W::Fault>>>
where
    R: Files<File: OutputFile> + Clock + AllocGlobal,
    M: Machine,
    W: Wanted,
{
    let (rt, change, history) = (run.rt, run.change, run.history);
    let ended = command(rt.alloc(), machine, run, boot);
    if let Err(CommandError::Updating(UpdateError::TakenBack(_))) = &ended {
        forget_unmade(rt, machine, history);
        change.wanted.take_back();
    }
    ended
}

/// Takes out what was kept of the change of a machine that was taken back. If that fails, an undoing passes it over.
fn forget_unmade<R: Files<File: OutputFile> + AllocGlobal, M: Machine>(
    rt: &R,
    machine: &M,
    history: History<'_, '_>,
) {
    if let Ok(vars) = machine.read_vars(rt.alloc()) {
        let _ = history.forget_unmade(rt, &vars);
    }
}
