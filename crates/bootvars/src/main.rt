//! The command `bootvars`, which reads, compares and writes the UEFI boot variables of a machine, and makes load options
//! and the frames of requests. All of it is in the libraries `var_commands`, `efibootmgr_runs`, `trial_changes` and
//! `profile_changes`.
#![tactic(auto)]

use boot_texts::TrialView;
use boot_trials::{Outcome, TrialTarget};
use machine_changes::change_machine;
use messages::Failure;
use profile_changes::{apply_profile, show_profile};
use std::process::ExitCode;
use std::rt::{Clock, Env, Files};
use trial_changes::{TrialForm, begin_trial, confirm_trial, end_trial, trial_view};
use uefi_vars::Vars;
use var_commands::{OtherProgram, Profiles, Trials};
use wanted_changes::{
    ChangeOptions, MachineWords, Machines, PlaceKind, ProfileWords, ToldAnswer, Wanted,
};
use whole_files::OutputFile;

/// What is done for the words of `efibootmgr`, and for those of starts on trial and of profiles.
#[derive(Clone, Copy)]
struct Others;

impl<R: Env + Files<File: OutputFile> + Clock + Input + Print + Eprint + AllocGlobal> OtherProgram<
    R,
> for Others {
    fn run(&self, rt: &R, words: &[String]) -> u8 {
        efibootmgr_runs::run(rt, self, words)
    }
}

impl<R: Files<File: OutputFile> + Clock + Input + Print + Eprint + AllocGlobal> Trials<R>
    for Others {
    fn begin(
        &self,
        rt: &R,
        options: &ChangeOptions<'_>,
        target: TrialTarget<'_>,
        json: bool,
    ) -> Result<(), Failure> {
        begin_trial(rt, self, options, target, form_of(json))
    }

    fn confirm(
        &self,
        rt: &R,
        options: &ChangeOptions<'_>,
        json: bool,
    ) -> Result<Option<Outcome>, Failure> {
        confirm_trial(rt, self, options, form_of(json))
    }

    fn end(&self, rt: &R, machine: &MachineWords<'_>, json: bool) -> Result<(), Failure> {
        end_trial(rt, machine, form_of(json))
    }

    fn view(
        &self,
        rt: &R,
        machine: &MachineWords<'_>,
        vars: &Vars,
    ) -> Result<Option<TrialView>, Failure> {
        trial_view(rt, machine, vars)
    }
}

impl<R: Files<File: OutputFile> + Clock + Input + Print + Eprint + AllocGlobal> Profiles<R>
    for Others {
    fn apply(
        &self,
        rt: &R,
        options: &ChangeOptions<'_>,
        words: &ProfileWords<'_>,
    ) -> Result<bool, Failure> {
        apply_profile(rt, self, options, words)
    }

    fn show(&self, rt: &R, place: &str) -> Result<(), Failure> {
        show_profile(rt, place)
    }
}

impl Machines for Others {
    fn change<R, W>(
        &self,
        rt: &R,
        options: &ChangeOptions<'_>,
        kind: PlaceKind,
        wanted: &W,
    ) -> Result<ToldAnswer<W::Answer>, W::Refusal>
    where
        R: Files<File: OutputFile> + Clock + Input + Print + Eprint + AllocGlobal,
        W: Wanted,
    {
        change_machine(rt, options, kind, wanted)
    }
}

/// How a trial is told.
fn form_of(json: bool) -> TrialForm {
    if json {
        TrialForm::Json
    } else {
        TrialForm::Lines
    }
}

fn main(rt: HostRuntime) -> ExitCode {
    ExitCode::from(var_commands::run(&rt, &Others))
}
