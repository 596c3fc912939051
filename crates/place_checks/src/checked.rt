//! What is found of the variables of a place.

ghost use Rattle.std.specs.Prelude.{◌≡◌};
ghost use Rattle.entry_checks.specs.Facts.{state_of};
ghost use Rattle.entry_checks.specs.Named.{is_order_wrong};
ghost use Rattle.place_checks.specs.Verdict.{has_entry, has_normal, first_state, checked_state, verdict_of};

use crate::check::Verdict;
use crate::entry::{LookedEntry, look_at_entry};
use crate::machine::Machine;
use entry_checks::{
    Facts, Finding, Held, Known, NextFinding, OptionFacts, OrderFindings, State, entry_state,
    findings, is_order_wrong, listed, next_finding, order_findings, twins,
};
use messages::Failure;
use std::alloc::{AllocError, Global};
use std::rt::Files;
use uefi_vars::{
    PlanNumbers, VarFault, Vars, boot_next, entries_at_risk, entry_number, plan_numbers,
};

/// What is found of the variables of a place.
#[derive(Drop)]
pub(crate) struct Checked {
    /// What the next boot tries, if BootOrder and BootNext can be read.
    pub(crate) plan: Option<PlanNumbers>,
    /// The entries in the order in which they are told.
    pub(crate) entries: Vec<LookedEntry>,
    /// What is found of each of them.
    pub(crate) found: Vec<Found>,
    /// What is found of BootOrder.
    pub(crate) order: OrderFindings,
    /// What is wrong with BootNext.
    pub(crate) next: Option<NextFinding>,
}

/// What is found of an entry.
#[derive(Drop)]
pub(crate) struct Found {
    /// The first entry that leads to the same file with the same data, if that is another one.
    pub(crate) twin: Option<u16>,
    /// The findings.
    pub(crate) findings: Vec<Finding>,
}

impl Found {
    /// Whether it can be started.
    pub(crate) fn state(&self) -> State
        ensures { result ≡ state_of self.now.findings.items }
    {
        entry_state(&self.findings)
    }
}

impl Checked {
    /// What is said of the next boot.
    pub(crate) fn verdict(&self) -> Verdict
        ensures { result ≡ verdict_of (checked_state self.now.plan self.now.found.items) }
    {
        match self.state() {
            State::Wrong => Verdict::Wrong,
            State::Ok | State::Unknown => Verdict::Fine,
        }
    }

    /// Whether what the next boot tries first can be started: the first entry of the plan, which is told first.
    pub(crate) fn state(&self) -> State
        ensures { result ≡ checked_state self.now.plan self.now.found.items }
    {
        if self.has_plan() {
            first_state(&self.found)
        } else {
            State::Wrong
        }
    }

    /// Whether something is wrong with BootOrder.
    pub(crate) fn is_order_wrong(&self) -> bool
        ensures { result ≡ is_order_wrong self.now.order (has_normal self.now.plan) }
    {
        is_order_wrong(&self.order, self.has_normal())
    }

    /// Whether BootOrder names an entry that a normal boot tries.
    fn has_normal(&self) -> bool
        ensures { result ≡ has_normal self.now.plan }
    {
        match &self.plan {
            Some(plan) => !plan.normal.is_empty(),
            None => false,
        }
    }

    /// Whether the next boot tries an entry.
    fn has_plan(&self) -> bool
        ensures { result ≡ has_entry self.now.plan }
    {
        match &self.plan {
            Some(plan) => plan.next.is_some() || !plan.normal.is_empty(),
            None => false,
        }
    }
}

/// Whether the first entry can be started: one that isn't there can't.
fn first_state(found: &[Found]) -> State
    ensures { result ≡ first_state found.now }
{
    match found {
        [first, ..] => first.state(),
        [] => State::Wrong,
    }
}

/// What is found of the variables, on this machine.
pub(crate) fn check_vars<R: Files + AllocGlobal>(
    mut machine: Machine<'_, R>,
    vars: &Vars,
) -> Result<Checked, Failure> {
    let alloc = machine.rt.alloc();
    let plan = plan_if_any(alloc, vars)?;
    let numbers = told_numbers(alloc, vars, plan.as_ref())?;
    let entries = look_at_entries(&mut machine, vars, &numbers)?;
    let found = find_in_entries(alloc, vars, &entries)?;
    Ok(Checked {
        plan,
        entries,
        found,
        order: order_findings(alloc, vars)?,
        next: next_finding(vars),
    })
}

/// What the next boot tries, if BootOrder and BootNext can be read.
fn plan_if_any(alloc: Global, vars: &Vars) -> Result<Option<PlanNumbers>, AllocError> {
    match plan_numbers(alloc, vars) {
        Ok(plan) => Ok(Some(plan)),
        Err(VarFault::OutOfMemory) => Err(AllocError),
        Err(_) => Ok(None),
    }
}

/// The numbers of the entries, in the order in which they are told.
fn told_numbers(
    alloc: Global,
    vars: &Vars,
    plan: Option<&PlanNumbers>,
) -> Result<Vec<u16>, AllocError> {
    let mut entries = Vec::new(alloc);
    for (name, _data) in vars.iter() {
        if let Some(number) = entry_number(name) {
            entries.push(number)?;
        }
    }
    match plan {
        Some(plan) => listed(alloc, plan, &entries),
        None => Ok(entries),
    }
}

/// Looks where the entries of these numbers lead.
fn look_at_entries<R: Files + AllocGlobal>(
    machine: &mut Machine<'_, R>,
    vars: &Vars,
    numbers: &[u16],
) -> Result<Vec<LookedEntry>, Failure> {
    let mut looked = Vec::new(machine.rt.alloc());
    for number in numbers {
        if let Some(bytes) = vars.entry(*number) {
            looked.push(look_at_entry(machine, *number, bytes)?)?;
        }
    }
    Ok(looked)
}

/// What is found of each of the entries.
fn find_in_entries(
    alloc: Global,
    vars: &Vars,
    entries: &[LookedEntry],
) -> Result<Vec<Found>, AllocError> {
    let twins = twins(alloc, &known_of(alloc, entries)?)?;
    let unnamed = unnamed_numbers(alloc, vars)?;
    let next = boot_next(vars).unwrap_or(None);
    let mut found = Vec::new(alloc);
    for (entry, twin) in entries.iter().zip(&twins) {
        let findings = findings(alloc, &facts_of(entry, *twin, next, &unnamed))?;
        found.push(Found {
            twin: *twin,
            findings,
        })?;
    }
    Ok(found)
}

/// Where each of the entries leads.
fn known_of(alloc: Global, looked: &[LookedEntry]) -> Result<Vec<Known>, AllocError> {
    let mut known = Vec::with_capacity(alloc, looked.len())?;
    for entry in looked {
        known.push(Known {
            number: entry.number,
            destination: entry.destination.clone()?,
        })?;
    }
    Ok(known)
}

/// The entries that neither BootOrder nor BootNext names: none if either can't be read.
fn unnamed_numbers(alloc: Global, vars: &Vars) -> Result<Vec<u16>, AllocError> {
    match entries_at_risk(alloc, vars) {
        Ok(at_risk) => Ok(at_risk.unnamed),
        Err(VarFault::OutOfMemory) => Err(AllocError),
        Err(_) => Ok(Vec::new(alloc)),
    }
}

/// What is known of an entry that has this twin, if BootNext has this number, and these entries are named by nothing.
fn facts_of(looked: &LookedEntry, twin: Option<u16>, next: Option<u16>, unnamed: &[u16]) -> Facts {
    let held = match looked.attributes {
        Some(attributes) => Held::Option(OptionFacts {
            attributes,
            lead: looked.lead,
            image: looked.image.state,
            is_twin: twin.is_some(),
        }),
        None => Held::NoOption,
    };
    Facts {
        is_next: next == Some(looked.number),
        is_unnamed: unnamed.binary_search(&looked.number).is_ok(),
        held,
    }
}
