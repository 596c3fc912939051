//! Variables as they are shown, by `bootvars show`.

use crate::at_risk::Risk;
use crate::shown_order::OrderMarks;
use crate::shown_trial::{TrialView, append_trial, append_trial_member};
use std::alloc::{AllocError, Global};
use uefi_names::named_nodes_text;
use uefi_option::{OptionView, check_option, is_active, is_normal};
use uefi_vars::{
    AtRisk, BOOT_NEXT, BOOT_ORDER, EntryDigits, PlanNumbers, TIMEOUT, VarFault, Vars, entry_number,
    known_risks, plan_numbers,
};
use value_texts::json::{
    JsonObject, JsonWriter, Leaf, append_leaf, append_leaves, append_object, append_objects,
    json_line,
};
use value_texts::{
    AttributeWords, BOOT_CURRENT, ByteCount, Content, DataText, NumberList, ShownFault, Timeout,
    append_plan, bad_current, bad_timeout, first_path, number_of, optional_digits, printed_text,
    shown_plan,
};

/// Variables as they are shown: as an object of JSON with the members that [`vars_json`] has.
#[derive(Drop)]
pub struct ShownVars<'a> {
    /// How many there are.
    variables: usize,
    /// The entries, by rising number.
    entries: Vec<ShownEntry<'a>>,
    /// The numbers of BootOrder, if it is there and can be read.
    order: Option<Vec<u16>>,
    /// What is to be said of them.
    marks: OrderMarks,
    /// The number of BootNext, if it is there and can be read.
    next: Option<u16>,
    /// What a boot would try, if BootOrder and BootNext can be read.
    plan: Option<PlanNumbers>,
    /// The numbers of BootOrder and BootNext that have no variable, each once, by rising number.
    missing: Vec<u16>,
    /// The entry by which this system was started, if BootCurrent is there and can be read.
    current: Option<EntryDigits>,
    /// How long the boot manager waits, if Timeout is there and can be read.
    timeout: Option<Timeout>,
    /// The start on trial, if one is known.
    trial: Option<TrialView>,
    /// Why BootCurrent, BootNext, BootOrder and Timeout can't be read, if they can't.
    faults: Vec<NamedFault>,
    /// The variables that are neither entries nor BootOrder nor BootNext, in the order of their names' bytes.
    others: Vec<OtherVariable<'a>>,
}

/// An entry as it is shown. What it holds is made when it is written, and given up then: of many entries it takes much memory.
#[derive(Clone, Copy)]
struct ShownEntry<'a> {
    /// The name of its variable.
    name: &'a str,
    /// Its number.
    entry: EntryDigits,
    /// What a start of firmware may do to it, if anything is known.
    risk: Option<Risk>,
    /// Its data.
    data: &'a [u8],
}

impl JsonObject for ShownEntry<'_> {
    fn append_members(&self, out: &mut JsonWriter) -> Result<(), AllocError> {
        append_leaves(
            &[
                ("name", Leaf::Text(Some(self.name))),
                ("entry", Leaf::Entry(Some(self.entry))),
                ("at_risk", Leaf::Word(self.risk.map(Risk::word))),
            ],
            out,
        )?;
        Content::from_entry(out.alloc(), self.data)?.append_members(out)
    }
}

/// A variable that can't be read, and why.
#[derive(Drop)]
struct NamedFault {
    /// The name of the variable.
    name: &'static str,
    /// Why it can't be read.
    fault: ShownFault,
}

impl JsonObject for NamedFault {
    fn append_members(&self, out: &mut JsonWriter) -> Result<(), AllocError> {
        append_leaf("name", Leaf::Text(Some(self.name)), out)?;
        self.fault.append_members(out)
    }
}

/// A variable that is neither an entry nor BootOrder nor BootNext.
#[derive(Drop)]
struct OtherVariable<'a> {
    /// Its name.
    name: &'a str,
    /// How many bytes it has.
    length: usize,
}

impl JsonObject for OtherVariable<'_> {
    fn append_members(&self, out: &mut JsonWriter) -> Result<(), AllocError> {
        append_leaves(
            &[
                ("name", Leaf::Text(Some(self.name))),
                ("length", Leaf::Count(Some(self.length))),
            ],
            out,
        )
    }
}

impl<'a> ShownVars<'a> {
    /// What is shown of the variables, and of the start on trial, if one is known.
    ///
    /// # Errors
    ///
    /// [`AllocError`] if memory was refused.
    pub fn new(
        alloc: Global,
        vars: &'a Vars,
        trial: Option<TrialView>,
    ) -> Result<ShownVars<'a>, AllocError> {
        let mut shown = ShownVars::empty(alloc, vars, trial)?;
        let at_risk = known_risks(alloc, vars)?;
        for (name, data) in vars.iter() {
            shown.push(alloc, at_risk.as_ref(), name, data)?;
        }
        let order = shown.order.as_deref().unwrap_or(&[]);
        let marks = OrderMarks::new(alloc, vars, order, &inactive_of(alloc, &shown.entries)?)?;
        let missing = missing_of(alloc, vars, order, shown.next)?;
        shown.marks = marks;
        shown.missing = missing;
        Ok(shown)
    }

    /// What is shown before the variables are gone over, one by one.
    fn empty(
        alloc: Global,
        vars: &Vars,
        trial: Option<TrialView>,
    ) -> Result<ShownVars<'a>, AllocError> {
        Ok(ShownVars {
            variables: vars.len(),
            entries: Vec::new(alloc),
            order: None,
            marks: OrderMarks::empty(alloc),
            next: None,
            plan: plan_if_any(alloc, vars)?,
            missing: Vec::new(alloc),
            current: None,
            timeout: None,
            trial,
            faults: Vec::new(alloc),
            others: Vec::new(alloc),
        })
    }

    /// Adds a variable to what is shown, where these entries are at risk, if that is known.
    fn push(
        &mut self,
        alloc: Global,
        at_risk: Option<&AtRisk>,
        name: &'a str,
        data: &'a [u8],
    ) -> Result<(), AllocError> {
        if let Some(number) = entry_number(name) {
            self.entries.push(ShownEntry {
                name,
                entry: EntryDigits(number),
                risk: at_risk.and_then(|at_risk| Risk::of(at_risk, number)),
                data,
            })?;
            return Ok(());
        }
        match name {
            BOOT_ORDER => self.set_numbers(BOOT_ORDER, Content::from_order(alloc, data)?),
            BOOT_NEXT => self.set_numbers(BOOT_NEXT, Content::from_next(alloc, data)?),
            _ => {
                self.set_setting(alloc, name, data)?;
                let length = data.len();
                Ok(self.others.push(OtherVariable { name, length })?)
            }
        }
    }

    /// Sets what BootCurrent or Timeout holds, if the variable is one of the two.
    fn set_setting(&mut self, alloc: Global, name: &str, data: &[u8]) -> Result<(), AllocError> {
        match (name, number_of(data)) {
            (BOOT_CURRENT, Some(number)) => self.current = Some(EntryDigits(number)),
            (TIMEOUT, Some(number)) => self.timeout = Some(Timeout(number)),
            (BOOT_CURRENT, None) => self.push_fault(BOOT_CURRENT, bad_current(alloc, data)?)?,
            (TIMEOUT, None) => self.push_fault(TIMEOUT, bad_timeout(alloc, data)?)?,
            _ => {}
        }
        Ok(())
    }

    /// Adds why a variable can't be read.
    fn push_fault(&mut self, name: &'static str, fault: ShownFault) -> Result<(), AllocError> {
        Ok(self.faults.push(NamedFault { name, fault })?)
    }

    /// Sets what BootOrder or BootNext holds.
    fn set_numbers(&mut self, name: &'static str, content: Content) -> Result<(), AllocError> {
        match content {
            Content::Order { entries } => self.order = Some(entries),
            Content::Next { entry } => self.next = Some(entry.0),
            Content::Undecodable(fault) => self.push_fault(name, fault)?,
            Content::LoadOption(_option) => {}
            Content::Timeout(_timeout) => {}
        }
        Ok(())
    }

    /// Why the variable of this name can't be read, if it can't.
    fn fault_of(&self, name: &str) -> Option<&ShownFault> {
        self.faults
            .iter()
            .find(|named| named.name == name)
            .map(|named| &named.fault)
    }
}

impl JsonObject for ShownVars<'_> {
    fn append_members(&self, out: &mut JsonWriter) -> Result<(), AllocError> {
        append_leaf("variables", Leaf::Count(Some(self.variables)), out)?;
        append_objects("entries", &self.entries, out)?;
        if self.fault_of(BOOT_ORDER).is_none() {
            append_leaf("order", Leaf::Numbers(self.order.as_deref()), out)?;
        }
        self.marks.append_members(out)?;
        append_leaf("next", Leaf::Entry(self.next.map(EntryDigits)), out)?;
        append_object("plan", shown_plan(&self.plan).as_ref(), out)?;
        append_leaves(
            &[
                ("missing", Leaf::Numbers(Some(&self.missing))),
                ("current", Leaf::Entry(self.current)),
                (
                    "timeout",
                    Leaf::Number(self.timeout.map(|timeout| u32::from(timeout.0))),
                ),
            ],
            out,
        )?;
        append_objects("faults", &self.faults, out)?;
        append_objects("others", &self.others, out)?;
        append_trial_member(self.trial.as_ref(), out)
    }
}

/// The numbers of those entries that are load options and aren't active, in the same order.
fn inactive_of(alloc: Global, entries: &[ShownEntry<'_>]) -> Result<Vec<u16>, AllocError> {
    let mut inactive = Vec::new(alloc);
    for shown in entries {
        if let Ok(option) = check_option(shown.data)
            && !is_active(option.attributes)
        {
            inactive.push(shown.entry.0)?;
        }
    }
    Ok(inactive)
}

/// The numbers of BootOrder and BootNext that no entry of the variables has, each once, by rising number.
fn missing_of(
    alloc: Global,
    vars: &Vars,
    order: &[u16],
    next: Option<u16>,
) -> Result<Vec<u16>, AllocError> {
    let mut missing = Vec::new(alloc);
    push_missing(vars, order, &mut missing)?;
    push_missing(vars, next.as_slice(), &mut missing)?;
    missing.sort_unstable();
    missing.dedup();
    Ok(missing)
}

/// What a boot would try, or `None` if BootOrder or BootNext can't be read.
fn plan_if_any(alloc: Global, vars: &Vars) -> Result<Option<PlanNumbers>, AllocError> {
    match plan_numbers(alloc, vars) {
        Ok(plan) => Ok(Some(plan)),
        Err(VarFault::BadOrder | VarFault::BadNext) => Ok(None),
        Err(VarFault::OutOfMemory) => Err(AllocError),
    }
}

/// Appends those of the numbers that no entry of the variables has.
fn push_missing(vars: &Vars, numbers: &[u16], missing: &mut Vec<u16>) -> Result<(), AllocError> {
    for number in numbers {
        if vars.entry(*number).is_none() {
            missing.push(*number)?;
        }
    }
    Ok(())
}

/// Shows variables (UEFI 2.10, 3.3) as lines for a person: those of `bootkeep show`, and after the line of an entry
/// indented ones with its attributes in words, each of its paths and its optional data, or with the data that are no
/// load option. After the line of BootOrder indented ones say which of its numbers have no entry, which are of an entry
/// that isn't active, and which are in it twice, and lines after the plan have BootCurrent, Timeout and the start on trial,
/// if they are there.
/// A line tells of each entry that a start of firmware may write over or delete, by
/// [`entries_at_risk`](uefi_vars::entries_at_risk).
/// Whatever the variables hold is told, and nothing is refused. docs/formats.md has each line.
///
/// # Errors
///
/// [`AllocError`] if memory was refused.
pub fn vars_report(
    alloc: Global,
    vars: &Vars,
    trial: Option<TrialView>,
) -> Result<String, AllocError> {
    let mut report = String::new(alloc);
    append_vars(alloc, &ShownVars::new(alloc, vars, trial)?, &mut report)?;
    Ok(report)
}

/// Shows variables as JSON, an object on one line that ends with a line feed: what [`vars_report`] shows.
/// docs/formats.md has each member. Every description, every path and all data are shown so that they can be had again
/// from the text.
///
/// # Errors
///
/// [`AllocError`] if memory was refused.
pub fn vars_json(
    alloc: Global,
    vars: &Vars,
    trial: Option<TrialView>,
) -> Result<String, AllocError> {
    json_line(alloc, &ShownVars::new(alloc, vars, trial)?)
}

/// Appends the lines of variables.
fn append_vars(
    alloc: Global,
    shown: &ShownVars<'_>,
    report: &mut String,
) -> Result<(), AllocError> {
    writeln!(report, "variables {}", shown.variables)?;
    for entry in &shown.entries {
        append_entry(alloc, entry.name, entry.data, report)?;
    }
    append_order(shown, report)?;
    append_numbers(
        "next",
        shown.fault_of(BOOT_NEXT),
        shown.next.as_slice(),
        report,
    )?;
    append_plan(shown.plan.as_ref(), report)?;
    if !shown.missing.is_empty() {
        writeln!(report, "missing{}", NumberList(&shown.missing))?;
    }
    append_settings(shown, report)?;
    append_trial(shown.trial, report)?;
    append_risks(&shown.entries, report)?;
    append_others(&shown.others, report)
}

/// Appends the lines of BootOrder, with what is to be said of its numbers.
fn append_order(shown: &ShownVars<'_>, report: &mut String) -> Result<(), AllocError> {
    let numbers = shown.order.as_deref().unwrap_or(&[]);
    append_numbers("order", shown.fault_of(BOOT_ORDER), numbers, report)?;
    shown.marks.append_lines(report)
}

/// Appends the lines of BootCurrent and Timeout, if they are there.
fn append_settings(shown: &ShownVars<'_>, report: &mut String) -> Result<(), AllocError> {
    if let Some(fault) = shown.fault_of(BOOT_CURRENT) {
        append_fault("current", fault, report)?;
    }
    if let Some(entry) = &shown.current {
        writeln!(report, "current {entry}")?;
    }
    if let Some(fault) = shown.fault_of(TIMEOUT) {
        append_fault("timeout", fault, report)?;
    }
    if let Some(timeout) = &shown.timeout {
        writeln!(report, "timeout {timeout}")?;
    }
    Ok(())
}

/// Appends a line for each entry that a start of firmware may write over or delete.
fn append_risks(entries: &[ShownEntry<'_>], report: &mut String) -> Result<(), AllocError> {
    for entry in entries {
        if let Some(risk) = entry.risk {
            writeln!(report, "{} {risk}", entry.name)?;
        }
    }
    Ok(())
}

/// Appends a line for each variable that has none.
fn append_others(others: &[OtherVariable<'_>], report: &mut String) -> Result<(), AllocError> {
    for other in others {
        if other.name != BOOT_CURRENT && other.name != TIMEOUT {
            writeln!(
                report,
                "variable {} {}",
                other.name,
                ByteCount(other.length)
            )?;
        }
    }
    Ok(())
}

/// Appends the lines of BootOrder or BootNext: the numbers that it has, or why it can't be read.
fn append_numbers(
    word: &str,
    fault: Option<&ShownFault>,
    numbers: &[u16],
    report: &mut String,
) -> Result<(), AllocError> {
    match fault {
        Some(fault) => append_fault(word, fault, report),
        None => writeln!(report, "{word}{}", NumberList(numbers)),
    }
}

/// Appends the lines of the entry of this name, which has these data.
fn append_entry(
    alloc: Global,
    name: &str,
    data: &[u8],
    report: &mut String,
) -> Result<(), AllocError> {
    match check_option(data) {
        Ok(option) => append_option(alloc, name, &option, report),
        Err(fault) => append_fault(name, &ShownFault::from_option(alloc, data, &fault)?, report),
    }
}

/// Appends the lines of the entry of this name, which is this option: of many entries it takes time to make values of their
/// paths, so these are printed where they are.
fn append_option(
    alloc: Global,
    name: &str,
    option: &OptionView<'_>,
    report: &mut String,
) -> Result<(), AllocError> {
    let kind = if is_normal(option.attributes) {
        "normal"
    } else {
        "other"
    };
    let description = option.description_text(alloc)?;
    let attributes = AttributeWords(option.attributes);
    writeln!(
        report,
        "{name} {kind} {description}\n  attributes {attributes}"
    )?;
    append_paths(alloc, option.list, report)?;
    append_optional(alloc, option.optional, report)
}

/// Appends an indented line for each path of the list.
fn append_paths(alloc: Global, list: &[u8], report: &mut String) -> Result<(), AllocError> {
    let mut rest = list;
    while let Some(first) = first_path(rest) {
        let path = named_nodes_text(alloc, first.nodes)?;
        writeln!(report, "  path {path}")?;
        rest = first.rest;
    }
    Ok(())
}

/// Appends the indented lines of optional data, if there are some.
fn append_optional(alloc: Global, optional: &[u8], report: &mut String) -> Result<(), AllocError> {
    if let Some(digits) = optional_digits(alloc, optional)? {
        writeln!(report, "  optional {}", DataText(&digits))?;
    }
    if let Some(text) = printed_text(alloc, optional)? {
        writeln!(report, "  optional text {text}")?;
    }
    Ok(())
}

/// Appends what a variable is shown as, why it can't be read, and its data.
fn append_fault(name: &str, fault: &ShownFault, report: &mut String) -> Result<(), AllocError> {
    writeln!(report, "{name} {fault}\n  data {}", DataText(&fault.data))
}
