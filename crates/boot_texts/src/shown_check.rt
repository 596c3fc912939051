//! What a check finds of the boot entries of a place, as it is shown, by `bootvars check`.

use crate::shown_trial::{TrialView, append_trial, append_trial_member};
use std::alloc::{AllocError, Global};
use std::fmt;
use uefi_vars::{EntryDigits, EntryName, PlanNumbers};
use value_texts::json::{
    JsonObject, JsonWriter, Leaf, append_leaf, append_leaves, append_object, append_objects,
    json_line,
};
use value_texts::{BAD_NEXT, BAD_ORDER, append_plan, shown_plan};

/// What is found of a place.
#[derive(Drop)]
pub struct CheckView<'a> {
    /// The word for whether what the next boot tries first can be started.
    pub state: &'static str,
    /// What the next boot tries, if BootOrder and BootNext can be read.
    pub plan: &'a Option<PlanNumbers>,
    /// The entries in the order in which they are told.
    pub entries: Vec<EntryView<'a>>,
    /// What is found of BootOrder, if it can be read.
    pub order: Option<OrderView<'a>>,
    /// What is found of BootNext.
    pub next: NextView,
    /// The start on trial, if one is known.
    pub trial: Option<TrialView>,
}

/// An entry, and what is found of it.
#[derive(Drop)]
pub struct EntryView<'a> {
    /// Its number.
    pub number: u16,
    /// Its description, as a line has it.
    pub title: &'a str,
    /// The word for whether it can be started.
    pub state: &'static str,
    /// What is found of it.
    pub findings: Vec<FindingView<'a>>,
}

/// Something that is found of an entry.
#[derive(Clone, Copy)]
pub struct FindingView<'a> {
    /// What its JSON calls it.
    pub kind: &'static str,
    /// What its JSON calls what it says of the entry.
    pub weight: &'static str,
    /// The words for a person.
    pub words: &'static str,
    /// What it is about.
    pub detail: Detail<'a>,
}

/// What a finding is about.
#[derive(Clone, Copy)]
pub enum Detail<'a> {
    /// Nothing that its words don't say.
    Nothing,
    /// What this text says.
    Text(&'a str),
    /// The entry of this number.
    Entry(u16),
}

/// What is found of a BootOrder that can be read.
#[derive(Clone, Copy)]
pub struct OrderView<'a> {
    /// Whether something is wrong with it.
    pub is_wrong: bool,
    /// The numbers in it that have no entry, each once.
    pub stale: &'a [u16],
    /// The numbers that it has more than once, each once.
    pub twice: &'a [u16],
}

/// What is found of BootNext.
#[derive(Clone, Copy)]
pub enum NextView {
    /// Nothing is wrong with it, or it isn't there.
    Fine,
    /// It can't be read.
    Unreadable,
    /// It names this number, which has no entry.
    Missing(u16),
}

/// What is found as an object of JSON on one line, which ends with a line feed; docs/formats.md has each member. This fails
/// only when out of memory.
pub fn check_json(alloc: Global, check: &CheckView<'_>) -> Result<String, AllocError> {
    json_line(alloc, check)
}

/// What is found as lines for a person; docs/formats.md has each. This fails only when out of memory.
pub fn check_report(alloc: Global, check: &CheckView<'_>) -> Result<String, AllocError> {
    let mut report = String::new(alloc);
    append_plan(check.plan.as_ref(), &mut report)?;
    for entry in &check.entries {
        append_entry(entry, &mut report)?;
    }
    append_order(check.order, &mut report)?;
    append_next(check.next, &mut report)?;
    append_trial(check.trial, &mut report)?;
    Ok(report)
}

impl JsonObject for CheckView<'_> {
    fn append_members(&self, out: &mut JsonWriter) -> Result<(), AllocError> {
        append_leaf("state", Leaf::Word(Some(self.state)), out)?;
        append_object("plan", shown_plan(self.plan).as_ref(), out)?;
        append_objects("entries", &self.entries, out)?;
        append_object("order", self.order.as_ref(), out)?;
        append_object("next", missing_next(self.next).as_ref(), out)?;
        append_trial_member(self.trial.as_ref(), out)
    }
}

impl JsonObject for EntryView<'_> {
    fn append_members(&self, out: &mut JsonWriter) -> Result<(), AllocError> {
        append_leaves(
            &[
                ("name", Leaf::Name(EntryName(self.number))),
                ("entry", Leaf::Entry(Some(EntryDigits(self.number)))),
                ("state", Leaf::Word(Some(self.state))),
            ],
            out,
        )?;
        append_objects("findings", &self.findings, out)
    }
}

impl JsonObject for FindingView<'_> {
    fn append_members(&self, out: &mut JsonWriter) -> Result<(), AllocError> {
        append_leaves(
            &[
                ("kind", Leaf::Word(Some(self.kind))),
                ("weight", Leaf::Word(Some(self.weight))),
                ("words", Leaf::Word(Some(self.words))),
                ("detail", detail_leaf(self.detail)),
            ],
            out,
        )
    }
}

impl JsonObject for OrderView<'_> {
    fn append_members(&self, out: &mut JsonWriter) -> Result<(), AllocError> {
        append_leaves(
            &[
                ("stale", Leaf::Numbers(Some(self.stale))),
                ("twice", Leaf::Numbers(Some(self.twice))),
            ],
            out,
        )
    }
}

/// What a finding is about, as JSON has it.
fn detail_leaf(detail: Detail<'_>) -> Leaf<'_> {
    match detail {
        Detail::Nothing => Leaf::Text(None),
        Detail::Text(text) => Leaf::Text(Some(text)),
        Detail::Entry(number) => Leaf::Name(EntryName(number)),
    }
}

/// The entry of a BootNext that can be read, if it has no variable.
#[derive(Clone, Copy)]
struct MissingNext(Option<u16>);

impl JsonObject for MissingNext {
    fn append_members(&self, out: &mut JsonWriter) -> Result<(), AllocError> {
        append_leaf("missing", Leaf::Entry(self.0.map(EntryDigits)), out)
    }
}

/// What JSON has of BootNext, if it can be read.
fn missing_next(next: NextView) -> Option<MissingNext> {
    match next {
        NextView::Fine => Some(MissingNext(None)),
        NextView::Unreadable => None,
        NextView::Missing(number) => Some(MissingNext(Some(number))),
    }
}

/// Appends the lines of an entry.
fn append_entry(entry: &EntryView<'_>, report: &mut String) -> Result<(), AllocError> {
    let name = EntryName(entry.number);
    let blank = if entry.title.is_empty() { "" } else { " " };
    writeln!(report, "{name} {}{blank}{}", entry.state, entry.title)?;
    for finding in &entry.findings {
        append_finding(*finding, report)?;
    }
    Ok(())
}

/// Appends the line of a finding.
fn append_finding(finding: FindingView<'_>, report: &mut String) -> Result<(), AllocError> {
    let words = finding.words;
    match finding.detail {
        Detail::Nothing => writeln!(report, "  {words}"),
        Detail::Text(text) => writeln!(report, "  {words}: {text}"),
        Detail::Entry(number) => writeln!(report, "  {words}: {}", EntryName(number)),
    }
}

/// Appends the lines of BootOrder.
fn append_order(order: Option<OrderView<'_>>, report: &mut String) -> Result<(), AllocError> {
    match order {
        None => writeln!(report, "BootOrder wrong\n  {BAD_ORDER}"),
        Some(order) => {
            report.push_str(if order.is_wrong {
                "BootOrder wrong\n"
            } else {
                "BootOrder ok\n"
            })?;
            append_numbers(order, report)
        }
    }
}

/// Appends what is found of the numbers of BootOrder.
fn append_numbers(order: OrderView<'_>, report: &mut String) -> Result<(), AllocError> {
    for number in order.stale {
        writeln!(report, "  {}", NamesNone(*number))?;
    }
    for number in order.twice {
        writeln!(report, "  it names {} more than once", EntryDigits(*number))?;
    }
    Ok(())
}

/// Appends the lines of BootNext.
fn append_next(next: NextView, report: &mut String) -> Result<(), AllocError> {
    match next {
        NextView::Fine => report.push_str("BootNext ok\n"),
        NextView::Unreadable => writeln!(report, "BootNext wrong\n  {BAD_NEXT}"),
        NextView::Missing(number) => writeln!(report, "BootNext wrong\n  {}", NamesNone(number)),
    }
}

/// That a variable names this number, which has no entry.
#[derive(Clone, Copy)]
struct NamesNone(u16);

impl fmt::Display for NamesNone {
    fn fmt<W: fmt::Write>(&self, f: &mut fmt::Formatter<W>) -> fmt::Result {
        write!(f, "it names {}, which has no entry", EntryDigits(self.0))
    }
}
