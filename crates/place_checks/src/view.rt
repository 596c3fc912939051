//! What is found, as it is shown.

use crate::checked::{Checked, Found};
use crate::entry::LookedEntry;
use boot_texts::{CheckView, Detail, EntryView, FindingView, NextView, OrderView, TrialView};
use entry_checks::{Finding, NextFinding, OrderFindings, State, Weight};
use std::alloc::{AllocError, Global};

/// What is found, as it is shown, and the start on trial, if one is known. This fails only when out of memory.
pub(crate) fn view_of(
    alloc: Global,
    checked: &Checked,
    trial: Option<TrialView>,
) -> Result<CheckView<'_>, AllocError> {
    let mut entries = Vec::with_capacity(alloc, checked.entries.len())?;
    for (entry, found) in checked.entries.iter().zip(&checked.found) {
        entries.push(entry_view(alloc, entry, found)?)?;
    }
    Ok(CheckView {
        state: state_word(checked.state()),
        plan: &checked.plan,
        entries,
        order: order_view(checked),
        next: next_view(checked.next),
        trial,
    })
}

/// An entry of which this is found. This fails only when out of memory.
fn entry_view<'a>(
    alloc: Global,
    entry: &'a LookedEntry,
    found: &Found,
) -> Result<EntryView<'a>, AllocError> {
    let mut findings = Vec::with_capacity(alloc, found.findings.len())?;
    for finding in &found.findings {
        findings.push(finding_view(entry, found.twin, *finding))?;
    }
    Ok(EntryView {
        number: entry.number,
        title: &entry.title,
        state: state_word(found.state()),
        findings,
    })
}

/// What is found of an entry with this twin.
fn finding_view(entry: &LookedEntry, twin: Option<u16>, finding: Finding) -> FindingView<'_> {
    let row = finding.row();
    FindingView {
        kind: row.kind,
        weight: weight_word(row.weight),
        words: row.words,
        detail: detail_of(entry, twin, finding),
    }
}

/// What a finding is about that is found of an entry with this twin.
fn detail_of(entry: &LookedEntry, twin: Option<u16>, finding: Finding) -> Detail<'_> {
    match (finding, twin) {
        (Finding::Undecodable | Finding::Leads(_), _) => Detail::Text(&entry.detail),
        (Finding::Image(_), _) => Detail::Text(&entry.image.detail),
        (Finding::Twin, Some(twin)) => Detail::Entry(twin),
        _ => Detail::Nothing,
    }
}

/// What is found of BootOrder, if it can be read.
fn order_view(checked: &Checked) -> Option<OrderView<'_>> {
    match &checked.order {
        OrderFindings::Unreadable => None,
        OrderFindings::Numbers { stale, twice } => Some(OrderView {
            is_wrong: checked.is_order_wrong(),
            stale,
            twice,
        }),
    }
}

/// What is found of BootNext.
fn next_view(next: Option<NextFinding>) -> NextView {
    match next {
        None => NextView::Fine,
        Some(NextFinding::Unreadable) => NextView::Unreadable,
        Some(NextFinding::Missing(number)) => NextView::Missing(number),
    }
}

/// The word for whether an entry can be started.
fn state_word(state: State) -> &'static str {
    match state {
        State::Ok => "ok",
        State::Wrong => "wrong",
        State::Unknown => "unknown",
    }
}

/// What JSON calls what a finding says.
fn weight_word(weight: Weight) -> &'static str {
    match weight {
        Weight::Fault => "fault",
        Weight::Remark => "remark",
        Weight::Unseen => "unseen",
    }
}
