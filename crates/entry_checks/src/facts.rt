//! What is known of an entry, and what is found by that.

ghost use Rattle.std.specs.Prelude.{◌≡◌, ◌++◌, IfOk, OnOk};
ghost use Rattle.std.specs.List.{list_any};
ghost use Rattle.entry_checks.specs.Facts.{when, image_findings_of, findings_of, option_findings_of, is_hidden, is_inactive, is_of_other_category, is_fault, is_unseen, state_of};

use crate::finding::{Finding, Weight};
use crate::image::ImageState;
use crate::lead::Lead;
use std::alloc::{AllocError, Global};
use uefi_option::{CATEGORY_BOOT, HIDDEN, category, is_active};

/// What is known of an entry.
#[derive(Clone, Copy, Debug, PartialEq, Eq)]
pub struct Facts {
    /// Whether BootNext names it.
    pub is_next: bool,
    /// Whether neither BootOrder nor BootNext names it.
    pub is_unnamed: bool,
    /// What its data is.
    pub held: Held,
}

/// What the data of an entry is.
#[derive(Clone, Copy, Debug, PartialEq, Eq)]
pub enum Held {
    /// No load option.
    NoOption,
    /// A load option.
    Option(OptionFacts),
}

/// What is known of the load option of an entry.
#[derive(Clone, Copy, Debug, PartialEq, Eq)]
pub struct OptionFacts {
    /// Its attributes, all 32 bits.
    pub attributes: u32,
    /// Where it leads.
    pub lead: Lead,
    /// What is known of the file that is there, unless firmware starts it, or none was looked at.
    pub image: Option<ImageState>,
    /// Whether an entry that is told before leads to the same file with the same data.
    pub is_twin: bool,
}

/// What is found of an entry of which this is known, in the order in which it is told. An entry that BootNext names is tried
/// whatever its attributes are (UEFI 2.10, 3.1.3 and 3.3), and one that nothing names isn't tried though it be active.
///
/// # Errors
///
/// [`AllocError`] if memory was refused.
pub fn findings(alloc: Global, facts: &Facts) -> Result<Vec<Finding>, AllocError>
    ensures { IfOk result (λ found. found.items ≡ findings_of facts.now) }
{
    let mut found = Vec::new(alloc);
    match facts.held {
        Held::NoOption => found.push(Finding::Undecodable)?,
        Held::Option(option) => push_option(facts, option, &mut found)?,
    }
    push_if(facts.is_unnamed, Finding::Unnamed, &mut found)?;
    Ok(found)
}

/// Appends what is found of the load option of an entry of which this is known.
fn push_option(
    facts: &Facts,
    option: OptionFacts,
    found: &mut Vec<Finding>,
) -> Result<(), AllocError>
    ensures { OnOk result (found.new.items ≡ found.old.items
        ++ option_findings_of facts.now.is_next facts.now.is_unnamed option) }
{
    let attributes = option.attributes;
    let is_next = facts.is_next;
    found.push(Finding::Leads(option.lead))?;
    push_image(option.image, found)?;
    push_if(option.is_twin, Finding::Twin, found)?;
    push_if(
        !is_next && !facts.is_unnamed && is_inactive(attributes),
        Finding::Inactive,
        found,
    )?;
    push_if(
        !is_next && is_of_other_category(attributes),
        Finding::OtherCategory,
        found,
    )?;
    push_if(is_hidden(attributes), Finding::Hidden, found)
}

/// Appends what is found of the file, if that is anything.
fn push_image(image: Option<ImageState>, found: &mut Vec<Finding>) -> Result<(), AllocError>
    ensures { OnOk result (found.new.items ≡ found.old.items ++ image_findings_of image) }
{
    let Some(image) = image else {
        return Ok(());
    };
    found.push(Finding::Image(image))?;
    Ok(())
}

/// Appends a finding, if it is one.
fn push_if(holds: bool, finding: Finding, found: &mut Vec<Finding>) -> Result<(), AllocError>
    ensures { OnOk result (found.new.items ≡ found.old.items ++ when holds finding) }
{
    if !holds {
        return Ok(());
    }
    found.push(finding)?;
    Ok(())
}

/// Whether an option of these attributes isn't active.
fn is_inactive(attributes: u32) -> bool
    ensures { result ≡ is_inactive attributes }
{
    !is_active(attributes)
}

/// Whether an option of these attributes isn't of the category of the normal boot.
fn is_of_other_category(attributes: u32) -> bool
    ensures { result ≡ is_of_other_category attributes }
{
    category(attributes) != CATEGORY_BOOT
}

/// Whether menus leave out an option of these attributes.
fn is_hidden(attributes: u32) -> bool
    ensures { result ≡ is_hidden attributes }
{
    attributes & HIDDEN != 0
}

/// Whether an entry can be started.
#[derive(Clone, Copy, Debug, PartialEq, Eq)]
pub enum State {
    /// All was looked at, and nothing is wrong.
    Ok,
    /// Something is wrong.
    Wrong,
    /// Nothing is wrong as far as it was looked at, and something wasn't.
    Unknown,
}

/// Whether an entry can be started, by these findings.
pub fn entry_state(found: &[Finding]) -> State
    ensures { result ≡ state_of found.now }
{
    if has_fault(found) {
        State::Wrong
    } else if has_unseen(found) {
        State::Unknown
    } else {
        State::Ok
    }
}

/// Whether a finding says that something is wrong.
fn has_fault(found: &[Finding]) -> bool
    ensures { result ≡ list_any is_fault found.now }
{
    found.iter().any(is_fault)
}

/// Whether a finding says that something wasn't looked at.
fn has_unseen(found: &[Finding]) -> bool
    ensures { result ≡ list_any is_unseen found.now }
{
    found.iter().any(is_unseen)
}

/// Whether the finding says that something is wrong.
fn is_fault(finding: &Finding) -> bool
    ensures { result ≡ is_fault finding.now }
{
    matches!(finding.row().weight, Weight::Fault)
}

/// Whether the finding says that something wasn't looked at.
fn is_unseen(finding: &Finding) -> bool
    ensures { result ≡ is_unseen finding.now }
{
    matches!(finding.row().weight, Weight::Unseen)
}
