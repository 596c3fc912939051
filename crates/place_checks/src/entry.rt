//! An entry, and where it leads.

use crate::image::SeenImage;
use crate::machine::{Machine, Seen};
use entry_checks::{Lead, Target, destination, path_target};
use messages::Failure;
use partitions::PartitionId;
use std::alloc::{AllocError, Global};
use std::rt::Files;
use uefi_names::named_text;
use uefi_option::{LoadOption, OptionFault, description_text, read_option};
use uefi_path::Path;
use value_texts::option_reason;

/// An entry that was looked at.
#[derive(Drop)]
pub(crate) struct LookedEntry {
    /// Its number.
    pub(crate) number: u16,
    /// The attributes and the description of its load option, if it is one.
    pub(crate) attributes: Option<u32>,
    /// The description, as a line has it.
    pub(crate) title: String,
    /// Where it leads.
    pub(crate) lead: Lead,
    /// What that is, or why its data is no load option.
    pub(crate) detail: String,
    /// What is known of the file that is there.
    pub(crate) image: SeenImage,
    /// What tells where it leads from other files, if it leads to one.
    pub(crate) destination: Option<Vec<u8>>,
}

/// Looks at the entry of this number, which has these bytes.
pub(crate) fn look_at_entry<R: Files + AllocGlobal>(
    machine: &mut Machine<'_, R>,
    number: u16,
    bytes: &[u8],
) -> Result<LookedEntry, Failure> {
    let alloc = machine.rt.alloc();
    match read_option(alloc, bytes) {
        Ok(option) => look_at_option(machine, number, &option),
        Err(OptionFault::OutOfMemory) => Err(Failure::Memory),
        Err(fault) => Ok(undecodable(alloc, number, bytes, fault)?),
    }
}

/// The entry of this number, whose bytes have this fault.
fn undecodable(
    alloc: Global,
    number: u16,
    bytes: &[u8],
    fault: OptionFault,
) -> Result<LookedEntry, AllocError> {
    let words = fault.words(alloc)?;
    let reason = option_reason(bytes, &fault);
    Ok(LookedEntry {
        number,
        attributes: None,
        title: String::new(alloc),
        lead: Lead::Device,
        detail: format!(in alloc; "{words}: {reason}")?,
        image: SeenImage::none(alloc),
        destination: None,
    })
}

/// Looks at the entry of this number, which has this load option.
fn look_at_option<R: Files + AllocGlobal>(
    machine: &mut Machine<'_, R>,
    number: u16,
    option: &LoadOption,
) -> Result<LookedEntry, Failure> {
    let alloc = machine.rt.alloc();
    let title = description_text(alloc, option.description())?;
    let attributes = Some(option.attributes());
    let (seen, destination) = match option.paths().first() {
        Some(path) => (
            look_at_path(machine, path)?,
            destination_of(alloc, path, option.optional())?,
        ),
        // A load option has a path.
        None => (Seen::bare(alloc, Lead::Device), None),
    };
    Ok(LookedEntry {
        number,
        attributes,
        title,
        lead: seen.lead,
        detail: seen.detail,
        image: seen.image,
        destination,
    })
}

/// Looks where a path leads. If that is no file that could be looked at, the text of the path tells where.
fn look_at_path<R: Files + AllocGlobal>(
    machine: &mut Machine<'_, R>,
    path: &Path,
) -> Result<Seen, Failure> {
    let mut seen = machine.look(path_target(path))?;
    if seen.detail.is_empty() {
        seen.detail = named_text(machine.rt.alloc(), path)?;
    }
    Ok(seen)
}

/// What tells where a path with this optional data leads from other files, if it leads to one.
fn destination_of(
    alloc: Global,
    path: &Path,
    optional: &[u8],
) -> Result<Option<Vec<u8>>, AllocError> {
    let Target::File(partition, name) = path_target(path) else {
        return Ok(None);
    };
    match PartitionId::from_node(partition) {
        Some(id) => Ok(Some(destination(alloc, id, name.units(), optional)?)),
        None => Ok(None),
    }
}
