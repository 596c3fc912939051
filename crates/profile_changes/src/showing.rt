//! The file that a machine has now.

use crate::named_entries::{EntryNaming, NamedEntry, named_entries};
use crate::toml_words::TomlText;
use command_words::{OptionWordsFault, path_of_text};
use std::alloc::{AllocError, Global};
use uefi_option::{ACTIVE, check_option};
use uefi_path::{PathFault, read_path, write_path};
use uefi_text::path_text;
use uefi_vars::{
    BOOT_NEXT, BOOT_ORDER, EntryName, TIMEOUT, VarFault, Vars, boot_next, boot_order, entry_number,
};

/// The file that a machine has now.
#[derive(Debug, Drop)]
pub struct ShownProfile {
    /// Its text, in TOML.
    pub text: String,
    /// What it doesn't say, and why, which its comments say too.
    pub unsaid: Vec<String>,
}

/// The file that, applied to these variables, changes nothing: it has each entry that is named by its description, and as far
/// as those are named BootOrder and BootNext, and Timeout. They have data alone, without attributes.
///
/// # Errors
///
/// [`AllocError`] if memory was refused.
pub fn shown_profile(alloc: Global, vars: &Vars) -> Result<ShownProfile, AllocError> {
    let mut shown = ShownProfile {
        text: String::new(alloc),
        unsaid: Vec::new(alloc),
    };
    let entries = named_entries(alloc, vars)?;
    show_timeout(alloc, &mut shown, vars)?;
    show_next(alloc, &mut shown, vars, &entries)?;
    show_order(alloc, &mut shown, vars, &entries)?;
    show_unreadable(alloc, &mut shown, vars)?;
    for entry in &entries {
        show_entry(alloc, &mut shown, entry)?;
    }
    Ok(shown)
}

impl ShownProfile {
    /// Says that something isn't said, and why.
    fn leave_out(&mut self, why: String) -> Result<(), AllocError> {
        writeln!(self.text, "# {why}")?;
        self.unsaid.push(why)?;
        Ok(())
    }

    /// Says that this variable isn't said, since it has an entry that no description names alone.
    fn leave_unnamed(
        &mut self,
        alloc: Global,
        variable: &str,
        number: u16,
    ) -> Result<(), AllocError> {
        let entry = EntryName(number);
        self.leave_out(format!(in alloc;
            "{variable} has {entry}, which has no description of its own, and isn't said"
        )?)
    }
}

/// Shows Timeout.
fn show_timeout(alloc: Global, shown: &mut ShownProfile, vars: &Vars) -> Result<(), AllocError> {
    match vars.get(TIMEOUT) {
        None => Ok(()),
        Some([low, high]) => {
            let seconds = u16::from_le_bytes([*low, *high]);
            writeln!(shown.text, "timeout = {seconds}")
        }
        Some(_) => shown.leave_out(String::from_str(
            alloc,
            "Timeout isn't two bytes, and isn't said",
        )?),
    }
}

/// Shows BootNext.
fn show_next(
    alloc: Global,
    shown: &mut ShownProfile,
    vars: &Vars,
    entries: &[NamedEntry<'_>],
) -> Result<(), AllocError> {
    match boot_next(vars) {
        Ok(None) => Ok(()),
        Ok(Some(number)) => match name_of(entries, number) {
            Some(name) => writeln!(shown.text, "next = {}", TomlText(name)),
            None => shown.leave_unnamed(alloc, BOOT_NEXT, number),
        },
        Err(_) => shown.leave_out(format!(in alloc;
            "{BOOT_NEXT} isn't two bytes, and isn't said"
        )?),
    }
}

/// The description by which the entry of this number is named, if it is.
fn name_of<'a>(entries: &'a [NamedEntry<'_>], number: u16) -> Option<&'a str> {
    let place = entries.partition_point(|entry| entry.number < number);
    match entries.get(place) {
        Some(
            NamedEntry {
                number: found,
                name: EntryNaming::Name(name),
                ..
            },
        ) if *found == number => { Some(name) }
        _ => None,
    }
}

/// Shows BootOrder.
fn show_order(
    alloc: Global,
    shown: &mut ShownProfile,
    vars: &Vars,
    entries: &[NamedEntry<'_>],
) -> Result<(), AllocError> {
    let order = match boot_order(alloc, vars) {
        Ok(order) => order,
        Err(VarFault::OutOfMemory) => return Err(AllocError),
        Err(_) => {
            return shown.leave_out(format!(in alloc;
                "{BOOT_ORDER} can't be read, and isn't said"
            )?);
        }
    };
    let mut lines = String::new(alloc);
    for number in &order {
        match name_of(entries, *number) {
            Some(name) => writeln!(lines, "  {},", TomlText(name))?,
            None => return shown.leave_unnamed(alloc, BOOT_ORDER, *number),
        }
    }
    if is_repeating(alloc, &order)? {
        return shown.leave_out(format!(in alloc;
            "{BOOT_ORDER} has an entry twice, and isn't said"
        )?);
    }
    if lines.is_empty() {
        return writeln!(shown.text, "order.only = []");
    }
    write!(shown.text, "order.only = [\n{lines}]\n")
}

/// Whether a number is there twice.
fn is_repeating(alloc: Global, numbers: &[u16]) -> Result<bool, AllocError> {
    let mut sorted = Vec::from_slice(alloc, numbers)?;
    sorted.sort()?;
    for place in 1..sorted.len() {
        if sorted[place] == sorted[place - 1] {
            return Ok(true);
        }
    }
    Ok(false)
}

/// Says which entries are no load options.
fn show_unreadable(alloc: Global, shown: &mut ShownProfile, vars: &Vars) -> Result<(), AllocError> {
    for (name, bytes) in vars.iter() {
        if entry_number(name).is_some() && check_option(bytes).is_err() {
            shown.leave_out(format!(in alloc; "{name} is no load option, and isn't said")?)?;
        }
    }
    Ok(())
}

/// Shows an entry.
fn show_entry(
    alloc: Global,
    shown: &mut ShownProfile,
    entry: &NamedEntry<'_>,
) -> Result<(), AllocError> {
    let name = match &entry.name {
        EntryNaming::Name(name) => name,
        EntryNaming::Shared => {
            let entry = EntryName(entry.number);
            return shown.leave_out(format!(in alloc;
                "{entry} has the description of another entry, and isn't said"
            )?);
        }
    };
    writeln!(shown.text, "\n[[entries]]")?;
    writeln!(shown.text, "description = {}", TomlText(name))?;
    show_start(alloc, shown, entry)?;
    let is_active = entry.option.attributes & ACTIVE != 0;
    writeln!(shown.text, "active = {is_active}")
}

/// Shows what an entry starts.
fn show_start(
    alloc: Global,
    shown: &mut ShownProfile,
    entry: &NamedEntry<'_>,
) -> Result<(), AllocError> {
    match single_path(alloc, entry)? {
        Some(text) => {
            writeln!(shown.text, "path = {}", TomlText(&text))?;
            if !entry.option.optional.is_empty() {
                let digits = hex::encode(alloc, entry.option.optional)?;
                writeln!(shown.text, "optional = \"{digits}\"")?;
            }
        }
        None => {
            let digits = hex::encode(alloc, entry.bytes)?;
            writeln!(shown.text, "option = \"{digits}\"")?;
        }
    }
    Ok(())
}

/// The text of an entry's path, if it has one path alone, whose text is read back to the same bytes, and no attribute but that
/// it is active.
fn single_path(alloc: Global, entry: &NamedEntry<'_>) -> Result<Option<String>, AllocError> {
    if entry.option.attributes & !ACTIVE != 0 {
        return Ok(None);
    }
    let path = match read_path(alloc, entry.option.list) {
        Ok((path, _)) => path,
        Err(PathFault::OutOfMemory) => return Err(AllocError),
        Err(_) => return Ok(None),
    };
    let text = path_text(alloc, &path)?;
    match path_of_text(alloc, &text) {
        Ok(read) => {
            let mut bytes = Vec::new(alloc);
            write_path(&read, &mut bytes)?;
            if bytes.as_slice() == entry.option.list {
                Ok(Some(text))
            } else {
                Ok(None)
            }
        }
        Err(OptionWordsFault::OutOfMemory) => Err(AllocError),
        Err(_) => Ok(None),
    }
}
