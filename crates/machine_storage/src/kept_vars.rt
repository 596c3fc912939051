//! What a machine keeps of its variables: of those of the boot manager the attributes too.

use boot_journal::{AttributesFault, with_attributes};
use messages::Failure;
use std::alloc::{AllocError, Global};
use uefi_vars::{ATTRIBUTES_LEN, BOOT_ATTRIBUTES, DATA_MAX, Vars, entry_number, is_boot_name};
use var_places::PlaceVars;
use wanted_changes::leave_out;

/// The variables of a machine, as it keeps them.
#[derive(Drop)]
pub struct KeptVars {
    /// The variables, those of the boot manager with their attributes in front of their data. An entry that no set can hold
    /// is there with data that stands for its own, so that its number is taken.
    pub vars: Vars,
    /// The names of the variables of the boot manager that no set can hold.
    pub left_out: Vec<String>,
    /// Whether the place is a folder.
    pub is_folder: bool,
}

impl KeptVars {
    /// The names of the variables that no set can hold, as a list of its own. This fails only when out of memory.
    pub fn copy_left_out(&self, alloc: Global) -> Result<Vec<String>, Failure> {
        Ok(copies(alloc, &self.left_out)?)
    }

    /// Lets those variables go that no set can hold, and that this set has: they are to be replaced, whatever they have.
    pub fn let_go(&mut self, set: &Vars) {
        for name in &self.left_out {
            if set.get(name.as_str()).is_some() {
                self.vars.remove(name.as_str());
            }
        }
        self.left_out
            .retain(|name| set.get(name.as_str()).is_none());
    }
}

/// What the machine in the place of this name, which may be a folder, keeps of the variables that were found there.
///
/// # Errors
///
/// [`Failure::Memory`] if memory was refused.
pub(crate) fn kept_of(
    alloc: Global,
    place: &str,
    is_folder: bool,
    found: PlaceVars,
) -> Result<KeptVars, Failure> {
    let PlaceVars {
        mut vars,
        attributes,
        mut left_out,
    } = found;
    let long = long_names(alloc, &vars)?;
    leave_out(&mut vars, &long);
    for name in long {
        left_out.push(name)?;
    }
    let mut vars = match with_attributes(alloc, &vars, &attributes) {
        Ok(vars) => vars,
        Err(AttributesFault::OutOfMemory) => return Err(Failure::Memory),
        Err(fault) => return Err(Failure::from_fault(alloc, place, fault)),
    };
    take_numbers(&mut vars, &left_out)?;
    Ok(KeptVars {
        vars,
        left_out,
        is_folder,
    })
}

/// The names of the variables that have no room for attributes beside their data in a set.
fn long_names(alloc: Global, vars: &Vars) -> Result<Vec<String>, AllocError> {
    let mut names = Vec::new(alloc);
    for (name, data) in vars.iter() {
        if is_boot_name(name) && data.len() > DATA_MAX - ATTRIBUTES_LEN {
            names.push(String::from_str(alloc, name)?)?;
        }
    }
    Ok(names)
}

/// Puts data that stands for that of the entries of these names into the set.
fn take_numbers(vars: &mut Vars, left_out: &[String]) -> Result<(), AllocError> {
    let [a, b, c, d] = BOOT_ATTRIBUTES;
    for name in left_out {
        if entry_number(name.as_str()).is_some() {
            // It is a name, and this is data, so only memory can be refused.
            vars.put(name.as_str(), &[a, b, c, d, 0])
                .map_err(|_| AllocError)?;
        }
    }
    Ok(())
}

/// The same texts. This fails only when out of memory.
pub fn copies(alloc: Global, texts: &[String]) -> Result<Vec<String>, AllocError> {
    let mut copies = Vec::with_capacity(alloc, texts.len())?;
    for text in texts {
        copies.push(text.clone()?)?;
    }
    Ok(copies)
}
