//! What a place has of a machine's variables.

ghost use Rattle.std.specs.Prelude.{◌≡◌, IfOk};

use std::alloc::{AllocError, Global};
use uefi_vars::{Vars, is_boot_name};

/// The variables of a place: those that a set can hold, their attributes, and which of the boot manager's no set can
/// hold.
#[derive(Drop)]
pub struct PlaceVars {
    /// The variables of the standard's vendor that a set can hold, except BootKeepState.
    pub vars: Vars,
    /// Under the name of each of them, its attributes: four bytes, little-endian (UEFI 2.10, 8.2).
    pub attributes: Vars,
    /// The names of the variables of the boot manager, Boot####, BootOrder and BootNext, that are there and that no set
    /// can hold: they have no value, or one that is too long. A change leaves them as they are, unless it gives them a
    /// value.
    pub left_out: Vec<String>,
}

impl PlaceVars {
    /// Those of a place without variables.
    pub(crate) fn new(alloc: Global) -> PlaceVars {
        PlaceVars {
            vars: Vars::new(alloc),
            attributes: Vars::new(alloc),
            left_out: Vec::new(alloc),
        }
    }

    /// An equal value. Data that both have is shared, as [`Vars::copy`] does.
    ///
    /// # Errors
    ///
    /// [`AllocError`] if memory was refused.
    pub fn copy(&self, alloc: Global) -> Result<PlaceVars, AllocError>
        ensures vars { IfOk result (λ copy. copy.vars ≡ self.now.vars) }
        ensures attributes { IfOk result (λ copy. copy.attributes ≡ self.now.attributes) }
    {
        Ok(PlaceVars {
            vars: self.vars.copy(alloc)?,
            attributes: self.attributes.copy(alloc)?,
            left_out: self.left_out.clone()?,
        })
    }

    /// Keeps in mind that no set can hold the variable of this name, if it is one of the boot manager's.
    ///
    /// # Errors
    ///
    /// [`AllocError`] if memory was refused.
    pub(crate) fn leave_out(&mut self, alloc: Global, name: &str) -> Result<(), AllocError> {
        if is_boot_name(name) {
            self.left_out.push(String::from_str(alloc, name)?)?;
        }
        Ok(())
    }
}
