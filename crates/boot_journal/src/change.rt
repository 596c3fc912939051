//! Changes of single variables that outlive a cut.

ghost use Rattle.std.specs.Prelude.{◌≡◌, ◌↔◌, ◌∷◌, ◌++◌, [], IsTrue, IfOk, IfErr, IfSome, Some};
ghost use Rattle.std.specs.List.{AllByRecursion};
ghost use Rattle.std.specs.Option.{option_map};
ghost use Rattle.uefi_path.specs.Row.{IsByte};
ghost use Rattle.uefi_vars.specs.Vars.{IsData};
ghost use Rattle.uefi_vars.specs.BootChange.{change_parts, same_name};
ghost use Rattle.boot_journal.specs.Attributes.{attributes_in};
ghost use Rattle.boot_journal.specs.Changes.{undone, spent};
ghost use Rattle.boot_journal.specs.JournalAttributes.{change_kept, IsFaultOfChanges, IsFaultOfData};
ghost use Rattle.boot_journal.specs.Values.{bytes_of, change_of, IsBootChange};

use crate::attributes::{AttributesFault, joined};
use std::alloc::{AllocError, Global};
use std::marker::Model;
use uefi_vars::{ATTRIBUTES_LEN, BOOT_NEXT, BootChange, DATA_MAX, Vars, laws as vars_laws};

/// A change of one variable of the boot manager: Boot####, BootOrder, BootNext or Timeout (UEFI 2.10, 3.3). What is there before
/// and after it is what a machine keeps: the variable's attributes, in [`ATTRIBUTES_LEN`](uefi_vars::ATTRIBUTES_LEN) bytes,
/// and then its data. It owns its bytes, where a [`BootChange`] borrows them.
#[derive(Debug, Drop)]
pub struct Change {
    name: String,
    before: Option<Vec<u8>>,
    after: Option<Vec<u8>>,
}

impl Model for Change {
    ghost use Rattle.uefi_vars.specs.BootChange.{ChangeParts};
    ghost use Rattle.boot_journal.specs.Values.{change_of, IsBootChange};

    ghost Value = { ChangeParts };

    ghost view = { λ c. change_of c.name c.before c.after };

    ghost invariant = { λ c. IsBootChange (change_of c.name c.before c.after) };
}

impl Change {
    /// The same change, with bytes of its own. This fails only if memory is refused.
    pub(crate) fn new(alloc: Global, change: &BootChange<'_>) -> Result<Change, AllocError>
        requires { IsBootChange (change_parts change.now) }
        ensures { IfOk result (λ made. made ≡ change_parts change.now) }
    {
        Ok(Change {
            name: String::from_str(alloc, change.name)?,
            before: copied(alloc, change.before)?,
            after: copied(alloc, change.after)?,
        })
    }

    /// The change of these parts.
    pub(crate) fn from_parts(
        name: String,
        before: Option<Vec<u8>>,
        after: Option<Vec<u8>>,
    ) -> Change
        requires { IsBootChange (change_of name before after) }
        ensures { result ≡ change_of name before after }
    {
        Change {
            name,
            before,
            after,
        }
    }

    /// The variable's name.
    pub fn name(&self) -> &str
        ensures name { result.now ≡ self.now.name }
        ensures valid { IsBootChange self.now }
    {
        self.name.as_str()
    }

    /// Its attributes and its data before the change: `None` if it wasn't there.
    pub fn before(&self) -> Option<&[u8]>
        ensures value { option_map (λ bytes. bytes.now) result ≡ self.now.before }
        ensures valid { IsBootChange self.now }
    {
        self.before.as_deref()
    }

    /// Its attributes and its data after the change: `None` if it is taken out.
    pub fn after(&self) -> Option<&[u8]>
        ensures value { option_map (λ bytes. bytes.now) result ≡ self.now.after }
        ensures valid { IsBootChange self.now }
    {
        self.after.as_deref()
    }

    /// An equal change. This fails only if memory is refused.
    pub(crate) fn copy(&self, alloc: Global) -> Result<Change, AllocError>
        ensures { IfOk result (λ copy. copy ≡ self.now) }
    {
        Ok(Change {
            name: self.name.clone()?,
            before: copied(alloc, self.before.as_deref())?,
            after: copied(alloc, self.after.as_deref())?,
        })
    }

    /// The change of what is kept: the same change, with the attributes of what is there under its name.
    ///
    /// # Errors
    ///
    /// [`AttributesFault::TooLong`] if its data before or after has more than [`DATA_MAX`] bytes then, and
    /// [`AttributesFault::OutOfMemory`] if memory was refused.
    #[tactic(auto, using(crate::proofs::KeptChanges::value_is, crate::proofs::KeptChanges::before_fails, crate::proofs::KeptChanges::after_fails))]
    pub(crate) fn with_attributes(
        &self,
        alloc: Global,
        there: &Vars,
    ) -> Result<Change, AttributesFault>
        ensures value { IfOk result (λ change. change ≡ change_kept there.now self.now) }
        ensures valid { IfOk result (λ change. IsBootChange change) }
        ensures fault { IfErr result (IsFaultOfChanges (self.now ∷ [])) }
    {
        let there = there.get(self.name());
        let before = kept_with(alloc, there, self.before())?;
        let after = kept_with(alloc, there, self.after())?;
        Ok(Change {
            name: self.name.clone()?,
            before,
            after,
        })
    }

    /// The change that takes this one back.
    pub(crate) fn undone(self) -> Change
        ensures { result ≡ undone self }
    {
        Change {
            name: self.name,
            before: self.after,
            after: self.before,
        }
    }

    /// This change, or one that takes BootNext out if it would set it.
    pub(crate) fn spent(self) -> Change
        ensures { result ≡ spent self }
    {
        vars_laws::constants_are_those_of_the_definitions();
        if is_same(self.name.as_str(), BOOT_NEXT) {
            Change {
                name: self.name,
                before: self.before,
                after: None,
            }
        } else {
            self
        }
    }
}

/// Whether the two names are the same.
pub(crate) fn is_same(name: &str, other: &str) -> bool
    ensures { result ≡ same_name name.now other.now }
{
    name == other
}

/// Whether the two have the same bytes, or neither is there.
pub(crate) fn is_same_data(value: Option<&[u8]>, other: Option<&[u8]>) -> bool
    ensures { IsTrue result ↔ (option_map (λ b. b.now) value.entry ≡ option_map (λ b. b.now) other.entry) }
{
    value == other
}

/// The value, if it is there, with the attributes of what is there before it.
fn kept_with(
    alloc: Global,
    there: Option<&[u8]>,
    value: Option<&[u8]>,
) -> Result<Option<Vec<u8>>, AttributesFault>
    requires { IfSome (option_map (λ b. b.now) value) IsData }
    ensures value { IfOk result (λ kept. bytes_of kept ≡ option_map (λ v. attributes_in (option_map (λ b. b.now) there.entry) ++ v) (option_map (λ b. b.now) value.entry)) }
    ensures valid { IfOk result (λ kept. IfSome (bytes_of kept) IsData) }
    ensures fault { IfErr result (IsFaultOfData (option_map (λ b. b.now) value.entry)) }
{
    match value {
        Some(value) => Ok(Some(data_with(alloc, there, value)?)),
        None => Ok(None),
    }
}

/// The data with the attributes of what is there before it.
fn data_with(alloc: Global, there: Option<&[u8]>, value: &[u8]) -> Result<Vec<u8>, AttributesFault>
    requires { IsData value.now }
    ensures value { IfOk result (λ kept. kept.items ≡ attributes_in (option_map (λ b. b.now) there.entry) ++ value.now) }
    ensures valid { IfOk result (λ kept. IsData kept.items) }
    ensures fault { IfErr result (IsFaultOfData (Some value.now)) }
{
    if value.len() > DATA_MAX - ATTRIBUTES_LEN {
        return Err(AttributesFault::TooLong);
    }
    let bytes = joined(alloc, there, value)?;
    prove_bytes(&bytes);
    Ok(bytes)
}

/// Looks at the bytes, for the contract alone: each of them is one.
fn prove_bytes(bytes: &[u8])
    ensures { AllByRecursion IsByte bytes.now }
{
    let _ = bytes.len();
}

/// The bytes, copied. This fails only if memory is refused.
pub(crate) fn copied(alloc: Global, bytes: Option<&[u8]>) -> Result<Option<Vec<u8>>, AllocError>
    ensures { IfOk result (λ copy. option_map (λ b. b.items) copy ≡ option_map (λ b. b.now) bytes.entry) }
{
    match bytes {
        Some(bytes) => Ok(Some(Vec::from_slice(alloc, bytes)?)),
        None => Ok(None),
    }
}
