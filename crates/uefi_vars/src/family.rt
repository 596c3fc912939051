//! Load options of other families than the boot manager's entries: the names of their variables differ in their front.

ghost use Rattle.std.specs.Prelude.{◌≡◌, ◌++◌, ◌↔◌, List, ℕ, IfOk, IfSome, IfNone, IsTrue};
ghost use Rattle.std.specs.String.{string_bytes};
ghost use Rattle.uefi_vars.specs.Family.{prefix_of, IsTail, IsNameIn, IsNamedAs};

use crate::name::{EntryDigits, number_of};
use std::alloc::{AllocError, Global};
use std::fmt;

/// A family of load options, and of the variable with their order (UEFI 2.10, 3.3).
#[derive(Clone, Copy, Debug, PartialEq, Eq, Hash)]
pub enum EntryFamily {
    /// Boot#### and BootOrder: what the boot manager starts.
    Boot,
    /// Driver#### and DriverOrder: drivers that are loaded before that.
    Driver,
    /// SysPrep#### and SysPrepOrder: what prepares the system before that.
    SysPrep,
}

impl EntryFamily {
    /// What the names of its variables begin with.
    pub fn prefix(self) -> &'static str
        ensures { result.now ≡ prefix_of self }
    {
        match self {
            EntryFamily::Boot => "Boot",
            EntryFamily::Driver => "Driver",
            EntryFamily::SysPrep => "SysPrep",
        }
    }

    /// The name that the entry or the order of this name has in another family: `None` if it is neither in this one.
    ///
    /// # Errors
    ///
    /// [`AllocError`] if memory was refused.
    pub fn name_in(
        self,
        alloc: Global,
        other: EntryFamily,
        name: &str,
    ) -> Result<Option<String>, AllocError>
        ensures some { IfOk result (λ found. IfSome found (λ text. IsNamedAs self other name.now (string_bytes text))) }
        ensures none { IfOk result (λ found. IfNone found ((tail : List ℕ) → ¬ IsNameIn self name.now tail)) }
    {
        match self.tail_of(name) {
            Some(tail) => Ok(Some(joined(alloc, other.prefix(), tail)?)),
            None => Ok(None),
        }
    }

    /// What follows the family's front in this name, if it is that of an entry or of the order.
    fn tail_of(self, name: &str) -> Option<&str>
        ensures some { IfSome result (λ tail. IsNameIn self name.now tail.now) }
        ensures none { IfNone result ((tail : List ℕ) → ¬ IsNameIn self name.now tail) }
    {
        let tail = name.strip_prefix(self.prefix())?;
        if is_tail(tail) { Some(tail) } else { None }
    }
}

/// Whether this follows a family's front in the name of an entry or of an order.
fn is_tail(tail: &str) -> bool
    ensures { IsTrue result ↔ IsTail tail.now }
{
    match number_of(tail.as_bytes()) {
        Some(_) => true,
        None => tail == ORDER,
    }
}

/// What follows a family's front in the name of the order.
const ORDER: &str = "Order";

/// The one text, and then the other.
fn joined(alloc: Global, front: &str, tail: &str) -> Result<String, AllocError>
    ensures { IfOk result (λ text. string_bytes text ≡ front.now ++ tail.now) }
{
    let mut text = String::from_str(alloc, front)?;
    text.push_str(tail)?;
    Ok(text)
}

/// The name of one of Boot#### or of BootOrder, shown as it is in a family. Any other text is shown as it is.
#[derive(Clone, Copy)]
pub struct NameIn<'a>(pub EntryFamily, pub &'a str);

impl fmt::Display for NameIn<'_> {
    fn fmt<W: fmt::Write>(&self, f: &mut fmt::Formatter<W>) -> fmt::Result {
        let NameIn(family, name) = *self;
        match EntryFamily::Boot.tail_of(name) {
            Some(tail) => write!(f, "{}{tail}", family.prefix()),
            None => f.write_str(name),
        }
    }
}

/// The number of an entry of a family, shown as the name of its variable.
#[derive(Clone, Copy, Debug, PartialEq, Eq)]
pub struct EntryNameIn(pub EntryFamily, pub u16);

impl fmt::Display for EntryNameIn {
    fn fmt<W: fmt::Write>(&self, f: &mut fmt::Formatter<W>) -> fmt::Result {
        let EntryNameIn(family, number) = *self;
        write!(f, "{}{}", family.prefix(), EntryDigits(number))
    }
}
