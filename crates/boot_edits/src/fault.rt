//! What edits refuse.

ghost use Rattle.std.specs.Prelude.{◌≡◌, ◌++◌, IfOk};
ghost use Rattle.std.specs.String.{string_bytes};
ghost use Rattle.uefi_vars.specs.Name.{four_digits};
ghost use Rattle.boot_edits.specs.declared.fault.EditFault.TheVariants as edit;

use std::alloc::{AllocError, Global};
use thiserror::Error;
use uefi_option::OptionFault;
use uefi_vars::entry_name;

/// Why an edit isn't made. Nothing is changed then. A number is that of an entry, which its words spell as its name has it:
/// four hexadecimal digits in upper case.
#[derive(Clone, Copy, Debug, PartialEq, Eq, Hash, Error)]
pub enum EditFault {
    /// The bytes of the entry to be added are no load option.
    #[error("BadOption {0}")]
    BadOption(OptionFault),
    /// The load option to be added has more than [`DATA_MAX`](uefi_vars::DATA_MAX) bytes.
    #[error("OptionTooLong")]
    OptionTooLong,
    /// An entry is stored under the number that the new one is to have.
    #[error("Taken {0:04X}")]
    Taken(u16),
    /// An entry is stored under each number.
    #[error("NoFree")]
    NoFree,
    /// The number is in the list twice.
    #[error("Twice {0:04X}")]
    Twice(u16),
    /// There is no entry of the number.
    #[error("Missing {0:04X}")]
    Missing(u16),
    /// There is no entry of the number, which was to be in the order.
    #[error("Stale {0:04X}")]
    Stale(u16),
    /// The entry of the number is no load option.
    #[error("NoOption {0:04X}")]
    NoOption(u16),
    /// The bytes of BootOrder are odd in number, or more than two for each of [`ORDER_MAX`](uefi_vars::ORDER_MAX) entries.
    #[error("BadOrder")]
    BadOrder,
    /// BootNext has another number of bytes than two.
    #[error("BadNext")]
    BadNext,
    /// BootOrder would have more than [`ORDER_MAX`](uefi_vars::ORDER_MAX) numbers.
    #[error("OrderTooLong")]
    OrderTooLong,
    /// Memory was refused.
    #[error("OutOfMemory")]
    OutOfMemory,
}

impl EditFault {
    ghost use Rattle.boot_edits.specs.Words.{edit_fault_words};

    /// The fault's name and, after a blank, the number of the entry, or the words of the fault of the option. This fails
    /// only when out of memory.
    pub fn words(&self, alloc: Global) -> Result<String, AllocError>
        ensures { IfOk result (λ text. string_bytes text ≡ edit_fault_words self.now) }
    {
        match self {
            EditFault::BadOption(fault) => {
                let words = fault.words(alloc)?;
                format!(in alloc; "BadOption {words}")
            }
            EditFault::OptionTooLong => String::from_str(alloc, "OptionTooLong"),
            EditFault::Taken(number) => numbered(alloc, "Taken ", *number),
            EditFault::NoFree => String::from_str(alloc, "NoFree"),
            EditFault::Twice(number) => numbered(alloc, "Twice ", *number),
            EditFault::Missing(number) => numbered(alloc, "Missing ", *number),
            EditFault::Stale(number) => numbered(alloc, "Stale ", *number),
            EditFault::NoOption(number) => numbered(alloc, "NoOption ", *number),
            EditFault::BadOrder => String::from_str(alloc, "BadOrder"),
            EditFault::BadNext => String::from_str(alloc, "BadNext"),
            EditFault::OrderTooLong => String::from_str(alloc, "OrderTooLong"),
            EditFault::OutOfMemory => String::from_str(alloc, "OutOfMemory"),
        }
    }
}

/// The text, and after it the four hexadecimal digits that the name of the entry of this number has.
fn numbered(alloc: Global, text: &str, number: u16) -> Result<String, AllocError>
    ensures { IfOk result (λ words. string_bytes words ≡ text.now ++ four_digits number) }
{
    let [_, _, _, _, a, b, c, d] = entry_name(number);
    let mut words = String::from_str(alloc, text)?;
    words.push(char::from(a))?;
    words.push(char::from(b))?;
    words.push(char::from(c))?;
    words.push(char::from(d))?;
    Ok(words)
}

impl From<AllocError> for EditFault {
    ghost from_gives = { λ _ made. made ≡ edit.OutOfMemory };

    fn from(_refusal: AllocError) -> EditFault {
        EditFault::OutOfMemory
    }
}

impl From<OptionFault> for EditFault {
    ghost from_gives = { λ fault made. made ≡ edit.BadOption fault };

    fn from(fault: OptionFault) -> EditFault {
        EditFault::BadOption(fault)
    }
}
