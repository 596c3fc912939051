//! Whose words an edit is told in.

use uefi_vars::EntryFamily;

/// Whose words an edit is told in: what an entry is called, and what is to be done about a fault.
#[derive(Clone, Copy, Debug, PartialEq, Eq)]
pub(crate) enum Voice {
    /// Those of `bootvars`.
    Bootvars,
    /// Those of `efibootmgr`, of entries of this family.
    Efibootmgr(EntryFamily),
}

impl Voice {
    /// The family of the entries.
    pub(crate) fn family(self) -> EntryFamily {
        match self {
            Voice::Bootvars => EntryFamily::Boot,
            Voice::Efibootmgr(family) => family,
        }
    }
}
