//! Whose a record is.

ghost use Rattle.std.specs.Prelude.{◌≡◌, ◌↔◌, ◌++◌, ℕ, List, IfSome, IsTrue};
ghost use Rattle.uefi_vars.specs.Set.{data_bytes};
ghost use Rattle.machine_names.specs.MachineName.{IsMachineName};
ghost use Rattle.change_records.specs.Fields.{magic};
ghost use Rattle.change_records.specs.Owner.{IsOwner, BeginsWith};

use crate::fields::{LEN_SIZE, MAGIC, split_field};
use machine_names::{MACHINE_NAME_MAX, MachineName};

/// How many bytes at the start of a record's file have the machine's name, however long it is.
pub const HEAD_MAX: usize = MAGIC.len() + LEN_SIZE + MACHINE_NAME_MAX;

/// Whose a record is.
#[derive(Clone, Copy, Debug, PartialEq, Eq)]
pub enum Owner {
    /// It is of the machine that is asked for.
    Own,
    /// It is of another machine.
    Other,
    /// Its file doesn't tell.
    Unknown,
}

impl Owner {
    /// Whether the last record of the machine that is asked for is looked for before this one: if its file tells that it is
    /// another machine's. One that doesn't tell may be the last one, so it isn't passed over.
    pub fn is_passed_over(self) -> bool
        ensures { IsTrue result ↔ self ≡ Owner.Other }
    {
        self == Owner::Other
    }
}

/// Whose the record is whose file begins with these bytes.
pub fn owner_of(head: &[u8], machine: &MachineName) -> Owner
    ensures { IsOwner head.now machine.now result }
{
    match named(head) {
        Some(name) if name == machine.as_bytes() => Owner::Own,
        Some(_) => Owner::Other,
        None => Owner::Unknown,
    }
}

/// The first field of a record's file that begins with these bytes, if it is there.
fn named(head: &[u8]) -> Option<&[u8]>
    ensures found { IfSome result (λ name. BeginsWith head.now name.now) }
    ensures none { result ≡ None → (name : List ℕ) → ¬ BeginsWith head.now name }
{
    if !head.starts_with(&MAGIC) {
        return None;
    }
    let (name, _behind) = split_field(&head[MAGIC.len()..])?;
    Some(name)
}
