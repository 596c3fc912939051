//! What is expected of a machine.

ghost use Rattle.std.specs.Prelude.{◌≡◌, ◌↔◌, All, Contains, IfOk, IfSome, IfNone, IsTrue};
ghost use Rattle.std.specs.FinMap.{get};
ghost use Rattle.std.specs.Option.{option_map};
ghost use Rattle.sha2.specs.Sha256.{sha256};
ghost use Rattle.uefi_vars.specs.Name.{order_text};
ghost use Rattle.uefi_vars.specs.Vars.{entry_of};
ghost use Rattle.request_preconditions.specs.Precondition.{IsMet};

use sha2::{Digest, Sha256};
use std::alloc::{AllocError, Global};
use uefi_vars::{BOOT_ORDER, Vars, laws as vars_laws};

/// How many bytes the identity of a journal has.
pub const IDENTITY_LEN: usize = 16;

/// How many bytes the SHA-256 of an entry has.
pub const DIGEST_LEN: usize = 32;

/// What is expected of a machine before requests are applied.
#[derive(Debug, Drop)]
pub enum Precondition {
    /// The journal has this identity, or none.
    Journal(Option<[u8; IDENTITY_LEN]>),
    /// The next request that is to be applied has this number.
    NextNumber(u32),
    /// An entry, the variable Boot#### (UEFI 2.10, 3.1.1), has data of this SHA-256, or isn't there.
    Entry {
        /// The entry's number.
        number: u16,
        /// The SHA-256 of its data, or none if it isn't there.
        digest: Option<[u8; DIGEST_LEN]>,
    },
    /// BootOrder (UEFI 2.10, 3.3) has this data, two bytes for each number, little-endian, or there is no such variable.
    Order(Option<Vec<u8>>),
}

/// What of a machine can be expected.
#[derive(Clone, Copy)]
pub struct MachineState<'a> {
    /// The identity of its journal, if it has one.
    pub journal: Option<[u8; IDENTITY_LEN]>,
    /// The number of the request that is to be applied next.
    pub next_number: u32,
    /// Its variables, without attributes.
    pub vars: &'a Vars,
}

impl Precondition {
    /// Whether it is so.
    pub fn is_met(&self, state: &MachineState<'_>) -> bool
        ensures { IsTrue result ↔ IsMet state.now.journal state.now.next_number state.now.vars.now self.now }
    {
        vars_laws::constants_are_those_of_the_definitions();
        match self {
            Precondition::Journal(identity) => state.journal == *identity,
            Precondition::NextNumber(number) => state.next_number == *number,
            Precondition::Entry { number, digest } => digest_of(state.vars, *number) == *digest,
            Precondition::Order(data) => state.vars.get(BOOT_ORDER) == data.as_deref(),
        }
    }

    /// What is so instead: what is expected of the same, and is met.
    ///
    /// # Errors
    ///
    /// [`AllocError`] if memory was refused.
    pub fn actual(
        &self,
        alloc: Global,
        state: &MachineState<'_>,
    ) -> Result<Precondition, AllocError>
        ensures { IfOk result (IsMet state.now.journal state.now.next_number state.now.vars.now) }
    {
        vars_laws::constants_are_those_of_the_definitions();
        match self {
            Precondition::Journal(_) => Ok(Precondition::Journal(state.journal)),
            Precondition::NextNumber(_) => Ok(Precondition::NextNumber(state.next_number)),
            Precondition::Entry { number, .. } => Ok(Precondition::Entry {
                number: *number,
                digest: digest_of(state.vars, *number),
            }),
            Precondition::Order(_) => Ok(Precondition::Order(order_data(alloc, state.vars)?)),
        }
    }
}

/// The SHA-256 of the data of the entry of this number, if it is there.
fn digest_of(vars: &Vars, number: u16) -> Option<[u8; DIGEST_LEN]>
    ensures { result ≡ option_map sha256 (entry_of vars.now number) }
{
    let data = vars.entry(number)?;
    Some(Sha256::digest(data))
}

/// The data of BootOrder, if it is there.
fn order_data(alloc: Global, vars: &Vars) -> Result<Option<Vec<u8>>, AllocError>
    ensures { IfOk result (λ found. option_map (λ d. d.items) found ≡ get vars.now order_text) }
{
    vars_laws::constants_are_those_of_the_definitions();
    match vars.get(BOOT_ORDER) {
        Some(data) => Ok(Some(Vec::from_slice(alloc, data)?)),
        None => Ok(None),
    }
}

/// The first of these that isn't so.
pub fn first_unmet<'a>(
    preconditions: &'a [Precondition],
    state: &MachineState<'_>,
) -> Option<&'a Precondition>
    ensures some { IfSome result (λ unmet. Contains preconditions.now unmet.now
        × (¬ IsMet state.now.journal state.now.next_number state.now.vars.now unmet.now)) }
    ensures none { IfNone result (All (IsMet state.now.journal state.now.next_number state.now.vars.now) preconditions.now) }
{
    preconditions
        .iter()
        .find(|precondition| !precondition.is_met(state))
}
