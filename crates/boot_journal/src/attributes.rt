//! Attributes of a machine's variables.

ghost use Rattle.std.specs.Prelude.{◌≡◌, ◌++◌, drop, IfOk, IfErr, OnOk};
ghost use Rattle.std.specs.FinMap as map;
ghost use Rattle.std.specs.Option.{option_map};
ghost use Rattle.uefi_vars.specs.Name.{IsName};
ghost use Rattle.uefi_vars.specs.Attributes.{attributes_len};
ghost use Rattle.boot_journal.specs.Attributes.{attributes_in, data_of, with_attributes, HasNoData, HasLongData, IsFaultWithout, IsFaultWith, IsFaultOf};
ghost use Rattle.boot_journal.specs.Cause.{IfRefused};
ghost use Rattle.boot_journal.specs.declared.attributes.AttributesFault.TheVariants as fault;

use crate::machine::CallError;
use std::alloc::{AllocError, AllocFailed, Global};
use thiserror::Error;
use uefi_vars::{ATTRIBUTES_LEN, BOOT_ATTRIBUTES, PutFault, Vars, is_boot_name, laws as vars_laws};

/// Why attributes can't be taken off variables, or put on them.
#[derive(Clone, Copy, Debug, PartialEq, Eq, Hash, Error)]
pub enum AttributesFault {
    /// Under the name of a variable of the boot manager there is no byte after its attributes.
    #[error("NoData")]
    NoData,
    /// With its attributes, the data of a variable of the boot manager has more than [`DATA_MAX`](uefi_vars::DATA_MAX)
    /// bytes.
    #[error("TooLong")]
    TooLong,
    /// Memory was refused.
    #[error("OutOfMemory")]
    OutOfMemory,
}

impl AttributesFault {
    ghost use Rattle.std.specs.String.{string_bytes};
    ghost use Rattle.boot_journal.specs.Words.{attributes_fault_words};

    /// The fault's name. This fails only when out of memory.
    pub fn words(&self, alloc: Global) -> Result<String, AllocError>
        ensures { IfOk result (λ text. string_bytes text ≡ attributes_fault_words self.now) }
    {
        match self {
            AttributesFault::NoData => String::from_str(alloc, "NoData"),
            AttributesFault::TooLong => String::from_str(alloc, "TooLong"),
            AttributesFault::OutOfMemory => String::from_str(alloc, "OutOfMemory"),
        }
    }
}

impl From<AllocError> for AttributesFault {
    ghost from_gives = { λ _ made. made ≡ fault.OutOfMemory };

    fn from(_refusal: AllocError) -> AttributesFault {
        AttributesFault::OutOfMemory
    }
}

impl<T: Drop> From<AllocFailed<T>> for AttributesFault {
    ghost from_gives = { λ _ made. made ≡ fault.OutOfMemory };

    fn from(_refusal: AllocFailed<T>) -> AttributesFault {
        AttributesFault::OutOfMemory
    }
}

/// What a machine is to keep of a set: under the name of a variable of the boot manager (Boot####, BootOrder,
/// BootNext or Timeout; UEFI 2.10, 3.3) its attributes, in [`ATTRIBUTES_LEN`] bytes, and then its data, and under another name its
/// data alone. The attributes are the first bytes of what `there` has under the name, or [`BOOT_ATTRIBUTES`] if it has
/// nothing there, or fewer bytes. So `there` may be what the machine has kept so far, or attributes alone.
///
/// # Errors
///
/// [`AttributesFault::TooLong`] if the data of a variable of the boot manager has more than
/// [`DATA_MAX`](uefi_vars::DATA_MAX) bytes together with its attributes, and [`AttributesFault::OutOfMemory`] if memory
/// was refused.
pub fn with_attributes(alloc: Global, vars: &Vars, there: &Vars) -> Result<Vars, AttributesFault>
    ensures kept { IfOk result (λ kept. kept ≡ with_attributes there.now vars.now) }
    ensures fault { IfErr result (IsFaultWith vars.now) }
{
    let mut kept = vars.copy(alloc)?;
    for (name, value) in vars.iter() {
        if is_boot_name(name) {
            let bytes = joined(alloc, there.get(name), value)?;
            store(&mut kept, name, bytes)?;
        }
    }
    Ok(kept)
}

/// The set of what a machine keeps: of each variable of the boot manager (Boot####, BootOrder, BootNext or Timeout; UEFI
/// 2.10, 3.3) what comes after the [`ATTRIBUTES_LEN`] bytes of its attributes, and of another one all bytes.
///
/// # Errors
///
/// [`AttributesFault::NoData`] if a variable of the boot manager has no byte after its attributes, and
/// [`AttributesFault::OutOfMemory`] if memory was refused.
pub fn without_attributes(alloc: Global, vars: &Vars) -> Result<Vars, AttributesFault>
    ensures set { IfOk result (λ set. set ≡ data_of vars.now) }
    ensures fault { IfErr result (IsFaultWithout vars.now) }
{
    let mut set = vars.copy(alloc)?;
    for (name, kept) in vars.iter() {
        if is_boot_name(name) {
            let bytes = Vec::from_slice(alloc, data_in(kept))?;
            store(&mut set, name, bytes)?;
        }
    }
    Ok(set)
}

/// What a machine is to keep of a set, as by [`with_attributes`].
///
/// # Errors
///
/// [`CallError::Refused`] with this fault if the data of a variable of the boot manager is too long together with its
/// attributes, and [`CallError::OutOfMemory`] if memory was refused.
pub fn with_attributes_or<F: Drop>(
    alloc: Global,
    vars: &Vars,
    there: &Vars,
    too_long: F,
) -> Result<Vars, CallError<F>>
    ensures kept { IfOk result (λ kept. kept ≡ with_attributes there.now vars.now) }
    ensures refused { IfErr result (λ error. IfRefused error (λ fault. (fault ≡ too_long) × HasLongData vars.now)) }
{
    match with_attributes(alloc, vars, there) {
        Ok(kept) => Ok(kept),
        Err(AttributesFault::TooLong) => Err(CallError::Refused(too_long)),
        Err(_) => Err(CallError::OutOfMemory),
    }
}

/// The set of what a machine keeps, as by [`without_attributes`].
///
/// # Errors
///
/// [`CallError::Refused`] with this fault if a variable of the boot manager has no byte after its attributes, and
/// [`CallError::OutOfMemory`] if memory was refused.
pub fn without_attributes_or<F: Drop>(
    alloc: Global,
    vars: &Vars,
    no_data: F,
) -> Result<Vars, CallError<F>>
    ensures set { IfOk result (λ set. set ≡ data_of vars.now) }
    ensures refused { IfErr result (λ error. IfRefused error (λ fault. (fault ≡ no_data) × HasNoData vars.now)) }
{
    match without_attributes(alloc, vars) {
        Ok(set) => Ok(set),
        Err(AttributesFault::NoData) => Err(CallError::Refused(no_data)),
        Err(_) => Err(CallError::OutOfMemory),
    }
}

/// The attributes of what is there, and then this value.
pub(crate) fn joined(
    alloc: Global,
    there: Option<&[u8]>,
    value: &[u8],
) -> Result<Vec<u8>, AllocError>
    ensures { IfOk result (λ bytes. bytes.items ≡ attributes_in (option_map (λ b. b.now) there.entry) ++ value.now) }
{
    let mut bytes = Vec::from_slice(alloc, attributes_in(there))?;
    bytes.extend_from_slice(value)?;
    Ok(bytes)
}

/// The attributes of what is there.
fn attributes_in(there: Option<&[u8]>) -> &[u8]
    ensures { result.now ≡ attributes_in (option_map (λ b. b.now) there.entry) }
{
    vars_laws::constants_are_those_of_the_definitions();
    match there {
        Some(kept) if kept.len() >= ATTRIBUTES_LEN => &kept[..ATTRIBUTES_LEN],
        _ => &BOOT_ATTRIBUTES,
    }
}

/// The data after the attributes in what is kept.
fn data_in(kept: &[u8]) -> &[u8]
    ensures { result.now ≡ drop attributes_len kept.now }
{
    kept.get(ATTRIBUTES_LEN..).unwrap_or(&[])
}

/// Sets the variable of this name to these bytes.
fn store(vars: &mut Vars, name: &str, bytes: Vec<u8>) -> Result<(), AttributesFault>
    requires { IsName name.now }
    ensures stored { OnOk result (vars.new ≡ map.insert vars.old name.now bytes.items) }
    ensures fault { IfErr result (IsFaultOf bytes.items) }
{
    match vars.put_vec(name, bytes) {
        Ok(()) => Ok(()),
        Err(refusal) => match refusal.fault {
            PutFault::EmptyData => Err(AttributesFault::NoData),
            PutFault::DataTooLong => Err(AttributesFault::TooLong),
            PutFault::OutOfMemory => Err(AttributesFault::OutOfMemory),
            PutFault::BadName => unreachable!(),
        },
    }
}
