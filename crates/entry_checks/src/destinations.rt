//! What tells a file from others to which entries lead.

ghost use Rattle.std.specs.Prelude.{◌≡◌, ◌++◌, map, IfOk, OnOk};
ghost use Rattle.entry_checks.specs.Destination.{lower_of, id_bytes, destination_of};

use partitions::PartitionId;
use std::alloc::{AllocError, Global};
use uefi_path::append_units;

/// What comes before the bytes of a GUID.
const GPT: u8 = 0;
/// What comes before the bytes of a signature and a number.
const MBR: u8 = 1;

/// The bytes that tell apart where entries lead: what the partition is known by, the name of the file without regard to the
/// case of the letters of ASCII, as a FAT file system has it (UEFI 2.10, 13.3), and the optional data.
///
/// # Errors
///
/// [`AllocError`] if memory was refused.
pub fn destination(
    alloc: Global,
    id: PartitionId,
    name: &[u16],
    optional: &[u8],
) -> Result<Vec<u8>, AllocError>
    ensures { IfOk result (λ bytes. bytes.items ≡ destination_of id name.now optional.now) }
{
    let lower = lower_units(alloc, name)?;
    let mut bytes = Vec::new(alloc);
    append_id(id, &mut bytes)?;
    append_units(&lower, &mut bytes)?;
    append_units(&[0], &mut bytes)?;
    bytes.extend_from_slice(optional)?;
    Ok(bytes)
}

/// Appends the bytes of what a partition is known by.
fn append_id(id: PartitionId, bytes: &mut Vec<u8>) -> Result<(), AllocError>
    ensures { OnOk result (bytes.new.items ≡ bytes.old.items ++ id_bytes id) }
{
    match id {
        PartitionId::Gpt(guid) => {
            bytes.push(GPT)?;
            bytes.extend_from_slice(&guid.0)?;
        }
        PartitionId::Mbr { signature, number } => {
            bytes.push(MBR)?;
            bytes.extend_from_slice(&signature.to_le_bytes())?;
            bytes.extend_from_slice(&number.to_le_bytes())?;
        }
    }
    Ok(())
}

/// The units, with small letters for the capital ones of ASCII.
fn lower_units(alloc: Global, units: &[u16]) -> Result<Vec<u16>, AllocError>
    ensures { IfOk result (λ lower. lower.items ≡ map lower_of units.now) }
{
    units.iter().map(|unit| lower_of(*unit)).collect(alloc)
}

/// The unit, or the small letter if it is a capital one of ASCII.
fn lower_of(unit: u16) -> u16
    ensures { result ≡ lower_of unit }
{
    match unit {
        0x41..=0x5A => unit + 0x20,
        _ => unit,
    }
}
