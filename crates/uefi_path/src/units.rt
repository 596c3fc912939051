//! Numbers of two bytes, one after the other, little-endian: the units of names and of descriptions, and the numbers
//! of entries.

ghost use Rattle.std.specs.Prelude.{◌≡◌, ◌+◌, ◌*◌, ◌^◌, ◌<◌, ◌++◌, length, replicate, IfOk, OnOk, OnErr};
ghost use Rattle.uefi_path.specs.Units.{units_bytes, units_of};

use std::alloc::{AllocError, Global};

/// The bytes of a number.
pub(crate) const UNIT_LEN: usize = 2;

/// The numbers that the bytes spell, two bytes each, little-endian (CHAR16 and UINT16 of UEFI 2.10, 2.3.1). A byte that
/// is left over isn't a number. Room for the numbers is made once.
///
/// # Errors
///
/// `AllocError` if memory was refused.
pub fn read_units(alloc: Global, bytes: &[u8]) -> Result<Vec<u16>, AllocError>
    ensures { IfOk result (λ units. units.items ≡ units_of bytes.now) }
{
    let mut units = Vec::with_capacity(alloc, bytes.len() / UNIT_LEN)?;
    let mut rest = bytes;
    while let [low, high, others @ ..] = rest {
        units.push(u16::from_le_bytes([*low, *high]))?;
        rest = others;
    }
    Ok(units)
}

/// Appends numbers, each as two bytes, little-endian (CHAR16 and UINT16 of UEFI 2.10, 2.3.1). Room for them is made
/// once.
///
/// # Errors
///
/// `AllocError` if memory was refused; `out` then has the bytes that it had.
pub fn append_units(units: &[u16], out: &mut Vec<u8>) -> Result<(), AllocError>
    ensures ok { OnOk result (out.new.items ≡ out.old.items ++ units_bytes units.now) }
    ensures err { OnErr result (out.new.items ≡ out.old.items) }
{
    append_before_zeros(units, 0, out)
}

/// Appends numbers, each as two bytes, little-endian, and this many zeros. An `Err` leaves the output as it was.
pub(crate) fn append_before_zeros(
    units: &[u16],
    zeros: usize,
    out: &mut Vec<u8>,
) -> Result<(), AllocError>
    requires { 2 * length units.now + zeros < 2 ^ 63 }
    ensures ok { OnOk result (out.new.items ≡ out.old.items ++ (units_bytes units.now ++ replicate zeros 0)) }
    ensures err { OnErr result (out.new.items ≡ out.old.items) }
{
    let start = out.len();
    let end = start + UNIT_LEN * units.len();
    out.resize(end + zeros, 0)?;
    write_units(units, &mut out[start..end]);
    Ok(())
}

/// Writes numbers, each as two bytes, little-endian, over as many bytes as they take.
fn write_units(units: &[u16], bytes: &mut [u8])
    requires { length bytes.old ≡ 2 * length units.now }
    ensures { bytes.new ≡ units_bytes units.now }
{
    for (i, unit) in units.iter().enumerate() {
        let [low, high] = unit.to_le_bytes();
        bytes[UNIT_LEN * i] = low;
        bytes[UNIT_LEN * i + 1] = high;
    }
}
