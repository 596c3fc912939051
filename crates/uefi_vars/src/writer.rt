//! Variables to bytes.

ghost use Rattle.std.specs.Prelude.{◌≡◌, ◌<◌, ◌^◌, ◌++◌, length, IfOk, OnOk};
ghost use Rattle.std.specs.List.{AllByRecursion};
ghost use Rattle.std.specs.Option.{SomeIff};
ghost use Rattle.uefi_vars.specs.Vars.{IsVariable, IsVars};
ghost use Rattle.uefi_vars.specs.Set.{magic, record_bytes, records_bytes, set_bytes};
ghost use Rattle.uefi_vars.specs.Records.{pair_of, pairs_of};

use crate::vars::{Variable, Vars};
use std::alloc::{AllocError, Global};

/// The bytes that a set file begins with: `BVS1`.
pub const SET_MAGIC: [u8; 4] = [0x42, 0x56, 0x53, 0x31];

/// How many bytes of a record state the length of its name.
pub(crate) const NAME_LEN_SIZE: usize = 1;

/// How many bytes of a record state the length of its data.
pub(crate) const DATA_LEN_SIZE: usize = 4;

/// How many bytes the record of a variable has.
fn record_len(variable: &Variable) -> usize
    requires { IsVariable (pair_of variable.now) }
    ensures { result ≡ length (record_bytes (pair_of variable.now)) }
{
    // A name has at most NAME_MAX characters, and data at most DATA_MAX bytes.
    NAME_LEN_SIZE + variable.name.len() + DATA_LEN_SIZE + variable.kept.len()
}

/// How many bytes the set file of variables has: `None` if `usize` can't hold it.
fn set_len(variables: &[Variable]) -> Option<usize>
    requires { AllByRecursion IsVariable (pairs_of variables.now) }
    ensures { let len = length (magic ++ records_bytes (pairs_of variables.now)) in
        SomeIff result (len < 2 ^ 64) len }
{
    let mut len = SET_MAGIC.len();
    for variable in variables {
        len = len.checked_add(record_len(variable))?;
    }
    Some(len)
}

/// Appends the record of a variable.
fn append_variable(variable: &Variable, out: &mut Vec<u8>) -> Result<(), AllocError>
    requires { IsVariable (pair_of variable.now) }
    ensures { OnOk result (out.new.items ≡ out.old.items ++ record_bytes (pair_of variable.now)) }
{
    let name = variable.name.as_bytes();
    let data = variable.kept.as_slice();
    // A name has at most NAME_MAX characters, and data at most DATA_MAX bytes.
    let name_len = name.len() as u8;
    let data_len = data.len() as u32;
    out.push(name_len)?;
    out.extend_from_slice(name)?;
    out.extend_from_slice(&data_len.to_le_bytes())?;
    out.extend_from_slice(data)
}

/// Appends the records of variables one after the other.
fn append_variables(variables: &[Variable], out: &mut Vec<u8>) -> Result<(), AllocError>
    requires { AllByRecursion IsVariable (pairs_of variables.now) }
    ensures { OnOk result (out.new.items ≡ out.old.items ++ records_bytes (pairs_of variables.now)) }
{
    for variable in variables {
        append_variable(variable, out)?;
    }
    Ok(())
}

/// The set file of the variables, their one spelling, in this crate's own format: the four bytes `BVS1`, and for each
/// variable, in the rising order of the names' bytes, the length of its name in one byte, its name, the length of its
/// data in four bytes, little-endian, and its data. This fails only when out of memory.
pub fn write_set(alloc: Global, vars: &Vars) -> Result<Vec<u8>, AllocError>
    ensures written { IfOk result (λ out. out.items ≡ set_bytes vars.now) }
    ensures valid { IsVars vars.now }
{
    let variables = vars.variables();
    let Some(len) = set_len(variables) else {
        return Err(AllocError);
    };
    let mut out = Vec::with_capacity(alloc, len)?;
    out.extend_from_slice(&SET_MAGIC)?;
    append_variables(variables, &mut out)?;
    Ok(out)
}
