//! BootOrder and BootNext (UEFI 2.10, 3.3).

ghost use Rattle.std.specs.Prelude.{◌≡◌, ◌≢◌, ◌↔◌, ℕ, List, Option, Some, Ok, Err, IfOk, IfErr, MatchResult};
ghost use Rattle.uefi_path.specs.Units.{units_of};
ghost use Rattle.uefi_vars.specs.declared.fault.VarFault.{VarFault};
ghost use Rattle.uefi_vars.specs.Vars.{IsVars};
ghost use Rattle.uefi_vars.specs.Order.{HasOrder, HasNext, HasBadOrder, HasBadNext};

use crate::fault::VarFault;
use crate::laws;
use crate::name::{BOOT_NEXT, BOOT_ORDER};
use crate::vars::Vars;
use std::alloc::Global;
use uefi_path::{laws as path_laws, read_units};

/// The most numbers that BootOrder has: as many as there are names of entries.
pub const ORDER_MAX: usize = 65_536;

/// The bytes of a number.
const NUMBER_LEN: usize = 2;

/// The bytes of BootOrder, two for each number, little-endian. There are none if it isn't stored.
pub(crate) fn order_bytes(vars: &Vars) -> Result<&[u8], VarFault>
    ensures found { IfOk result (λ bytes. HasOrder vars.now (units_of bytes.now)) }
    ensures bad_order { (result ≡ Err VarFault.BadOrder) ↔ HasBadOrder vars.now }
    ensures named { IfErr result (λ fault. fault ≡ VarFault.BadOrder) }
    ensures valid { IsVars vars.now }
{
    path_laws::bytes_are_written_again();
    path_laws::two_bytes_are_a_unit();
    let Some(bytes) = vars.get(BOOT_ORDER) else {
        return Ok(&[]);
    };
    if bytes.len() % NUMBER_LEN != 0 || bytes.len() > ORDER_MAX * NUMBER_LEN {
        return Err(VarFault::BadOrder);
    }
    Ok(bytes)
}

/// The numbers of BootOrder (UEFI 2.10, 3.3), two bytes each, little-endian, in their order; a number may be there
/// twice. There are none if BootOrder isn't stored.
///
/// # Errors
///
/// [`VarFault::BadOrder`] if its bytes are odd in number or more than two for each of [`ORDER_MAX`] numbers; otherwise
/// [`VarFault::OutOfMemory`] if memory for the numbers was refused.
pub fn boot_order(alloc: Global, vars: &Vars) -> Result<Vec<u16>, VarFault>
    ensures found { IfOk result (λ order. HasOrder vars.now order.items) }
    ensures only { (order : List ℕ) → HasOrder vars.now order →
        MatchResult result (λ numbers. numbers.items ≡ order)
        (λ fault. fault ≡ VarFault.OutOfMemory) }
    ensures bad_order { (result ≡ Err VarFault.BadOrder) ↔ HasBadOrder vars.now }
    // The only other fault is OutOfMemory.
    ensures named { IfErr result (λ fault. fault ≢ VarFault.BadNext) }
    ensures valid { IsVars vars.now }
{
    laws::variables_have_one_order();
    laws::a_bad_order_gives_no_order();
    let bytes = order_bytes(vars)?;
    Ok(read_units(alloc, bytes)?)
}

/// The number in BootNext (UEFI 2.10, 3.3), two bytes, little-endian, or `None` if BootNext isn't stored.
///
/// # Errors
///
/// [`VarFault::BadNext`] if it has another number of bytes than two. There is no other fault: the call takes no memory.
pub fn boot_next(vars: &Vars) -> Result<Option<u16>, VarFault>
    ensures found { IfOk result (λ next. HasNext vars.now next) }
    ensures only { (next : Option ℕ) → HasNext vars.now next → result ≡ Ok next }
    ensures bad_next { (result ≡ Err VarFault.BadNext) ↔ HasBadNext vars.now }
    ensures named { IfErr result (λ fault. fault ≡ VarFault.BadNext) }
    ensures valid { IsVars vars.now }
{
    match vars.get(BOOT_NEXT) {
        None => Ok(None),
        Some([low, high]) => Ok(Some(u16::from_le_bytes([*low, *high]))),
        Some(_) => Err(VarFault::BadNext),
    }
}
