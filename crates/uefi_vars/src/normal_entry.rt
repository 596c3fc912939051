//! What one look at an entry tells: whether it is a normal option, and which.

ghost use Rattle.std.specs.Prelude.{◌≡◌, ◌↔◌, ◌<◌, ◌+◌, false, length, take, slice_index, Some, IfSome, IfNone, IfOk, OnOk, IsTrue};
ghost use Rattle.uefi_option.specs.LoadOption.{OptionParts, SpellsOption};
ghost use Rattle.uefi_vars.specs.Vars.{entry_of};
ghost use Rattle.uefi_vars.specs.ByNumber.{is_in, EachTells, HasMet};
ghost use Rattle.uefi_vars.specs.NormalEntry.{IsOptionIfAny, MayBeNormal, HasNormal, IsNormalIfAny, TellsNormal};

use crate::boot_plan::{Choice, copy_if_any};
use crate::by_number::ByNumber;
use crate::vars::Vars;
use std::alloc::{AllocError, Global};
use uefi_option::{LoadOption, OptionFault, check_option, is_normal, read_option};

/// The attributes of the option that the bytes are, if they are one: they come first (UEFI 2.10, 3.1.3).
fn first_attributes(bytes: &[u8]) -> Option<u32>
    ensures { (option : OptionParts) → SpellsOption bytes.now option →
        result ≡ Some option.attributes }
{
    match bytes {
        [a, b, c, d, ..] => Some(u32::from_le_bytes([*a, *b, *c, *d])),
        _ => None,
    }
}

/// The bytes of the entry of this number, unless their attributes already tell that they aren't a normal option.
fn promising_bytes(vars: &Vars, number: u16) -> Option<&[u8]>
    ensures found { IfSome result (λ bytes. MayBeNormal (entry_of vars.now) number bytes.now) }
    ensures none { IfNone result (¬ HasNormal (entry_of vars.now) number) }
{
    let bytes = vars.entry(number)?;
    let attributes = first_attributes(bytes)?;
    if !is_normal(attributes) {
        return None;
    }
    Some(bytes)
}

/// Whether the entry of this number is a normal option. This takes no memory.
fn is_normal_entry(vars: &Vars, number: u16) -> bool
    ensures { IsTrue result ↔ HasNormal (entry_of vars.now) number }
{
    match promising_bytes(vars, number) {
        Some(bytes) => check_option(bytes).is_ok(),
        None => false,
    }
}

/// The load option that the bytes are, if they are one.
pub(crate) fn read_bytes(alloc: Global, bytes: &[u8]) -> Result<Option<LoadOption>, AllocError>
    ensures { IfOk result (λ option. IsOptionIfAny bytes.now option) }
{
    match read_option(alloc, bytes) {
        Ok(option) => Ok(Some(option)),
        Err(OptionFault::OutOfMemory) => Err(AllocError),
        Err(_) => Ok(None),
    }
}

/// The option of the entry of this number with the number, if the entry is there and is a normal option. Nothing else
/// takes memory.
fn read_normal_entry(alloc: Global, vars: &Vars, number: u16) -> Result<Option<Choice>, AllocError>
    ensures { IfOk result (λ choice. IsNormalIfAny (entry_of vars.now) number choice) }
{
    let Some(bytes) = promising_bytes(vars, number) else {
        return Ok(None);
    };
    match read_bytes(alloc, bytes)? {
        Some(option) => Ok(Some(Choice { number, option })),
        None => Ok(None),
    }
}

/// Whether the entry of the number at this place of the order is a normal option. The order may repeat the number of a
/// long entry, so what was seen of an entry is kept, and none is looked at twice.
pub(crate) fn look_once(
    vars: &Vars,
    order: &[u16],
    place: usize,
    known: &mut ByNumber<bool>,
) -> bool
    requires within { place < length order.now }
    requires tells { EachTells (TellsNormal (entry_of vars.now)) known.old }
    requires met { HasMet order.now place known.old }
    ensures answer { TellsNormal (entry_of vars.now) (slice_index order.now place) result }
    ensures tells { EachTells (TellsNormal (entry_of vars.now)) known.new }
    ensures met { HasMet order.now (place + 1) known.new }
{
    if let Some(normal) = known.get(order[place]) {
        return *normal;
    }
    look_first(vars, order, place, known)
}

/// The same where the number comes first, so that its entry wasn't looked at yet.
fn look_first(vars: &Vars, order: &[u16], place: usize, known: &mut ByNumber<bool>) -> bool
    requires within { place < length order.now }
    requires first { is_in (take place order.now) (slice_index order.now place) ≡ false }
    requires tells { EachTells (TellsNormal (entry_of vars.now)) known.old }
    requires met { HasMet order.now place known.old }
    ensures answer { TellsNormal (entry_of vars.now) (slice_index order.now place) result }
    ensures tells { EachTells (TellsNormal (entry_of vars.now)) known.new }
    ensures met { HasMet order.now (place + 1) known.new }
{
    let number = order[place];
    let normal = is_normal_entry(vars, number);
    known.keep(number, normal);
    normal
}

/// The option of the entry of the number at this place of the order with the number, if the entry is there and is a
/// normal option. What was read of an entry is kept, and none is read twice: when its number comes again, this gives a
/// copy.
pub(crate) fn read_once(
    alloc: Global,
    vars: &Vars,
    order: &[u16],
    place: usize,
    known: &mut ByNumber<Option<Choice>>,
) -> Result<Option<Choice>, AllocError>
    requires within { place < length order.now }
    requires tells { EachTells (IsNormalIfAny (entry_of vars.now)) known.old }
    requires met { HasMet order.now place known.old }
    ensures choice { IfOk result (IsNormalIfAny (entry_of vars.now) (slice_index order.now place)) }
    ensures tells { OnOk result (EachTells (IsNormalIfAny (entry_of vars.now)) known.new) }
    ensures met { OnOk result (HasMet order.now (place + 1) known.new) }
{
    if let Some(choice) = known.get(order[place]) {
        return copy_if_any(alloc, choice.as_ref());
    }
    read_first(alloc, vars, order, place, known)
}

/// The same where the number comes first, so that its entry wasn't read yet.
fn read_first(
    alloc: Global,
    vars: &Vars,
    order: &[u16],
    place: usize,
    known: &mut ByNumber<Option<Choice>>,
) -> Result<Option<Choice>, AllocError>
    requires within { place < length order.now }
    requires first { is_in (take place order.now) (slice_index order.now place) ≡ false }
    requires tells { EachTells (IsNormalIfAny (entry_of vars.now)) known.old }
    requires met { HasMet order.now place known.old }
    ensures choice { IfOk result (IsNormalIfAny (entry_of vars.now) (slice_index order.now place)) }
    ensures tells { OnOk result (EachTells (IsNormalIfAny (entry_of vars.now)) known.new) }
    ensures met { OnOk result (HasMet order.now (place + 1) known.new) }
{
    let number = order[place];
    let choice = read_normal_entry(alloc, vars, number)?;
    let copy = copy_if_any(alloc, choice.as_ref())?;
    known.keep(number, choice);
    Ok(copy)
}
