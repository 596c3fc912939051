//! Variables to the options of entries, and to a plan.

ghost use Rattle.std.specs.Prelude.{◌≡◌, ◌↔◌, Some, Ok, Err, IfOk, MatchResult};
ghost use Rattle.uefi_path.specs.Answer.{IsUnless};
ghost use Rattle.uefi_vars.specs.declared.fault.VarFault.{VarFault};
ghost use Rattle.uefi_vars.specs.Vars.{IsVars, entry_of};
ghost use Rattle.uefi_vars.specs.Order.{HasBadOrder, HasBadNext};
ghost use Rattle.uefi_vars.specs.Plan.{PlanParts, IsEntryOption, IsNextChoice, AreNormalChoices, HasPlan, AreNumbersOf};
ghost use Rattle.uefi_vars.specs.NormalEntry.{IsNextNumber, AreNormalNumbers};

use crate::boot_plan::{BootPlan, Choice, PlanNumbers};
use crate::by_number::ByNumber;
use crate::fault::VarFault;
use crate::laws;
use crate::normal_entry::{look_once, read_bytes, read_once};
use crate::order::{boot_next, order_bytes};
use crate::vars::Vars;
use std::alloc::{AllocError, Global};
use uefi_option::{LoadOption, check_option};
use uefi_path::read_units;

/// The load option of the entry of this number, Boot#### (UEFI 2.10, 3.1.3), whatever its attributes are: `None` if
/// nothing is stored there, or if what is stored isn't a load option. [`read_option`] tells of the bytes of
/// [`Vars::entry`] why they aren't one.
///
/// # Errors
///
/// [`AllocError`] if memory was refused.
pub fn entry_option(
    alloc: Global,
    vars: &Vars,
    number: u16,
) -> Result<Option<LoadOption>, AllocError>
    ensures { IfOk result (λ option. IsEntryOption (entry_of vars.now) number option) }
{
    let Some(bytes) = vars.entry(number) else {
        return Ok(None);
    };
    read_bytes(alloc, bytes)
}

/// The option of the entry of this number with the number, if the entry is there and is one.
fn read_choice(alloc: Global, vars: &Vars, number: u16) -> Result<Option<Choice>, AllocError>
    ensures { IfOk result (λ choice. IsNextChoice (entry_of vars.now) (Some number) choice) }
{
    match entry_option(alloc, vars, number)? {
        Some(option) => Ok(Some(Choice { number, option })),
        None => Ok(None),
    }
}

/// The option of the entry with the number of BootNext, if there is a number, and the entry is there and is one.
fn read_next_choice(
    alloc: Global,
    vars: &Vars,
    next: Option<u16>,
) -> Result<Option<Choice>, AllocError>
    ensures { IfOk result (λ choice. IsNextChoice (entry_of vars.now) next choice) }
{
    match next {
        Some(number) => read_choice(alloc, vars, number),
        None => Ok(None),
    }
}

/// The normal options of these entries, in their order.
fn read_normal_choices(alloc: Global, vars: &Vars, order: &[u16]) -> Result<Vec<Choice>, AllocError>
    ensures { IfOk result (λ choices.
        AreNormalChoices (entry_of vars.now) order.now choices.items) }
{
    let mut known = ByNumber::from_repeated(alloc, order)?;
    let mut choices = Vec::new(alloc);
    for place in 0..order.len() {
        if let Some(choice) = read_once(alloc, vars, order, place, &mut known)? {
            choices.push(choice)?;
        }
    }
    Ok(choices)
}

/// The numbers of an order that have a normal option, as often as they occur in it.
fn normal_numbers(alloc: Global, vars: &Vars, order: &[u16]) -> Result<Vec<u16>, AllocError>
    ensures { IfOk result (λ numbers.
        AreNormalNumbers (entry_of vars.now) order.now numbers.items) }
{
    let mut known = ByNumber::from_repeated(alloc, order)?;
    let mut numbers = Vec::new(alloc);
    for place in 0..order.len() {
        if look_once(vars, order, place, &mut known) {
            numbers.push(order[place])?;
        }
    }
    Ok(numbers)
}

/// The number of BootNext, if there is one, and its entry is there and is an option.
fn next_number(vars: &Vars, next: Option<u16>) -> Option<u16>
    ensures { IsNextNumber (entry_of vars.now) next result }
{
    let number = next?;
    let bytes = vars.entry(number)?;
    match check_option(bytes) {
        Ok(_) => Some(number),
        Err(_) => None,
    }
}

/// The numbers of the options that a boot would try, as [`plan`] chooses them: that of BootNext, and then those of
/// BootOrder, in its order and as often as they occur there (UEFI 2.10, 3.3). However often a number occurs in
/// BootOrder, its entry is looked at once, and the call takes memory for numbers alone, however large the entries are.
///
/// # Errors
///
/// [`VarFault::BadOrder`] if the bytes of BootOrder are odd in number or more than two for each of
/// [`ORDER_MAX`](crate::ORDER_MAX) numbers; otherwise [`VarFault::BadNext`] if BootNext has another number of bytes
/// than two; otherwise [`VarFault::OutOfMemory`] if memory was refused.
pub fn plan_numbers(alloc: Global, vars: &Vars) -> Result<PlanNumbers, VarFault>
    ensures found { IfOk result (λ numbers. (plan : PlanParts)
        × HasPlan vars.now plan × AreNumbersOf plan numbers.next numbers.normal.items) }
    ensures only { (plan : PlanParts) → HasPlan vars.now plan →
        MatchResult result (λ numbers. AreNumbersOf plan numbers.next numbers.normal.items)
        (λ fault. fault ≡ VarFault.OutOfMemory) }
    ensures bad_order { (result ≡ Err VarFault.BadOrder) ↔ HasBadOrder vars.now }
    ensures bad_next { (result ≡ Err VarFault.BadNext)
        ↔ ((¬ HasBadOrder vars.now) × HasBadNext vars.now) }
    ensures valid { IsVars vars.now }
{
    laws::variables_have_one_plan();
    laws::a_bad_order_gives_no_order();
    let bytes = order_bytes(vars)?;
    let next = boot_next(vars)?;
    let next = next_number(vars, next);
    let order = read_units(alloc, bytes)?;
    let normal = normal_numbers(alloc, vars, &order)?;
    Ok(PlanNumbers { next, normal })
}

/// What a boot would try: the option that BootNext names, and then those that BootOrder names, in its order and as
/// often as they occur there (UEFI 2.10, 3.3). Which of them count is this crate's choice: BootNext's whatever its
/// attributes are, and of BootOrder's the normal ones, which are active and of the category of the normal boot (3.1.3).
/// A number whose entry isn't there or isn't a load option is left out of both. The variables stay as they are: who
/// boots by the plan deletes BootNext first.
///
/// An option is read once however often its number occurs in BootOrder, and its choices share its lists. So a plan
/// takes a small multiple of the bytes of the variables, with some words for each number in BootOrder; [`plan_numbers`]
/// gives the numbers alone. An entry that is left out isn't copied. The option of BootNext may be read once more.
///
/// # Errors
///
/// [`VarFault::BadOrder`] if the bytes of BootOrder are odd in number or more than two for each of
/// [`ORDER_MAX`](crate::ORDER_MAX) numbers; otherwise [`VarFault::BadNext`] if BootNext has another number of bytes
/// than two; otherwise [`VarFault::OutOfMemory`] if memory was refused.
pub fn plan(alloc: Global, vars: &Vars) -> Result<BootPlan, VarFault>
    ensures found { IfOk result (λ plan. HasPlan vars.now plan) }
    ensures only { (plan : PlanParts) → HasPlan vars.now plan →
        IsUnless result (Ok plan) VarFault.OutOfMemory }
    ensures bad_order { (result ≡ Err VarFault.BadOrder) ↔ HasBadOrder vars.now }
    ensures bad_next { (result ≡ Err VarFault.BadNext)
        ↔ ((¬ HasBadOrder vars.now) × HasBadNext vars.now) }
    ensures valid { IsVars vars.now }
{
    laws::variables_have_one_plan();
    laws::a_bad_order_gives_no_order();
    let order = order_bytes(vars)?;
    let number = boot_next(vars)?;
    let next = read_next_choice(alloc, vars, number)?;
    let numbers = read_units(alloc, order)?;
    let normal = read_normal_choices(alloc, vars, &numbers)?;
    Ok(BootPlan::new(next, normal))
}
