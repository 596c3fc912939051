//! Lists of numbers that name entries.

ghost use Rattle.std.specs.Prelude.{◌≡◌, ◌≢◌, ℕ, not, false, List, [], ◌∷◌, ◌++◌, IfOk, IfErr, OnOk};
ghost use Rattle.uefi_option.specs.LoadOption.{OptionParts, SpellsOption};
ghost use Rattle.boot_requests.specs.Apply.{is_in};
ghost use Rattle.boot_edits.specs.declared.fault.EditFault.{EditFault};
ghost use Rattle.boot_edits.specs.Lists.{IsMissing, IsStale, IsNoOption, AreFine, IsFirstFault};
ghost use Rattle.boot_edits.specs.Needs.{IsRefusedFor};
ghost use Rattle.boot_edits.specs.Orders.{with_last};
ghost use Rattle.boot_edits.specs.Steps.{Tells};

use crate::fault::EditFault;
use std::alloc::{AllocError, Global};
use std::collections::BTreeSet;
use uefi_option::check_option;
use uefi_vars::Vars;

/// What there has to be under a number of a list.
#[derive(Clone, Copy)]
pub(crate) enum Need {
    /// Nothing.
    Nothing,
    /// An entry.
    Entry,
    /// An entry, so that an order of the number has no stale one.
    EntryOfOrder,
    /// An entry that is a load option.
    Option,
}

/// Whether each of these numbers is in the list once, and has what it needs. The first one that hasn't is told.
pub(crate) fn check_each(
    alloc: Global,
    vars: &Vars,
    need: Need,
    numbers: &[u16],
) -> Result<(), EditFault>
    ensures fine { OnOk result (AreFine (IsRefusedFor need vars.now) numbers.now) }
    ensures refused { IfErr result (λ fault.
        fault ≢ EditFault.OutOfMemory → IsFirstFault (IsRefusedFor need vars.now) numbers.now fault) }
{
    let mut met = BTreeSet::new(alloc);
    for number in numbers {
        let new = meet(&mut met, *number)?;
        if !new {
            return Err(EditFault::Twice(*number));
        }
        check_one(vars, need, *number)?;
    }
    Ok(())
}

/// Whether the number has what it needs.
pub(crate) fn check_one(vars: &Vars, need: Need, number: u16) -> Result<(), EditFault>
    ensures fine { OnOk result ((fault : EditFault) → IsRefusedFor need vars.now number fault → ⊥) }
    ensures refused { IfErr result (IsRefusedFor need vars.now number) }
{
    match need {
        Need::Nothing => Ok(()),
        Need::Entry => check_entry(vars, number),
        Need::EntryOfOrder => check_entry_of_order(vars, number),
        Need::Option => check_entry_option(vars, number),
    }
}

/// Whether there is such an entry.
fn check_entry(vars: &Vars, number: u16) -> Result<(), EditFault>
    ensures fine { OnOk result ((fault : EditFault) → IsMissing vars.now number fault → ⊥) }
    ensures refused { IfErr result (IsMissing vars.now number) }
{
    match vars.entry(number) {
        Some(_) => Ok(()),
        None => Err(EditFault::Missing(number)),
    }
}

/// Whether there is such an entry, so that an order of the number has no stale one.
fn check_entry_of_order(vars: &Vars, number: u16) -> Result<(), EditFault>
    ensures fine { OnOk result ((fault : EditFault) → IsStale false vars.now number fault → ⊥) }
    ensures refused { IfErr result (IsStale false vars.now number) }
{
    match vars.entry(number) {
        Some(_) => Ok(()),
        None => Err(EditFault::Stale(number)),
    }
}

/// Whether there is such an entry, and it is a load option.
fn check_entry_option(vars: &Vars, number: u16) -> Result<(), EditFault>
    ensures fine { OnOk result ((fault : EditFault) → IsNoOption vars.now number fault → ⊥) }
    ensures refused { IfErr result (IsNoOption vars.now number) }
{
    let Some(bytes) = vars.entry(number) else {
        return Err(EditFault::Missing(number));
    };
    check_bytes(bytes, number)
}

/// Whether the bytes of the entry of this number are a load option.
fn check_bytes(bytes: &[u8], number: u16) -> Result<(), EditFault>
    ensures fine { OnOk result ((option : OptionParts) × SpellsOption bytes.now option) }
    ensures refused { IfErr result (λ fault. (fault ≡ EditFault.NoOption number)
        × ((option : OptionParts) → SpellsOption bytes.now option → ⊥)) }
{
    match check_option(bytes) {
        Ok(_) => Ok(()),
        Err(_) => Err(EditFault::NoOption(number)),
    }
}

/// These numbers as a set.
pub(crate) fn set_of(alloc: Global, numbers: &[u16]) -> Result<BTreeSet<u16>, AllocError>
    ensures { IfOk result (λ set. Tells set numbers.now) }
{
    numbers.iter().copied().collect(alloc)
}

/// Appends the number to these, which the set has, unless it is one of them.
pub(crate) fn push_new(
    numbers: &mut Vec<u16>,
    met: &mut BTreeSet<u16>,
    number: u16,
) -> Result<(), AllocError>
    ensures { OnOk result (Tells met.old numbers.old.items →
        (numbers.new.items ≡ with_last numbers.old.items number) × Tells met.new numbers.new.items) }
{
    let new = meet(met, number)?;
    if !new {
        return Ok(());
    }
    numbers.push(number)?;
    Ok(())
}

/// Puts the number into the set. Whether it is new there.
fn meet(met: &mut BTreeSet<u16>, number: u16) -> Result<bool, AllocError>
    ensures { IfOk result (λ new. (numbers : List ℕ) → Tells met.old numbers →
        (new ≡ not (is_in numbers number)) × Tells met.new (numbers ++ number ∷ [])) }
{
    match met.insert(number) {
        Ok(new) => Ok(new),
        Err(_) => Err(AllocError),
    }
}
