//! Lists of numbers, with each of them once.

ghost use Rattle.std.specs.Prelude.{◌≡◌, ◌++◌, ◌∷◌, [], ℕ, List, not, IfOk, OnOk};
ghost use Rattle.entry_checks.specs.Numbers.{is_in, with_last, distinct_from, distinct, repeated, repeated_from, Tells};

use std::alloc::{AllocError, Global};
use std::collections::BTreeSet;

/// The numbers, each where it comes first.
pub(crate) fn distinct(alloc: Global, numbers: &[u16]) -> Result<Vec<u16>, AllocError>
    ensures { IfOk result (λ once. once.items ≡ distinct numbers.now) }
{
    let mut met = BTreeSet::new(alloc);
    let mut once = Vec::new(alloc);
    for number in numbers {
        push_new(*number, &mut met, &mut once)?;
    }
    Ok(once)
}

/// Those of the numbers that come again, each where it does so first.
pub(crate) fn repeated(alloc: Global, numbers: &[u16]) -> Result<Vec<u16>, AllocError>
    ensures { IfOk result (λ again. again.items ≡ repeated numbers.now) }
{
    distinct(alloc, &met_again(alloc, numbers)?)
}

/// Those of the numbers that come again, as often as they do.
fn met_again(alloc: Global, numbers: &[u16]) -> Result<Vec<u16>, AllocError>
    ensures { IfOk result (λ again. again.items ≡ repeated_from [] [] numbers.now) }
{
    let mut met = BTreeSet::new(alloc);
    let mut again = Vec::new(alloc);
    for number in numbers {
        let new = meet(*number, &mut met)?;
        if !new {
            again.push(*number)?;
        }
    }
    Ok(again)
}

/// Appends the number to these, which the set has, unless it is one of them.
fn push_new(number: u16, met: &mut BTreeSet<u16>, once: &mut Vec<u16>) -> Result<(), AllocError>
    ensures { OnOk result (Tells met.old once.old.items →
        (once.new.items ≡ with_last once.old.items number) × Tells met.new once.new.items) }
{
    let new = meet(number, met)?;
    if !new {
        return Ok(());
    }
    once.push(number)?;
    Ok(())
}

/// Puts the number into the set. Whether it is new there.
fn meet(number: u16, met: &mut BTreeSet<u16>) -> Result<bool, AllocError>
    ensures { IfOk result (λ new. (numbers : List ℕ) → Tells met.old numbers →
        (new ≡ not (is_in numbers number)) × Tells met.new (numbers ++ number ∷ [])) }
{
    match met.insert(number) {
        Ok(new) => Ok(new),
        Err(_) => Err(AllocError),
    }
}
