//! The numbers of the records in a folder: their order, which is the next, and which don't stay.

ghost use Rattle.std.specs.Prelude.{◌≡◌, ◌+◌, ◌-◌, ◌<◌, ◌≤◌, ◌^◌, ℕ, None, IfOk, IfSome, length, take};
ghost use Rattle.std.specs.List.Sorted.{IsNonDecreasing};
ghost use Rattle.boot_history.specs.Numbers.{numbers_named, AreNumbersOf, IsGreatest, IsNext};

use crate::file_names::{NUMBER_MAX, file_number};
use std::alloc::{AllocError, Global};

/// How many records of each machine are kept.
pub const KEPT_MAX: usize = 16;

/// The numbers of the records whose files have these names. They rise. A name that isn't ten digits is of no record. This
/// fails only when out of memory.
pub(crate) fn numbers_of(alloc: Global, names: &[String]) -> Result<Vec<u64>, AllocError>
    ensures { IfOk result (λ numbers. AreNumbersOf names.now numbers.items) }
{
    let mut numbers = numbers_named(alloc, names)?;
    numbers.sort()?;
    Ok(numbers)
}

/// The same numbers, in the order of the names.
fn numbers_named(alloc: Global, names: &[String]) -> Result<Vec<u64>, AllocError>
    ensures { IfOk result (λ numbers. numbers.items ≡ numbers_named names.now) }
{
    names
        .iter()
        .filter_map(|name| file_number(name))
        .collect(alloc)
}

/// The number of a new record beside those of these numbers, which rise: 1 if there is none, and otherwise the one after
/// the last. `None` if ten digits can't write it.
pub(crate) fn next_number(numbers: &[u64]) -> Option<u64>
    requires { IsNonDecreasing numbers.now }
    ensures some { IfSome result (λ next. IsNext numbers.now next × (next < 10 ^ 10)) }
    ensures none { result ≡ None → (last : ℕ) × IsGreatest numbers.now last × (10 ^ 10 ≤ last + 1) }
{
    match numbers.last() {
        None => Some(1),
        Some(last) if *last < NUMBER_MAX => Some(*last + 1),
        Some(_) => None,
    }
}

/// Of these numbers of a machine's records, which rise, those that don't stay beside a new one.
pub(crate) fn oldest(numbers: &[u64]) -> &[u64]
    ensures { result.now ≡ take (length numbers.now - 15) numbers.now }
{
    let stay = KEPT_MAX - 1;
    &numbers[..numbers.len().saturating_sub(stay)]
}
