//! What is kept of entries by their numbers.

ghost use Rattle.std.specs.Prelude.{◌≡◌, ◌==◌, ◌&&◌, ◌++◌, ◌∷◌, [], ℕ, List, not, Some, None, IfOk, OnOk, is_some, if◌then◌else◌};
ghost use Rattle.std.specs.Option.{option_copied};
ghost use Rattle.uefi_vars.specs.ByNumber.{is_in, is_repeated, place_of, kept_at, Tells};

use std::alloc::{AllocError, Global};
use std::collections::{BTreeMap, BTreeSet};

/// What is kept of the entries whose numbers an order repeats. It takes memory for the numbers of the order, however
/// high they are.
#[derive(Drop)]
pub(crate) struct ByNumber<T> {
    /// A place for each number that the order repeats, with what is kept there, if anything.
    places: BTreeMap<u16, Option<T>>,
}

/// Puts the number into the set. Whether it is new there.
fn meet(met: &mut BTreeSet<u16>, number: u16) -> Result<bool, AllocError>
    ensures { IfOk result (λ new. (numbers : List ℕ) → Tells met.old numbers →
        (new ≡ not (is_in numbers number)) × Tells met.new (numbers ++ number ∷ [])) }
{
    match met.insert(number) {
        Ok(new) => Ok(new),
        Err(_) => Err(AllocError),
    }
}

impl<T: Drop> ByNumber<T> {
    /// A place for each number that occurs more than once in this order, and for no other. Nothing is kept yet.
    pub(crate) fn from_repeated(alloc: Global, order: &[u16]) -> Result<ByNumber<T>, AllocError>
        ensures { IfOk result (λ table. (number : ℕ) →
            place_of table number ≡ (if is_repeated order.now number then Some None else None)) }
    {
        let mut met = BTreeSet::new(alloc);
        let mut table = ByNumber {
            places: BTreeMap::new(alloc),
        };
        for number in order {
            let new = meet(&mut met, *number)?;
            if !new {
                table.make_place(*number)?;
            }
        }
        Ok(table)
    }

    /// Makes a place of this number, at which nothing is kept.
    fn make_place(&mut self, number: u16) -> Result<(), AllocError>
        ensures { OnOk result ((other : ℕ) →
            place_of self.new other ≡ (if other == number then Some None else place_of self.old other)) }
    {
        match self.places.insert(number, None) {
            Ok(_old) => Ok(()),
            Err(_) => Err(AllocError),
        }
    }

    /// What is kept under this number, if anything.
    pub(crate) fn get(&self, number: u16) -> Option<&T>
        ensures { option_copied result ≡ kept_at self.now number }
    {
        self.places.get(&number)?.as_ref()
    }

    /// Keeps the value under this number, if it has a place.
    pub(crate) fn keep(&mut self, number: u16, value: T)
        ensures { (other : ℕ) → place_of self.new other
            ≡ (if other == number && is_some (place_of self.old other) then Some (Some value) else place_of self.old other) }
    {
        if let Some(place) = self.places.get_mut(&number) {
            *place = Some(value);
        }
    }
}
