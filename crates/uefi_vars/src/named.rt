//! What is kept under names.

ghost use Rattle.std.specs.Prelude.{◌≡◌, ◌<◌, ◌≤◌, ◌+◌, List, ℕ, IfOk, IfErr};
ghost use Rattle.std.specs.Option.{option_map};
ghost use Rattle.std.specs.Vec.{vec_len, vec_capacity};
ghost use Rattle.std.specs.FinMap as map;
ghost use Rattle.uefi_vars.specs.Vars.{name_cmp};
ghost use Rattle.uefi_vars.specs.Records.{pairs_of, IsRising, IsAt, IsGap, IsPlace, HasRoom, FindsAllFrom};

use crate::shared::SharedText;
use std::alloc::AllocError;
use std::cmp::Ordering;

/// A name, and what is kept under it.
#[derive(Debug, PartialEq, Eq, Drop)]
pub(crate) struct Named<T> {
    pub(crate) name: SharedText,
    pub(crate) kept: T,
}

/// Where what is kept under a name goes.
#[derive(Drop)]
pub(crate) enum Place {
    /// Where the name already is.
    Taken(usize),
    /// Where the name is to go, and the name.
    Free(usize, SharedText),
}

/// Where this name is among those of these, which are in the order of their names, or where it would go if it isn't
/// there.
pub(crate) fn search<T>(items: &[Named<T>], name: &[u8]) -> Result<usize, usize>
    requires { IsRising (pairs_of items.now) }
    ensures found { IfOk result (IsAt (pairs_of items.now) name.now) }
    ensures absent { IfErr result (IsGap (pairs_of items.now) name.now) }
{
    items.binary_search_by(|item| item.name.as_bytes().cmp(name))
}

/// What is kept under this name, if anything.
pub(crate) fn find<'a, T>(items: &'a [Named<T>], name: &[u8]) -> Option<&'a T>
    requires { IsRising (pairs_of items.now) }
    ensures { option_map (λ kept. kept.now) result ≡ map.find name_cmp name.now (pairs_of items.now) }
{
    match search(items, name) {
        Ok(index) => Some(&items[index].kept),
        Err(_) => None,
    }
}

/// These from this name on, and what is kept under the name, if anything. So names that rise are found in one pass.
pub(crate) fn seek<'a, T>(items: &'a [Named<T>], name: &[u8]) -> (&'a [Named<T>], Option<&'a T>)
    requires { IsRising (pairs_of items.now) }
    ensures rising { IsRising (pairs_of result.0.now) }
    ensures found { option_map (λ kept. kept.now) result.1
        ≡ map.find name_cmp name.now (pairs_of items.now) }
    ensures left { FindsAllFrom name.now (pairs_of items.now) (pairs_of result.0.now) }
{
    let mut left = items;
    while let Some((first, behind)) = left.split_first() {
        match first.name.as_bytes().cmp(name) {
            Ordering::Less => left = behind,
            Ordering::Equal => return (left, Some(&first.kept)),
            Ordering::Greater => return (left, None),
        }
    }
    (left, None)
}

/// Where what is to be kept under this name goes.
pub(crate) fn place_of<T>(items: &[Named<T>], name: SharedText) -> Place
    requires { IsRising (pairs_of items.now) }
    ensures { IsPlace (pairs_of items.now) name result }
{
    match search(items, name.as_bytes()) {
        Ok(index) => Place::Taken(index),
        Err(index) => Place::Free(index, name),
    }
}

/// Where what is to be kept under this name goes, with room for it. It takes memory only if the name isn't there.
pub(crate) fn make_place<T>(items: &mut Vec<Named<T>>, name: &str) -> Result<Place, AllocError>
    requires { IsRising (pairs_of items.old.items) }
    ensures place { IfOk result (IsPlace (pairs_of items.old.items) name.now) }
    ensures room { IfOk result (HasRoom (vec_len items.new) (vec_capacity items.new)) }
    ensures same { items.new.items ≡ items.old.items }
{
    match search(items, name.as_bytes()) {
        Ok(index) => Ok(Place::Taken(index)),
        Err(index) => {
            items.reserve(1)?;
            let name = SharedText::new(*items.allocator(), name)?;
            Ok(Place::Free(index, name))
        }
    }
}

/// Keeps this at the place.
pub(crate) fn set_at<T: Drop>(items: &mut Vec<Named<T>>, place: Place, kept: T)
    requires place { (name : List ℕ) × IsPlace (pairs_of items.old.items) name place }
    requires room { HasRoom (vec_len items.old) (vec_capacity items.old) place }
    ensures stored { (name : List ℕ) → IsPlace (pairs_of items.old.items) name place →
        pairs_of items.new.items ≡ map.put name_cmp name kept (pairs_of items.old.items) }
    ensures len { vec_len items.new ≤ vec_len items.old + 1 }
    ensures capacity { vec_capacity items.old ≤ vec_capacity items.new }
{
    match place {
        Place::Taken(index) => items[index].kept = kept,
        Place::Free(index, name) => {
            let inserted = items.insert(index, Named { name, kept });
            prove!(inserted.is_ok());
        }
    }
}
