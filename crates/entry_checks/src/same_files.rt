//! Entries that lead to one file.

ghost use Rattle.std.specs.Prelude.{◌≡◌, ◌++◌, ◌∷◌, [], List, IfOk};
ghost use Rattle.entry_checks.specs.declared.same_files.Known.{Known};
ghost use Rattle.entry_checks.specs.Twins.{twin_among, twins_of, Finds};

use std::alloc::{AllocError, Global};
use std::collections::BTreeMap;

/// An entry, and where it leads.
#[derive(Debug, Drop)]
pub struct Known {
    /// Its number.
    pub number: u16,
    /// What [`destination`](crate::destination) gives of it, if it leads to a file.
    pub destination: Option<Vec<u8>>,
}

/// Of each entry the first one before it that leads to the same file, if there is one.
///
/// # Errors
///
/// [`AllocError`] if memory was refused.
pub fn twins(alloc: Global, entries: &[Known]) -> Result<Vec<Option<u16>>, AllocError>
    ensures { IfOk result (λ twins. twins.items ≡ twins_of entries.now) }
{
    let mut met = BTreeMap::new(alloc);
    let mut twins = Vec::with_capacity(alloc, entries.len())?;
    for entry in entries {
        let twin = meet(alloc, entry, &mut met)?;
        twins.push(twin)?;
    }
    Ok(twins)
}

/// The first entry that leads to where this one does, which is kept if it is that one.
fn meet(
    alloc: Global,
    entry: &Known,
    met: &mut BTreeMap<Vec<u8>, u16>,
) -> Result<Option<u16>, AllocError>
    ensures { IfOk result (λ twin. (before : List Known) → Finds met.old before →
        (twin ≡ twin_among before entry.now.destination) × Finds met.new (before ++ entry.now ∷ [])) }
{
    let Some(destination) = &entry.destination else {
        return Ok(None);
    };
    if let Some(first) = met.get(destination.as_slice()) {
        return Ok(Some(*first));
    }
    let destination = Vec::from_slice(alloc, destination)?;
    met.insert(destination, entry.number)?;
    Ok(None)
}
