//! What isn't erased after the records of a store.

ghost use Rattle.std.specs.Prelude.{◌≡◌, ◌==◌, not, ◌↔◌, None, drop, IfSome, IsTrue, MatchOption};
ghost use Rattle.std.specs.List.{position};
ghost use Rattle.var_stores.specs.Damage.{AreErased, HasBegun, IsUnwritten, IsAfterRecord, BeginsNone, CountsRecords, IsDamage};

use crate::record::{begins_record, split_record};
use crate::store::VariableStore;

/// What erased memory reads as.
const ERASED: u8 = 0xFF;

/// What is found after the last record of a store where all bytes ought to be erased.
#[derive(Clone, Copy, Debug, PartialEq, Eq, Hash)]
pub struct Damage {
    /// The place of the first byte after the last record that isn't 0xFF: its offset in bytes from the file's first byte.
    pub place: usize,
    /// How many records can be read after the last one.
    pub records: usize,
}

impl VariableStore<'_> {
    /// What isn't erased after the last record of a store that was read: `None` exactly if all bytes of `free` are 0xFF,
    /// or all but the first, which is the one by which a record begins, 0xAA.
    ///
    /// Records are looked for at offsets that are multiples of four from the first byte after the store's header. One that
    /// begins there and ends in the store is counted, and reading goes on right after it; where none begins, or where it
    /// ends after the store, reading goes on four bytes later. If there are some, then a record before them has lost its
    /// start or its lengths, and what is written after the last record goes over them.
    ///
    /// That one byte is all that edk2 leaves after the records if it is cut off while it writes one: from the second on a
    /// record that isn't finished is there.
    pub fn damage(&self) -> Option<Damage>
        ensures none { (result ≡ None) ↔ IsUnwritten self.now.free.now }
        ensures some { IfSome result (λ damage. IsDamage self.now.free_at self.now.free.now damage.place damage.records) }
    {
        if has_begun(self.free) {
            return None;
        }
        let erased = first_written(self.free)?;
        Some(Damage {
            place: self.free_at.saturating_add(erased),
            records: count_records(self.free),
        })
    }
}

/// Whether the first byte of a record was written, and nothing after it.
fn has_begun(bytes: &[u8]) -> bool
    ensures { IsTrue result ↔ HasBegun bytes.now }
{
    match bytes {
        [0xAA, rest @ ..] => are_erased(rest),
        _ => false,
    }
}

/// Whether all bytes are erased.
fn are_erased(bytes: &[u8]) -> bool
    ensures { IsTrue result ↔ AreErased bytes.now }
{
    bytes.iter().all(|byte| *byte == ERASED)
}

/// The index of the first byte that isn't erased.
fn first_written(bytes: &[u8]) -> Option<usize>
    ensures { result ≡ position (λ byte. not (byte == 0xFF)) bytes.now }
{
    bytes.iter().position(|byte| *byte != ERASED)
}

/// How many records are among the bytes: after each the next is looked for, and four bytes on where there is none.
fn count_records(bytes: &[u8]) -> usize
    ensures { CountsRecords bytes.now result }
{
    let mut count = 0;
    let mut rest = bytes;
    while !rest.is_empty() {
        if let Some(after) = after_record(rest) {
            count += 1;
            rest = after;
        } else {
            rest = four_on(rest);
        }
    }
    count
}

/// The bytes after the record that begins with these and ends among them: `None` if there is none.
fn after_record(bytes: &[u8]) -> Option<&[u8]>
    ensures { MatchOption result (BeginsNone bytes.now) (λ after. IsAfterRecord bytes.now after.now) }
{
    if !begins_record(bytes) {
        return None;
    }
    let (_record, after) = split_record(bytes)?;
    Some(after)
}

/// The bytes after the first four, or none if there are fewer.
fn four_on(bytes: &[u8]) -> &[u8]
    ensures { result.now ≡ drop 4 bytes.now }
{
    match bytes.split_at_checked(4) {
        Some((_four, after)) => after,
        None => &[],
    }
}
