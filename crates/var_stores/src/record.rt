//! Records of a variable store, where they are in the bytes.

ghost use Rattle.std.specs.Prelude.{◌≡◌, ◌≢◌, ◌≤◌, ◌<◌, ◌+◌, ◌^◌, ℕ, List, ◌∷◌, ◌++◌, length, map, IfSome, IfErr, IfOk, IsTrue, ◌↔◌, MatchOption, Some, None, take, drop};
ghost use Rattle.var_stores.specs.Record.{RecordParts, record_parts, header_len, vendor_in, attribute_bytes, number_in, is_unfinished, name_len, value_len, padding_len, IsRecord, record_bytes, BeginsRecord, HasRecords, IsCutRecord};
ghost use Rattle.var_stores.specs.Present.{key_of, is_added, is_alive};
ghost use Rattle.var_stores.specs.RecordsFault.{IsFaultOf};

use crate::volume::array_at;
use std::alloc::{AllocError, Global};

/// The bytes by which a record begins.
const START: [u8; 2] = [0xAA, 0x55];

/// The bytes of a record's header after its state.
pub(crate) const HEADER_LEN: usize = 57;

// The places of fields in those bytes.
const ATTRIBUTES: usize = 1;

const NAME_SIZE: usize = 33;

const VALUE_SIZE: usize = 37;

const VENDOR: usize = 41;

/// The state of a record whose variable was added.
pub(crate) const ADDED: u8 = 0x3F;

/// The state of a record whose variable is being replaced.
const REPLACED: u8 = 0x3E;

/// The greatest number of four bytes, which memory that wasn't written reads as.
pub(crate) const BLANK: u32 = u32::MAX;

/// A record of a variable store, where it is in the bytes.
#[derive(Clone, Copy, Debug)]
pub struct Record<'a> {
    /// Its state: 0x3F of a variable that is there, 0x3E of one that is being replaced.
    pub state: u8,
    /// The 57 bytes of the header after the state: one that isn't used, the attributes in four bytes, 28 bytes with a
    /// count, a time and the index of a key, how many bytes the name has, in four, and the value, in four, and the
    /// vendor's GUID in 16. Numbers are little-endian.
    pub header: &'a [u8],
    /// The bytes of the name: CHAR16 units, two bytes each, with a zero unit after the name. There are none if the
    /// header wasn't written to its end.
    pub name: &'a [u8],
    /// The bytes of the value. There are none if the header wasn't written to its end.
    pub value: &'a [u8],
    /// The bytes after the value up to a multiple of four.
    pub padding: &'a [u8],
}

impl<'a> Record<'a> {
    /// The vendor's GUID, as it is stored.
    pub(crate) fn vendor(&self) -> &'a [u8]
        ensures { result.now ≡ vendor_in self.now.header.now }
    {
        match self.header.split_at_checked(VENDOR) {
            Some((_front, vendor)) => vendor,
            None => &[],
        }
    }

    /// Of which variable it is: the vendor's GUID and then the name, both as they are stored.
    pub(crate) fn key(&self, alloc: Global) -> Result<Vec<u8>, AllocError>
        ensures { IfOk result (λ key. key.items ≡ key_of (record_parts self.now)) }
    {
        let mut key = Vec::from_slice(alloc, self.vendor())?;
        key.extend_from_slice(self.name)?;
        Ok(key)
    }

    /// The bytes of the variable's attributes.
    pub(crate) fn attributes(&self) -> [u8; 4]
        requires { length self.now.header.now ≡ header_len }
        ensures { result ≡ attribute_bytes self.now.header.now }
    {
        array_at(self.header, ATTRIBUTES)
    }

    /// Whether it is of a variable that was added.
    pub(crate) fn is_added(&self) -> bool
        ensures { result ≡ is_added (record_parts self.now) }
    {
        self.state == ADDED
    }

    /// Whether it is of a variable that was added, or that is being replaced.
    pub(crate) fn is_alive(&self) -> bool
        ensures { result ≡ is_alive (record_parts self.now) }
    {
        self.is_added() || self.state == REPLACED
    }
}

/// Why the records of a store aren't read.
#[derive(Clone, Copy, Debug)]
pub(crate) enum RecordsFault {
    /// The bytes end in a record. The number is the record's offset from the first of them.
    Cut(usize),
    /// Memory was refused.
    OutOfMemory,
}

/// The records at the start of the bytes, one after the other, and the bytes after them.
pub(crate) fn read_records(
    alloc: Global,
    bytes: &[u8],
) -> Result<(Vec<Record<'_>>, &[u8]), RecordsFault>
    ensures found { IfOk result (λ found. HasRecords bytes.now (map record_parts found.0.items) found.1.now) }
    ensures cut { IfErr result (IsFaultOf bytes.now) }
{
    let mut records = Vec::new(alloc);
    let mut rest = bytes;
    while begins_record(rest) {
        let Some((record, after)) = split_record(rest) else {
            return Err(RecordsFault::Cut(bytes.len() - rest.len()));
        };
        let Ok(()) = records.push(record) else {
            return Err(RecordsFault::OutOfMemory);
        };
        rest = after;
    }
    Ok((records, rest))
}

/// Whether a record begins with the bytes.
pub(crate) fn begins_record(bytes: &[u8]) -> bool
    ensures { IsTrue result ↔ BeginsRecord bytes.now }
{
    bytes.starts_with(&START)
}

/// The record at the start of the bytes, and the bytes after it: `None` if they end in it.
pub(crate) fn split_record(bytes: &[u8]) -> Option<(Record<'_>, &[u8])>
    requires { BeginsRecord bytes.now }
    ensures found { IfSome result (λ found. IsRecord (record_parts found.0)
        × (bytes.now ≡ record_bytes (record_parts found.0) ++ found.1.now)) }
    ensures cut { result ≡ None → IsCutRecord bytes.now }
{
    let (_start, after) = split_at(bytes, START.len())?;
    let (state, after) = after.split_first()?;
    let (header, after) = split_at(after, HEADER_LEN)?;
    let name_len = name_len(*state, header);
    let value_len = value_len(*state, header);
    let (name, after) = split_at(after, name_len)?;
    let (value, after) = split_at(after, value_len)?;
    let (padding, after) = split_at(after, padding_len(name_len + value_len))?;
    let record = Record {
        state: *state,
        header,
        name,
        value,
        padding,
    };
    Some((record, after))
}

/// How many bytes the name has.
fn name_len(state: u8, header: &[u8]) -> usize
    requires { length header.now ≡ header_len }
    ensures len { result ≡ name_len state header.now }
    ensures bound { result < 2 ^ 32 }
{
    if is_unfinished(state, header) {
        return 0;
    }
    number_in(header, NAME_SIZE) as usize
}

/// How many bytes the value has.
fn value_len(state: u8, header: &[u8]) -> usize
    requires { length header.now ≡ header_len }
    ensures len { result ≡ value_len state header.now }
    ensures bound { result < 2 ^ 32 }
{
    if is_unfinished(state, header) {
        return 0;
    }
    number_in(header, VALUE_SIZE) as usize
}

/// Whether the header wasn't written to its end.
fn is_unfinished(state: u8, header: &[u8]) -> bool
    requires { length header.now ≡ header_len }
    ensures { result ≡ is_unfinished state header.now }
{
    state == u8::MAX
        || number_in(header, ATTRIBUTES) == BLANK
        || number_in(header, NAME_SIZE) == BLANK
        || number_in(header, VALUE_SIZE) == BLANK
}

/// The number of four bytes at this place of the header.
fn number_in(header: &[u8], place: usize) -> u32
    requires whole { length header.now ≡ header_len }
    requires within { place + 4 ≤ header_len }
    ensures { result ≡ number_in header.now place }
{
    u32::from_le_bytes(array_at(header, place))
}

/// How many bytes follow this many up to a multiple of four.
pub(crate) fn padding_len(len: usize) -> usize
    ensures { result ≡ padding_len len }
{
    (4 - len % 4) % 4
}

/// The first of the bytes, this many, and the others, if there are that many.
fn split_at(bytes: &[u8], len: usize) -> Option<(&[u8], &[u8])>
    ensures found { IfSome result (λ parts. (length parts.0.now ≡ len) × (bytes.now ≡ parts.0.now ++ parts.1.now)) }
    ensures few { result ≡ None → length bytes.now < len }
{
    if len > bytes.len() {
        return None;
    }
    Some(bytes.split_at(len))
}
