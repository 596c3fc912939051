//! A store of variables, where it is in its file.

ghost use Rattle.std.specs.Prelude.{◌≡◌, ◌↔◌, ◌≤◌, ◌<◌, ◌+◌, ◌^◌, length, IfOk, IfErr, IsTrue};
ghost use Rattle.var_stores.specs.Volume.{header_min, store_size, store_parts, HasVolume, HasRoom, HasStoreHeader, HasGoodStore, SpellsStore, IsStoreFault};

use crate::fault::StoreFault;
use crate::record::{Record, RecordsFault, read_records};
use crate::volume::{
    STORE_HEADER_LEN, array_at, has_good_header, header_size, is_volume, volume_len,
};
use std::alloc::Global;

/// aaf32c78-947b-439a-a180-2e144ec37792, the GUID of a store whose records have times, as it is stored.
const STORE_GUID: [u8; 16] = [
    0x78, 0x2C, 0xF3, 0xAA, 0x7B, 0x94, 0x9A, 0x43, 0xA1, 0x80, 0x2E, 0x14, 0x4E, 0xC3, 0x77, 0x92,
];

/// ddcf3616-3275-4164-98b6-fe85707ffe7d, the GUID of a store whose records have none, as it is stored.
const PLAIN_STORE_GUID: [u8; 16] = [
    0x16, 0x36, 0xCF, 0xDD, 0x75, 0x32, 0x64, 0x41, 0x98, 0xB6, 0xFE, 0x85, 0x70, 0x7F, 0xFE, 0x7D,
];

/// A store of variables as edk2 writes it, where it is in the bytes of its file.
#[derive(Debug, Drop)]
pub struct VariableStore<'a> {
    /// The headers of the volume and of the store.
    pub head: &'a [u8],
    /// The records, in their order.
    pub records: Vec<Record<'a>>,
    /// The bytes of the store after the records. All are 0xFF unless something is damaged: [`VariableStore::damage`].
    pub free: &'a [u8],
    /// Where these bytes begin: their offset in bytes from the file's first byte.
    pub free_at: usize,
    /// The bytes of the file after the store.
    pub rest: &'a [u8],
}

/// Finds the store of variables in the bytes of an emulator's variable file, all of them, as edk2 writes it: a firmware
/// volume, and perhaps more after it. The bytes are lent, and not copied.
///
/// # Errors
///
/// The first of these faults: [`StoreFault::NoVolume`] if the file doesn't begin with a volume of variables of revision
/// 2; [`StoreFault::BadHeader`] if the length in the volume's header is odd, less than 56 or more than the file has, its
/// numbers of two bytes don't sum to 0, or the volume ends after the file; [`StoreFault::NoStore`] if the volume has no
/// store of variables right after its header; [`StoreFault::Unauthenticated`] if the store is of the older kind, whose
/// records have no times; [`StoreFault::BadStore`] if it isn't formatted or healthy, or its length isn't a multiple of
/// four, or is less than that of its header, or more than is left of the volume; [`StoreFault::CutRecord`] if a record
/// ends after the store. [`StoreFault::OutOfMemory`] if memory for the list of records was refused.
pub fn read_store(alloc: Global, file: &[u8]) -> Result<VariableStore<'_>, StoreFault>
    ensures found { IfOk result (λ store. SpellsStore file.now (store_parts store)) }
    ensures place { IfOk result (λ store. store.free_at + (length store.free.now + length store.rest.now) ≡ length file.now) }
    ensures fault { IfErr result (IsStoreFault file.now) }
{
    if !is_volume(file) {
        return Err(StoreFault::NoVolume);
    }
    if !has_good_header(file) {
        return Err(StoreFault::BadHeader);
    }
    if !has_store_header(file) {
        return Err(StoreFault::NoStore);
    }
    let guid: [u8; 16] = array_at(file, header_size(file));
    if guid == PLAIN_STORE_GUID {
        return Err(StoreFault::Unauthenticated);
    }
    if guid != STORE_GUID {
        return Err(StoreFault::NoStore);
    }
    if !has_good_store(file) {
        return Err(StoreFault::BadStore);
    }
    let (head, after) = file.split_at(header_size(file) + STORE_HEADER_LEN);
    let (area, rest) = after.split_at(store_size(file) - STORE_HEADER_LEN);
    match read_records(alloc, area) {
        Ok((records, free)) => Ok(VariableStore {
            head,
            records,
            free,
            free_at: file.len() - rest.len() - free.len(),
            rest,
        }),
        Err(RecordsFault::Cut(place)) => Err(StoreFault::CutRecord(head.len() + place)),
        Err(RecordsFault::OutOfMemory) => Err(StoreFault::OutOfMemory),
    }
}

/// Whether the volume has room for a store's header.
fn has_store_header(file: &[u8]) -> bool
    requires { HasVolume file.now }
    ensures { IsTrue result ↔ HasStoreHeader file.now }
{
    (header_size(file) + STORE_HEADER_LEN) as u64 <= volume_len(file)
}

/// The length of the store.
fn store_size(file: &[u8]) -> usize
    requires { HasRoom file.now }
    ensures size { result ≡ store_size file.now }
    ensures bound { result < 2 ^ 32 }
{
    u32::from_le_bytes(array_at(file, header_size(file) + 16)) as usize
}

/// Whether the store is formatted and healthy, ends in the volume, and is cut into fours.
fn has_good_store(file: &[u8]) -> bool
    requires { HasRoom file.now }
    ensures { IsTrue result ↔ HasGoodStore file.now }
{
    let size = store_size(file);
    array_at(file, header_size(file) + 20) == [0x5A, 0xFE]
        && size >= STORE_HEADER_LEN
        && size % 4 == 0
        && (header_size(file) + size) as u64 <= volume_len(file)
}
