//! Why files of variables are refused, by their faults.

use messages::{DamageWords, OtherKind, Reason};
use uefi_vars::SetFault;
use var_stores::{Damage, StoreFault};

/// Why a set file with these bytes is refused: `None` if only memory was.
pub(crate) fn set_reason(bytes: &[u8], fault: SetFault) -> Option<Reason> {
    match fault {
        SetFault::BadMagic(_) => Some(Reason::NoPlace(OtherKind::Unknown)),
        SetFault::Truncated(place) => Some(Reason::SetCut {
            place,
            found: bytes.len(),
            wanted: place.saturating_add(record_len(bytes.get(place..).unwrap_or(&[]))),
        }),
        SetFault::BadName(place) => Some(Reason::SetName(place)),
        SetFault::BadData(place) => Some(Reason::SetData(place)),
        SetFault::NotRising(place) => Some(Reason::SetOrder(place)),
        SetFault::OutOfMemory => None,
    }
}

/// Why a variable file with these bytes is refused: `None` if only memory was.
pub(crate) fn store_reason(bytes: &[u8], fault: StoreFault) -> Option<Reason> {
    match fault {
        StoreFault::NoVolume => Some(Reason::NoVolume),
        StoreFault::BadHeader => Some(bad_header(bytes)),
        StoreFault::NoStore => Some(Reason::NoStore),
        StoreFault::Unauthenticated => Some(Reason::Unauthenticated),
        StoreFault::BadStore => Some(Reason::DamagedStore),
        StoreFault::CutRecord(place) => Some(Reason::RecordCut(place)),
        StoreFault::OutOfMemory => None,
    }
}

/// What is damaged of a variable file, in words.
pub(crate) fn damage_words(damage: Damage) -> DamageWords {
    DamageWords {
        place: damage.place,
        records: damage.records,
    }
}

/// How many bytes the record of a set has that begins with these bytes, or has at least if what it states of that is cut
/// off: a byte with the length of the name, the name, four with the length of the data, and the data.
fn record_len(bytes: &[u8]) -> usize {
    let Some((len, behind)) = bytes.split_first() else {
        return 1;
    };
    let name = usize::from(*len);
    let data = match behind.get(name..) {
        Some([a, b, c, d, ..]) => u32::from_le_bytes([*a, *b, *c, *d]) as usize,
        _ => 1,
    };
    data.saturating_add(name).saturating_add(5)
}

/// Why the header of the volume that these bytes begin with is refused: it states a length in eight bytes at offset 32.
fn bad_header(bytes: &[u8]) -> Reason {
    let found = bytes.len();
    match volume_len(bytes) {
        Some(wanted) if wanted > found as u64 => Reason::VolumeCut { found, wanted },
        _ => Reason::VolumeHeader,
    }
}

/// The length that the header of a volume states.
fn volume_len(bytes: &[u8]) -> Option<u64> {
    match bytes.get(32..)? {
        [a, b, c, d, e, f, g, h, ..] => {
            Some(u64::from_le_bytes([*a, *b, *c, *d, *e, *f, *g, *h]))
        }
        _ => None,
    }
}
