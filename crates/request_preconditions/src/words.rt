//! Preconditions as words.

ghost use Rattle.std.specs.Prelude.{◌≡◌};

use crate::fault::PreconditionFault;
use crate::precondition::{DIGEST_LEN, IDENTITY_LEN, Precondition};
use hex::FromHex;
use std::alloc::{AllocError, Global};

/// The word for what isn't there.
const NONE: &str = "none";

/// What is before the value of a journal's identity.
const JOURNAL: &str = "journal=";

/// What is before the value of the next number.
const NEXT: &str = "next=";

/// What is before the value of BootOrder.
const ORDER: &str = "order=";

/// How many digits the number of an entry has.
const ENTRY_DIGITS: usize = 4;

/// The precondition that a word is: `journal=` and the 32 hexadecimal digits of an identity, `next=` and the decimal digits of a
/// number, the four digits of an entry, as in the name Boot0003 of its variable (UEFI 2.10, 3.1.1), `=` and the 64 hexadecimal
/// digits of the SHA-256 of its data, or `order=` and the four digits of each entry of BootOrder, with commas between them.
/// In place of an identity, a digest or an order `none` says that there is none. Digits are in lower case, but for those of
/// entries, which are in upper case, so each precondition has one word.
///
/// # Errors
///
/// [`PreconditionFault::Subject`] if the word begins as none of these, and otherwise the fault of its value;
/// [`PreconditionFault::OutOfMemory`] if memory was refused.
pub fn read_precondition(alloc: Global, word: &str) -> Result<Precondition, PreconditionFault> {
    if let Some(value) = word.strip_prefix(JOURNAL) {
        let identity = digits_or_none::<IDENTITY_LEN>(value).ok_or(PreconditionFault::Identity)?;
        return Ok(Precondition::Journal(identity));
    }
    if let Some(value) = word.strip_prefix(NEXT) {
        return Ok(Precondition::NextNumber(number_of(value)?));
    }
    if let Some(value) = word.strip_prefix(ORDER) {
        return Ok(Precondition::Order(order_of(alloc, value)?));
    }
    let Some((digits, value)) = word.split_once('=') else {
        return Err(PreconditionFault::Subject);
    };
    let number = entry_of(digits).ok_or(PreconditionFault::Subject)?;
    let digest = digits_or_none::<DIGEST_LEN>(value).ok_or(PreconditionFault::Digest)?;
    Ok(Precondition::Entry { number, digest })
}

impl Precondition {
    /// The word that is read as this precondition.
    ///
    /// # Errors
    ///
    /// [`AllocError`] if memory was refused.
    pub fn words(&self, alloc: Global) -> Result<String, AllocError> {
        match self {
            Precondition::Journal(None) => format!(in alloc; "{JOURNAL}{NONE}"),
            Precondition::Journal(Some(identity)) => {
                let digits = hex::encode(alloc, identity)?;
                format!(in alloc; "{JOURNAL}{digits}")
            }
            Precondition::NextNumber(number) => format!(in alloc; "{NEXT}{number}"),
            Precondition::Entry {
                number,
                digest: None,
            } => format!(in alloc; "{number:04X}={NONE}"),
            Precondition::Entry {
                number,
                digest: Some(digest),
            } => {
                let digits = hex::encode(alloc, digest)?;
                format!(in alloc; "{number:04X}={digits}")
            }
            Precondition::Order(None) => format!(in alloc; "{ORDER}{NONE}"),
            Precondition::Order(Some(data)) => order_words(alloc, data),
        }
    }
}

/// The word for BootOrder with this data.
fn order_words(alloc: Global, data: &[u8]) -> Result<String, AllocError> {
    let mut text = String::from_str(alloc, ORDER)?;
    for (at, number) in data.chunks(2).enumerate() {
        if at > 0 {
            text.push(',')?;
        }
        for byte in number.iter().rev() {
            text.push_str(&format!(in alloc; "{byte:02X}")?)?;
        }
    }
    Ok(text)
}

/// The bytes that the digits are, or nothing for `none`: `None` if it is neither.
fn digits_or_none<const LEN: usize>(value: &str) -> Option<Option<[u8; LEN]>> {
    if value == NONE {
        return Some(None);
    }
    if value.bytes().any(|byte| byte.is_ascii_uppercase()) {
        return None;
    }
    Some(Some(<[u8; LEN] as FromHex>::from_hex(value).ok()?))
}

/// The number of a request that is to be the next one.
fn number_of(value: &str) -> Result<u32, PreconditionFault> {
    let is_plain = value.bytes().all(|byte| byte.is_ascii_digit());
    if !is_plain || (value.len() > 1 && value.starts_with('0')) {
        return Err(PreconditionFault::Number);
    }
    value.parse::<u32>().map_err(|_| PreconditionFault::Number)
}

/// The entry that has these digits, four in upper case.
fn entry_of(digits: &str) -> Option<u16> {
    let is_digit = |byte: u8| byte.is_ascii_digit() || (b'A'..=b'F').contains(&byte);
    if digits.len() != ENTRY_DIGITS || !digits.bytes().all(is_digit) {
        return None;
    }
    u16::from_str_radix(digits, 16).ok()
}

/// The data of BootOrder with these entries, or nothing for `none`.
fn order_of(alloc: Global, value: &str) -> Result<Option<Vec<u8>>, PreconditionFault> {
    if value == NONE {
        return Ok(None);
    }
    let mut data = Vec::new(alloc);
    for digits in value.split(',') {
        let entry = entry_of(digits).ok_or(PreconditionFault::Order)?;
        data.extend_from_slice(&entry.to_le_bytes())
            .map_err(|_| PreconditionFault::OutOfMemory)?;
    }
    Ok(Some(data))
}
