//! What an argument of a form spells: the bytes of its field.

ghost use Rattle.std.specs.Prelude.{◌≡◌, ◌≤◌, ◌<◌, ◌++◌, ◌+◌, ◌*◌, ◌^◌, [], map, Some, None, true, nat_lt, IfOk, IfSome, IfNone, if◌then◌else◌};
ghost use Rattle.std.specs.List.{list_all};
ghost use Rattle.std.specs.Str.Parse.{digits_value};
ghost use Rattle.std.specs.Option.{option_map, option_copied};
ghost use Rattle.std.specs.Char.{digit_value};
ghost use Rattle.uefi_text.specs.Reader.{is_numeral, is_data, data_bytes};
ghost use Rattle.uefi_names.specs.Cut.{pieces};
ghost use Rattle.uefi_names.specs.Shown.{is_plain};
ghost use Rattle.uefi_names.specs.Spelled.{and_then, is_word, word_of, numeral_read, has_prefix, without_prefix, number_read, digits_read, one_less, within_mask, masked_read, hardware_id_read, pnp_read, are_zeros, padded, number_bytes, sized, literal_read, data_read, guid_digits, is_guid, guid_read, group_read, groups_read, exactly, ipv4_read, ipv6_read, item_read, unit_bytes, text_read, ascii_read, lone_read, quoted, wide_read, shown_read};

use crate::cut::pieces;
use crate::shown::{cut, is_plain};
use crate::table::{Item, REST, Show, Word, byte, part};
use crate::whole::whole_bytes;
use std::alloc::{AllocError, Global};

/// The bases of numbers, and the most digits that one has.
const HEXADECIMAL: u8 = 16;

const DECIMAL: u8 = 10;

/// The hardware identifier `PNP0000` (UEFI 2.10, 10.3.3).
const PNP: u64 = 0x41d0;

/// The bytes that an argument spells in a field that is shown so and has this length: `None` if it spells none.
pub(crate) fn spelled(
    alloc: Global,
    show: Show,
    len: usize,
    argument: &str,
) -> Result<Option<Vec<u8>>, AllocError>
    ensures { IfOk result (λ read. option_map (λ bytes. bytes.items) read ≡ shown_read show len argument.now) }
{
    let text = argument.as_bytes();
    match show {
        Show::Number(_) => number_bytes(alloc, number_of(text), len),
        Show::OneMore => number_bytes(alloc, one_less(number_of(text)), len),
        Show::AllDigits => number_bytes(alloc, digits_of(text), len),
        Show::Word { mask, words, .. } => number_bytes(alloc, masked(mask, words, text), len),
        Show::Literal(literal) => literal_bytes(alloc, literal, len, text),
        Show::Digits => Ok(sized(data(alloc, text)?, len)),
        Show::PrefixedDigits => Ok(sized(data(alloc, without_prefix(text))?, len)),
        Show::Guid => Ok(sized(guid_bytes(alloc, text)?, len)),
        Show::HardwareId => number_bytes(alloc, hardware_id(text), len),
        Show::Ipv4 => item_bytes(alloc, Item::Ipv4, len, argument),
        Show::Ipv6 => item_bytes(alloc, Item::Ipv6, len, argument),
        Show::Ascii(_) => ascii_bytes(alloc, text, len),
        Show::LoneAscii => lone_bytes(alloc, text),
        Show::Units => wide_bytes(alloc, text, len),
        Show::Each(size, item) => item_bytes(alloc, item, size, argument),
        Show::Whole(encoding) => Ok(sized(whole_bytes(alloc, encoding, argument)?, len)),
    }
}

/// The bytes of an item of this length.
pub(crate) fn item_bytes(
    alloc: Global,
    item: Item,
    len: usize,
    text: &str,
) -> Result<Option<Vec<u8>>, AllocError>
    ensures { IfOk result (λ read. option_map (λ bytes. bytes.items) read ≡ item_read item len text.now) }
{
    match item {
        Item::Number => number_bytes(alloc, number_of(text.as_bytes()), len),
        Item::Ipv4 => padded(alloc, address(alloc, text, b'.', Group::Octet, 4)?, len),
        Item::Ipv6 => padded(alloc, address(alloc, text, b':', Group::Pair, 16)?, len),
    }
}

// ---- words and numbers

/// Whether the text is the word but for the case of letters of ASCII.
pub(crate) fn is_word(text: &[u8], word: &[u8]) -> bool
    ensures { result ≡ is_word text.now word.now }
{
    text.eq_ignore_ascii_case(word)
}

/// The first word with this text.
fn word_of(words: &'static [Word], text: &[u8]) -> Option<&'static Word>
    ensures { option_copied result ≡ word_of words.now text.now }
{
    words
        .iter()
        .find(|word| is_word(text, word.text.as_bytes()))
}

/// The number of one to so many digits of a base, if it has 64 bits at most.
fn numeral(digits: &[u8], base: u8, most: usize) -> Option<u64>
    requires { 0 < base }
    ensures { result ≡ numeral_read base most digits.now }
{
    if is_numeral(digits, base, most) {
        value_of(digits, base)
    } else {
        None
    }
}

/// Whether these are one to so many digits.
fn is_numeral(digits: &[u8], base: u8, most: usize) -> bool
    ensures { result ≡ is_numeral base most digits.now }
{
    !digits.is_empty() && digits.len() <= most && are_digits(digits, base)
}

fn are_digits(digits: &[u8], base: u8) -> bool
    ensures { result ≡ list_all (λ digit. nat_lt (digit_value digit) base) digits.now }
{
    digits.iter().all(|digit| digit_of(*digit) < base)
}

/// The value of a digit of either case: 36 if the byte is neither a digit nor a letter.
fn digit_of(byte: u8) -> u8
    ensures { result ≡ digit_value byte }
{
    match byte {
        b'0'..=b'9' => byte - b'0',
        b'a'..=b'z' => byte - b'a' + 10,
        b'A'..=b'Z' => byte - b'A' + 10,
        _ => 36,
    }
}

/// The number that digits write, if it has 64 bits at most.
fn value_of(digits: &[u8], base: u8) -> Option<u64>
    requires { 0 < base }
    ensures some { IfSome result (λ value. value ≡ digits_value base digits.now) }
    ensures none { IfNone result (2 ^ 64 ≤ digits_value base digits.now) }
{
    let mut value = 0;
    for digit in digits {
        match with_digit(value, base, digit_of(*digit)) {
            Some(more) => value = more,
            None => return None,
        }
    }
    Some(value)
}

/// The number with a digit after it, if it has 64 bits at most.
fn with_digit(value: u64, base: u8, digit: u8) -> Option<u64>
    ensures some { IfSome result (λ more. more ≡ value * base + digit) }
    ensures none { IfNone result (2 ^ 64 ≤ value * base + digit) }
{
    match value.checked_mul(u64::from(base)) {
        Some(product) => product.checked_add(u64::from(digit)),
        None => None,
    }
}

/// Whether the text begins with `0x`.
fn has_prefix(text: &[u8]) -> bool
    ensures { result ≡ has_prefix text.now }
{
    let (front, _) = cut(text, 2);
    is_word(front, b"0x")
}

/// What comes after `0x`, or the whole text without it.
fn without_prefix(text: &[u8]) -> &[u8]
    ensures { result.now ≡ without_prefix text.now }
{
    if !has_prefix(text) {
        return text;
    }
    let (_, digits) = cut(text, 2);
    digits
}

/// The number of a text: hexadecimal after `0x`, otherwise decimal.
fn number_of(text: &[u8]) -> Option<u64>
    ensures { result ≡ number_read text.now }
{
    if !has_prefix(text) {
        return numeral(text, DECIMAL, 20);
    }
    let (_, digits) = cut(text, 2);
    numeral(digits, HEXADECIMAL, 16)
}

/// The number of hexadecimal digits with or without `0x`.
fn digits_of(text: &[u8]) -> Option<u64>
    ensures { result ≡ digits_read text.now }
{
    numeral(without_prefix(text), HEXADECIMAL, 16)
}

/// The number before this one, if there is one.
fn one_less(number: Option<u64>) -> Option<u64>
    ensures { result ≡ and_then number one_less }
{
    match number {
        Some(number) => number.checked_sub(1),
        None => None,
    }
}

/// The number of a word, or of a numeral that has no other bits than these.
fn masked(mask: u64, words: &'static [Word], text: &[u8]) -> Option<u64>
    ensures { result ≡ masked_read mask words.now text.now }
{
    match word_of(words, text) {
        Some(word) => Some(word.number),
        None => within_mask(mask, number_of(text)),
    }
}

/// A number that has no other bits than these.
fn within_mask(mask: u64, number: Option<u64>) -> Option<u64>
    ensures { result ≡ and_then number (within_mask mask) }
{
    match number {
        Some(number) if number & mask == number => Some(number),
        _ => None,
    }
}

/// The hardware identifier of a text: `PNP` and four digits, or a number.
fn hardware_id(text: &[u8]) -> Option<u64>
    ensures { result ≡ hardware_id_read text.now }
{
    let (front, digits) = cut(text, 3);
    if !is_word(front, b"PNP") {
        return number_of(text);
    }
    if text.len() != 7 {
        return None;
    }
    match numeral(digits, HEXADECIMAL, 4) {
        Some(high) if high <= 0xffff => Some(high * 0x1_0000 + PNP),
        _ => None,
    }
}

// ---- bytes of a length

/// A number in so many bytes, the lowest first, if they have room for it.
fn number_bytes(
    alloc: Global,
    number: Option<u64>,
    len: usize,
) -> Result<Option<Vec<u8>>, AllocError>
    ensures { IfOk result (λ read. option_map (λ bytes. bytes.items) read ≡ and_then number (number_bytes len)) }
{
    let Some(number) = number else {
        return Ok(None);
    };
    let all = number.to_le_bytes();
    let (bytes, others) = cut(&all, len);
    if !are_zeros(others) {
        return Ok(None);
    }
    padded(alloc, Some(Vec::from_slice(alloc, bytes)?), len)
}

fn are_zeros(bytes: &[u8]) -> bool
    ensures { result ≡ are_zeros bytes.now }
{
    bytes.iter().all(|byte| *byte == 0)
}

/// These bytes, and zeros after them up to this length.
fn padded(alloc: Global, bytes: Option<Vec<u8>>, len: usize) -> Result<Option<Vec<u8>>, AllocError>
    ensures { IfOk result (λ read. option_map (λ bytes. bytes.items) read
        ≡ and_then (option_map (λ bytes. bytes.items) bytes) (padded len)) }
{
    let Some(mut bytes) = bytes else {
        return Ok(None);
    };
    if bytes.len() > len {
        return Ok(None);
    }
    let zeros = vec![in alloc; 0; len - bytes.len()]?;
    bytes.extend_from_slice(&zeros)?;
    Ok(Some(bytes))
}

/// These bytes, if a field of this length has as many.
fn sized(bytes: Option<Vec<u8>>, len: usize) -> Option<Vec<u8>>
    ensures { option_map (λ bytes. bytes.items) result ≡ and_then (option_map (λ bytes. bytes.items) bytes)
        (sized len) }
{
    match bytes {
        Some(bytes) if len == REST || len == bytes.len() => Some(bytes),
        _ => None,
    }
}

/// So many bytes of zero, if the argument is this text.
fn literal_bytes(
    alloc: Global,
    literal: &'static str,
    len: usize,
    text: &[u8],
) -> Result<Option<Vec<u8>>, AllocError>
    ensures { IfOk result (λ read. option_map (λ bytes. bytes.items) read ≡ literal_read literal.now len text.now) }
{
    if is_word(text, literal.as_bytes()) {
        Ok(Some(vec![in alloc; 0; len]?))
    } else {
        Ok(None)
    }
}

/// The bytes of digits, two for each.
fn data(alloc: Global, text: &[u8]) -> Result<Option<Vec<u8>>, AllocError>
    ensures { IfOk result (λ read. option_map (λ bytes. bytes.items) read ≡ data_read text.now) }
{
    if text.len() % 2 != 0 || !are_digits(text, HEXADECIMAL) {
        return Ok(None);
    }
    Ok(Some(pairs(alloc, text)?))
}

/// The bytes that digits write, two for each.
fn pairs(alloc: Global, digits: &[u8]) -> Result<Vec<u8>, AllocError>
    requires { is_data digits.now ≡ true }
    ensures { IfOk result (λ bytes. bytes.items ≡ data_bytes digits.now) }
{
    let mut bytes = Vec::new(alloc);
    let mut rest = digits;
    while let [high, low, after @ ..] = rest {
        bytes.push(digit_of(*high) * HEXADECIMAL + digit_of(*low))?;
        rest = after;
    }
    Ok(bytes)
}

/// The stored bytes of a GUID.
fn guid_bytes(alloc: Global, text: &[u8]) -> Result<Option<Vec<u8>>, AllocError>
    ensures { IfOk result (λ read. option_map (λ bytes. bytes.items) read ≡ guid_read text.now) }
{
    if !is_guid(text) {
        return Ok(None);
    }
    data(alloc, &guid_digits(alloc, text)?)
}

/// Whether the text is as long as that of a GUID and has its hyphens.
fn is_guid(text: &[u8]) -> bool
    ensures { result ≡ is_guid text.now }
{
    text.len() == 36
        && byte(text, 8) == b'-'
        && byte(text, 13) == b'-'
        && byte(text, 18) == b'-'
        && byte(text, 23) == b'-'
}

/// The digits of a GUID in the order in which its bytes are stored.
fn guid_digits(alloc: Global, text: &[u8]) -> Result<Vec<u8>, AllocError>
    ensures { IfOk result (λ digits. digits.items ≡ guid_digits text.now) }
{
    let mut digits = Vec::new(alloc);
    digits.extend_from_slice(part(text, 6, 2))?;
    digits.extend_from_slice(part(text, 4, 2))?;
    digits.extend_from_slice(part(text, 2, 2))?;
    digits.extend_from_slice(part(text, 0, 2))?;
    digits.extend_from_slice(part(text, 11, 2))?;
    digits.extend_from_slice(part(text, 9, 2))?;
    digits.extend_from_slice(part(text, 16, 2))?;
    digits.extend_from_slice(part(text, 14, 2))?;
    digits.extend_from_slice(part(text, 19, 4))?;
    digits.extend_from_slice(part(text, 24, 12))?;
    Ok(digits)
}

// ---- addresses

/// What a part of an address is.
#[derive(Clone, Copy, Debug)]
pub(crate) enum Group {
    /// A decimal number of one byte.
    Octet,
    /// One to four hexadecimal digits: two bytes, the higher first.
    Pair,
}

/// The bytes of an address: its parts, which marks separate, are so many bytes together.
fn address(
    alloc: Global,
    text: &str,
    mark: u8,
    group: Group,
    len: usize,
) -> Result<Option<Vec<u8>>, AllocError>
    requires { mark < 128 }
    ensures { IfOk result (λ read. option_map (λ bytes. bytes.items) read
        ≡ and_then (groups_read group [] (pieces mark text.now)) (exactly len)) }
{
    let parts = pieces(alloc, text, mark)?;
    match group_bytes(alloc, group, &parts)? {
        Some(bytes) if bytes.len() == len => Ok(Some(bytes)),
        _ => Ok(None),
    }
}

/// The bytes of the parts of an address.
fn group_bytes(alloc: Global, group: Group, parts: &[&str]) -> Result<Option<Vec<u8>>, AllocError>
    ensures { IfOk result (λ read. option_map (λ bytes. bytes.items) read
        ≡ groups_read group [] (map (λ part. part.now) parts.now)) }
{
    let mut bytes = Vec::new(alloc);
    for part in parts {
        if !append_group(group, part, &mut bytes)? {
            return Ok(None);
        }
    }
    Ok(Some(bytes))
}

/// Appends the bytes of a part of an address: `false` if it is none.
fn append_group(group: Group, part: &str, bytes: &mut Vec<u8>) -> Result<bool, AllocError>
    ensures { IfOk result (λ is. (if is then Some bytes.new.items else None)
        ≡ and_then (group_read group part.now) (λ more. Some (bytes.old.items ++ more))) }
{
    let text = part.as_bytes();
    match group {
        Group::Octet => match numeral(text, DECIMAL, 3) {
            Some(number) if number <= 0xff => bytes.push(number as u8)?,
            _ => return Ok(false),
        },
        Group::Pair => match numeral(text, HEXADECIMAL, 4) {
            Some(number) => bytes.extend_from_slice(&[
                (number / 256 % 256) as u8,
                (number % 256) as u8,
            ])?,
            None => return Ok(false),
        },
    }
    Ok(true)
}

// ---- texts

/// The bytes of a text of ASCII: closed by a zero if the field goes to the end of the data, otherwise filled up with
/// zeros.
fn ascii_bytes(alloc: Global, text: &[u8], len: usize) -> Result<Option<Vec<u8>>, AllocError>
    ensures { IfOk result (λ read. option_map (λ bytes. bytes.items) read ≡ ascii_read len text.now) }
{
    let read = text_bytes(alloc, false, text)?;
    if len != REST {
        return padded(alloc, read, len);
    }
    match read {
        Some(mut bytes) => {
            bytes.push(0)?;
            Ok(Some(bytes))
        }
        None => Ok(None),
    }
}

/// The bytes of a text of ASCII that isn't empty, and of an empty one after it, each closed by a zero.
fn lone_bytes(alloc: Global, text: &[u8]) -> Result<Option<Vec<u8>>, AllocError>
    ensures { IfOk result (λ read. option_map (λ bytes. bytes.items) read ≡ lone_read text.now) }
{
    let Some(mut bytes) = text_bytes(alloc, false, text)? else {
        return Ok(None);
    };
    if bytes.is_empty() {
        return Ok(None);
    }
    bytes.push(0)?;
    bytes.push(0)?;
    Ok(Some(bytes))
}

/// The bytes of units between quotes, two for each.
fn wide_bytes(alloc: Global, text: &[u8], len: usize) -> Result<Option<Vec<u8>>, AllocError>
    ensures { IfOk result (λ read. option_map (λ bytes. bytes.items) read ≡ wide_read len text.now) }
{
    match quoted(text) {
        Some(inside) => Ok(sized(text_bytes(alloc, true, inside)?, len)),
        None => Ok(None),
    }
}

/// What is between quotes.
fn quoted(text: &[u8]) -> Option<&[u8]>
    ensures { option_map (λ inside. inside.now) result ≡ quoted text.now }
{
    let len = text.len();
    if len < 2 || byte(text, 0) != b'"' || byte(text, len - 1) != b'"' {
        return None;
    }
    Some(part(text, 1, len - 2))
}

/// The bytes of the units of a text, each of one byte or of two. A plain unit stands for itself, and a backslash and four
/// digits for the unit of this number, which isn't zero.
fn text_bytes(alloc: Global, is_wide: bool, text: &[u8]) -> Result<Option<Vec<u8>>, AllocError>
    ensures { IfOk result (λ read. option_map (λ bytes. bytes.items) read ≡ text_read is_wide [] 0 0 text.now) }
{
    let mut bytes = Vec::new(alloc);
    let mut left: u8 = 0;
    let mut value: u32 = 0;
    for unit in text {
        if left == 0 {
            if *unit == b'\\' {
                left = 4;
            } else if !append_plain(is_wide, *unit, &mut bytes)? {
                return Ok(None);
            }
        } else {
            let digit = digit_of(*unit);
            if digit >= HEXADECIMAL {
                return Ok(None);
            }
            value = (value * 16 + u32::from(digit)) % 0x1_0000;
            left -= 1;
            if left == 0 {
                if !append_unit(is_wide, value, &mut bytes)? {
                    return Ok(None);
                }
                value = 0;
            }
        }
    }
    if left == 0 { Ok(Some(bytes)) } else { Ok(None) }
}

/// Appends a plain unit: `false` if it isn't plain.
fn append_plain(is_wide: bool, unit: u8, bytes: &mut Vec<u8>) -> Result<bool, AllocError>
    ensures { IfOk result (λ is. (if is then Some bytes.new.items else None)
        ≡ (if is_plain unit then and_then (unit_bytes is_wide unit) (λ more.
        Some (bytes.old.items ++ more)) else None)) }
{
    if is_plain(u16::from(unit)) {
        append_unit(is_wide, u32::from(unit), bytes)
    } else {
        Ok(false)
    }
}

/// Appends a unit as one byte or as two: `false` if it is zero or has no room.
fn append_unit(is_wide: bool, unit: u32, bytes: &mut Vec<u8>) -> Result<bool, AllocError>
    ensures { IfOk result (λ is. (if is then Some bytes.new.items else None)
        ≡ and_then (unit_bytes is_wide unit) (λ more. Some (bytes.old.items ++ more))) }
{
    if unit == 0 || (!is_wide && unit > 0xff) {
        return Ok(false);
    }
    bytes.push((unit % 256) as u8)?;
    if is_wide {
        bytes.push((unit / 256 % 256) as u8)?;
    }
    Ok(true)
}
