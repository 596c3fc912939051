//! The arguments of a segment: how they are cut off one another, and what is read of each.

ghost use Rattle.std.specs.Prelude.{◌≡◌, ◌<◌, ◌≤◌, ◌^◌, ◌+◌, ◌*◌, ℕ, List, [], ◌∷◌, length, map, Some, None, IsTrue, IfOk, IfSome, OnErr, MatchOption, position, nat_lt, IfNone, slice_index, replicate, ◌++◌, ◌==◌};
ghost use Rattle.std.specs.List.{list_all};
ghost use Rattle.std.specs.Char.{digit_value};
ghost use Rattle.std.specs.Str.Parse.{digits_value};
ghost use Rattle.uefi_text.specs.Reader.{Reads, ReadsAs, parts_of, one_of, first_of, two_of, three_of, is_numeral, numeral_of, number_of, number_up_to, TellsNumber, first_two_of, octet_of, address_of, byte_of, pair_of, two_bytes_of, eui_of, guid_read, is_data, data_bytes, data_up_to, mac_of, hid_of, pnp_of, origin_of, one_or_two_of};
ghost use Rattle.std.specs.Option.{option_map};
ghost use Rattle.uefi_text.specs.Bytes.{dot, hyphen};
ghost use Rattle.uefi_text.specs.Within.{Lacks, IsAroundMark};

use crate::fault::SegmentFault;
use crate::guid::guid_of;
use crate::print_node::PNP;
use std::alloc::{AllocError, Global};
use uefi_path::{Guid, Ipv4Node};

/// The base of a hexadecimal number, and the most digits that one has.
const HEXADECIMAL: u8 = 16;

const HEXADECIMAL_LEN: usize = 16;

/// The base of a decimal number, and the most digits that one has.
const DECIMAL: u8 = 10;

const DECIMAL_LEN: usize = 20;

/// The most digits of a part of an address.
const OCTET_LEN: usize = 3;

/// The digits after `PNP`.
const PNP_LEN: usize = 4;

/// The value of each byte as a digit, of either case: 36 if it is neither a digit nor a letter. A look into a table
/// takes the same time whatever the byte is, while branches on random digits don't.
const DIGIT_VALUES: [u8; 256] = [
    36, 36, 36, 36, 36, 36, 36, 36, 36, 36, 36, 36, 36, 36, 36, 36, 36, 36, 36, 36, 36, 36, 36, 36,
    36, 36, 36, 36, 36, 36, 36, 36, 36, 36, 36, 36, 36, 36, 36, 36, 36, 36, 36, 36, 36, 36, 36, 36,
    0, 1, 2, 3, 4, 5, 6, 7, 8, 9, 36, 36, 36, 36, 36, 36, 36, 10, 11, 12, 13, 14, 15, 16, 17, 18,
    19, 20, 21, 22, 23, 24, 25, 26, 27, 28, 29, 30, 31, 32, 33, 34, 35, 36, 36, 36, 36, 36, 36, 10,
    11, 12, 13, 14, 15, 16, 17, 18, 19, 20, 21, 22, 23, 24, 25, 26, 27, 28, 29, 30, 31, 32, 33, 34,
    35, 36, 36, 36, 36, 36, 36, 36, 36, 36, 36, 36, 36, 36, 36, 36, 36, 36, 36, 36, 36, 36, 36, 36,
    36, 36, 36, 36, 36, 36, 36, 36, 36, 36, 36, 36, 36, 36, 36, 36, 36, 36, 36, 36, 36, 36, 36, 36,
    36, 36, 36, 36, 36, 36, 36, 36, 36, 36, 36, 36, 36, 36, 36, 36, 36, 36, 36, 36, 36, 36, 36, 36,
    36, 36, 36, 36, 36, 36, 36, 36, 36, 36, 36, 36, 36, 36, 36, 36, 36, 36, 36, 36, 36, 36, 36, 36,
    36, 36, 36, 36, 36, 36, 36, 36, 36, 36, 36, 36, 36, 36, 36, 36, 36, 36, 36, 36, 36, 36, 36, 36,
    36, 36, 36, 36, 36, 36, 36, 36, 36, 36, 36, 36, 36, 36,
];

/// What comes before the first mark and what comes after it, if there is one.
fn split_first(text: &[u8], mark: u8) -> Option<(&[u8], &[u8])>
    ensures { MatchOption result
        (parts_of mark text.now ≡ text.now ∷ [])
        (λ parts. parts_of mark text.now ≡ parts.0.now ∷ parts_of mark parts.1.now) }
{
    match around_mark(text, mark) {
        None => None,
        Some(parts) => Some(parts),
    }
}

/// The one part.
pub(crate) fn one(text: &[u8], mark: u8) -> Result<&[u8], SegmentFault>
    ensures { ReadsAs (λ only. only.now) result (one_of (parts_of mark text.now)) }
{
    match split_first(text, mark) {
        None => Ok(text),
        Some(_) => Err(SegmentFault::BadSegment),
    }
}

/// The first of more parts, and the others.
pub(crate) fn first(text: &[u8], mark: u8) -> Result<(&[u8], &[u8]), SegmentFault>
    ensures { ReadsAs (λ parts. (parts.0.now, parts_of mark parts.1.now)) result
        (first_of (parts_of mark text.now)) }
{
    match split_first(text, mark) {
        Some(parts) => Ok(parts),
        None => Err(SegmentFault::BadSegment),
    }
}

/// The first two of more parts, and the others.
#[tactic(auto, unfolding(crate::specs::Reader::first_two_of))]
pub(crate) fn first_two(text: &[u8], mark: u8) -> Result<(&[u8], &[u8], &[u8]), SegmentFault>
    ensures { ReadsAs (λ parts. (parts.0.now, parts.1.now, parts_of mark parts.2.now)) result
        (first_two_of (parts_of mark text.now)) }
{
    let (one, others) = first(text, mark)?;
    let (two, others) = first(others, mark)?;
    Ok((one, two, others))
}

/// The two parts.
#[tactic(auto, unfolding(crate::specs::Reader::two_of))]
pub(crate) fn two(text: &[u8], mark: u8) -> Result<(&[u8], &[u8]), SegmentFault>
    ensures { ReadsAs (λ parts. (parts.0.now, parts.1.now)) result (two_of (parts_of mark text.now)) }
{
    let (first, others) = first(text, mark)?;
    let second = one(others, mark)?;
    Ok((first, second))
}

/// The first part, and the second, if there is one.
pub(crate) fn one_or_two(text: &[u8], mark: u8) -> Result<(&[u8], Option<&[u8]>), SegmentFault>
    ensures { ReadsAs (λ parts. (parts.0.now, option_map (λ second. second.now) parts.1)) result
        (one_or_two_of (parts_of mark text.now)) }
{
    match split_first(text, mark) {
        None => Ok((text, None)),
        Some((first, others)) => match one(others, mark) {
            Ok(second) => Ok((first, Some(second))),
            Err(fault) => Err(fault),
        },
    }
}

/// The three parts.
#[tactic(auto, unfolding(crate::specs::Reader::three_of))]
pub(crate) fn three(text: &[u8], mark: u8) -> Result<(&[u8], &[u8], &[u8]), SegmentFault>
    ensures { ReadsAs (λ parts. (parts.0.now, parts.1.now, parts.2.now)) result
        (three_of (parts_of mark text.now)) }
{
    let (first, others) = first(text, mark)?;
    let (second, third) = two(others, mark)?;
    Ok((first, second, third))
}

/// The address of a text: four numbers joined by dots.
#[tactic(auto, unfolding(crate::specs::Reader::address_of))]
pub(crate) fn address_of(text: &[u8]) -> Result<[u8; 4], SegmentFault>
    ensures { Reads result (address_of (parts_of dot text.now)) }
{
    let (a, b, others) = first_two(text, b'.')?;
    let (c, d) = two(others, b'.')?;
    let a = octet_of(a)?;
    let b = octet_of(b)?;
    let c = octet_of(c)?;
    let d = octet_of(d)?;
    Ok([a, b, c, d])
}

/// The part of an address that a text is.
#[tactic(auto, unfolding(crate::specs::Reader::octet_of, crate::specs::Reader::numeral_of))]
fn octet_of(text: &[u8]) -> Result<u8, SegmentFault>
    ensures { Reads result (octet_of text.now) }
{
    match numeral(text, DECIMAL, OCTET_LEN) {
        Some(Some(value)) if value <= 255 => Ok(value as u8),
        _ => Err(SegmentFault::BadSegment),
    }
}

/// The EUI-64 of a text: eight pairs of digits joined by hyphens.
#[tactic(auto, unfolding(crate::specs::Reader::eui_of))]
pub(crate) fn eui_of(text: &[u8]) -> Result<[u8; 8], SegmentFault>
    ensures { Reads result (eui_of (parts_of hyphen text.now)) }
{
    let (a, b, others) = first_two(text, b'-')?;
    let (c, d, others) = first_two(others, b'-')?;
    let (e, f, others) = first_two(others, b'-')?;
    let (g, h) = two(others, b'-')?;
    let [a, b] = two_bytes(a, b)?;
    let [c, d] = two_bytes(c, d)?;
    let [e, f] = two_bytes(e, f)?;
    let [g, h] = two_bytes(g, h)?;
    Ok([a, b, c, d, e, f, g, h])
}

/// The byte of two digits.
fn byte_of(text: &[u8]) -> Result<u8, SegmentFault>
    ensures { Reads result (byte_of text.now) }
{
    match text {
        [high, low] => match pair(*high, *low) {
            Some(byte) => Ok(byte),
            None => Err(SegmentFault::BadSegment),
        },
        _ => Err(SegmentFault::BadSegment),
    }
}

/// The GUID of a text.
pub(crate) fn guid_argument(text: &[u8]) -> Result<Guid, SegmentFault>
    ensures { ReadsAs (λ guid. guid.0) result (guid_read text.now) }
{
    match guid_of(text) {
        Some(guid) => Ok(guid),
        None => Err(SegmentFault::BadSegment),
    }
}

/// The digits of the data in the argument after `index` others, if there is one: they write at most `most` bytes. If
/// there is none, no digits.
#[tactic(auto, using(crate::proofs::Read::Hex::data_length))]
pub(crate) fn data_up_to(
    most: usize,
    text: Option<&[u8]>,
    index: usize,
) -> Result<&[u8], SegmentFault>
    ensures data { IfOk result (λ digits. IsTrue (is_data digits.now)) }
    ensures len { IfOk result (λ digits. length (data_bytes digits.now) ≤ most) }
    ensures value { ReadsAs (λ digits. data_bytes digits.now) result
        (data_up_to most (option_map (λ text. text.now) text.entry)) }
{
    let Some(digits) = text else {
        return Ok(&[]);
    };
    if !is_data(digits) {
        return Err(SegmentFault::BadSegment);
    }
    if digits.len() / 2 > most {
        return Err(SegmentFault::OutOfRange(index));
    }
    Ok(digits)
}

/// Whether a text is that of data: two digits for each byte.
fn is_data(text: &[u8]) -> bool
    ensures { result ≡ is_data text.now }
{
    text.len() % 2 == 0 && are_digits(text, HEXADECIMAL)
}

/// The bytes that digits write, two for each.
pub(crate) fn bytes_of(alloc: Global, digits: &[u8]) -> Result<Vec<u8>, AllocError>
    requires { IsTrue (is_data digits.now) }
    ensures { IfOk result (λ bytes. bytes.items ≡ data_bytes digits.now) }
{
    let mut bytes = Vec::with_capacity(alloc, digits.len() / 2)?;
    let mut rest = digits;
    while let [high, low, behind @ ..] = rest {
        bytes.push(digit_of(*high) * HEXADECIMAL + digit_of(*low))?;
        rest = behind;
    }
    Ok(bytes)
}

/// The MAC address whose first six bytes a text has, two digits for each.
pub(crate) fn mac_of(text: &[u8]) -> Result<[u8; 32], SegmentFault>
    ensures { Reads result (mac_of text.now) }
{
    let mut six = [0; 6];
    match hex::decode_to_slice(text, &mut six) {
        Ok(()) => Ok(padded(six)),
        Err(_) => Err(SegmentFault::BadSegment),
    }
}

/// The hardware identifier of the argument after `index` others: `PNP` and four digits, or a number.
#[tactic(auto, unfolding(crate::specs::Reader::hid_of))]
pub(crate) fn hid_of(text: &[u8], index: usize) -> Result<u32, SegmentFault>
    ensures { Reads result (hid_of text.now) }
{
    match text {
        [b'P', b'N', b'P', digits @ ..] => match pnp(digits) {
            Some(hid) => Ok(hid),
            None => Err(SegmentFault::BadSegment),
        },
        _ => u32_of(text, index),
    }
}

/// How an address was got, as the static flag of a text.
pub(crate) fn origin_of(text: &[u8]) -> Result<u8, SegmentFault>
    ensures { Reads result (origin_of text.now) }
{
    if text == b"DHCP".as_slice() {
        Ok(Ipv4Node::DHCP)
    } else if text == b"Static".as_slice() {
        Ok(Ipv4Node::STATIC)
    } else {
        Err(SegmentFault::BadSegment)
    }
}

/// The number of the argument after `index` others, at most `most`.
#[tactic(auto, unfolding(crate::specs::Reader::number_up_to))]
pub(crate) fn number_up_to(most: u64, text: &[u8], index: usize) -> Result<u64, SegmentFault>
    ensures bound { IfOk result (λ value. value ≤ most) }
    ensures value { Reads result (number_up_to most text.now) }
{
    match number_of(text) {
        None => Err(SegmentFault::BadNumber(index)),
        Some(Some(value)) if value <= most => Ok(value),
        Some(_) => Err(SegmentFault::OutOfRange(index)),
    }
}

/// The number of 8 bits of the argument after `index` others.
pub(crate) fn u8_of(text: &[u8], index: usize) -> Result<u8, SegmentFault>
    ensures { Reads result (number_up_to 0xff text.now) }
{
    Ok(number_up_to(0xff, text, index)? as u8)
}

/// The number of 16 bits of the argument after `index` others.
pub(crate) fn u16_of(text: &[u8], index: usize) -> Result<u16, SegmentFault>
    ensures { Reads result (number_up_to 0xffff text.now) }
{
    Ok(number_up_to(0xffff, text, index)? as u16)
}

/// The number of 32 bits of the argument after `index` others.
pub(crate) fn u32_of(text: &[u8], index: usize) -> Result<u32, SegmentFault>
    ensures { Reads result (number_up_to 0xffffffff text.now) }
{
    Ok(number_up_to(0xffffffff, text, index)? as u32)
}

/// The number of 64 bits of the argument after `index` others.
pub(crate) fn u64_of(text: &[u8], index: usize) -> Result<u64, SegmentFault>
    ensures { Reads result (number_up_to 0xFFFFFFFFFFFFFFFF text.now) }
{
    number_up_to(u64::MAX, text, index)
}

/// The number that a text is read as: `None` if it isn't a number's text, and inside it `None` for a number that 64
/// bits can't hold.
#[tactic(auto, unfolding(crate::specs::Reader::number_of))]
fn number_of(text: &[u8]) -> Option<Option<u64>>
    ensures { TellsNumber result (number_of text.now) }
{
    match text {
        [b'0', b'x', digits @ ..] => numeral(digits, HEXADECIMAL, HEXADECIMAL_LEN),
        digits => numeral(digits, DECIMAL, DECIMAL_LEN),
    }
}

/// The number of at most `len` digits of a base, in the words of `number_of`.
#[tactic(auto, unfolding(crate::specs::Reader::numeral_of))]
fn numeral(digits: &[u8], base: u8, len: usize) -> Option<Option<u64>>
    requires { 0 < base }
    ensures { TellsNumber result (numeral_of base len digits.now) }
{
    if !is_numeral(digits, base, len) {
        return None;
    }
    Some(value_of(digits, base))
}

/// Whether these are one to `len` digits.
fn is_numeral(digits: &[u8], base: u8, len: usize) -> bool
    ensures { result ≡ is_numeral base len digits.now }
{
    !digits.is_empty() && digits.len() <= len && are_digits(digits, base)
}

fn are_digits(digits: &[u8], base: u8) -> bool
    ensures { result ≡ list_all (λ digit. nat_lt (digit_value digit) base) digits.now }
{
    digits.iter().all(|digit| digit_of(*digit) < base)
}

/// The value of a digit, of either case: 36 if the byte is neither a digit nor a letter.
fn digit_of(byte: u8) -> u8
    ensures { result ≡ digit_value byte }
{
    DIGIT_VALUES[byte as usize]
}

/// The number that digits write, if 64 bits hold it.
fn value_of(digits: &[u8], base: u8) -> Option<u64>
    requires { 0 < base }
    ensures some { IfSome result (λ value. value ≡ digits_value base digits.now) }
    ensures none { IfNone result (2 ^ 64 ≤ digits_value base digits.now) }
{
    let mut value = 0;
    for digit in digits {
        match with_digit(value, base, digit_of(*digit)) {
            Some(more) => value = more,
            None => return None,
        }
    }
    Some(value)
}

/// The number with a digit after it, if 64 bits hold it.
fn with_digit(value: u64, base: u8, digit: u8) -> Option<u64>
    ensures some { IfSome result (λ more. more ≡ value * base + digit) }
    ensures none { IfNone result (2 ^ 64 ≤ value * base + digit) }
{
    match value.checked_mul(u64::from(base)) {
        Some(product) => product.checked_add(u64::from(digit)),
        None => None,
    }
}

/// The hardware identifier that begins with PNP and goes on with these four digits.
#[tactic(auto, unfolding(crate::specs::Reader::pnp_of, crate::specs::Reader::numeral_of))]
fn pnp(digits: &[u8]) -> Option<u32>
    ensures { result ≡ pnp_of digits.now }
{
    if digits.len() != PNP_LEN {
        return None;
    }
    match numeral(digits, HEXADECIMAL, PNP_LEN) {
        Some(Some(high)) if high <= 0xffff => Some(high as u32 * 0x1_0000 + PNP),
        _ => None,
    }
}

/// Six bytes, and zeros after them.
fn padded(six: [u8; 6]) -> [u8; 32]
    ensures { result ≡ six ++ replicate 26 0 }
{
    let [a, b, c, d, e, f] = six;
    [
        a, b, c, d, e, f, 0, 0, 0, 0, 0, 0, 0, 0, 0, 0, 0, 0, 0, 0, 0, 0, 0, 0, 0, 0, 0, 0, 0, 0,
        0, 0,
    ]
}

/// The bytes that are written in two parts.
#[tactic(auto, unfolding(crate::specs::Reader::two_bytes_of))]
fn two_bytes(first: &[u8], second: &[u8]) -> Result<[u8; 2], SegmentFault>
    ensures { ReadsAs (λ bytes. (slice_index bytes 0, slice_index bytes 1)) result
        (two_bytes_of first.now second.now) }
{
    let first = byte_of(first)?;
    let second = byte_of(second)?;
    Ok([first, second])
}

/// The byte that two digits write.
fn pair(high: u8, low: u8) -> Option<u8>
    ensures { result ≡ pair_of high low }
{
    let high = digit_of(high);
    let low = digit_of(low);
    if high < HEXADECIMAL && low < HEXADECIMAL {
        Some(high * HEXADECIMAL + low)
    } else {
        None
    }
}

/// What comes before the first mark, and what comes after it.
pub(crate) fn around_mark(text: &[u8], mark: u8) -> Option<(&[u8], &[u8])>
    ensures { MatchOption result (Lacks mark text.now) (λ parts.
        IsAroundMark mark text.now parts.0.now parts.1.now) }
{
    match find_mark(text, mark) {
        None => None,
        Some(len) => Some((&text[..len], &text[len + 1..])),
    }
}

// In line, the loop would keep a count for each place that comes of it, which slows it down.
#[inline(never)]
fn find_mark(text: &[u8], mark: u8) -> Option<usize>
    ensures { result ≡ position (λ byte. byte == mark) text.now }
{
    text.iter().position(|byte| *byte == mark)
}
