//! Names of X.509 (ITU-T X.501, 9.2), and when OpenSSL, by which EDK2 checks signatures, may take two for one.
//!
//! OpenSSL compares canonical forms (X509_NAME_cmp): texts in UTF-8, without spaces before and behind, with one space
//! for several, and with small letters of ASCII. So two names whose bytes differ may be one. Here only what surely
//! stays in that form is compared, which is enough to tell two names apart for certain: the object identifiers of the
//! attributes, and of their texts the characters of ASCII that are no spaces, in small letters. What isn't read makes a
//! name that may be each.

ghost use Rattle.std.specs.Prelude.{◌≡◌, ◌<◌, [], ◌∷◌, length, MatchOption};
ghost use Rattle.std.specs.Option.{option_map};
ghost use Rattle.efi_images.specs.Names.{is_mark, small, folded, is_same_text, is_text, attribute_parts, attribute_of, is_same_attribute, is_unread, may_end_alike, is_alike};

use crate::der::{IDENTIFIER, SEQUENCE, SET, read_element, read_field};

/// How many attributes of names are compared.
const ATTRIBUTES_MAX: usize = 64;

/// An attribute of a name. What it holds and what is after it are lent.
#[derive(Clone, Copy, Debug)]
pub(crate) struct Attribute<'a> {
    /// The object identifier of its type.
    pub(crate) kind: &'a [u8],
    /// The bytes of its text.
    pub(crate) text: &'a [u8],
    /// The attributes after it.
    pub(crate) rest: &'a [u8],
}

/// Whether these names may be one for OpenSSL. If it says no, they surely aren't.
pub(crate) fn is_alike(one: &[u8], other: &[u8]) -> bool
    ensures { result ≡ is_alike one.now other.now }
{
    let mut one = one;
    let mut other = other;
    for _ in 0..ATTRIBUTES_MAX {
        let Some(first) = read_attribute(one) else {
            return may_end_alike(one, other);
        };
        let Some(second) = read_attribute(other) else {
            return may_end_alike(one, other);
        };
        if !is_same_attribute(&first, &second) {
            return false;
        }
        one = first.rest;
        other = second.rest;
    }
    true
}

/// Whether two names of which one at least begins with no attribute that is read may be one.
fn may_end_alike(one: &[u8], other: &[u8]) -> bool
    ensures { result ≡ may_end_alike one.now other.now }
{
    (one.is_empty() && other.is_empty()) || is_unread(one) || is_unread(other)
}

/// Whether the name begins with an attribute that isn't read.
#[tactic(auto, unfolding(crate::specs::Names::is_unread))]
fn is_unread(name: &[u8]) -> bool
    ensures { result ≡ is_unread name.now }
{
    !name.is_empty() && read_attribute(name).is_none()
}

/// The attribute that the name begins with. `None` if it isn't a text, if its set has another (OpenSSL doesn't keep the
/// order of those), or if it isn't read.
#[tactic(auto, unfolding(crate::specs::Names::attribute_of))]
fn read_attribute(name: &[u8]) -> Option<Attribute<'_>>
    ensures { option_map attribute_parts result ≡ attribute_of name.now }
{
    let one = read_field(name, SET)?;
    let pair = read_field(one.body, SEQUENCE)?;
    let kind = read_field(pair.body, IDENTIFIER)?;
    let text = read_element(kind.rest)?;
    if !is_text(text.tag) || !pair.rest.is_empty() {
        return None;
    }
    Some(Attribute {
        kind: kind.body,
        text: text.body,
        rest: one.rest,
    })
}

/// Whether this is the tag of a text of which each byte of ASCII is that character.
#[tactic(auto, unfolding(crate::specs::Names::is_text))]
fn is_text(tag: u8) -> bool
    ensures { result ≡ is_text tag }
{
    matches!(tag, 0x0C | 0x13 | 0x14 | 0x16 | 0x1A)
}

/// Whether the attributes are of one type, and their texts the same but for what OpenSSL may leave out.
fn is_same_attribute(one: &Attribute<'_>, other: &Attribute<'_>) -> bool
    ensures { result ≡ is_same_attribute (attribute_parts one.now) (attribute_parts other.now) }
{
    one.kind == other.kind && is_same_text(one.text, other.text)
}

/// Whether the texts are the same but for the case of letters, for spaces, and for what isn't ASCII.
fn is_same_text(one: &[u8], other: &[u8]) -> bool
    ensures { result ≡ is_same_text one.now other.now }
{
    let mut one = one;
    let mut other = other;
    while let Some((first, others)) = next_mark(one) {
        match next_mark(other) {
            Some((second, more)) if first == second => {
                one = others;
                other = more;
            }
            _ => return false,
        }
    }
    next_mark(other).is_none()
}

/// The first byte of a text that is compared, as a small letter if it is one, and the bytes after it.
fn next_mark(text: &[u8]) -> Option<(u8, &[u8])>
    ensures { MatchOption result
        (folded text.now ≡ [])
        (λ found. (folded text.now ≡ found.0 ∷ folded found.1.now) × (length found.1.now < length text.now)) }
{
    let mut text = text;
    while let [first, others @ ..] = text {
        if is_mark(*first) {
            return Some((small(*first), others));
        }
        text = others;
    }
    None
}

/// Whether a byte of a text is compared: one of ASCII that is printed, but no space.
fn is_mark(byte: u8) -> bool
    ensures { result ≡ is_mark byte }
{
    byte > 0x20 && byte < 0x7F
}

/// The byte, as a small letter if it is a capital one.
fn small(byte: u8) -> u8
    ensures { result ≡ small byte }
{
    if byte >= b'A' && byte <= b'Z' {
        byte + 0x20
    } else {
        byte
    }
}
