//! How a text is cut into segments.

ghost use Rattle.std.specs.Prelude.{◌≡◌, ◌≤◌, ◌<◌, ◌^◌, ◌↔◌, ℕ, List, length, IsTrue, IfSome, MatchOption};
ghost use Rattle.uefi_text.specs.Segment.{comma};
ghost use Rattle.uefi_text.specs.Node.{IsBareUnit};
ghost use Rattle.uefi_text.specs.Fault.{BeginsWithNode, ClosesSegment, EndsOr};
ghost use Rattle.uefi_text.specs.Cuts.{BeginsBare, IsBareCut, IsFront, IsNamedFront, IsBareFront, IsNamed, IsBare, IsCutOf, text_of};

use crate::argument::around_mark;
use crate::print_node::{NAME_LOW, is_plain};

/// A segment of a text.
#[derive(Clone, Copy, Debug)]
pub(crate) enum Segment<'a> {
    /// A name, and what is in the parentheses after it.
    Named { name: &'a [u8], inside: &'a [u8] },
    /// A path name that begins with a backslash.
    Bare(&'a [u8]),
}

impl Segment<'_> {
    /// The place in the segment of the argument after `index` others. A bare path name is the one argument of its
    /// segment.
    pub(crate) fn place_of(self, index: usize) -> usize
        requires { length (text_of self) < 2 ^ 64 }
        ensures { result ≤ length (text_of self.entry) }
    {
        match self {
            Segment::Bare(_) => 0,
            Segment::Named { name, inside } => name.len() + 1 + place_in(inside, index),
        }
    }
}

/// The place of the argument after `index` others, in the text between the parentheses.
fn place_in(inside: &[u8], index: usize) -> usize
    ensures { result ≤ length inside.now }
{
    let mut rest = inside;
    'passed: for _ in 0..index {
        match around_mark(rest, b',') {
            Some((_, others)) => rest = others,
            None => break,
        }
    }
    inside.len() - rest.len()
}

/// The segment at the start of a text, and what follows it: a slash, a comma or nothing. `None` if there is no such
/// segment.
pub(crate) fn cut_segment(text: &[u8]) -> Option<(Segment<'_>, &[u8])>
    ensures found { IfSome result (λ cut. IsFront text.now cut.0 cut.1.now) }
    ensures only { (begins : BeginsWithNode text.now) →
        MatchOption result ⊥ (λ cut. IsCutOf cut.0 begins.segment × (cut.1.now ≡ begins.behind)) }
{
    if begins_bare(text) {
        cut_bare(text)
    } else {
        cut_named(text)
    }
}

/// The bare path name at the start of a text, and what follows it.
fn cut_bare(text: &[u8]) -> Option<(Segment<'_>, &[u8])>
    requires { BeginsBare text.now }
    ensures found { IfSome result (λ cut. IsFront text.now cut.0 cut.1.now) }
    ensures only { (path_name behind : List ℕ) → IsBareFront text.now path_name behind →
        MatchOption result ⊥ (λ cut. IsBare path_name cut.0 × (cut.1.now ≡ behind)) }
{
    let (name, rest) = split_bare(text);
    if ends_segment(rest) {
        Some((Segment::Bare(name), rest))
    } else {
        None
    }
}

/// The name and the parentheses at the start of a text, and what follows them. Any bytes are taken for a name: whether
/// a form has it is seen where the node is made.
fn cut_named(text: &[u8]) -> Option<(Segment<'_>, &[u8])>
    ensures found { IfSome result (λ cut. IsFront text.now cut.0 cut.1.now) }
    ensures only { (name inside behind : List ℕ) → IsNamedFront text.now name inside behind →
        MatchOption result ⊥ (λ cut. IsNamed name inside cut.0 × (cut.1.now ≡ behind)) }
{
    let (name, behind) = around_mark(text, b'(')?;
    let (inside, rest) = around_mark(behind, b')')?;
    if inside.contains(&b'(') || !ends_segment(rest) {
        return None;
    }
    Some((Segment::Named { name, inside }, rest))
}

/// The longest prefix of a text that has only bytes of a bare path name, and the rest.
fn split_bare(text: &[u8]) -> (&[u8], &[u8])
    ensures { IsBareCut text.now result.0.now result.1.now }
{
    let len = text
        .iter()
        .position(|byte| !is_bare(*byte))
        .unwrap_or(text.len());
    text.split_at(len)
}

/// Whether a segment that begins here is a bare path name.
fn begins_bare(text: &[u8]) -> bool
    ensures { IsTrue result ↔ BeginsBare text.now }
{
    matches!(text, [b'\\', ..])
}

/// Whether a segment may end before this.
fn ends_segment(rest: &[u8]) -> bool
    ensures { IsTrue result ↔ ClosesSegment rest.now }
{
    matches!(rest, [] | [b'/', ..] | [b',', ..])
}

/// Whether an instance may end before this.
pub(crate) fn ends_instance(rest: &[u8]) -> bool
    ensures { IsTrue result ↔ EndsOr comma rest.now }
{
    matches!(rest, [] | [b',', ..])
}

/// Whether a bare path name goes on with this byte.
fn is_bare(byte: u8) -> bool
    ensures { IsTrue result ↔ IsBareUnit byte }
{
    is_plain(NAME_LOW, u16::from(byte)) && byte != b'/' && byte != b','
}
