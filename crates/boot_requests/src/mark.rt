//! The next number with the outcomes that are kept before it, and the bytes in which they are stored.

ghost use Rattle.std.specs.Prelude.{◌≡◌, ◌≢◌, ℕ, ◌<◌, ◌≤◌, List, [], ◌∷◌, length, map, min, IfOk, IfSome, IfNone, IsTrue, IsFalse, MatchOption};
ghost use Rattle.std.specs.List.{AllByRecursion, flat_map};
ghost use Rattle.boot_requests.specs.declared.outcome.Code.{Code};
ghost use Rattle.boot_requests.specs.declared.outcome.Outcome.{Outcome};
ghost use Rattle.boot_requests.specs.Limits.{no_number, kept_max};
ghost use Rattle.boot_requests.specs.Outcome.{IsOutcome, without_entry, code_byte, outcome_bytes};
ghost use Rattle.boot_requests.specs.State.{State, MarkParts, IsMark, mark_bytes};
ghost use Rattle.boot_requests.specs.StoredState.{IsFirstCode};
ghost use Rattle.boot_requests.specs.Apply.{kept_with};
ghost use Rattle.boot_requests.specs.Answer.{kept_outcome};
ghost use Rattle.boot_requests.specs.Marks.{mark_of, mark_in, mark_after, SpellsMark, SpellsFirstMark, IsMarkIn, SplitsMark};

use crate::outcome::{Code, Outcome};
use std::alloc::{AllocError, Global};
use std::marker::Model;

/// The most outcomes that are kept, those of the requests that were applied last.
pub const KEPT_MAX: usize = 64;

/// How many outcomes are kept at least, if that many requests were applied.
const KEPT_MIN: usize = 16;

/// The version of the bytes that are written.
const VERSION: u8 = 2;

/// The bytes before the outcomes: the version, the next number, and how many outcomes are kept.
const HEADER_LEN: usize = 6;

/// The bytes of an outcome.
const OUTCOME_LEN: usize = 4;

/// The number of the request that is to be applied next, and what came of the last ones before it, oldest first.
#[derive(Debug, Drop)]
pub(crate) struct Mark {
    next_number: u32,
    kept: Vec<Outcome>,
}

impl Model for Mark {
    ghost use Rattle.boot_requests.specs.State.{MarkParts, IsMark};

    ghost Value = { MarkParts };

    ghost view = { λ m. record { next_number = m.next_number; kept = m.kept.items } };

    ghost invariant = { λ m. IsMark m.next_number m.kept.items };
}

impl Mark {
    /// Before any request was applied.
    pub(crate) fn new(alloc: Global) -> Mark
        ensures { result ≡ mark_of 0 [] }
    {
        Mark {
            next_number: 0,
            kept: Vec::new(alloc),
        }
    }

    /// The number of the request that is to be applied next.
    pub(crate) fn next_number(&self) -> u32
        ensures { result ≡ self.now.next_number }
    {
        self.next_number
    }

    /// What came of the request of this number, if that is kept.
    #[inline(always)]
    pub(crate) fn outcome(&self, number: u32) -> Option<Outcome>
        ensures { (m : State) → mark_in m ≡ self.now → result ≡ kept_outcome m number }
    {
        let oldest = self.next_number - self.kept.len() as u32;
        if number < oldest {
            return None;
        }
        self.kept.get((number - oldest) as usize).copied()
    }

    /// The mark after the request of the next number, which has this outcome.
    pub(crate) fn after(&self, alloc: Global, outcome: Outcome) -> Result<Mark, AllocError>
        requires room { self.now.next_number < no_number }
        requires valid { IsOutcome outcome }
        ensures { IfOk result (λ mark. mark ≡ mark_after self.now outcome) }
    {
        let kept = kept_with(alloc, &self.kept, outcome)?;
        Ok(Mark {
            next_number: self.next_number + 1,
            kept,
        })
    }

    /// The bytes in which it is stored.
    pub(crate) fn bytes(&self, alloc: Global) -> Result<Vec<u8>, AllocError>
        ensures bytes { IfOk result (λ bytes.
            bytes.items ≡ mark_bytes self.now.next_number self.now.kept) }
        ensures valid { IsMark self.now.next_number self.now.kept }
    {
        mark_bytes(alloc, self.next_number, &self.kept)
    }

    /// The mark that is stored in these bytes: `None` if none is.
    pub(crate) fn read(alloc: Global, bytes: &[u8]) -> Result<Option<Mark>, AllocError>
        ensures { IfOk result (λ found. MatchOption found
            ((mark : MarkParts) → IsMarkIn bytes.now mark → ⊥)
            (λ mark. IsMarkIn bytes.now mark)) }
    {
        let [version, rest @ ..] = bytes else {
            return Ok(None);
        };
        match *version {
            1 => read_first(alloc, rest),
            2 => read_second(alloc, rest),
            _ => Ok(None),
        }
    }

    /// Whether the bytes, which are those of a mark, are of the version that is written.
    pub(crate) fn is_current(bytes: &[u8]) -> bool
        ensures { (mark : MarkParts) → IsMarkIn bytes.now mark →
            (IsTrue result → SpellsMark bytes.now mark)
            × (IsFalse result → SpellsFirstMark bytes.now mark) }
    {
        bytes.first() == Some(&VERSION)
    }

    /// An equal mark.
    pub(crate) fn copy(&self, alloc: Global) -> Result<Mark, AllocError>
        ensures { IfOk result (λ mark. mark ≡ self.now) }
    {
        let kept = Vec::from_slice(alloc, &self.kept)?;
        Ok(Mark {
            next_number: self.next_number,
            kept,
        })
    }
}

/// The outcomes with one more after them, of which the last ones are kept.
fn kept_with(alloc: Global, kept: &[Outcome], outcome: Outcome) -> Result<Vec<Outcome>, AllocError>
    requires { length kept.now ≤ kept_max }
    ensures { IfOk result (λ all. all.items ≡ kept_with kept.now outcome) }
{
    let last = if kept.len() < KEPT_MAX {
        kept
    } else {
        &kept[1..]
    };
    let mut all = Vec::from_slice(alloc, last)?;
    all.push(outcome)?;
    Ok(all)
}

// ---- writing

/// The bytes of a next number and of the outcomes that are kept.
fn mark_bytes(alloc: Global, next_number: u32, kept: &[Outcome]) -> Result<Vec<u8>, AllocError>
    requires { length kept.now ≤ kept_max }
    ensures { IfOk result (λ bytes. bytes.items ≡ mark_bytes next_number kept.now) }
{
    let mut bytes = Vec::with_capacity(alloc, HEADER_LEN + OUTCOME_LEN * kept.len())?;
    bytes.push(VERSION)?;
    bytes.extend_from_slice(&next_number.to_le_bytes())?;
    bytes.push(kept.len() as u8)?;
    for outcome in kept {
        bytes.extend_from_slice(&outcome.bytes())?;
    }
    Ok(bytes)
}

// ---- reading

/// The next number that is after the version, how many outcomes are kept, and their bytes, if the number isn't 0.
fn split_mark(bytes: &[u8]) -> Option<(u32, usize, &[u8])>
    ensures found { IfSome result (λ mark. SplitsMark bytes.now mark.0 mark.1 mark.2.now) }
    ensures only { IfNone result
        ((next_number len : ℕ) (outcomes : List ℕ) → SplitsMark bytes.now next_number len outcomes → ⊥) }
{
    let [a, b, c, d, len, outcomes @ ..] = bytes else {
        return None;
    };
    let next_number = u32::from_le_bytes([*a, *b, *c, *d]);
    if next_number == 0 {
        return None;
    }
    Some((next_number, usize::from(*len), outcomes))
}

/// The mark of the bytes after the version 2: `None` if they aren't those of one.
fn read_second(alloc: Global, bytes: &[u8]) -> Result<Option<Mark>, AllocError>
    ensures { IfOk result (λ found. MatchOption found
        ((mark : MarkParts) → SpellsMark (2 ∷ bytes.now) mark → ⊥)
        (λ mark. SpellsMark (2 ∷ bytes.now) mark)) }
{
    let Some((next_number, len, outcomes)) = split_mark(bytes) else {
        return Ok(None);
    };
    if len < kept_len(KEPT_MIN, next_number) || len > kept_len(KEPT_MAX, next_number) {
        return Ok(None);
    }
    if outcomes.len() != OUTCOME_LEN * len {
        return Ok(None);
    }
    match read_outcomes(alloc, outcomes)? {
        Some(kept) => Ok(Some(Mark { next_number, kept })),
        None => Ok(None),
    }
}

/// The mark of the bytes after the version 1, by which no entries and only the last 16 outcomes were kept: `None` if
/// they aren't those of one.
fn read_first(alloc: Global, bytes: &[u8]) -> Result<Option<Mark>, AllocError>
    ensures { IfOk result (λ found. MatchOption found
        ((mark : MarkParts) → SpellsFirstMark (1 ∷ bytes.now) mark → ⊥)
        (λ mark. SpellsFirstMark (1 ∷ bytes.now) mark)) }
{
    let Some((next_number, len, codes)) = split_mark(bytes) else {
        return Ok(None);
    };
    if len != kept_len(KEPT_MIN, next_number) || codes.len() != len {
        return Ok(None);
    }
    match read_codes(alloc, codes)? {
        Some(kept) => Ok(Some(Mark { next_number, kept })),
        None => Ok(None),
    }
}

/// This many outcomes, or as many as there are requests before this next number, if these are fewer.
fn kept_len(len: usize, next_number: u32) -> usize
    ensures { result ≡ min len next_number }
{
    len.min(next_number as usize)
}

/// The outcomes of these bytes, four each: `None` if they aren't those of outcomes.
fn read_outcomes(alloc: Global, bytes: &[u8]) -> Result<Option<Vec<Outcome>>, AllocError>
    ensures { IfOk result (λ found. MatchOption found
        ((kept : List Outcome) → AllByRecursion IsOutcome kept → flat_map outcome_bytes kept ≢ bytes.now)
        (λ kept. AllByRecursion IsOutcome kept.items × (flat_map outcome_bytes kept.items ≡ bytes.now))) }
{
    let mut kept = Vec::with_capacity(alloc, bytes.len() / OUTCOME_LEN)?;
    let mut rest = bytes;
    while let [code, has, low, high, others @ ..] = rest {
        let Some(outcome) = Outcome::from_bytes([*code, *has, *low, *high]) else {
            return Ok(None);
        };
        kept.push(outcome)?;
        rest = others;
    }
    Ok(if rest.is_empty() { Some(kept) } else { None })
}

/// The outcomes of these codes of version 1: `None` if one of them isn't a code of it.
fn read_codes(alloc: Global, codes: &[u8]) -> Result<Option<Vec<Outcome>>, AllocError>
    ensures { IfOk result (λ found. MatchOption found
        ((kept : List Code) → AllByRecursion IsFirstCode kept → map code_byte kept ≢ codes.now)
        (λ kept. (known : List Code) × AllByRecursion IsFirstCode known
        × (map code_byte known ≡ codes.now) × (kept.items ≡ map without_entry known))) }
{
    let mut kept = Vec::with_capacity(alloc, codes.len())?;
    for byte in codes {
        let Some(code) = Code::from_byte(*byte) else {
            return Ok(None);
        };
        if code == Code::NoFree {
            return Ok(None);
        }
        kept.push(Outcome::of(code))?;
    }
    Ok(Some(kept))
}
