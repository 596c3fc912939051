//! Streams to deliveries.

ghost use Rattle.std.specs.Prelude.{◌≡◌, ◌≢◌, ℕ, ◌+◌, ◌≤◌, ◌<◌, List, [], ◌∷◌, ◌++◌, length, Err, IfOk, IfErr, OnOk, vec_len};
ghost use Rattle.boot_requests.specs.declared.fault.FeedFault.{FeedFault};
ghost use Rattle.boot_requests.specs.Limits.{payload_max};
ghost use Rattle.boot_requests.specs.Stream.{Cut, IsCut, IsKept, Feeds, IsHeaderFault, kept_of, nothing_cut};
ghost use Rattle.boot_requests.specs.Pieces.{IsMissing, IsOpenWith, Cuts, Begins};

use crate::bytes::Bytes;
use crate::fault::FeedFault;
use crate::frame::HEADER_LEN;
use crate::reader::{split_header, stated_len};
use std::alloc::{AllocError, Global};
use std::marker::Model;
use std::mem;

/// Cuts a stream of frames, which comes in pieces of any length, into the bytes of each: a header of twelve bytes, and
/// as many bytes after it as it states. What isn't whole yet is held until the rest of it comes.
#[derive(Debug, Drop)]
pub struct Inbox {
    /// The bytes of the delivery that isn't whole yet.
    held: Vec<u8>,
    /// How many bytes of it are missing: of its header, if the twelve of one aren't held; otherwise of those that it
    /// states.
    missing: usize,
    /// The fault of a header, after which nothing is cut any more.
    fault: Option<FeedFault>,
}

impl Model for Inbox {
    ghost use Rattle.boot_requests.specs.Stream.{Kept, kept_in};
    ghost use Rattle.boot_requests.specs.Pieces.{IsHeld};

    ghost Value = { Kept };

    ghost view = { λ inbox. kept_in inbox.held.items inbox.fault };

    ghost invariant = { λ inbox. IsHeld inbox.held.items inbox.missing inbox.fault };
}

impl Inbox {
    /// An inbox that no bytes were fed to.
    pub fn new(alloc: Global) -> Inbox
        ensures start { IsCut [] nothing_cut × (result ≡ kept_of nothing_cut) }
    {
        Inbox {
            held: Vec::new(alloc),
            missing: HEADER_LEN,
            fault: None,
        }
    }

    /// Takes the next bytes of the stream. The bytes of each delivery that they bring to its end are appended to the
    /// frames, in order; whether they are a frame is found when they are delivered. A header is tested once its twelve
    /// bytes are there. After a header that is at fault nothing is cut: each later call answers the same fault and
    /// appends nothing.
    ///
    /// # Errors
    ///
    /// The first of these faults of the first header that has one: [`FeedFault::BadMagic`] if it doesn't begin with
    /// 0x42 0x51; [`FeedFault::BadVersion`] if its version is none of 1 to 3; [`FeedFault::TooLong`] if it states more
    /// than [`PAYLOAD_MAX`](crate::PAYLOAD_MAX) bytes. The deliveries before it are appended.
    /// [`FeedFault::OutOfMemory`] if memory was refused: the inbox and the frames are then as they were.
    pub fn feed(&mut self, bytes: &[u8], frames: &mut Vec<Bytes>) -> Result<(), FeedFault>
        // From an inbox that stands for a stream, to one that stands for it and these bytes.
        ensures fed { result ≢ Err FeedFault.OutOfMemory → (stream : List ℕ) (cut : Cut) →
            IsCut stream cut → self.old ≡ kept_of cut →
            Feeds stream cut bytes.now self.new frames.old.items frames.new.items result }
        ensures unchanged { result ≡ Err FeedFault.OutOfMemory →
            (self.new ≡ self.old) × (frames.new.items ≡ frames.old.items) }
        ensures valid { IsKept self.new }
    {
        if let Some(fault) = self.fault {
            return Err(fault);
        }
        match take_piece(&mut self.held, self.missing, bytes, frames) {
            Ok(missing) => {
                self.missing = missing;
                Ok(())
            }
            Err(fault) if fault == FeedFault::OutOfMemory => Err(fault),
            Err(fault) => {
                self.held.clear();
                self.fault = Some(fault);
                Err(fault)
            }
        }
    }

    /// How many bytes are held of a delivery that isn't whole yet: none after a fault.
    pub fn held(&self) -> usize
        ensures len { result ≡ length self.now.rest }
        ensures bound { result < 12 + payload_max }
        ensures valid { IsKept self.now }
    {
        self.held.len()
    }
}

/// Cuts the piece, as [`cut_piece`] does, but leaves what is held and the frames as they were if memory is refused.
#[inline(always)]
fn take_piece(
    held: &mut Vec<u8>,
    missing: usize,
    piece: &[u8],
    frames: &mut Vec<Bytes>,
) -> Result<usize, FeedFault>
    requires { IsOpenWith held.old.items missing }
    ensures cuts { IfOk result (λ left. IsOpenWith held.new.items left
        × Cuts (held.old.items ++ piece.now) frames.old.items frames.new.items held.new.items) }
    ensures fault { IfErr result (λ fault. fault ≢ FeedFault.OutOfMemory →
        (rest : List ℕ) × IsHeaderFault rest fault
        × Cuts (held.old.items ++ piece.now) frames.old.items frames.new.items rest) }
    ensures refused { result ≡ Err FeedFault.OutOfMemory →
        (held.new.items ≡ held.old.items) × (frames.new.items ≡ frames.old.items) }
{
    let held_len = held.len();
    let frames_len = frames.len();
    let taken = cut_piece(held, missing, piece, frames);
    if let Err(FeedFault::OutOfMemory) = taken {
        take_back(held, held_len, frames, frames_len);
    }
    taken
}

/// Appends the piece to what is held, of which this many bytes are missing, and each delivery that it brings to its end
/// to the frames. Answers how many bytes are missing then. If memory is refused, what was done until then stays.
#[inline(always)]
fn cut_piece(
    held: &mut Vec<u8>,
    missing: usize,
    piece: &[u8],
    frames: &mut Vec<Bytes>,
) -> Result<usize, FeedFault>
    requires { IsOpenWith held.old.items missing }
    ensures cuts { IfOk result (λ left. IsOpenWith held.new.items left
        × Cuts (held.old.items ++ piece.now) frames.old.items frames.new.items held.new.items) }
    ensures fault { IfErr result (λ fault. fault ≢ FeedFault.OutOfMemory →
        (rest : List ℕ) × IsHeaderFault rest fault
        × Cuts (held.old.items ++ piece.now) frames.old.items frames.new.items rest) }
    ensures begins { Begins held.old.items frames.old.items frames.new.items held.new.items }
{
    let mut count = missing;
    let mut rest = piece;
    while !rest.is_empty() {
        let (front, behind) = rest.split_at(count.min(rest.len()));
        held.extend_from_slice(front)?;
        rest = behind;
        count = still_missing(held, front.len(), count)?;
        if count == 0 {
            give(held, frames)?;
            count = HEADER_LEN;
        }
    }
    Ok(count)
}

/// How many bytes are missing: of a header, if its twelve aren't held; otherwise of those that it states.
#[inline(always)]
fn count_missing(held: &[u8]) -> Result<usize, FeedFault>
    ensures count { IfOk result (IsMissing held.now) }
    ensures fault { IfErr result (IsHeaderFault held.now) }
{
    let Some(raw) = split_header(held) else {
        return Ok(HEADER_LEN - held.len());
    };
    let len = stated_len(raw)?;
    Ok(len.saturating_sub(raw.payload.len()))
}

/// The same, once this many bytes were taken of those that were missing before. A header is looked at only if they are
/// the ones that make it whole.
#[inline(always)]
fn still_missing(held: &[u8], taken: usize, before: usize) -> Result<usize, FeedFault>
    requires held { taken ≤ length held.now }
    requires few { taken ≤ before }
    ensures count { IfOk result (λ count. (old front : List ℕ) → held.now ≡ old ++ front →
        length front ≡ taken → IsMissing old before → IsMissing held.now count) }
    ensures fault { IfErr result (IsHeaderFault held.now) }
{
    if held.len() - taken < HEADER_LEN {
        let count = count_missing(held)?;
        return Ok(count);
    }
    Ok(before - taken)
}

/// What is held becomes the last of the frames, and nothing is held. If memory is refused, both are as they were.
fn give(held: &mut Vec<u8>, frames: &mut Vec<Bytes>) -> Result<(), FeedFault>
    ensures given { OnOk result ((held.new.items ≡ [])
        × (frames.new.items ≡ frames.old.items ++ held.old.items ∷ [])) }
    ensures refused { IfErr result (λ fault. (fault ≡ FeedFault.OutOfMemory)
        × (held.new.items ≡ held.old.items) × (frames.new.items ≡ frames.old.items)) }
{
    let alloc = *held.allocator();
    let whole = mem::replace(held, Vec::new(alloc));
    match frames.push(Bytes::new(whole)) {
        Ok(()) => Ok(()),
        Err(refusal) => {
            *held = refusal.value.into_bytes();
            Err(FeedFault::OutOfMemory)
        }
    }
}

/// Takes back what was cut since this many bytes were held, and since there were this many frames. It needs no memory:
/// the bytes that were held are at the start of the first frame since then, or of what is held.
fn take_back(held: &mut Vec<u8>, held_len: usize, frames: &mut Vec<Bytes>, frames_len: usize)
    requires { frames_len ≤ vec_len frames.old }
    ensures { (before : List ℕ) (old : List (List ℕ)) →
        Begins before old frames.old.items held.old.items →
        held_len ≡ length before → frames_len ≡ length old →
        (held.new.items ≡ before) × (frames.new.items ≡ old) }
{
    frames.truncate(frames_len + 1);
    if frames.len() > frames_len {
        if let Some(first) = frames.pop() {
            *held = first.into_bytes();
        }
    }
    held.truncate(held_len);
}
