//! Which frames a run applied, by what it answered.

ghost use Rattle.std.specs.Prelude.{◌≡◌, ◌++◌, ◌-◌, [], OnOk};
ghost use Rattle.boot_notes.specs.Digest.{digest_under, frame_digest};
ghost use Rattle.journaled_requests.specs.Applied.{sent_of, with_waiting, followers_of, still_waiting, with_frame, with_answer};
ghost use Rattle.journaled_requests.specs.Same.{known_by, IsTold};

use boot_notes::{DIGEST_LEN, FrameDigest, digest_under, is_same, last_of};
use boot_requests::{Answer, Event, Reply};
use std::alloc::{AllocError, Global};

/// The digests of the frames that wait, and of those that were applied, in their order.
#[derive(Drop)]
pub(crate) struct Sent {
    waiting: Vec<FrameDigest>,
    pub(crate) applied: Vec<FrameDigest>,
}

impl Sent {
    /// As it is before a run.
    pub(crate) fn new(alloc: Global) -> Sent
        ensures { sent_of result.waiting.items result.applied.items ≡ sent_of [] [] }
    {
        Sent {
            waiting: Vec::new(alloc),
            applied: Vec::new(alloc),
        }
    }

    /// Whether the event, which was answered so, is a repeat of the frame that was applied under its number, if these digests
    /// were kept before the run: `None` if it is no repeat, or no digest of that frame is known.
    pub(crate) fn is_same(
        &self,
        before: &[FrameDigest],
        event: &Event,
        answer: &Answer,
    ) -> Option<bool>
        ensures { IsTold (known_by before.now (sent_of self.now.waiting.items self.now.applied.items))
            event.now answer.now result }
    {
        match (event, &answer.reply, answer.request) {
            (Event::Deliver(frame), Reply::Repeat(_), Some(number)) => {
                is_same(self.known(before, number), frame.bytes())
            }
            _ => None,
        }
    }

    /// The digest under this number among those of the frames that were applied last, in the run and before it.
    fn known(&self, before: &[FrameDigest], number: u32) -> Option<[u8; DIGEST_LEN]>
        ensures { result ≡ digest_under (known_by before.now (sent_of self.now.waiting.items self.now.applied.items)) number }
    {
        match digest_under(last_of(&self.applied), number) {
            Some(digest) => Some(digest),
            None => digest_under(before, number),
        }
    }

    /// Takes the answer to an event.
    ///
    /// # Errors
    ///
    /// [`AllocError`] if memory was refused.
    pub(crate) fn take(&mut self, event: &Event, answer: &Answer) -> Result<(), AllocError>
        ensures { OnOk result (sent_of self.new.waiting.items self.new.applied.items
            ≡ with_answer (sent_of self.old.waiting.items self.old.applied.items) event.now answer.now) }
    {
        match event {
            Event::Deliver(bytes) => match answer.request {
                Some(number) => self.take_frame(number, bytes.bytes(), &answer.reply),
                None => Ok(()),
            },
            Event::Restart => {
                self.waiting.clear();
                Ok(())
            }
            Event::Prepare | Event::Hand => Ok(()),
        }
    }

    /// Takes the reply to the frame of a request with this number.
    fn take_frame(&mut self, number: u32, frame: &[u8], reply: &Reply) -> Result<(), AllocError>
        ensures { OnOk result (sent_of self.new.waiting.items self.new.applied.items
            ≡ with_frame (sent_of self.old.waiting.items self.old.applied.items) (frame_digest number frame.now) reply.now) }
    {
        match reply {
            Reply::Waiting(_) => wait(&mut self.waiting, FrameDigest::new(number, frame)),
            Reply::Applied(_, next) => {
                self.applied.push(FrameDigest::new(number, frame))?;
                append_followers(&mut self.applied, &self.waiting, number, *next)?;
                keep_waiting(&mut self.waiting, *next);
                Ok(())
            }
            _ => Ok(()),
        }
    }
}

/// Has one more frame wait, unless one of its number does.
fn wait(waiting: &mut Vec<FrameDigest>, frame: FrameDigest) -> Result<(), AllocError>
    ensures { OnOk result (waiting.new.items ≡ with_waiting waiting.old.items frame) }
{
    if digest_under(waiting, frame.number).is_some() {
        return Ok(());
    }
    waiting.push(frame)?;
    Ok(())
}

/// Appends those that wait from this number to below the next one, in the order of the numbers.
fn append_followers(
    applied: &mut Vec<FrameDigest>,
    waiting: &[FrameDigest],
    first: u32,
    next: u32,
) -> Result<(), AllocError>
    ensures { OnOk result (applied.new.items ≡ applied.old.items ++ followers_of waiting.now first (next - first)) }
{
    for number in first..next {
        if let Some(digest) = digest_under(waiting, number) {
            applied.push(FrameDigest { number, digest })?;
        }
    }
    Ok(())
}

/// Forgets those that wait with numbers below the next one.
fn keep_waiting(waiting: &mut Vec<FrameDigest>, next: u32)
    ensures { waiting.new.items ≡ still_waiting next waiting.old.items }
{
    waiting.retain(|frame| next <= frame.number);
}
