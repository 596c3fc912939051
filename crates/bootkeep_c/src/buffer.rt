//! Answers to the caller's buffers.

ghost use Rattle.std.specs.Prelude.{◌≤◌, length};
ghost use Rattle.bootkeep_c.specs.Buffer.{IsInFront, Gives};

use crate::status::{DONE, NO_ROOM};

/// Gives the answer, if there is room for it.
pub(crate) fn give<T: Copy>(answer: &[T], out: &mut [T], len: &mut usize) -> u32
    ensures { Gives result answer.now out.old out.new len.new }
{
    *len = answer.len();
    if answer.len() > out.len() {
        return NO_ROOM;
    }
    put_in_front(answer, out);
    DONE
}

/// Writes the answer to the front of the buffer.
pub(crate) fn put_in_front<T: Copy>(answer: &[T], out: &mut [T])
    requires { length answer.now ≤ length out.old }
    ensures { IsInFront answer.now out.old out.new (length answer.now) }
{
    let (front, _) = out.split_at_mut(answer.len());
    front.copy_from_slice(answer);
}
