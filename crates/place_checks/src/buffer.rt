//! The bytes of one file after another, in one buffer.

ghost use Rattle.std.specs.Prelude.{◌≡◌, ◌<◌, ◌≤◌, [], false, IsTrue, length, vec_len, Ok, IfOk, IfSome};

use std::alloc::AllocError;
use std::io::{self, Read};

/// Reads an input to its end into a buffer, in place of what that holds, and tells whether it has no more bytes than the
/// limit, of which at most one past it is read. Room for as many bytes as it is said to have is made at once, and is kept
/// for the next input: to touch fresh memory for each takes longer than to read it.
///
/// # Errors
///
/// The reader's, if a read fails before that, or [`OutOfMemory`](io::ErrorKind::OutOfMemory) if memory was refused.
pub(crate) fn read_into<R: Read + Drop>(
    buffer: &mut Vec<u8>,
    reader: R,
    said: usize,
    limit: usize,
) -> io::Result<bool>
    ensures all { IfOk result (λ is_all. IsTrue is_all → IfSome (R.remaining reader) (λ rest. buffer.new.items ≡ rest)) }
    ensures few { IfOk result (λ is_all. IsTrue is_all → vec_len buffer.new ≤ limit) }
    ensures too_much { result ≡ Ok false → IfSome (R.remaining reader) (λ rest. limit < length rest) }
{
    empty(buffer, said)?;
    let most = (limit as u64).saturating_add(1);
    reader.take(most).read_to_end(buffer)?;
    if buffer.len() > limit {
        return Ok(false);
    }
    Ok(true)
}

/// Empties a buffer, which has room then for so many bytes and one more: by that it is seen that an input ends.
fn empty(buffer: &mut Vec<u8>, len: usize) -> Result<(), AllocError>
    ensures { buffer.new.items ≡ [] }
{
    buffer.clear();
    buffer.reserve(len.saturating_add(1))
}
