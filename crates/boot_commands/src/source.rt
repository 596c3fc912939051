//! Where the bytes of a script come from, and where the lines that answer it go.

ghost use Rattle.std.specs.Prelude.{◌≡◌, ◌||◌, ◌≤◌, ℕ, Bool, List, Option, length, is_none, IfSome};
ghost use Rattle.boot_commands.specs.Source.{Reads, Writes};

use std::io::{Read, Write};

/// What bytes are read from.
pub trait Source {
    // Whether a read failed.
    ghost failed: { Self → Bool };

    // The bytes that reads will give from here on, if they are known.
    ghost remaining: { Self → Option (List ℕ) };

    /// Reads some bytes into the start of the buffer, and returns how many: none only at the end, or if the buffer has
    /// no room. `None` is a failure.
    fn read(&mut self, buf: &mut [u8]) -> Option<usize>
        ensures bound { IfSome result (λ count. count ≤ length buf.new) }
        ensures bytes { Reads (remaining self.old) (remaining self.new) result buf.new }
        ensures flag { failed self.new ≡ (failed self.old || is_none result) };
}

/// What bytes are written to.
pub trait Sink {
    // Whether a write failed, or took no byte when there were some.
    ghost failed: { Self → Bool };

    // The bytes that the sink holds, if they are known.
    ghost contents: { Self → Option (List ℕ) };

    /// Writes some of the bytes, from the first on, and returns how many: at least one if there are any. `None` is a
    /// failure.
    fn write(&mut self, buf: &[u8]) -> Option<usize>
        ensures bound { IfSome result (λ count. count ≤ length buf.now) }
        ensures bytes { Writes (contents self.old) (contents self.new) result buf.now }
        ensures flag { failed self.new ≡ (failed self.old || is_none result) };
}

/// A reader or a writer of the standard library, with whether a call failed.
#[derive(Debug, Drop)]
pub struct Watched<T> {
    /// The reader or the writer, to which each call is passed on.
    pub inner: T,
    /// Whether a call answered an error, or took no byte of some that were to be written.
    pub failed: bool,
}

impl<T: Read> Source for Watched<T> {
    ghost failed = { λ watched. watched.failed };

    ghost remaining = { λ watched. T.remaining watched.inner };

    fn read(&mut self, buf: &mut [u8]) -> Option<usize> {
        match self.inner.read(buf) {
            Ok(count) => Some(count),
            Err(_) => {
                self.failed = true;
                None
            }
        }
    }
}

impl<T: Write> Sink for Watched<T> {
    ghost failed = { λ watched. watched.failed };

    ghost contents = { λ watched. T.contents watched.inner };

    fn write(&mut self, buf: &[u8]) -> Option<usize> {
        match self.inner.write(buf) {
            Ok(count) if count > 0 || buf.is_empty() => Some(count),
            _ => {
                self.failed = true;
                None
            }
        }
    }
}
