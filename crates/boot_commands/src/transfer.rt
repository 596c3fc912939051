//! All that a source gives, and all of some bytes to a sink.

ghost use Rattle.std.specs.Prelude.{◌≡◌, ◌≢◌, ℕ, ◌+◌, ◌<◌, ◌≤◌, List, [], ◌++◌, length, vec_len, Err, IfOk, IfErr, OnOk, OnErr, IfSome, MatchBool, false};
ghost use Rattle.std.specs.Io.KnownBytes.{Appends, Consumes, IsAtEnd};
ghost use Rattle.boot_commands.specs.declared.fault.ScriptRunFault.{ScriptRunFault};
ghost use Rattle.boot_commands.specs.RunFault.{script_max, failed_read, failed_write};
ghost use Rattle.boot_commands.specs.Source.{ReadsAll, Takes, TakesAtMost, AppendsFront};

use crate::fault::ScriptRunFault;
use crate::source::{Sink, Source};
use std::alloc::Global;
use whole_files::LIMIT;

/// How many bytes are asked for at once.
const CHUNK: usize = 16_384;

/// The bytes that a source gives, up to its end.
///
/// # Errors
///
/// [`ScriptRunFault::TooMuch`] if there are more than [`LIMIT`] bytes; exactly one byte past these is read.
/// [`ScriptRunFault::Read`] if a read fails before that, and [`ScriptRunFault::OutOfMemory`] if memory was refused.
pub fn read_all<R: Source>(alloc: Global, reader: &mut R) -> Result<Vec<u8>, ScriptRunFault>
    requires { R.failed reader.old ≡ false }
    ensures all { IfOk result (λ bytes.
        ReadsAll (R.remaining reader.old) (R.remaining reader.new) bytes.items) }
    ensures limit { IfOk result (λ bytes. vec_len bytes ≤ script_max) }
    ensures too_much { result ≡ Err ScriptRunFault.TooMuch →
        IfSome (R.remaining reader.old) (λ text. script_max < length text) }
    ensures one_past { result ≡ Err ScriptRunFault.TooMuch →
        Takes (R.remaining reader.old) (R.remaining reader.new) (script_max + 1) }
    ensures taken { OnErr result (TakesAtMost (R.remaining reader.old) (R.remaining reader.new) (script_max + 1)) }
    ensures fault { IfErr result (λ fault. fault ≢ ScriptRunFault.Read → fault ≢ ScriptRunFault.TooMuch →
        fault ≡ ScriptRunFault.OutOfMemory) }
    ensures flag { R.failed reader.new ≡ failed_read result }
{
    let mut bytes = Vec::new(alloc);
    let mut buffer = vec![in alloc; 0; CHUNK]?;
    fill(reader, &mut buffer, &mut bytes)?;
    Ok(bytes)
}

/// Appends the bytes that a source gives, up to its end, with a buffer to read into.
fn fill<R: Source>(
    reader: &mut R,
    buffer: &mut [u8],
    bytes: &mut Vec<u8>,
) -> Result<(), ScriptRunFault>
    requires works { R.failed reader.old ≡ false }
    requires empty { vec_len bytes.old ≡ 0 }
    requires room { 0 < length buffer.old }
    ensures all { OnOk result (ReadsAll (R.remaining reader.old) (R.remaining reader.new) bytes.new.items) }
    ensures limit { OnOk result (vec_len bytes.new ≤ script_max) }
    ensures too_much { result ≡ Err ScriptRunFault.TooMuch →
        IfSome (R.remaining reader.old) (λ text. script_max < length text) }
    ensures one_past { result ≡ Err ScriptRunFault.TooMuch →
        Takes (R.remaining reader.old) (R.remaining reader.new) (script_max + 1) }
    ensures taken { OnErr result (TakesAtMost (R.remaining reader.old) (R.remaining reader.new) (script_max + 1)) }
    ensures fault { IfErr result (λ fault. fault ≢ ScriptRunFault.Read → fault ≢ ScriptRunFault.TooMuch →
        fault ≡ ScriptRunFault.OutOfMemory) }
    ensures flag { R.failed reader.new ≡ failed_read result }
{
    while bytes.len() <= LIMIT {
        let room = buffer.len().min(LIMIT + 1 - bytes.len());
        if !read_some(reader, &mut buffer[..room], bytes)? {
            return Ok(());
        }
    }
    Err(ScriptRunFault::TooMuch)
}

/// Appends the bytes of one read, and returns whether there were some.
fn read_some<R: Source>(
    reader: &mut R,
    buffer: &mut [u8],
    bytes: &mut Vec<u8>,
) -> Result<bool, ScriptRunFault>
    requires works { R.failed reader.old ≡ false }
    requires room { 0 < length buffer.old }
    ensures piece { IfOk result (λ more. (piece : List ℕ) × (bytes.new.items ≡ bytes.old.items ++ piece)
        × Consumes (R.remaining reader.old) (R.remaining reader.new) piece
        × (length piece ≤ length buffer.old)
        × MatchBool more (0 < length piece) ((piece ≡ []) × IsAtEnd (R.remaining reader.new))) }
    ensures taken { OnErr result (TakesAtMost (R.remaining reader.old) (R.remaining reader.new) (length buffer.old)) }
    ensures fault { IfErr result (λ fault. fault ≢ ScriptRunFault.Read → fault ≡ ScriptRunFault.OutOfMemory) }
    ensures flag { R.failed reader.new ≡ failed_read result }
{
    let Some(count) = reader.read(buffer) else {
        return Err(ScriptRunFault::Read);
    };
    bytes.extend_from_slice(&buffer[..count])?;
    Ok(count > 0)
}

/// Writes all of the bytes.
///
/// # Errors
///
/// [`ScriptRunFault::Write`] if a write fails or takes no byte. What was written before it, a prefix of the bytes, stays
/// written.
pub fn write_all<W: Sink>(writer: &mut W, bytes: &[u8]) -> Result<(), ScriptRunFault>
    requires { W.failed writer.old ≡ false }
    ensures all { OnOk result (Appends (W.contents writer.old) (W.contents writer.new) bytes.now) }
    ensures front { OnErr result (AppendsFront (W.contents writer.old) (W.contents writer.new) bytes.now) }
    ensures fault { IfErr result (λ fault. fault ≡ ScriptRunFault.Write) }
    ensures flag { W.failed writer.new ≡ failed_write result }
{
    let mut rest = bytes;
    while !rest.is_empty() {
        let Some(count) = writer.write(rest) else {
            return Err(ScriptRunFault::Write);
        };
        rest = &rest[count..];
    }
    Ok(())
}
