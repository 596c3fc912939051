//! Scripts and streams, run over variables.

ghost use Rattle.std.specs.Prelude.{◌≡◌, ◌≢◌, ℕ, ◌+◌, ◌<◌, List, IfOk, IfErr, false};
ghost use Rattle.std.specs.String.{string_bytes};
ghost use Rattle.boot_requests.specs.declared.input_format.InputFormat.TheVariants as input;
ghost use Rattle.boot_requests.specs.declared.reply.Reply.{Reply};
ghost use Rattle.boot_requests.specs.declared.script_fault.ScriptFault.{ScriptFault};
ghost use Rattle.boot_requests.specs.InputFormat.{ReadsIn, IsFaultIn};
ghost use Rattle.boot_requests.specs.Limits.{payload_max};
ghost use Rattle.boot_requests.specs.Turn.{plain_start};
ghost use Rattle.boot_requests.specs.StoredState.{OpensAs};
ghost use Rattle.boot_requests.specs.Happens.{answer_lines, Happens};
ghost use Rattle.boot_commands.specs.declared.fault.ScriptRunFault.{ScriptRunFault};
ghost use Rattle.boot_commands.specs.RunFault.{IsVarsFault, failed_read, failed_write};
ghost use Rattle.boot_commands.specs.Answers.{IsAnswer, IsRun};

use crate::fault::ScriptRunFault;
use crate::source::{Sink, Source};
use crate::transfer::{read_all, write_all};
use boot_requests::{
    Event, InputFormat, Keeper, ScriptFault, answer_lines, laws, read_script, read_stream,
};
use std::alloc::Global;
use uefi_vars::Vars;

/// Runs a script or a stream over variables, writes what is answered to each of its events on a line of its own, and
/// returns the variables after it. The input is all that the reader gives, up to its end, and its events are those
/// that [`read_script`] or [`read_stream`] reads; a line of answer is that of
/// [`reply_line`](boot_requests::reply_line) and a line feed. All lines are there before one is written. No call of
/// the reader or the writer may have failed before.
///
/// # Errors
///
/// In this order: [`ScriptRunFault::TooMuch`] if the reader gives more than [`LIMIT`](whole_files::LIMIT) bytes, of
/// which one past the limit is read, and [`ScriptRunFault::Read`] if a read fails before that;
/// [`ScriptRunFault::Script`] with the fault for which the events can't be read; [`ScriptRunFault::Open`] if the
/// variables can't be kept; [`ScriptRunFault::Write`] if a write fails or takes no byte.
/// [`ScriptRunFault::OutOfMemory`] comes if memory was refused. Nothing is written except at
/// [`ScriptRunFault::Write`], when it is a prefix of the lines, and what was read stays read. The variables are given
/// up.
pub fn run_input<R: Source, W: Sink>(
    alloc: Global,
    format: InputFormat,
    reader: &mut R,
    writer: &mut W,
    vars: Vars,
) -> Result<Vars, ScriptRunFault>
    requires reads { R.failed reader.old ≡ false }
    requires writes { W.failed writer.old ≡ false }
    ensures run { IsRun format vars (R.remaining reader.old) (R.remaining reader.new)
        (W.contents writer.old) (W.contents writer.new) result }
    ensures read_flag { R.failed reader.new ≡ failed_read result }
    ensures write_flag { W.failed writer.new ≡ failed_write result }
{
    laws::what_opens_has_no_fault();
    let bytes = read_all(alloc, reader)?;
    let events = read_events(alloc, format, &bytes)?;
    answer(alloc, &events, writer, vars)
}

/// Runs a script over variables, as [`run_input`] does. It has the lines that [`read_script`] reads.
///
/// # Errors
///
/// Those of [`run_input`]. The fault of a script is [`ScriptFault::BadLine`].
pub fn run_script<R: Source, W: Sink>(
    alloc: Global,
    reader: &mut R,
    writer: &mut W,
    vars: Vars,
) -> Result<Vars, ScriptRunFault>
    requires reads { R.failed reader.old ≡ false }
    requires writes { W.failed writer.old ≡ false }
    ensures run { IsRun input.Script vars (R.remaining reader.old) (R.remaining reader.new)
        (W.contents writer.old) (W.contents writer.new) result }
    ensures read_flag { R.failed reader.new ≡ failed_read result }
    ensures write_flag { W.failed writer.new ≡ failed_write result }
{
    run_input(alloc, InputFormat::Script, reader, writer, vars)
}

/// Runs a stream of frames over variables, as [`run_input`] does: each frame is delivered, and answered on a line of
/// its own. It is cut as [`read_stream`] has it.
///
/// # Errors
///
/// Those of [`run_input`]. The fault of a stream is [`ScriptFault::Stream`] or [`ScriptFault::Rest`].
pub fn run_stream<R: Source, W: Sink>(
    alloc: Global,
    reader: &mut R,
    writer: &mut W,
    vars: Vars,
) -> Result<Vars, ScriptRunFault>
    requires reads { R.failed reader.old ≡ false }
    requires writes { W.failed writer.old ≡ false }
    ensures run { IsRun input.Stream vars (R.remaining reader.old) (R.remaining reader.new)
        (W.contents writer.old) (W.contents writer.new) result }
    ensures read_flag { R.failed reader.new ≡ failed_read result }
    ensures write_flag { W.failed writer.new ≡ failed_write result }
{
    run_input(alloc, InputFormat::Stream, reader, writer, vars)
}

/// The events of the bytes.
fn read_events(alloc: Global, format: InputFormat, bytes: &[u8]) -> Result<Vec<Event>, ScriptFault>
    ensures found { IfOk result (λ events. ReadsIn format bytes.now events.items) }
    ensures fault { IfErr result (λ fault.
        fault ≢ ScriptFault.OutOfMemory → IsFaultIn format bytes.now fault) }
    // What is left of a frame is less than the longest one.
    ensures rest { IfErr result (λ fault. (count : ℕ) → fault ≡ ScriptFault.Rest count → count < 12 + payload_max) }
{
    match format {
        InputFormat::Script => read_script(alloc, bytes),
        InputFormat::Stream => read_stream(alloc, bytes),
    }
}

/// Runs the events over variables, and writes the answers.
fn answer<W: Sink>(
    alloc: Global,
    events: &[Event],
    writer: &mut W,
    vars: Vars,
) -> Result<Vars, ScriptRunFault>
    requires writes { W.failed writer.old ≡ false }
    ensures answer { IsAnswer events.now vars (W.contents writer.old) (W.contents writer.new) result }
    ensures flag { W.failed writer.new ≡ failed_write result }
{
    let (vars, lines) = answers_to(alloc, events, vars)?;
    write_all(writer, lines.as_bytes())?;
    Ok(vars)
}

/// The variables after these events, and the lines that answer them.
fn answers_to(alloc: Global, events: &[Event], vars: Vars) -> Result<(Vars, String), ScriptRunFault>
    ensures done { IfOk result (λ done. (answers : List Reply) × Happens vars events.now done.0 answers
        × (string_bytes done.1 ≡ answer_lines answers)) }
    ensures fault { IfErr result (λ fault. fault ≢ ScriptRunFault.OutOfMemory → IsVarsFault vars fault) }
{
    let keeper = open(alloc, vars)?;
    let (keeper, lines) = answer_lines(alloc, keeper, events)?;
    Ok((keeper.into_vars(), lines))
}

/// What keeps the variables.
fn open(alloc: Global, vars: Vars) -> Result<Keeper, ScriptRunFault>
    ensures opened { IfOk result (λ keeper.
        (keeper ≡ plain_start keeper.state) × OpensAs vars keeper.state) }
    ensures fault { IfErr result (λ fault. fault ≢ ScriptRunFault.OutOfMemory → IsVarsFault vars fault) }
{
    match Keeper::open(alloc, vars) {
        Ok(keeper) => Ok(keeper),
        Err(refused) => Err(ScriptRunFault::from(refused.fault)),
    }
}
