//! Streams of frames, run over sets of variables.

ghost use Rattle.std.specs.Prelude.{◌≡◌, ◌≢◌, ◌⊎◌, ℕ, List, IfOk, IfErr};
ghost use Rattle.std.specs.String.{string_bytes};
ghost use Rattle.uefi_vars.specs.declared.fault.SetFault.{SetFault};
ghost use Rattle.uefi_vars.specs.Vars.{Variables};
ghost use Rattle.uefi_vars.specs.Set.{SpellsSet};
ghost use Rattle.uefi_vars.specs.Fault.{IsFirstFault};
ghost use Rattle.boot_requests.specs.declared.event.Event.{Event};
ghost use Rattle.boot_requests.specs.declared.fault.OpenFault.{OpenFault};
ghost use Rattle.boot_requests.specs.declared.script_fault.ScriptFault.{ScriptFault};
ghost use Rattle.boot_requests.specs.State.{State};
ghost use Rattle.boot_requests.specs.StoredState.{OpensAs, IsOpenFault};
ghost use Rattle.boot_requests.specs.EventStream.{IsStream};
ghost use Rattle.bootkeep_c.specs.declared.failure.Failure.{Failure};
ghost use Rattle.bootkeep_c.specs.Status.{done, refused, no_room, no_memory, IsGiveStatus};
ghost use Rattle.bootkeep_c.specs.Refusals.{set_failure, open_failure, stream_failure, Tells, TellsUnless};
ghost use Rattle.bootkeep_c.specs.Runs.{IsStreamFailure, RanOver, GivesBoth};
ghost use Rattle.bootkeep_c.specs.Runnings.{IsRunFailure};

use crate::buffer::put_in_front;
use crate::failure::Failure;
use crate::open::open;
use crate::refusal::{Refusal, STREAM_REST};
use crate::status::{DONE, NO_ROOM};
use boot_requests::{Event, ScriptFault, answer_lines, laws, read_stream};
use std::alloc::Global;
use uefi_vars::{laws as vars_laws, read_set, write_set};

/// Delivers each frame of a stream to a keeper of the set, and gives the set after them and the lines of the replies.
#[unsafe(no_mangle)]
pub extern "C" fn bootkeep_run(
    alloc: Global,
    set: &[u8],
    stream: &[u8],
    set_out: &mut [u8],
    set_len: &mut usize,
    lines: &mut [u8],
    lines_len: &mut usize,
    refusal: &mut Refusal,
) -> u32
    // What can be run is run, if there is room and memory.
    ensures runs { (vars : Variables) (m : State) (events : List Event) →
        SpellsSet set.now vars → IsStream stream.now events → OpensAs vars m →
        result ≡ done ⊎ (result ≡ no_room ⊎ (result ≡ no_memory)) }
    // What is given is what the run comes to.
    ensures given { (result ≡ done) ⊎ (result ≡ no_room) → (after : List ℕ) × (text : List ℕ)
        × RanOver set.now stream.now after text
        × GivesBoth result after text set_out.old set_out.new lines.old lines.new set_len.new lines_len.new }
    // The first fault is told: that of the set, otherwise that of the stream, otherwise that of the variables.
    ensures set_fault { (fault : SetFault) → IsFirstFault set.now fault →
        TellsUnless (set_failure fault) result refusal.old refusal.new }
    ensures stream_fault { (vars : Variables) (failed : Failure) → SpellsSet set.now vars →
        IsStreamFailure stream.now failed → TellsUnless failed result refusal.old refusal.new }
    ensures open_fault { (vars : Variables) (events : List Event) (fault : OpenFault) →
        SpellsSet set.now vars → IsStream stream.now events → IsOpenFault vars fault →
        TellsUnless (open_failure fault) result refusal.old refusal.new }
    ensures told { result ≡ refused → (failed : Failure)
        × IsRunFailure set.now stream.now failed × Tells failed result refusal.old refusal.new }
    ensures status { IsGiveStatus result }
    // What isn't told stays as it was.
    ensures untouched { result ≢ done → (set_out.new ≡ set_out.old) × (lines.new ≡ lines.old) }
    ensures len { result ≡ done ⊎ (result ≡ no_room
        ⊎ ((set_len.new ≡ set_len.old) × (lines_len.new ≡ lines_len.old))) }
    ensures refusal { result ≢ refused → refusal.new ≡ refusal.old }
{
    vars_laws::bytes_spell_one_set();
    laws::variables_open_as_one_state();
    laws::what_opens_has_no_fault();
    match ran_over(alloc, set, stream) {
        Ok((after, text)) => give_both(&after, set_out, set_len, text.as_bytes(), lines, lines_len),
        Err(failure) => failure.tell(refusal),
    }
}

/// Gives both answers, if there is room for both.
fn give_both(
    first: &[u8],
    first_out: &mut [u8],
    first_len: &mut usize,
    second: &[u8],
    second_out: &mut [u8],
    second_len: &mut usize,
) -> u32
    ensures { GivesBoth result first.now second.now first_out.old first_out.new second_out.old second_out.new
        first_len.new second_len.new }
{
    *first_len = first.len();
    *second_len = second.len();
    if first.len() > first_out.len() || second.len() > second_out.len() {
        return NO_ROOM;
    }
    put_in_front(first, first_out);
    put_in_front(second, second_out);
    DONE
}

/// The set after a stream, and the lines of the replies.
fn ran_over(alloc: Global, set: &[u8], stream: &[u8]) -> Result<(Vec<u8>, String), Failure>
    ensures ran { IfOk result (λ ran. RanOver set.now stream.now ran.0.items (string_bytes ran.1)) }
    ensures fault { IfErr result (λ failed. failed ≢ Failure.Memory →
        IsRunFailure set.now stream.now failed) }
{
    let vars = read_set(alloc, set)?;
    let events = read_events(alloc, stream)?;
    let keeper = open(alloc, vars)?;
    let (keeper, lines) = answer_lines(alloc, keeper, &events)?;
    let bytes = write_set(alloc, keeper.vars())?;
    Ok((bytes, lines))
}

/// The delivery of each frame of a stream.
pub(crate) fn read_events(alloc: Global, stream: &[u8]) -> Result<Vec<Event>, Failure>
    ensures found { IfOk result (λ events. IsStream stream.now events.items) }
    ensures fault { IfErr result (λ failed. failed ≢ Failure.Memory → IsStreamFailure stream.now failed) }
{
    match read_stream(alloc, stream) {
        Ok(events) => Ok(events),
        Err(fault) => Err(stream_failure(fault)),
    }
}

/// Why a call has no answer if a stream has this fault.
fn stream_failure(fault: ScriptFault) -> Failure
    requires { (number : ℕ) → fault ≢ ScriptFault.BadLine number }
    ensures { result ≡ stream_failure fault }
{
    match fault {
        ScriptFault::Stream(fault) => Failure::from(fault),
        ScriptFault::Rest(count) => Failure::at(STREAM_REST, count),
        ScriptFault::OutOfMemory => Failure::Memory,
        ScriptFault::BadLine(_) => unreachable!(),
    }
}
