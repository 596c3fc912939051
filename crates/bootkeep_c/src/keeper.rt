//! Keepers, which C holds by a handle.

ghost use Rattle.std.specs.Prelude.{◌≡◌, ◌≢◌, ◌⊎◌, Some, None, IfOk, IfErr, IfSome, IfNone};
ghost use Rattle.std.specs.String.{string_bytes};
ghost use Rattle.uefi_vars.specs.declared.fault.SetFault.{SetFault};
ghost use Rattle.uefi_vars.specs.Vars.{Variables};
ghost use Rattle.uefi_vars.specs.Set.{SpellsSet};
ghost use Rattle.uefi_vars.specs.Fault.{IsFirstFault};
ghost use Rattle.boot_requests.specs.declared.event.Event.{Event};
ghost use Rattle.boot_requests.specs.declared.reply.Reply.{Reply};
ghost use Rattle.boot_requests.specs.declared.fault.OpenFault.{OpenFault};
ghost use Rattle.boot_requests.specs.State.{State};
ghost use Rattle.boot_requests.specs.StoredState.{OpensAs, IsOpenFault};
ghost use Rattle.boot_requests.specs.Turn.{plain_start};
ghost use Rattle.boot_requests.specs.Words.{line_of};
ghost use Rattle.bootkeep_c.specs.declared.failure.Failure.{Failure};
ghost use Rattle.bootkeep_c.specs.Status.{done, refused, no_memory, closed, IsMakeStatus};
ghost use Rattle.bootkeep_c.specs.Refusals.{set_failure, open_failure, Tells, TellsUnless};
ghost use Rattle.bootkeep_c.specs.Handle.{open_number};
ghost use Rattle.bootkeep_c.specs.Buffer.{IsKept};
ghost use Rattle.bootkeep_c.specs.Steps.{StepsTo, ComesOf, TellsSet};
ghost use Rattle.bootkeep_c.specs.Runnings.{IsKeepFailure};

use crate::buffer::give;
use crate::failure::Failure;
use crate::handle::{KeeperHandle, KeeperRoom};
use crate::open::open;
use crate::refusal::Refusal;
use crate::status::{CLOSED, DONE, NO_MEMORY};
use boot_requests::{Bytes, Event, Keeper, laws, reply_line};
use std::alloc::{AllocError, Global};
use uefi_vars::{laws as vars_laws, read_set, write_set};

/// Opens a keeper of the variables of a set, in memory of which nothing is read.
#[unsafe(no_mangle)]
pub extern "C" fn bootkeep_keeper_open(
    alloc: Global,
    keeper: &mut KeeperRoom,
    set: &[u8],
    refusal: &mut Refusal,
) -> u32
    // What is there owns nothing: an open keeper would be lost.
    requires { keeper.old.seal.kept ≡ None }
    // The keeper of variables that open as a state, in which nothing waits and nothing is prepared.
    ensures opened { (vars : Variables) (m : State) → SpellsSet set.now vars → OpensAs vars m →
        ((result ≡ done) × (keeper.new.seal.kept ≡ Some (plain_start m))) ⊎ (result ≡ no_memory) }
    // The first fault is told: that of the set, or otherwise that of its variables.
    ensures set_fault { (fault : SetFault) → IsFirstFault set.now fault →
        TellsUnless (set_failure fault) result refusal.old refusal.new }
    ensures open_fault { (vars : Variables) (fault : OpenFault) → SpellsSet set.now vars → IsOpenFault vars fault →
        TellsUnless (open_failure fault) result refusal.old refusal.new }
    ensures found { result ≡ done → (vars : Variables) × (m : State) × SpellsSet set.now vars × OpensAs vars m
        × (keeper.new.seal.kept ≡ Some (plain_start m)) }
    ensures told { result ≡ refused → (failed : Failure)
        × IsKeepFailure set.now failed × Tells failed result refusal.old refusal.new }
    ensures status { IsMakeStatus result }
    // What isn't opened is closed, and the handle tells which it is.
    ensures closed { result ≢ done → keeper.new.seal.kept ≡ None }
    ensures handle { keeper.new.is_open ≡ open_number keeper.new.seal.kept }
    ensures refusal { result ≢ refused → refusal.new ≡ refusal.old }
{
    vars_laws::bytes_spell_one_set();
    laws::variables_open_as_one_state();
    laws::what_opens_has_no_fault();
    match boxed(alloc, set) {
        Ok(opened) => {
            keeper.fill(KeeperHandle::opened(opened));
            DONE
        }
        Err(failure) => tell_closed(alloc, failure, keeper, refusal),
    }
}

/// Tells why there is no keeper, and writes a closed handle.
fn tell_closed(
    alloc: Global,
    failure: Failure,
    keeper: &mut KeeperRoom,
    refusal: &mut Refusal,
) -> u32
    requires { keeper.old.seal.kept ≡ None }
    ensures told { Tells failure result refusal.old refusal.new }
    ensures left { keeper.new.seal.kept ≡ None }
    ensures is_open { keeper.new.is_open ≡ 0 }
{
    keeper.fill(KeeperHandle::closed(alloc));
    failure.tell(refusal)
}

/// A keeper of the variables of a set, in a box.
fn boxed(alloc: Global, set: &[u8]) -> Result<Box<Keeper>, Failure>
    ensures found { IfOk result (λ keeper. (vars : Variables) × (m : State) × SpellsSet set.now vars × OpensAs vars m
        × (keeper.value ≡ plain_start m)) }
    ensures fault { IfErr result (λ failed. failed ≢ Failure.Memory → IsKeepFailure set.now failed) }
{
    let vars = read_set(alloc, set)?;
    let keeper = open(alloc, vars)?;
    Ok(Box::new(alloc, keeper)?)
}

/// These bytes are delivered to the keeper, which may be a frame.
#[unsafe(no_mangle)]
pub extern "C" fn bootkeep_keeper_deliver(
    alloc: Global,
    keeper: &mut KeeperHandle,
    frame: &[u8],
    out: &mut [u8],
    len: &mut usize,
) -> u32
    ensures event { ComesOf (Event.Deliver frame.now) result keeper.old.seal.kept keeper.new.seal.kept
        out.old out.new len.old len.new }
{
    if keeper.is_open == 0 {
        return CLOSED;
    }
    let Ok(bytes) = Vec::from_slice(alloc, frame) else {
        return NO_MEMORY;
    };
    take_event(alloc, keeper, &Event::Deliver(Bytes::new(bytes)), out, len)
}

/// A boot is prepared.
#[unsafe(no_mangle)]
pub extern "C" fn bootkeep_keeper_prepare(
    alloc: Global,
    keeper: &mut KeeperHandle,
    out: &mut [u8],
    len: &mut usize,
) -> u32
    ensures event { ComesOf Event.Prepare result keeper.old.seal.kept keeper.new.seal.kept
        out.old out.new len.old len.new }
{
    take_event(alloc, keeper, &Event::Prepare, out, len)
}

/// The plan that is prepared is handed out.
#[unsafe(no_mangle)]
pub extern "C" fn bootkeep_keeper_hand(
    alloc: Global,
    keeper: &mut KeeperHandle,
    out: &mut [u8],
    len: &mut usize,
) -> u32
    ensures event { ComesOf Event.Hand result keeper.old.seal.kept keeper.new.seal.kept
        out.old out.new len.old len.new }
{
    take_event(alloc, keeper, &Event::Hand, out, len)
}

/// The keeper starts again.
#[unsafe(no_mangle)]
pub extern "C" fn bootkeep_keeper_restart(
    alloc: Global,
    keeper: &mut KeeperHandle,
    out: &mut [u8],
    len: &mut usize,
) -> u32
    ensures event { ComesOf Event.Restart result keeper.old.seal.kept keeper.new.seal.kept
        out.old out.new len.old len.new }
{
    take_event(alloc, keeper, &Event::Restart, out, len)
}

/// The keeper takes the event, if it is open and there is room for the line of the reply.
fn take_event(
    alloc: Global,
    keeper: &mut KeeperHandle,
    event: &Event,
    out: &mut [u8],
    len: &mut usize,
) -> u32
    ensures { ComesOf event.now result keeper.old.seal.kept keeper.new.seal.kept out.old out.new len.old len.new }
{
    let Some(open) = keeper.take(alloc) else {
        return CLOSED;
    };
    let (open, status) = answered(alloc, open, event, out, len);
    *keeper = KeeperHandle::opened(open);
    status
}

/// The keeper after the event, if it happens, and otherwise the keeper as it was; and the status.
fn answered(
    alloc: Global,
    keeper: Box<Keeper>,
    event: &Event,
    out: &mut [u8],
    len: &mut usize,
) -> (Box<Keeper>, u32)
    ensures { ComesOf event.now result.1 (Some keeper.value) (Some result.0.value) out.old out.new len.old len.new }
{
    let mut keeper = keeper;
    let Ok((next, line)) = stepped(alloc, keeper.as_ref(), event) else {
        return (keeper, NO_MEMORY);
    };
    let status = give(line.as_bytes(), out, len);
    go_on(&mut keeper, next, status);
    (keeper, status)
}

/// Puts the next keeper in the place of this one, if the line of the reply was given.
pub(crate) fn go_on(keeper: &mut Box<Keeper>, next: Keeper, status: u32)
    ensures given { status ≡ done → keeper.new.value ≡ next }
    ensures otherwise { status ≢ done → keeper.new.value ≡ keeper.old.value }
{
    if status == DONE {
        drop(Box::replace(keeper, next));
    }
}

/// The keeper after the event, and the line of the reply.
fn stepped(alloc: Global, keeper: &Keeper, event: &Event) -> Result<(Keeper, String), AllocError>
    ensures { IfOk result (λ answer. (reply : Reply)
        × StepsTo keeper.now event.now answer.0 reply × (string_bytes answer.1 ≡ line_of reply)) }
{
    let (after, reply) = keeper.step(alloc, event)?;
    let line = reply_line(alloc, &reply)?;
    Ok((after, line))
}

/// The variables of the machine as they are to be stored.
#[unsafe(no_mangle)]
pub extern "C" fn bootkeep_keeper_set(
    alloc: Global,
    keeper: &mut KeeperHandle,
    out: &mut [u8],
    len: &mut usize,
) -> u32
    ensures set { IfSome keeper.old.seal.kept (λ from. TellsSet result from out.old out.new len.old len.new) }
    ensures closed { IfNone keeper.old.seal.kept ((result ≡ closed) × IsKept out.old out.new len.old len.new) }
    ensures untouched { keeper.new.seal.kept ≡ keeper.old.seal.kept }
{
    let Some(open) = keeper.take(alloc) else {
        return CLOSED;
    };
    let status = give_set(alloc, open.as_ref(), out, len);
    *keeper = KeeperHandle::opened(open);
    status
}

/// Gives the bytes of the variables of a keeper.
fn give_set(alloc: Global, keeper: &Keeper, out: &mut [u8], len: &mut usize) -> u32
    ensures { TellsSet result keeper.now out.old out.new len.old len.new }
{
    match write_set(alloc, keeper.vars()) {
        Ok(bytes) => give(&bytes, out, len),
        Err(_) => NO_MEMORY,
    }
}

/// The number of the request that is to be applied next.
#[unsafe(no_mangle)]
pub extern "C" fn bootkeep_keeper_next_number(
    alloc: Global,
    keeper: &mut KeeperHandle,
    number: &mut u32,
) -> u32
    ensures number { IfSome keeper.old.seal.kept (λ from. (result ≡ done) × (number.new ≡ from.state.next_number)) }
    ensures closed { IfNone keeper.old.seal.kept ((result ≡ closed) × (number.new ≡ number.old)) }
    ensures untouched { keeper.new.seal.kept ≡ keeper.old.seal.kept }
{
    let Some(open) = keeper.take(alloc) else {
        return CLOSED;
    };
    *number = open.as_ref().next_number();
    *keeper = KeeperHandle::opened(open);
    DONE
}

/// Gives up what the keeper holds.
#[unsafe(no_mangle)]
pub extern "C" fn bootkeep_keeper_close(alloc: Global, keeper: &mut KeeperHandle) -> u32
    ensures left { keeper.new.seal.kept ≡ None }
    ensures was_open { IfSome keeper.old.seal.kept (λ _. result ≡ done) }
    ensures was_closed { IfNone keeper.old.seal.kept (result ≡ closed) }
{
    match keeper.take(alloc) {
        Some(open) => {
            drop(open);
            DONE
        }
        None => CLOSED,
    }
}
