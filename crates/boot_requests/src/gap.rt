//! The request of the next number, and those that follow it without a gap.

ghost use Rattle.std.specs.Prelude.{◌≡◌, ◌+◌, ◌-◌, ◌<◌, ◌≤◌, length, IfOk};
ghost use Rattle.uefi_vars.specs.NameChanges.{with_changes};
ghost use Rattle.boot_requests.specs.Limits.{payload_max, no_number};
ghost use Rattle.boot_requests.specs.Request.{payload_of};
ghost use Rattle.boot_requests.specs.Apply.{outcome_of, after_request};
ghost use Rattle.boot_requests.specs.Turn.{plain_start, settled_state};
ghost use Rattle.boot_requests.specs.Keeper.{IsStateOf};
ghost use Rattle.boot_requests.specs.StateOf.{state_of};
ghost use Rattle.boot_requests.specs.Slots.{waiting_of, IsWindow};

use crate::edit::store_mark;
use crate::effect::carry_out;
use crate::mark::Mark;
use crate::outcome::Outcome;
use crate::request::Request;
use crate::window::Window;
use std::alloc::{AllocError, Global};
use uefi_vars::{Changes, Vars};

/// Gathers what the request of the next number asks for, and the mark that it was applied. What came of it, and the
/// mark then. If memory is refused, the changes may be of no use any more.
pub(crate) fn apply(
    alloc: Global,
    vars: &Vars,
    changes: &mut Changes,
    mark: &Mark,
    request: &Request,
) -> Result<(Outcome, Mark), AllocError>
    requires stands { let before = with_changes vars.now changes.old in
        IsStateOf (state_of before mark.now) before }
    requires room { mark.now.next_number < no_number }
    requires fits { length (payload_of request.now) ≤ payload_max }
    ensures outcome { IfOk result (λ done.
        done.0 ≡ outcome_of (state_of (with_changes vars.now changes.old) mark.now) request.now) }
    ensures number { IfOk result (λ done. done.1.next_number ≡ mark.now.next_number + 1) }
    ensures state { IfOk result (λ done. state_of (with_changes vars.now changes.new) done.1
        ≡ after_request (state_of (with_changes vars.now changes.old) mark.now) request.now) }
    ensures stands { IfOk result (λ done. let after = with_changes vars.now changes.new in
        IsStateOf (state_of after done.1) after) }
{
    let outcome = carry_out(alloc, vars, changes, request)?;
    let after = mark.after(alloc, outcome)?;
    store_mark(alloc, changes, &after)?;
    Ok((outcome, after))
}

/// Gathers the same for those of the waiting requests that follow the one that was just applied without a gap, in the
/// order of their numbers. The mark after them. The requests are read where they wait, and stay there. If memory is
/// refused, the changes may be of no use any more.
pub(crate) fn apply_followers(
    alloc: Global,
    vars: &Vars,
    changes: &mut Changes,
    window: &Window,
    mark: Mark,
) -> Result<Mark, AllocError>
    requires stands { let before = with_changes vars.now changes.old in
        IsStateOf (state_of before mark) before }
    requires applied { 0 < mark.next_number }
    requires waits { IsWindow (mark.next_number - 1) window.now }
    ensures number { IfOk result (λ all. mark.next_number ≤ all.next_number) }
    ensures state { IfOk result (λ all. state_of (with_changes vars.now changes.new) all
        ≡ (settled_state (plain_start (state_of (with_changes vars.now changes.old) mark))
        (waiting_of (mark.next_number - 1) window.now)).state) }
    ensures stands { IfOk result (λ all. let after = with_changes vars.now changes.new in
        IsStateOf (state_of after all) after) }
{
    let next = mark.next_number() - 1;
    let mut now = mark;
    while let Some(request) = window.get(next, now.next_number()) {
        let (_outcome, after) = apply(alloc, vars, changes, &now, request)?;
        now = after;
    }
    Ok(now)
}
