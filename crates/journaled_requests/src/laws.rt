//! Laws of the definitions. Each function's contract is one law; calling it does nothing.

ghost use Rattle.std.specs.Prelude.{◌≡◌, ℕ, ◌<◌, false, true, List, [], ◌∷◌, map as list_map, ◌↔◌, IsTrue};
ghost use Rattle.std.specs.List.{AllByRecursion};
ghost use Rattle.std.specs.FinMap as map;
ghost use Rattle.uefi_vars.specs.Name.{keep_text};
ghost use Rattle.uefi_vars.specs.Vars.{Variables};
ghost use Rattle.uefi_vars.specs.NameChanges.{after_each};
ghost use Rattle.uefi_vars.specs.BootChange.{same_name, is_boot_name};
ghost use Rattle.boot_requests.specs.declared.answer.Answer.{Answer};
ghost use Rattle.boot_requests.specs.declared.event.Event as event;
ghost use Rattle.boot_requests.specs.Answering.{replies_of, requests_of};
ghost use Rattle.boot_requests.specs.Changes.{numbers_in};
ghost use Rattle.boot_requests.specs.Followers.{request_of};
ghost use Rattle.boot_requests.specs.Reply.{AreAnswers};
ghost use Rattle.boot_requests.specs.Run.{state_at, history, run_followed_by};
ghost use Rattle.boot_requests.specs.Seen.{Seen, AreSeen};
ghost use Rattle.boot_requests.specs.State.{State, MarkParts};
ghost use Rattle.boot_requests.specs.StoredState.{HasMark};
ghost use Rattle.boot_notes.specs.declared.digest.FrameDigest.{FrameDigest};
ghost use Rattle.boot_journal.specs.Attributes.{attributes_in, KeepAttributes};
ghost use Rattle.boot_journal.specs.Changes.{LeaveAlone};
ghost use Rattle.boot_journal.specs.Events.{Event, World, all_happen};
ghost use Rattle.boot_journal.specs.Journal.{changes_of};
ghost use Rattle.boot_journal.specs.Store.{IsIdle, stands_for, brought};
ghost use Rattle.boot_journal.specs.Turns.{Turn, after_turns, happened, StartsAreNew};
ghost use Rattle.journaled_requests.specs.declared.requests.RunFault.{RunFault};
ghost use Rattle.journaled_requests.specs.Applied.{applied_in};
ghost use Rattle.journaled_requests.specs.Calls.{Step, world_after, AreSteps, HaveNewStarts, FirmwareDid, did_by_firmware, CallsLeaveAlone, AreByCalls};
ghost use Rattle.journaled_requests.specs.Noted.{IsOfApplied};
ghost use Rattle.journaled_requests.specs.Once.{Update, AreUpdatesIn, run_of, AreAppliedOnce};
ghost use Rattle.journaled_requests.specs.Requests.{KeepsState, IsUpdateBy, IsOfAnother, IsRunOf, StaysThere, AgreesButForNext};

use crate::requests::RunFault;
use boot_journal::laws as journal_laws;
use boot_requests::laws as request_laws;
use uefi_vars::laws as vars_laws;

/// Firmware's own, over a list of calls of [`command`] and [`settle`], each cut off anywhere or refused anything. A variable
/// other than BootKeepState of which no change was to be done at first, and of which no change would be made by a run of a
/// call's events, is at the end as firmware alone made it. A start that deletes BootNext counts as firmware's.
///
/// [`command`]: boot_journal::command
/// [`settle`]: boot_journal::settle
pub fn calls_keep_what_firmware_did()
    ensures { (w : World) (steps : List Step) (name : List ℕ) → AreSteps w steps → same_name name keep_text ≡ false →
        LeaveAlone name (changes_of w.store.journal.pending) → CallsLeaveAlone name w steps →
        map.get (world_after w steps).store.variables name ≡ map.get (after_each w.store.variables (did_by_firmware steps)) name }
{}

/// Exactly once. If the updates that happened are by requests, and firmware did nothing to the boot manager's variables
/// but start the machine and delete BootNext, then the machine stands for variables that, without their attributes,
/// open as a state with the entries, the order, the next number and the outcomes of the run of all their events, with a
/// restart between two updates: each accepted request is applied once, in the order of the numbers. BootNext is that of
/// the run, or is gone.
pub fn each_request_is_applied_once()
    ensures { (w : World) (events : List Event) (start : State) (run : List Seen) → IsIdle w.store → StartsAreNew (w.boot ∷ []) events →
        KeepsState (stands_for w.boot w.store) start → IsRunOf (stands_for w.boot w.store) (happened w events) run →
        (now : State) × KeepsState (stands_for (all_happen w events).boot (all_happen w events).store) now
        × AgreesButForNext now (state_at start run) }
{
    vars_laws::each_change_is_needed();
    turns_apply_each_request_once();
    journal_laws::keep_is_no_boot_name();
}

/// Exactly once, whatever firmware does. If the updates that happened are by requests, each of variables that open as a
/// state without their attributes, then what the machine stands for has a next number and outcomes, each update began
/// with those that the one before it left, and what all of them applied is what their run as a whole applies, with a
/// restart between two updates: each number from the first one to below the next one once, in order. Firmware may have
/// changed any variable in between: BootKeepState, which has the two, is in the journal.
pub fn each_number_is_applied_once_whatever_firmware_does()
    ensures { (w : World) (events : List Event) (first : MarkParts) (updates : List Update) → IsIdle w.store → StartsAreNew (w.boot ∷ []) events →
        HasMark (stands_for w.boot w.store) first.next_number first.kept →
        AreUpdatesIn (stands_for w.boot w.store) (happened w events) updates →
        (last : MarkParts) × HasMark (stands_for (all_happen w events).boot (all_happen w events).store) last.next_number last.kept
        × AreAppliedOnce first last updates }
{
    vars_laws::each_change_is_needed();
    journal_laws::keep_is_no_boot_name();
    request_laws::a_run_leads_to_a_state();
}

/// Exactly once, over a list of calls. A machine is settled at first; then [`command`] is called for lists of events,
/// and [`settle`], one after the other, each cut off anywhere or refused anything; in between the machine is started,
/// each time under a new identity, and firmware changes whatever variables it likes. Then some updates happened: one by
/// each call that was done, none by a call that says that nothing changed or that nothing was run, and at most one by
/// each other call, in the order of the calls, and each of the state as which opened what the machine stood for at the
/// call, without attributes. What they applied is what their run as a whole applies: each number once, in order, from
/// the first one to below the one that is the next then.
///
/// [`command`]: boot_journal::command
/// [`settle`]: boot_journal::settle
pub fn calls_apply_each_number_once()
    ensures { (w : World) (steps : List Step) (first : MarkParts) → IsIdle w.store → AreSteps w steps → HaveNewStarts w.boot steps →
        HasMark (stands_for w.boot w.store) first.next_number first.kept →
        (updates : List Update) × AreByCalls w steps updates
        × (last : MarkParts) × HasMark (stands_for (world_after w steps).boot (world_after w steps).store) last.next_number last.kept
        × AreAppliedOnce first last updates }
{
    vars_laws::each_change_is_needed();
    journal_laws::keep_is_no_boot_name();
    request_laws::a_run_leads_to_a_state();
}

/// Exactly once, over a list of calls, and with all that requests change. If over such a list firmware did nothing to
/// the boot manager's variables but start the machine and delete BootNext, then the machine stands for variables that,
/// without their attributes, open as a state with the entries, the order, the next number and the outcomes of the run
/// of the updates that happened, with a restart between two of them. BootNext is that of the run, or is gone.
pub fn calls_apply_each_request_once()
    ensures { (w : World) (steps : List Step) (start : State) → IsIdle w.store → AreSteps w steps → HaveNewStarts w.boot steps →
        FirmwareDid (AllByRecursion IsOfAnother) steps → KeepsState (stands_for w.boot w.store) start →
        (updates : List Update) × AreByCalls w steps updates
        × (now : State) × KeepsState (stands_for (world_after w steps).boot (world_after w steps).store) now
        × AgreesButForNext now (state_at start (run_of updates)) }
{
    vars_laws::each_change_is_needed();
    turns_apply_each_request_once();
    journal_laws::keep_is_no_boot_name();
}

/// Attributes outlive updates by requests. What an update leaves under the name of a variable of the boot manager, if
/// anything, has the attributes of what was there before it, or those of a new variable if nothing was. So a variable
/// that is there after each update and each start, and that firmware doesn't change, has the attributes at the end that
/// it had first, or those of a new variable if it wasn't there first: whatever updates replaced it, over whatever
/// turns, and over every list of events, of which an update may be cut off or taken back anywhere.
pub fn updates_keep_attributes()
    ensures update { (from to : Variables) (seen : List Seen) → IsUpdateBy from seen to → KeepAttributes from (brought from to) }
    ensures turns { (start : Variables) (turns : List Turn) (updates : List Update) (name : List ℕ) → is_boot_name name ≡ true →
        AreUpdatesIn start turns updates → StaysThere name start turns →
        attributes_in (map.get (after_turns start turns) name) ≡ attributes_in (map.get start name) }
    ensures events { (w : World) (events : List Event) (updates : List Update) (name : List ℕ) → IsIdle w.store →
        StartsAreNew (w.boot ∷ []) events → is_boot_name name ≡ true →
        AreUpdatesIn (stands_for w.boot w.store) (happened w events) updates →
        StaysThere name (stands_for w.boot w.store) (happened w events) →
        attributes_in (map.get (stands_for (all_happen w events).boot (all_happen w events).store) name)
        ≡ attributes_in (map.get (stands_for w.boot w.store) name) }
{
    vars_laws::each_change_is_needed();
    vars_laws::all_changes_lead_to_the_other_set();
    journal_laws::keep_is_no_boot_name();
}

/// `==` on the faults of a run of requests tells whether they are equal.
pub fn run_faults_compare_as_values()
    ensures { (a b : RunFault) → IsTrue (⟦<RunFault as PartialEq>⟧.eq a b) ↔ (a ≡ b) }
{}

/// What the laws on requests have of lists of events and of calls, over turns: if each update among these is by requests, and
/// firmware did nothing to the boot manager's variables but delete BootNext, each accepted request is applied once.
fn turns_apply_each_request_once()
    ensures { (vars : Variables) (turns : List Turn) (start : State) (run : List Seen) → KeepsState vars start → IsRunOf vars turns run →
        (now : State) × KeepsState (after_turns vars turns) now × AgreesButForNext now (state_at start run) }
{
    journal_laws::keep_is_no_boot_name();
    vars_laws::all_changes_lead_to_the_other_set();
    vars_laws::entry_names_are_those_of_numbers();
    vars_laws::order_and_next_are_no_entries();
    request_laws::a_run_leads_to_a_state();
    request_laws::each_plain_state_has_a_turn();
    request_laws::a_turn_goes_on_with_the_run();
    request_laws::a_start_stands_for_no_events();
    request_laws::an_image_is_migrated_to_itself();
}

/// Each digest that is noted of a run, by the answers to its events, is that of the frame which was applied under its number.
pub fn what_is_noted_was_applied()
    ensures { (start : State) (events : List event.Event) (seen : List Seen) (answers : List Answer) →
        AreSeen events seen → AreAnswers start [] seen (replies_of answers) → requests_of answers ≡ list_map request_of seen →
        AllByRecursion (IsOfApplied start.next_number (run_followed_by [] seen)) (applied_in events answers) }
{}

/// A digest is noted of each request that a run applied, in the order in which it applied them.
pub fn each_that_was_applied_is_noted()
    ensures { (start : State) (events : List event.Event) (seen : List Seen) (answers : List Answer) →
        AreSeen events seen → AreAnswers start [] seen (replies_of answers) → requests_of answers ≡ list_map request_of seen →
        list_map (λ (kept : FrameDigest). kept.number) (applied_in events answers)
        ≡ numbers_in (history start.next_number (run_followed_by [] seen)) }
{}
