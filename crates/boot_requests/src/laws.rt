//! Laws of the definitions. Each function's contract is one law; calling it does nothing.

ghost use Rattle.std.specs.Prelude.{◌≡◌, ◌⊎◌, ◌↔◌, ℕ, ◌-◌, ◌<◌, ◌≤◌, List, [], ◌∷◌, ◌++◌, length, reverse, Contains, Some, None, IsTrue, true, false};
ghost use Rattle.std.specs.List.{AllByRecursion};
ghost use Rattle.std.specs.FinMap as map;
ghost use Rattle.uefi_path.specs.Row.{IsByte};
ghost use Rattle.uefi_option.specs.Attributes.{IsNormal};
ghost use Rattle.uefi_option.specs.LoadOption.{OptionParts};
ghost use Rattle.uefi_vars.specs.declared.boot_plan.Choice.{Choice};
ghost use Rattle.uefi_vars.specs.Vars.{Variables, IsVars};
ghost use Rattle.uefi_vars.specs.Plan.{PlanParts};
ghost use Rattle.boot_requests.specs.declared.event.Event.{Event};
ghost use Rattle.boot_requests.specs.declared.fault.FeedFault.{FeedFault};
ghost use Rattle.boot_requests.specs.declared.fault.FrameFault.{FrameFault};
ghost use Rattle.boot_requests.specs.declared.fault.OpenFault.{OpenFault};
ghost use Rattle.boot_requests.specs.declared.outcome.Code.{Code};
ghost use Rattle.boot_requests.specs.declared.outcome.Outcome.{Outcome};
ghost use Rattle.boot_requests.specs.declared.reply.Reply.{Reply};
ghost use Rattle.boot_requests.specs.declared.request.Request.{Request};
ghost use Rattle.boot_requests.specs.Limits.{width, kept_max, payload_max, no_number};
ghost use Rattle.boot_requests.specs.Request.{IsRequest, payload_of};
ghost use Rattle.boot_requests.specs.Frame.{magic, SpellsFrame};
ghost use Rattle.boot_requests.specs.FrameFault.{IsFirstFault};
ghost use Rattle.boot_requests.specs.State.{State, IsState, IsImage};
ghost use Rattle.boot_requests.specs.Apply.{stores, stored_by, HasPlanOf};
ghost use Rattle.boot_requests.specs.Seen.{Seen, Came, Prepare, Hand, IsEvent, IsSeen};
ghost use Rattle.boot_requests.specs.Changes.{numbers_in, numbers_from};
ghost use Rattle.boot_requests.specs.Run.{run_followed_by, accepted_requests, gap_at, Delivers, AreTaken, AgreeOnNumbers, is_armed, HaveNoHandOrRestart, history, state_at, last_of, sets};
ghost use Rattle.boot_requests.specs.Reply.{IsReply, AreReplies, AreAnswers, hands};
ghost use Rattle.boot_requests.specs.Turn.{Plain, plain_start, Turn};
ghost use Rattle.boot_requests.specs.Keeper.{StandsFor, IsPlain, AreRead, IsStored, IsLeft, IsUntouched};
ghost use Rattle.boot_requests.specs.StoredState.{with_second_mark, OpensAs, IsOpenFault};
ghost use Rattle.boot_requests.specs.Stream.{Cut, IsCut};
ghost use Rattle.boot_requests.specs.declared.script_fault.ScriptFault.{ScriptFault};
ghost use Rattle.boot_requests.specs.Script.{IsScript, IsFirstBadLine};
ghost use Rattle.boot_requests.specs.EventStream.{IsStream, IsStreamFault};

use crate::bytes::Bytes;
use crate::event::Event;
use crate::fault::{FeedFault, FrameFault, OpenFault};
use crate::frame::{FRAME_MAGIC, PAYLOAD_MAX};
use crate::mark::KEPT_MAX;
use crate::outcome::{Code, Outcome};
use crate::reply::Reply;
use crate::request::{OrderList, Request};
use crate::window::WIDTH;
use uefi_option::laws as option_laws;
use uefi_path::laws as path_laws;

/// A turn of the plain state that stands for a run leads to the one that stands for the longer run, and is answered as
/// that run is.
pub fn a_turn_goes_on_with_the_run()
    ensures state { (k to : Plain) (start : State) (run : List Seen) (seen : Seen) (answer : Reply) →
        StandsFor k start run → Turn k seen to answer → StandsFor to start (seen ∷ run) }
    ensures reply { (k to : Plain) (start : State) (run : List Seen) (seen : Seen) (answer : Reply) →
        StandsFor k start run → Turn k seen to answer → IsReply start run seen answer }
{}

/// The state at the start stands for the run in which nothing happened.
pub fn a_start_stands_for_no_events()
    ensures { (start : State) → StandsFor (plain_start start) start [] }
{}

/// The numbers of the requests that a run applied are those from the first one on to below the gap, each once and in
/// their order, and the gap is the next number of the state.
pub fn each_number_is_applied_once()
    ensures numbers { (start : State) (run : List Seen) → let first = start.next_number in
        numbers_in (history first run) ≡ numbers_from first (gap_at first run - first) }
    ensures gap { (start : State) (run : List Seen) → start.next_number ≤ gap_at start.next_number run }
    ensures next { (start : State) (run : List Seen) → (state_at start run).next_number ≡ gap_at start.next_number run }
{}

/// The gap is the first number, from the first one of the run on, whose request isn't accepted. So what a run applies are
/// the accepted requests of the longest run of numbers that begins with the first one and has no gap.
pub fn the_gap_is_the_first_number_that_is_not_accepted()
    ensures accepted { (start : State) (run : List Seen) (number : ℕ) → let first = start.next_number in
        first ≤ number → number < gap_at first run →
        map.contains_key (accepted_requests first run) number ≡ true }
    ensures gap { (start : State) (run : List Seen) → let first = start.next_number in
        map.contains_key (accepted_requests first run) (gap_at first run) ≡ false }
{}

/// An entry is what the last request that stored or removed it asked for, and what it was at the start if there is
/// none.
pub fn each_entry_is_what_was_asked_last()
    ensures { (start : State) (run : List Seen) (entry : ℕ) → AreRead run →
        IsLeft (map.get start.entries entry) (last_of start run entry)
        (map.get (state_at start run).entries entry) }
{}

/// Plans are handed out with an entry as BootNext's at most as often as BootNext was set to it.
pub fn each_next_is_handed_out_at_most_once()
    ensures { (start : State) (run : List Seen) (answers : List Reply) (entry : ℕ) →
        AreReplies start run answers → hands answers entry ≤ sets start run entry }
{}

/// The answers to what follows a run, after those to the run, are the replies to the longer run: these are listed
/// newest first.
pub fn answers_are_the_replies_of_the_run()
    ensures { (start : State) (run seen : List Seen) (replies answers : List Reply) →
        AreReplies start run replies → AreAnswers start run seen answers →
        AreReplies start (run_followed_by run seen) (reverse answers ++ replies) }
{}

/// If a boot is prepared and no plan was, BootNext is gone.
pub fn a_boot_deletes_the_next_entry()
    ensures { (start : State) (run : List Seen) → is_armed run ≡ false →
        (state_at start (Prepare ∷ run)).boot_next ≡ None }
{}

/// A plan is handed out only by a Hand. Before that a boot was prepared while no plan was, and between the two there
/// was neither another Hand nor a Restart. The plan is that of the state before the boot.
pub fn a_plan_is_handed_out_after_its_boot()
    ensures hand { (start : State) (run : List Seen) (seen : Seen) (plan : PlanParts) →
        IsReply start run seen (Reply.Plan plan) → seen ≡ Hand }
    ensures boot { (start : State) (run : List Seen) (seen : Seen) (plan : PlanParts) →
        IsReply start run seen (Reply.Plan plan) →
        (later : List Seen) × (before : List Seen) × (run ≡ later ++ Prepare ∷ before)
        × HaveNoHandOrRestart later × (is_armed before ≡ false)
        × HasPlanOf (state_at start before) plan }
{}

/// What happens after a run has at most one reply.
pub fn an_event_has_one_reply()
    ensures { (start : State) (run : List Seen) (seen : Seen) (a b : Reply) →
        IsReply start run seen a → IsReply start run seen b → a ≡ b }
{
    uefi_vars::laws::entries_have_one_plan();
}

/// From a plain state, what happens leads to one other at most, with one reply.
pub fn a_turn_is_one()
    ensures state { (k x y : Plain) (seen : Seen) (a b : Reply) →
        Turn k seen x a → Turn k seen y b → x ≡ y }
    ensures reply { (k x y : Plain) (seen : Seen) (a b : Reply) →
        Turn k seen x a → Turn k seen y b → a ≡ b }
{
    uefi_vars::laws::entries_have_one_plan();
}

/// From a state, a run of requests that were read leads to a state: what it has is in its ranges.
pub fn a_run_leads_to_a_state()
    ensures { (start : State) (run : List Seen) → IsState start → AreRead run →
        IsState (state_at start run) }
{
    uefi_option::laws::each_option_is_spelled();
}

/// To deliver once more a request whose number is below the gap or accepted, with any content, changes neither the
/// state then or after any further events, nor any later reply.
pub fn a_repeat_changes_nothing()
    ensures state { (start : State) (later run : List Seen) (number : ℕ) (request : Request) →
        (number < gap_at start.next_number run) ⊎ (map.contains_key (accepted_requests start.next_number run) number ≡ true) →
        state_at start (later ++ Came number request ∷ run) ≡ state_at start (later ++ run) }
    ensures replies { (start : State) (later run : List Seen) (number : ℕ) (request : Request) →
        (number < gap_at start.next_number run) ⊎ (map.contains_key (accepted_requests start.next_number run) number ≡ true) →
        (seen : Seen) (answer : Reply) → IsReply start (later ++ Came number request ∷ run) seen answer →
        IsReply start (later ++ run) seen answer }
{}

/// Deliveries alone, of the same requests, no number of which has two, lead to one state, in whatever order and however
/// often they come, if none is too far ahead as it comes.
pub fn the_order_of_deliveries_does_not_matter()
    ensures { (start : State) (x y : List Seen) →
        AreTaken start.next_number x → AreTaken start.next_number y → AgreeOnNumbers x → AgreeOnNumbers y →
        ((number : ℕ) (request : Request) → Delivers x number request ↔ Delivers y number request) →
        state_at start x ≡ state_at start y }
{}

/// The public constants are the limits and the magic that the definitions state.
pub fn limits_are_those_of_the_definitions()
    ensures magic { FRAME_MAGIC ≡ magic }
    ensures payload_max { PAYLOAD_MAX ≡ payload_max }
    ensures kept_max { KEPT_MAX ≡ kept_max }
    ensures width { WIDTH ≡ width }
{}

/// Each request whose numbers are in their ranges and whose payload isn't too long has a frame with each number but the
/// greatest, of bytes.
pub fn each_request_is_spelled()
    ensures { (number : ℕ) (request : Request) → number < no_number → IsRequest request →
        length (payload_of request) ≤ payload_max →
        (bytes : List ℕ) × SpellsFrame bytes number request × AllByRecursion IsByte bytes }
{
    option_laws::each_option_is_spelled();
    path_laws::units_have_two_bytes_each();
}

/// A request with its number has at most one spelling.
pub fn a_request_has_one_spelling()
    ensures { (number : ℕ) (request : Request) (a b : List ℕ) →
        SpellsFrame a number request → SpellsFrame b number request → a ≡ b }
{}

/// Bytes spell at most one request, with one number.
pub fn bytes_spell_one_request()
    ensures { (bytes : List ℕ) (m n : ℕ) (q r : Request) →
        SpellsFrame bytes m q → SpellsFrame bytes n r → (m ≡ n) × (q ≡ r) }
{
    option_laws::bytes_spell_one_option();
    path_laws::units_are_read_again();
}

/// Bytes spell a request with its number, or have a first fault.
pub fn bytes_spell_a_request_or_have_a_fault()
    ensures { (bytes : List ℕ) → AllByRecursion IsByte bytes →
        ((number : ℕ) × (request : Request) × SpellsFrame bytes number request)
        ⊎ ((fault : FrameFault) × IsFirstFault bytes fault) }
{
    option_laws::bytes_spell_an_option_or_have_a_fault();
    path_laws::bytes_are_written_again();
    path_laws::two_bytes_are_a_unit();
}

/// Bytes that have a first fault spell no request.
pub fn a_fault_leaves_no_request()
    ensures { (bytes : List ℕ) (fault : FrameFault) (number : ℕ) (request : Request) →
        IsFirstFault bytes fault → SpellsFrame bytes number request → ⊥ }
{
    option_laws::a_fault_leaves_no_option();
    path_laws::units_have_two_bytes_each();
}

/// Bytes have at most one first fault.
pub fn bytes_have_one_first_fault()
    ensures { (bytes : List ℕ) (f g : FrameFault) →
        IsFirstFault bytes f → IsFirstFault bytes g → f ≡ g }
{
    option_laws::bytes_have_one_first_fault();
}

/// A frame with more bytes after it isn't a frame.
pub fn no_frame_begins_another()
    ensures { (bytes rest : List ℕ) (m n : ℕ) (q r : Request) →
        SpellsFrame bytes m q → SpellsFrame (bytes ++ rest) n r → rest ≡ [] }
{}

/// A stream has at most one cut into deliveries and a rest.
pub fn a_stream_has_one_cut()
    ensures { (stream : List ℕ) (a b : Cut) → IsCut stream a → IsCut stream b → a ≡ b }
{}

/// Each stream of bytes has a cut.
pub fn each_stream_has_a_cut()
    ensures { (stream : List ℕ) → AllByRecursion IsByte stream →
        (cut : Cut) × IsCut stream cut }
{}

/// An event is seen in at most one way.
pub fn an_event_is_seen_as_one()
    ensures { (event : Event) (a b : Seen) → IsSeen event a → IsSeen event b → a ≡ b }
{
    bytes_spell_one_request();
    a_fault_leaves_no_request();
    bytes_have_one_first_fault();
}

/// Each event is seen in some way.
pub fn each_event_is_seen()
    ensures { (event : Event) → IsEvent event → (seen : Seen) × IsSeen event seen }
{
    bytes_spell_a_request_or_have_a_fault();
}

/// `==` on requests tells whether they are equal.
pub fn requests_compare_as_values()
    ensures { (a b : Request) → IsTrue (⟦<Request as PartialEq>⟧.eq a b) ↔ (a ≡ b) }
{
    option_laws::load_options_compare_as_values();
}

/// `==` on orders tells whether they are equal.
pub fn orders_compare_as_values()
    ensures { (a b : List ℕ) → IsTrue (⟦<OrderList as PartialEq>⟧.eq a b) ↔ (a ≡ b) }
{}

/// `==` on the bytes of deliveries tells whether they are equal.
pub fn deliveries_compare_as_values()
    ensures { (a b : List ℕ) → IsTrue (⟦<Bytes as PartialEq>⟧.eq a b) ↔ (a ≡ b) }
{}

/// `==` on events tells whether they are equal.
pub fn events_compare_as_values()
    ensures { (a b : Event) → IsTrue (⟦<Event as PartialEq>⟧.eq a b) ↔ (a ≡ b) }
{}

/// `==` on the codes of outcomes tells whether they are equal.
pub fn codes_compare_as_values()
    ensures { (a b : Code) → IsTrue (⟦<Code as PartialEq>⟧.eq a b) ↔ (a ≡ b) }
{}

/// `==` on outcomes tells whether they are equal.
pub fn outcomes_compare_as_values()
    ensures { (a b : Outcome) → IsTrue (⟦<Outcome as PartialEq>⟧.eq a b) ↔ (a ≡ b) }
{}

/// `==` on the faults of frames tells whether they are equal.
pub fn frame_faults_compare_as_values()
    ensures { (a b : FrameFault) → IsTrue (⟦<FrameFault as PartialEq>⟧.eq a b) ↔ (a ≡ b) }
{}

/// `==` on the faults of streams tells whether they are equal.
pub fn feed_faults_compare_as_values()
    ensures { (a b : FeedFault) → IsTrue (⟦<FeedFault as PartialEq>⟧.eq a b) ↔ (a ≡ b) }
{}

/// `==` on the faults of opening tells whether they are equal.
pub fn open_faults_compare_as_values()
    ensures { (a b : OpenFault) → IsTrue (⟦<OpenFault as PartialEq>⟧.eq a b) ↔ (a ≡ b) }
{}

/// Variables are the image of at most one state.
pub fn variables_have_one_state()
    ensures { (m n : State) (vars : Variables) → IsState m → IsState n →
        IsImage m vars → IsImage n vars → m ≡ n }
{}

/// A state has at most one image.
pub fn a_state_has_one_image()
    ensures { (m : State) (a b : Variables) → IsImage m a → IsImage m b → a ≡ b }
{}

/// A state has an image, which may be in a set.
pub fn each_state_has_an_image()
    ensures { (m : State) → IsState m → (vars : Variables) × IsVars vars × IsImage m vars }
{
    uefi_vars::laws::boot_names_are_names();
    path_laws::units_have_two_bytes_each();
}

/// The image of a state has no fault for which it can't be kept.
pub fn an_image_can_be_kept()
    ensures { (m : State) (vars : Variables) (fault : OpenFault) → IsState m → IsImage m vars →
        IsOpenFault vars fault → ⊥ }
{
    uefi_vars::laws::a_bad_order_gives_no_order();
    uefi_vars::laws::a_bad_next_gives_no_next();
}

/// Variables open as at most one state.
pub fn variables_open_as_one_state()
    ensures { (m n : State) (vars : Variables) → OpensAs vars m → OpensAs vars n → m ≡ n }
{}

/// Variables that open as a state have no fault for which they can't be kept.
pub fn what_opens_has_no_fault()
    ensures { (m : State) (vars : Variables) (fault : OpenFault) → OpensAs vars m →
        IsOpenFault vars fault → ⊥ }
{
    uefi_vars::laws::a_bad_order_gives_no_order();
    uefi_vars::laws::a_bad_next_gives_no_next();
}

/// The image of a state opens as it, and is what it is migrated to.
pub fn an_image_is_migrated_to_itself()
    ensures opens { (m : State) (vars : Variables) → IsState m → IsImage m vars → OpensAs vars m }
    ensures same { (m : State) (vars : Variables) → IsState m → IsImage m vars →
        with_second_mark vars m ≡ vars }
{}

/// What happens after a run of frames that were read has a reply.
pub fn each_event_has_a_reply()
    ensures { (start : State) (run : List Seen) (seen : Seen) → IsState start → AreRead run →
        (answer : Reply) × IsReply start run seen answer }
{
    uefi_option::laws::each_option_is_spelled();
    uefi_vars::laws::entries_have_a_plan();
    requests_compare_as_values();
}

/// Whatever happens, a plain state has a turn.
pub fn each_plain_state_has_a_turn()
    ensures { (k : Plain) (seen : Seen) → IsState k.state →
        (to : Plain) × (answer : Reply) × Turn k seen to answer }
{
    uefi_vars::laws::entries_have_a_plan();
    requests_compare_as_values();
}

/// A turn leads from a plain state that a keeper can be in to such a one, whatever is read off frames.
pub fn a_turn_leads_to_a_plain_state()
    ensures { (k to : Plain) (seen : Seen) (answer : Reply) → IsPlain k → AreRead (seen ∷ []) →
        Turn k seen to answer → IsPlain to }
{
    uefi_option::laws::each_option_is_spelled();
}

/// If a request is answered Applied, with an outcome by which it stored an option of an entry, and each of the waiting
/// requests that are applied with it leaves that entry alone while it is there, then what is stored of the entry spells
/// the option.
pub fn a_stored_option_is_what_was_asked_for()
    ensures { (k to : Plain) (number next entry : ℕ) (request : Request) (outcome : Outcome) (option : OptionParts) →
        IsRequest request → stored_by request outcome ≡ Some (stores entry (Some option)) →
        IsUntouched k.waiting number next entry →
        Turn k (Came number request) to (Reply.Applied outcome next) →
        IsStored (Some option) (map.get to.state.entries entry) }
{}

/// An option that is stored under its number, as it is after a request that stored it, is in each plan of that state:
/// as the one that is tried first if BootNext names its entry, and among the others if the order does and the option is
/// normal.
pub fn a_plan_holds_what_was_asked_for()
    ensures next { (m : State) (plan : PlanParts) (choice : Choice) →
        IsStored (Some choice.option) (map.get m.entries choice.number) → HasPlanOf m plan →
        m.boot_next ≡ Some choice.number → plan.next ≡ Some choice }
    ensures normal { (m : State) (plan : PlanParts) (choice : Choice) →
        IsStored (Some choice.option) (map.get m.entries choice.number) → HasPlanOf m plan →
        Contains m.order choice.number → IsNormal choice.option.attributes →
        Contains plan.normal choice }
{
    uefi_vars::laws::entries_have_one_plan();
    uefi_vars::laws::a_plan_has_each_normal_option();
}

/// A text is a script, or has a first bad line.
pub fn a_text_is_a_script_or_has_a_bad_line()
    ensures { (text : List ℕ) →
        ((events : List Event) × IsScript text events) ⊎ ((number : ℕ) × IsFirstBadLine text number) }
{}

/// A text is a script with one list of events at most.
pub fn a_text_is_one_script()
    ensures { (text : List ℕ) (a b : List Event) → IsScript text a → IsScript text b → a ≡ b }
{}

/// A text that has a bad line isn't a script.
pub fn a_bad_line_leaves_no_script()
    ensures { (text : List ℕ) (number : ℕ) (events : List Event) →
        IsFirstBadLine text number → IsScript text events → ⊥ }
{}

/// A text has one first bad line at most.
pub fn a_text_has_one_first_bad_line()
    ensures { (text : List ℕ) (m n : ℕ) → IsFirstBadLine text m → IsFirstBadLine text n → m ≡ n }
{}

/// Bytes are a stream, or have a fault of one.
pub fn bytes_are_a_stream_or_have_a_fault()
    ensures { (stream : List ℕ) → AllByRecursion IsByte stream →
        ((events : List Event) × IsStream stream events)
        ⊎ ((fault : ScriptFault) × IsStreamFault stream fault) }
{}

/// Bytes that have a fault aren't a stream.
pub fn a_fault_leaves_no_stream()
    ensures { (stream : List ℕ) (fault : ScriptFault) (events : List Event) →
        IsStreamFault stream fault → IsStream stream events → ⊥ }
{}
