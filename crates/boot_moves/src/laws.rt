//! Laws about commands that are made one move at a time, which proofs of other crates may use. Each function does nothing:
//! its contract is the law.

ghost use Rattle.std.specs.Prelude.{ℕ, List, ◌∷◌, map, Result, Vec};
ghost use Rattle.std.specs.Global.{Global};
ghost use Rattle.boot_requests.specs.declared.answer.Answer.{Answer};
ghost use Rattle.boot_journal.specs.declared.machine.CommandError.{CommandError};
ghost use Rattle.journaled_requests.specs.declared.requests.Requests.{Requests};
ghost use Rattle.journaled_requests.specs.declared.requests.RunFault.{RunFault};
ghost use Rattle.journaled_requests.specs.Calls.{CallLeads, Runs, Open, AreSteps};
ghost use Rattle.boot_journal.specs.Events.{World, world};
ghost use Rattle.boot_journal.specs.Store.{Store};
ghost use Rattle.boot_moves.specs.Deeds.{after_all};
ghost use Rattle.boot_moves.specs.Exchanges.{Ended, RequestsExchanged, AreOfRequests, IsNew, MayBeThere, value_after, ending_of, DoneStep, step_by, AreDone};
ghost use Rattle.boot_moves.specs.Parts.{MovesParts};

/// A command of requests whose moves its caller makes is a call of [`command`](boot_journal::command), as which the laws of
/// [`journaled_requests`] over lists of calls take it (`CallLeads`). One that ended is a call that ended so, and led to
/// what the moves left that were told. One that is cut off, after whatever was said to each other, is a call that is cut
/// off, and leaves what these moves left, or that and then the move that is asked for. A move that was told to be perhaps
/// made counts as made.
pub fn a_command_that_its_caller_makes_is_a_call()
    ensures ended { (m n : MovesParts Requests) (ended : Result (Vec Answer Global) (CommandError ℕ RunFault)) (before : List RequestsExchanged) →
        IsNew m → AreOfRequests m (record { exchange = Ended ended; after = n } ∷ before) →
        CallLeads (world m.begun.boot m.begun.first) (Runs m.begun.run.events.now (ending_of ended))
        (world m.begun.boot (after_all n.trace m.begun.first)) }
    ensures cut { (m : MovesParts Requests) (exchanges : List RequestsExchanged) (left : Store) →
        IsNew m → AreOfRequests m exchanges → MayBeThere (value_after m exchanges) left →
        CallLeads (world m.begun.boot m.begun.first) (Runs m.begun.run.events.now Open) (world m.begun.boot left) }
{}

/// Commands of requests whose moves a caller makes, each of what is there then, ended or cut off whenever, and in between
/// starts of the machine and what firmware does, are a list of calls of which the laws of [`journaled_requests`] speak
/// (`AreSteps`): so each number is applied once, as [`journaled_requests::laws::calls_apply_each_number_once`] says of
/// such a list, and so on.
pub fn commands_that_their_callers_make_are_calls()
    ensures { (w : World) (done : List DoneStep) → AreDone w done → AreSteps w (map step_by done) }
{}
