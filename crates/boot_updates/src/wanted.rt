//! Requests that are wanted of a machine, and what is printed of them.

use crate::guarded::Unmet;
use crate::left_out::check_requests;
use crate::look::{Look, look_json};
use crate::not_made::{NotMade, from_run};
use crate::replies::{Replies, ReplyForm, next_in};
use crate::requests_run::{Answered, RequestsRun};
use crate::script::Script;
use boot_journal::CallError;
use boot_texts::{TellsTrial, UnnamedWords, changes_text};
use journaled_requests::{Requests, RunFault};
use messages::Failure;
use request_preconditions::Precondition;
use std::alloc::{AllocError, Global};
use uefi_vars::{KEEP_STATE, Vars, naming_change};
use wanted_changes::{Led, Remarks, Seen, SetChange, Told, Wanted, identity_digits, leave_out};

/// What is printed of an update.
#[derive(Clone, Copy, Debug)]
pub enum Printing {
    /// The replies in this form.
    Replies(ReplyForm),
    /// The same, and then the changes that there would be, as `diff` shows them.
    Plan(ReplyForm),
    /// The next number.
    Next,
}

/// The events of a script, wanted of a machine.
#[derive(Drop)]
pub struct WantedRequests<'a, 'b, 's, T> {
    /// The path of the machine's place.
    pub place: &'a str,
    /// The script.
    pub script: &'b Script<'s>,
    /// What is expected of the machine: if something isn't so, no event is run.
    pub preconditions: &'b [Precondition],
    /// What of it is printed.
    pub printing: Printing,
    /// The identity of the machine's start, which a look tells, if it is known.
    pub start: Option<&'b str>,
    /// What tells of its start on trial, in a look.
    pub trials: &'b T,
}

impl<T: TellsTrial> Wanted for WantedRequests<'_, '_, '_, T> {
    ghost use Rattle.boot_journal.specs.Attributes.{data_of};
    ghost use Rattle.journaled_requests.specs.Requests.{IsAnswered, IsNextOf};
    ghost use Rattle.journaled_requests.specs.RunFault.{IsRunFault};
    ghost use Rattle.boot_updates.specs.Guarded.{AreMet, IsGuarded};
    ghost use Rattle.boot_updates.specs.Told.{AreToldBy};
    ghost use Rattle.std.specs.Prelude.{◌≡◌, map};
    ghost use Rattle.std.specs.String.{string_bytes};
    ghost use Rattle.wanted_changes.specs.LeftOut.{without_names};

    type Answer = Answered;

    type Fault = RunFault;

    type Refusal = NotMade;

    ghost leads = { λ wanted seen from to answered. (answered.journal ≡ seen.journal) × IsNextOf from answered.first
        × IsGuarded (AreMet seen.journal answered.first (without_names (data_of from) (map string_bytes seen.left_out.now)) wanted.preconditions.now)
        (IsAnswered wanted.script.now.events.items from to answered.answers.items
        × AreToldBy answered.noted.before answered.first wanted.script.now.events.items answered.answers.items answered.noted.same.items)
        from to answered.answers.items answered.unmet };

    ghost refuses = { λ wanted seen from fault. IsRunFault wanted.script.now.events.items from fault };

    fn check(&self, alloc: Global, left_out: &[String]) -> Result<(), NotMade> {
        check_requests(alloc, self.script, left_out)
    }

    fn replaced(&self) -> Option<&Vars> {
        None
    }

    fn has_requests(&self) -> bool {
        true
    }

    fn run(
        &self,
        alloc: Global,
        seen: &Seen<'_>,
        vars: &Vars,
    ) -> Result<Led<Answered>, CallError<RunFault>> {
        let script = self.script;
        let run = RequestsRun {
            requests: Requests {
                events: &script.events,
            },
            preconditions: self.preconditions,
            journal: seen.journal,
            left_out: seen.left_out,
            notes: seen.notes,
        };
        run.lead(alloc, vars)
    }

    fn tell(
        &self,
        alloc: Global,
        seen: &Seen<'_>,
        change: SetChange<'_>,
        answered: &Answered,
    ) -> Result<Told, Failure> {
        let unnamed = naming_change(alloc, change.from, change.to)?.unnamed;
        let identity = identity_digits(alloc, seen.notes)?;
        let journal = identity.as_deref();
        let replies = Replies {
            script: self.script,
            answered,
            unnamed: &unnamed,
            journal,
        };
        let text = match self.printing {
            Printing::Replies(ReplyForm::Look) => {
                self.look_text(alloc, seen, change.to, &replies)?
            }
            Printing::Plan(form) if answered.unmet.is_none() => {
                plan_text(alloc, change, &replies, form != ReplyForm::Lines)?
            }
            Printing::Replies(form) | Printing::Plan(form) => {
                replies.text(alloc, form != ReplyForm::Lines)?
            }
            Printing::Next => format!(in alloc; "{}\n", next_in(answered))?,
        };
        Ok(Told {
            text,
            remarks: self.remarks(alloc, answered, &unnamed)?,
        })
    }

    fn refusal(&self, alloc: Global, fault: RunFault) -> NotMade {
        from_run(alloc, self.place, fault)
    }

    fn end(&self, _answered: &Answered) {}
}

impl<T: TellsTrial> WantedRequests<'_, '_, '_, T> {
    /// The replies, and what there is after them, without BootKeepState and those variables that no set can hold.
    fn look_text(
        &self,
        alloc: Global,
        seen: &Seen<'_>,
        to: &Vars,
        replies: &Replies<'_, '_, '_>,
    ) -> Result<String, Failure> {
        let mut vars = to.copy(alloc)?;
        vars.remove(KEEP_STATE);
        leave_out(&mut vars, seen.left_out);
        let told = replies.told(alloc)?;
        let look = Look {
            next: next_in(replies.answered),
            journal: replies.journal,
            start: self.start,
            unmet: replies.unmet(),
            trial: self.trials.told(&vars)?,
            replies: &told,
            vars: &vars,
        };
        Ok(look_json(alloc, &look)?)
    }

    /// What standard error is told: what isn't as it was expected, and the entries that are left in no order, unless what is
    /// printed says so.
    fn remarks(
        &self,
        alloc: Global,
        answered: &Answered,
        unnamed: &[u16],
    ) -> Result<Remarks, AllocError> {
        let mut remarks = Remarks::new(alloc);
        if let Some(Unmet { expected, found }) = &answered.unmet {
            let text = format!(in alloc;
                "{expected} was expected, and it is {found}: no request was run"
            )?;
            remarks.push(self.place, text)?;
        }
        if matches!(self.printing, Printing::Replies(ReplyForm::Lines)) {
            for entry in unnamed {
                remarks.push(self.place, format!(in alloc; "{}", UnnamedWords(*entry))?)?;
            }
        }
        Ok(remarks)
    }
}

/// The replies that there would be, and the changes.
fn plan_text(
    alloc: Global,
    change: SetChange<'_>,
    replies: &Replies<'_, '_, '_>,
    json: bool,
) -> Result<String, AllocError> {
    let mut text = replies.text(alloc, json)?;
    text.push_str(&changes_text(alloc, change.from, change.to, json)?)?;
    Ok(text)
}
