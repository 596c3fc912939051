//! What is printed of replies, and whether all was done.

ghost use Rattle.std.specs.Prelude.{◌≡◌, ◌↔◌, List, [], IsSome, IsTrue, None};
ghost use Rattle.std.specs.List.{AllByRecursion, fold};
ghost use Rattle.boot_requests.specs.declared.event.Event.{Event};
ghost use Rattle.boot_requests.specs.Answering.{replies_of};
ghost use Rattle.boot_requests.specs.Followers.{request_of};
ghost use Rattle.boot_requests.specs.Reply.{AreAnswers};
ghost use Rattle.boot_requests.specs.Run.{gap_at, run_followed_by};
ghost use Rattle.boot_requests.specs.Seen.{Seen, IsSeen};
ghost use Rattle.boot_requests.specs.State.{State};
ghost use Rattle.boot_updates.specs.NextNumber.{next_after};
ghost use Rattle.boot_updates.specs.Replies.{IsBelow, IsNumberBelow, IsCarriedOut, IsDone, AreDone};
ghost use Rattle.boot_updates.specs.Told.{IsNoOther};
ghost use Rattle.boot_updates.specs.declared.replies.Ended.TheVariants as ended;

use crate::look::{UnmetWords, unmet_json};
use crate::requests_run::Answered;
use crate::script::Script;
use boot_requests::{Answer, Code, Outcome, Reply, reply_line};
use request_texts::{EventPosition, ToldReply, reply_json};
use std::alloc::{AllocError, Global};

/// How an update ended that was made.
#[derive(Clone, Copy, Debug, PartialEq, Eq)]
pub enum Ended {
    /// Each request was applied or had been before, and was carried out.
    AllDone,
    /// Something that was delivered is no frame, or its number is too far ahead, or another request of its number waits or
    /// was applied, or a request still waits for one before it, or it couldn't be carried out.
    NotAll,
    /// Something wasn't as it was expected, and nothing was done.
    Unmet,
}

/// How replies are printed.
#[derive(Clone, Copy, Debug, PartialEq, Eq)]
pub enum ReplyForm {
    /// As lines, as `bootkeep run` prints them.
    Lines,
    /// As JSON, an object on a line each.
    Json,
    /// As JSON, one object with what there is afterwards.
    Look,
}

/// What is said of a repeat of another frame than the one that was applied, after its line.
const ANOTHER: &str = " (another request)";

/// The answers to the events of a script, to be printed.
#[derive(Clone, Copy)]
pub(crate) struct Replies<'b, 's, 'a> {
    /// The script.
    pub(crate) script: &'b Script<'s>,
    /// What its events answer.
    pub(crate) answered: &'a Answered,
    /// The entries that they leave in no order, by rising number.
    pub(crate) unnamed: &'a [u16],
    /// The journal's identity, if it has one.
    pub(crate) journal: Option<&'a str>,
}

impl<'a> Replies<'_, '_, 'a> {
    /// The answers as lines or as JSON, an object on a line each.
    ///
    /// # Errors
    ///
    /// [`AllocError`] if memory was refused.
    pub(crate) fn text(&self, alloc: Global, json: bool) -> Result<String, AllocError> {
        if json {
            self.json(alloc)
        } else {
            self.lines(alloc)
        }
    }

    /// The answers as lines, as `bootkeep run` prints replies, with a remark after a repeat of another request.
    fn lines(&self, alloc: Global) -> Result<String, AllocError> {
        let answered = self.answered;
        let mut text = String::new(alloc);
        for (answer, same) in answered.answers.iter().zip(&answered.noted.same) {
            text.push_str(&reply_line(alloc, &answer.reply)?)?;
            if *same == Some(false) {
                text.push_str(ANOTHER)?;
            }
            text.push('\n')?;
        }
        Ok(text)
    }

    /// What isn't as it was expected, if something isn't.
    pub(crate) fn unmet(&self) -> Option<UnmetWords<'a>> {
        let unmet = self.answered.unmet.as_ref()?;
        Some(UnmetWords {
            expected: unmet.expected.as_str(),
            found: unmet.found.as_str(),
        })
    }

    /// The answers as JSON, an object on a line each, or in their place what isn't as it was expected.
    fn json(&self, alloc: Global) -> Result<String, AllocError> {
        if let Some(unmet) = self.unmet() {
            return unmet_json(alloc, unmet);
        }
        let mut text = String::new(alloc);
        for told in &self.told(alloc)? {
            text.push_str(&reply_json(alloc, told)?)?;
        }
        Ok(text)
    }

    /// The answers, each with the next number after its event, and the last with the entries that are left in no order.
    ///
    /// # Errors
    ///
    /// [`AllocError`] if memory was refused.
    pub(crate) fn told(&self, alloc: Global) -> Result<Vec<ToldReply<'a>>, AllocError> {
        let answered = self.answered;
        let mut told = Vec::with_capacity(alloc, answered.answers.len())?;
        let mut next = answered.first;
        let answers = answered.answers.iter().zip(&answered.noted.same);
        for (at, (answer, same)) in self.script.places.iter().zip(answers) {
            next = next_after(next, answer);
            told.push(ToldReply {
                place: EventPosition::new(self.script.format, *at),
                answer,
                same: *same,
                next,
                unnamed: None,
                journal: self.journal,
            })?;
        }
        if let Some(last) = told.last_mut() {
            last.unnamed = Some(self.unnamed);
        }
        Ok(told)
    }
}

/// The next number after an event with this answer, if it was this before.
fn next_after(before: u32, answer: &Answer) -> u32
    ensures { result ≡ next_after before answer.now }
{
    match &answer.reply {
        Reply::Applied(_, next) => *next,
        _ => before,
    }
}

/// The next number after all events.
#[tactic(auto, using(crate::proofs::NextTold::next_is_gap))]
pub(crate) fn next_in(answered: &Answered) -> u32
    ensures told { result ≡ fold next_after answered.now.first answered.now.answers.items }
    ensures gap { (start : State) (seen : List Seen) → answered.now.first ≡ start.next_number →
        AreAnswers start [] seen (replies_of answered.now.answers.items) →
        result ≡ gap_at start.next_number (run_followed_by [] seen) }
{
    next_after_all(answered.first, &answered.answers)
}

/// The next number after events with these answers, if it was this before.
fn next_after_all(before: u32, answers: &[Answer]) -> u32
    ensures { result ≡ fold next_after before answers.now }
{
    let mut next = before;
    for answer in answers {
        next = next_after(next, answer);
    }
    next
}

/// Whether events were run, the answers say that all was done, and no repeat is known to be of another request.
pub fn ending(answered: &Answered) -> Ended
    ensures unmet { (result ≡ ended.Unmet) ↔ IsSome answered.now.unmet }
    ensures done { (result ≡ ended.AllDone) ↔ ((answered.now.unmet ≡ None)
        × AreDone answered.now.first answered.now.answers.items answered.now.noted.same.items) }
{
    if answered.unmet.is_some() {
        return Ended::Unmet;
    }
    let next = next_in(answered);
    if are_no_others(&answered.noted.same) && are_done(&answered.answers, next) {
        Ended::AllDone
    } else {
        Ended::NotAll
    }
}

/// Whether none of these is known to be another request than the one that was applied.
fn are_no_others(same: &[Option<bool>]) -> bool
    ensures { IsTrue result ↔ AllByRecursion IsNoOther same.now }
{
    same.iter().all(is_no_other)
}

/// Whether it isn't known to be another one.
fn is_no_other(same: &Option<bool>) -> bool
    ensures { IsTrue result ↔ IsNoOther same.now }
{
    match same {
        Some(is_same) => *is_same,
        None => true,
    }
}

/// Whether what the events with these answers ask for was done, if this is the next number after all of them.
fn are_done(answers: &[Answer], next: u32) -> bool
    ensures { IsTrue result ↔ AllByRecursion (IsDone next) answers.now }
{
    answers.iter().all(|answer| is_done(answer, next))
}

/// Whether what the event with this answer asks for was done, if this is the next number after all events. Of a request whose
/// outcome isn't kept that isn't known, so it doesn't count as done.
fn is_done(answer: &Answer, next: u32) -> bool
    ensures { IsTrue result ↔ IsDone next answer.now }
{
    match &answer.reply {
        Reply::Malformed(_) | Reply::Ahead(_) | Reply::Conflict | Reply::Old => false,
        Reply::Waiting(_) => is_below(answer.request, next),
        Reply::Applied(outcome, _) => {
            is_carried_out(outcome) && are_carried_out(&answer.followers)
        }
        Reply::Repeat(outcome) => is_carried_out(outcome),
        Reply::Prepared(_)
        | Reply::AlreadyPrepared
        | Reply::Plan(_)
        | Reply::NothingPrepared
        | Reply::Restarted(_) => true,
    }
}

/// Whether each of the requests was carried out.
fn are_carried_out(outcomes: &[Outcome]) -> bool
    ensures { IsTrue result ↔ AllByRecursion IsCarriedOut outcomes.now }
{
    outcomes.iter().all(is_carried_out)
}

/// Whether the request was carried out.
fn is_carried_out(outcome: &Outcome) -> bool
    ensures { IsTrue result ↔ IsCarriedOut outcome.now }
{
    outcome.code == Code::Done
}

/// Whether this is the number of a request that is below the next one, and that so was applied.
fn is_below(request: Option<u32>, next: u32) -> bool
    ensures below { IsTrue result ↔ IsNumberBelow request next }
    ensures applied { (event : Event) (seen : Seen) → IsSeen event seen → request ≡ request_of seen →
        IsTrue result → IsBelow event next }
{
    match request {
        Some(number) => number < next,
        None => false,
    }
}
