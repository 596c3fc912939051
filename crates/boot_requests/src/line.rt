//! Replies as text.

ghost use Rattle.std.specs.Prelude.{◌≡◌, [], ◌∷◌, ◌++◌, IfOk, OnOk, OnErr};
ghost use Rattle.std.specs.String.{string_bytes};
ghost use Rattle.boot_requests.specs.Words.{line_of};

use crate::reply::Reply;
use std::alloc::{AllocError, Global};

/// The reply as one line of words with one blank between two, without a line feed: what it is, in lower case, and then
/// the words of its fault, those of its outcome, and its number in decimal. A plan is the line of
/// [`BootPlan::words`](uefi_vars::BootPlan::words). This fails only when out of memory.
pub fn reply_line(alloc: Global, reply: &Reply) -> Result<String, AllocError>
    ensures { IfOk result (λ text. string_bytes text ≡ line_of reply.now) }
{
    match reply {
        Reply::Malformed(fault) => {
            let words = fault.words(alloc)?;
            format!(in alloc; "malformed {words}")
        }
        Reply::Repeat(outcome) => {
            let words = outcome.words(alloc)?;
            format!(in alloc; "repeat {words}")
        }
        Reply::Old => String::from_str(alloc, "old"),
        Reply::Ahead(next) => format!(in alloc; "ahead {next}"),
        Reply::Conflict => String::from_str(alloc, "conflict"),
        Reply::Waiting(next) => format!(in alloc; "waiting {next}"),
        Reply::Applied(outcome, next) => {
            let words = outcome.words(alloc)?;
            format!(in alloc; "applied {words} {next}")
        }
        Reply::Prepared(count) => format!(in alloc; "prepared {count}"),
        Reply::AlreadyPrepared => String::from_str(alloc, "already prepared"),
        Reply::Plan(plan) => plan.words(alloc),
        Reply::NothingPrepared => String::from_str(alloc, "nothing prepared"),
        Reply::Restarted(next) => format!(in alloc; "restarted {next}"),
    }
}

/// Appends the line of the reply and a line feed. This fails only when out of memory, and the lines are then as they
/// were.
pub fn append_reply_line(alloc: Global, reply: &Reply, lines: &mut String) -> Result<(), AllocError>
    ensures line { OnOk result (string_bytes lines.new ≡ string_bytes lines.old ++ (line_of reply.now ++ 10 ∷ [])) }
    ensures unchanged { OnErr result (string_bytes lines.new ≡ string_bytes lines.old) }
{
    let mut line = reply_line(alloc, reply)?;
    line.push('\n')?;
    lines.push_str(&line)
}
