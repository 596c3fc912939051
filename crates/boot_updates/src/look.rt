//! A look at a machine as JSON, as `bootvars update --look` prints it.

use boot_texts::{ShownVars, TrialView};
use request_texts::{ShownReply, ToldReply};
use std::alloc::{AllocError, Global};
use uefi_vars::Vars;
use value_texts::json::{
    JsonObject, JsonWriter, Leaf, append_leaves, append_object, append_objects, json_line,
};

/// What a look at a machine tells, all of one moment.
#[derive(Clone, Copy, Debug)]
pub(crate) struct Look<'a> {
    /// The next number.
    pub(crate) next: u32,
    /// The identity of the journal, if it has one.
    pub(crate) journal: Option<&'a str>,
    /// The identity of the machine's start, if it is known.
    pub(crate) start: Option<&'a str>,
    /// What isn't as it was expected, if something isn't: then no event was run.
    pub(crate) unmet: Option<UnmetWords<'a>>,
    /// The start on trial, if there is one.
    pub(crate) trial: Option<TrialView>,
    /// The replies to the events that were run, in their order.
    pub(crate) replies: &'a [ToldReply<'a>],
    /// The variables after them.
    pub(crate) vars: &'a Vars,
}

/// What isn't as it was expected, in the words of preconditions.
#[derive(Clone, Copy, Debug)]
pub(crate) struct UnmetWords<'a> {
    /// What was expected, such as `next=7`.
    pub(crate) expected: &'a str,
    /// What is so instead, such as `next=9`.
    pub(crate) found: &'a str,
}

impl JsonObject for UnmetWords<'_> {
    fn append_members(&self, out: &mut JsonWriter) -> Result<(), AllocError> {
        append_leaves(
            &[
                ("expected", Leaf::Text(Some(self.expected))),
                ("found", Leaf::Text(Some(self.found))),
            ],
            out,
        )
    }
}

/// What isn't as it was expected as JSON, an object with it as its member `unmet` on one line that ends with a line feed.
///
/// # Errors
///
/// [`AllocError`] if memory was refused.
pub(crate) fn unmet_json(alloc: Global, unmet: UnmetWords<'_>) -> Result<String, AllocError> {
    json_line(alloc, &ShownUnmet { unmet })
}

/// The same as it is shown without a look.
#[derive(Drop)]
struct ShownUnmet<'a> {
    unmet: UnmetWords<'a>,
}

impl JsonObject for ShownUnmet<'_> {
    fn append_members(&self, out: &mut JsonWriter) -> Result<(), AllocError> {
        append_object("unmet", Some(&self.unmet), out)
    }
}

/// A look as it is shown.
#[derive(Drop)]
struct ShownLook<'a> {
    next: u32,
    journal: Option<&'a str>,
    start: Option<&'a str>,
    unmet: Option<UnmetWords<'a>>,
    replies: Vec<ShownReply<'a>>,
    shown: ShownVars<'a>,
}

impl JsonObject for ShownLook<'_> {
    fn append_members(&self, out: &mut JsonWriter) -> Result<(), AllocError> {
        append_leaves(
            &[
                ("next", Leaf::Number(Some(self.next))),
                ("journal", Leaf::Text(self.journal)),
                ("start", Leaf::Text(self.start)),
            ],
            out,
        )?;
        append_object("unmet", self.unmet.as_ref(), out)?;
        append_objects("replies", &self.replies, out)?;
        append_object("show", Some(&self.shown), out)
    }
}

/// Shows a look at a machine as JSON, an object on one line that ends with a line feed: the next number, the identities of
/// the journal and of the machine's start, what isn't as it was expected, the replies as
/// [`reply_json`](request_texts::reply_json) has them, and what [`vars_json`](boot_texts::vars_json) has. docs/formats.md has
/// each member.
///
/// # Errors
///
/// [`AllocError`] if memory was refused.
pub(crate) fn look_json(alloc: Global, look: &Look<'_>) -> Result<String, AllocError> {
    let mut replies = Vec::with_capacity(alloc, look.replies.len())?;
    for told in look.replies {
        replies.push(ShownReply::new(alloc, told)?)?;
    }
    let shown = ShownLook {
        next: look.next,
        journal: look.journal,
        start: look.start,
        unmet: look.unmet,
        replies,
        shown: ShownVars::new(alloc, look.vars, look.trial)?,
    };
    json_line(alloc, &shown)
}
