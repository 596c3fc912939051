//! Journals: whether something is left to do.

ghost use Rattle.std.specs.Prelude.{◌≡◌, ◌≢◌, IfOk, IfErr};
ghost use Rattle.bootkeep_c.specs.declared.failure.Failure.{Failure};
ghost use Rattle.bootkeep_c.specs.Answers.{TellsValue};
ghost use Rattle.bootkeep_c.specs.Journals.{IsIdleIn, IsUnreadJournal, idle_number};

use crate::answer::tell;
use crate::failure::Failure;
use crate::refusal::Refusal;
use boot_journal::{Journal, read_journal};
use std::alloc::Global;

/// Whether the journal with these bytes, or that of a machine with none, tells of nothing that is left to do.
#[unsafe(no_mangle)]
pub extern "C" fn bootkeep_journal_is_idle(
    alloc: Global,
    journal: &[u8],
    idle: &mut u32,
    refusal: &mut Refusal,
) -> u32
    ensures { TellsValue (IsIdleIn journal.now) (IsUnreadJournal journal.now) result idle.old idle.new refusal.old refusal.new }
{
    tell(idle_in(alloc, journal), idle, refusal)
}

/// The number that tells whether a journal's file with these bytes is idle: one with none is.
fn idle_in(alloc: Global, bytes: &[u8]) -> Result<u32, Failure>
    ensures found { IfOk result (λ told. IsIdleIn bytes.now told) }
    ensures fault { IfErr result (λ failed. failed ≢ Failure.Memory → IsUnreadJournal bytes.now failed) }
{
    if bytes.is_empty() {
        return Ok(1);
    }
    let file = read_journal(alloc, bytes)?;
    Ok(idle_number(&file.journal))
}

/// The number that tells whether a journal is idle.
fn idle_number(journal: &Journal) -> u32
    ensures { result ≡ idle_number journal.now.pending }
{
    if journal.is_idle() { 1 } else { 0 }
}
