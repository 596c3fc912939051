//! What BootNext and BootOrder name, and what a boot makes of it.

ghost use Rattle.std.specs.Prelude.{◌≡◌, ◌≢◌, ◌^◌, length, IfOk, IfErr};
ghost use Rattle.uefi_vars.specs.Vars.{entry_of};
ghost use Rattle.bootkeep_c.specs.declared.failure.Failure.{Failure};
ghost use Rattle.bootkeep_c.specs.Status.{bad_size};
ghost use Rattle.bootkeep_c.specs.Buffer.{IsKept};
ghost use Rattle.bootkeep_c.specs.Answers.{Answers};
ghost use Rattle.bootkeep_c.specs.Sets.{IsPlanFailure};
ghost use Rattle.bootkeep_c.specs.Entries.{IsEntryState};
ghost use Rattle.bootkeep_c.specs.Named.{TellsNamed, AreNamed, AreNextNamed, AreNamedIn, AreKnown};

use crate::answer::answer;
use crate::change::{VARIABLE_NEXT, VARIABLE_ORDER};
use crate::entry::{EntryState, state_of};
use crate::failure::Failure;
use crate::refusal::Refusal;
use crate::status::BAD_SIZE;
use std::alloc::{AllocError, Global};
use uefi_vars::{Vars, boot_next, boot_order, laws, read_set};

/// How many entries may be known: one for each number.
const KNOWN_LEN: usize = 0x10000;

/// How many bytes the struct of a number that is named has.
const NAMED_LEN: usize = 12;

/// A number that BootNext or BootOrder names: `struct bootkeep_named`.
#[repr(C)]
#[derive(Clone, Copy, Debug, PartialEq, Eq)]
pub struct NamedEntry {
    /// [`VARIABLE_NEXT`] or [`VARIABLE_ORDER`].
    pub variable: u32,
    /// The number.
    pub number: u32,
    /// What a boot makes of the entry, by its number for C.
    pub state: u32,
}

// As many bytes as the header asserts.
const _: () = prove!(size_of::<NamedEntry>() == NAMED_LEN);

/// What BootNext names, and then what BootOrder names, in its order, each with what a boot makes of the entry (UEFI 2.10,
/// 3.1.3 and 3.3). However often a number occurs in BootOrder, its entry is looked at once.
#[unsafe(no_mangle)]
pub extern "C" fn bootkeep_vars_named(
    alloc: Global,
    set: &[u8],
    named: &mut [NamedEntry],
    item_size: usize,
    len: &mut usize,
    refusal: &mut Refusal,
) -> u32
    ensures size { item_size ≢ 12 → (result ≡ bad_size) × IsKept named.old named.new len.old len.new
        × (refusal.new ≡ refusal.old) }
    ensures answers { item_size ≡ 12 → Answers (AreNamedIn set.now) (IsPlanFailure set.now)
        result named.old named.new len.old len.new refusal.old refusal.new }
{
    if item_size != NAMED_LEN {
        return BAD_SIZE;
    }
    let found = named_in(alloc, set);
    answer(found, named, len, refusal)
}

/// What BootNext and BootOrder of the set name.
fn named_in(alloc: Global, set: &[u8]) -> Result<Vec<NamedEntry>, Failure>
    ensures found { IfOk result (λ told. AreNamedIn set.now told.items) }
    ensures fault { IfErr result (λ failed. failed ≢ Failure.Memory → IsPlanFailure set.now failed) }
{
    laws::a_bad_order_gives_no_order();
    let vars = read_set(alloc, set)?;
    let order = boot_order(alloc, &vars)?;
    let next = boot_next(&vars)?;
    Ok(named_by(alloc, &vars, next, &order)?)
}

/// What this BootNext and this BootOrder name.
fn named_by(
    alloc: Global,
    vars: &Vars,
    next: Option<u16>,
    order: &[u16],
) -> Result<Vec<NamedEntry>, AllocError>
    ensures { IfOk result (λ told. AreNamed (entry_of vars.now) next order.now told.items) }
{
    let mut known = vec![in alloc; None; KNOWN_LEN]?;
    look_at_all(alloc, vars, next, order, &mut known)
}

/// The same, with what is known of entries, which each look adds to.
fn look_at_all(
    alloc: Global,
    vars: &Vars,
    next: Option<u16>,
    order: &[u16],
    known: &mut [Option<EntryState>],
) -> Result<Vec<NamedEntry>, AllocError>
    requires room { length known.old ≡ 2 ^ 16 }
    requires known { AreKnown (entry_of vars.now) known.old }
    ensures { IfOk result (λ told. AreNamed (entry_of vars.now) next order.now told.items) }
{
    let mut named = next_named(alloc, vars, next, known)?;
    for number in order {
        named.push(look(vars, VARIABLE_ORDER, *number, known))?;
    }
    Ok(named)
}

/// What this BootNext names.
fn next_named(
    alloc: Global,
    vars: &Vars,
    next: Option<u16>,
    known: &mut [Option<EntryState>],
) -> Result<Vec<NamedEntry>, AllocError>
    requires room { length known.old ≡ 2 ^ 16 }
    requires known { AreKnown (entry_of vars.now) known.old }
    ensures told { IfOk result (λ told. AreNextNamed (entry_of vars.now) next told.items) }
    ensures room { length known.new ≡ 2 ^ 16 }
    ensures known { AreKnown (entry_of vars.now) known.new }
{
    let mut named = Vec::new(alloc);
    if let Some(number) = next {
        named.push(look(vars, VARIABLE_NEXT, number, known))?;
    }
    Ok(named)
}

/// What is told of a number that this variable names.
fn look(vars: &Vars, variable: u32, number: u16, known: &mut [Option<EntryState>]) -> NamedEntry
    requires room { length known.old ≡ 2 ^ 16 }
    requires known { AreKnown (entry_of vars.now) known.old }
    ensures told { TellsNamed (entry_of vars.now) (variable, number) result }
    ensures room { length known.new ≡ 2 ^ 16 }
    ensures known { AreKnown (entry_of vars.now) known.new }
{
    NamedEntry {
        variable,
        number: u32::from(number),
        state: state_once(vars, number, known).number(),
    }
}

/// The state of the entry of this number. BootOrder may repeat the number of a long entry, so what was seen of an entry
/// is kept, and none is looked at twice.
fn state_once(vars: &Vars, number: u16, known: &mut [Option<EntryState>]) -> EntryState
    requires room { length known.old ≡ 2 ^ 16 }
    requires known { AreKnown (entry_of vars.now) known.old }
    ensures is { IsEntryState (entry_of vars.now) number result }
    ensures room { length known.new ≡ 2 ^ 16 }
    ensures known { AreKnown (entry_of vars.now) known.new }
{
    let place = usize::from(number);
    if let Some(state) = known[place] {
        return state;
    }
    let state = state_of(vars, number);
    known[place] = Some(state);
    state
}
