//! Edits of sets, as an administrator asks for them.

ghost use Rattle.std.specs.Prelude.{◌≡◌, ◌≢◌, ◌⊎◌, ◌<◌, ◌≤◌, IfOk, IfErr};
ghost use Rattle.boot_edits.specs.declared.fault.EditFault.{EditFault};
ghost use Rattle.boot_edits.specs.Edit.{IsEdited};
ghost use Rattle.uefi_vars.specs.Vars.{Variables};
ghost use Rattle.bootkeep_c.specs.declared.failure.Failure.{Failure};
ghost use Rattle.bootkeep_c.specs.Status.{bad_size};
ghost use Rattle.bootkeep_c.specs.Buffer.{Gives, IsKept};
ghost use Rattle.bootkeep_c.specs.Refusals.{Tells};
ghost use Rattle.bootkeep_c.specs.Edits.{is_set, edited_numbers, IsNumberAsked, IsNumberUnasked, IsPositionAsked, IsPositionUnasked, IsAdditionAsked, IsOrderAsked, IsEditAsked, IsEditUnasked, IsSetEdited, IsSetUnedited, TellsEdited, AnswersEdit};

use crate::buffer::give;
use crate::failure::Failure;
use crate::refusal::{Refusal, UNEDITED_BAD_KIND, UNEDITED_BAD_NUMBER, UNEDITED_BAD_POSITION};
use crate::set::NO_ENTRY;
use crate::status::{BAD_SIZE, DONE};
use boot_edits::{Addition, Edit, EditAnswer, NewOrder, Position, make_edit};
use std::alloc::Global;
use uefi_vars::{read_set, write_set};

/// An entry is added.
pub const EDIT_ADD: u32 = 1;

/// Entries are taken out.
pub const EDIT_REMOVE: u32 = 2;

/// Entries come first in BootOrder.
pub const EDIT_FIRST: u32 = 3;

/// BootOrder becomes another one.
pub const EDIT_ORDER: u32 = 4;

/// BootOrder has each of its numbers once.
pub const EDIT_UNREPEAT: u32 = 5;

/// BootNext names an entry, or is deleted.
pub const EDIT_NEXT: u32 = 6;

/// Timeout becomes so many seconds, or is deleted.
pub const EDIT_TIMEOUT: u32 = 7;

/// Entries get LOAD_OPTION_ACTIVE.
pub const EDIT_ACTIVATE: u32 = 8;

/// Entries lose LOAD_OPTION_ACTIVE.
pub const EDIT_DEACTIVATE: u32 = 9;

/// A new entry comes last in BootOrder.
pub const POSITION_LAST: u32 = 0;

/// A new entry comes first in BootOrder.
pub const POSITION_FIRST: u32 = 1;

/// BootOrder stays as it is.
pub const POSITION_NONE: u32 = 2;

/// The variables are as they were to be.
pub const EDITED_DONE: u32 = 0;

/// The entry is added.
pub const EDITED_ADDED: u32 = 1;

/// The entry is there already.
pub const EDITED_PRESENT: u32 = 2;

/// How many bytes the struct of an edit has.
pub(crate) const EDIT_LEN: usize = 32;

/// How many bytes the struct of what came of one has.
pub(crate) const EDITED_LEN: usize = 16;

/// What an edit is to do: `struct bootkeep_edit`.
#[repr(C)]
#[derive(Clone, Copy, Debug, PartialEq, Eq)]
pub struct EditNumbers {
    /// How many bytes the caller's struct has.
    pub size: usize,
    /// What is to be done.
    pub kind: u32,
    /// The number of a new entry or of the next one, or seconds, or [`NO_ENTRY`].
    pub number: u32,
    /// Where a new entry comes in BootOrder.
    pub position: u32,
    /// Whether an entry is added even if it is there: 0 if not.
    pub again: u32,
    /// Whether a number of an order may have no entry: 0 if not.
    pub stale: u32,
    /// Whether the numbers are the whole order: 0 if not.
    pub only: u32,
}

// As many bytes as the header asserts.
const _: () = prove!(size_of::<EditNumbers>() == EDIT_LEN);

/// What came of an edit: `struct bootkeep_edited`.
#[repr(C)]
#[derive(Clone, Copy, Debug, PartialEq, Eq)]
pub struct EditedNumbers {
    /// How many bytes the caller's struct has.
    pub size: usize,
    /// Whether an entry is added, or was there.
    pub kind: u32,
    /// Its number, or [`NO_ENTRY`].
    pub entry: u32,
}

// As many bytes as the header asserts.
const _: () = prove!(size_of::<EditedNumbers>() == EDITED_LEN);

/// What becomes of a set by an edit. An edit of a list of entries has them in `numbers`, and one that adds an entry has its
/// bytes in `option`.
#[unsafe(no_mangle)]
pub extern "C" fn bootkeep_vars_edit(
    alloc: Global,
    edit: &EditNumbers,
    numbers: &[u16],
    option: &[u8],
    set: &[u8],
    out: &mut [u8],
    len: &mut usize,
    edited: &mut EditedNumbers,
    refusal: &mut Refusal,
) -> u32
    ensures size { (edit.now.size < 32) ⊎ (edited.old.size < 16) → (result ≡ bad_size)
        × IsKept out.old out.new len.old len.new × (edited.new ≡ edited.old) × (refusal.new ≡ refusal.old) }
    ensures answers { 32 ≤ edit.now.size → 16 ≤ edited.old.size →
        AnswersEdit (IsSetEdited edit.now numbers.now option.now set.now) (IsSetUnedited edit.now numbers.now option.now set.now)
        result out.old out.new len.old len.new edited.old edited.new refusal.old refusal.new }
{
    if edit.size < EDIT_LEN || edited.size < EDITED_LEN {
        return BAD_SIZE;
    }
    let made = edited_set(alloc, edit, numbers, option, set);
    answer_edit(made, out, len, edited, refusal)
}

/// A set that was edited.
#[derive(Drop)]
struct EditedSet {
    /// Its bytes.
    bytes: Vec<u8>,
    /// What is told of the edit.
    answer: EditAnswer,
}

/// Gives the set, if there is one and room for it, and tells what came of the edit, or why there is none.
fn answer_edit(
    made: Result<EditedSet, Failure>,
    out: &mut [u8],
    len: &mut usize,
    edited: &mut EditedNumbers,
    refusal: &mut Refusal,
) -> u32
    ensures given { IfOk made (λ set. Gives result set.bytes.items out.old out.new len.new
        × TellsEdited result set.answer edited.old edited.new × (refusal.new ≡ refusal.old)) }
    ensures told { IfErr made (λ failed. Tells failed result refusal.old refusal.new
        × IsKept out.old out.new len.old len.new × (edited.new ≡ edited.old)) }
{
    match made {
        Ok(EditedSet { bytes, answer }) => {
            let status = give(&bytes, out, len);
            if status == DONE {
                *edited = numbers_of(edited.size, answer);
            }
            status
        }
        Err(failure) => failure.tell(refusal),
    }
}

/// What came of an edit, in a struct of so many bytes.
fn numbers_of(size: usize, answer: EditAnswer) -> EditedNumbers
    ensures { result ≡ edited_numbers size answer }
{
    match answer {
        EditAnswer::Done => EditedNumbers {
            size,
            kind: EDITED_DONE,
            entry: NO_ENTRY,
        },
        EditAnswer::Added(entry) => EditedNumbers {
            size,
            kind: EDITED_ADDED,
            entry: u32::from(entry),
        },
        EditAnswer::Present(entry) => EditedNumbers {
            size,
            kind: EDITED_PRESENT,
            entry: u32::from(entry),
        },
    }
}

/// The set after the edit.
fn edited_set(
    alloc: Global,
    asked: &EditNumbers,
    numbers: &[u16],
    option: &[u8],
    set: &[u8],
) -> Result<EditedSet, Failure>
    ensures made { IfOk result (λ made. IsSetEdited asked.now numbers.now option.now set.now made.bytes.items made.answer) }
    ensures fault { IfErr result (λ failed. failed ≢ Failure.Memory →
        IsSetUnedited asked.now numbers.now option.now set.now failed) }
{
    let wanted = edit_asked(asked, numbers, option)?;
    let vars = read_set(alloc, set)?;
    let (to, answer) = make_edit(alloc, &vars, &wanted)?;
    let bytes = write_set(alloc, &to)?;
    Ok(EditedSet { bytes, answer })
}

/// The edit that is asked for.
pub(crate) fn edit_asked<'a>(
    asked: &EditNumbers,
    numbers: &'a [u16],
    option: &'a [u8],
) -> Result<Edit<'a>, Failure>
    ensures asked { IfOk result (IsEditAsked asked.now numbers.now option.now) }
    ensures fault { IfErr result (IsEditUnasked asked.now) }
{
    match asked.kind {
        EDIT_ADD => Ok(Edit::Add(addition_asked(asked, option)?)),
        EDIT_REMOVE => Ok(Edit::Remove(numbers)),
        EDIT_FIRST => Ok(Edit::First(numbers)),
        EDIT_ORDER => Ok(Edit::Order(order_asked(asked, numbers))),
        EDIT_UNREPEAT => Ok(Edit::Unrepeat),
        EDIT_NEXT => Ok(Edit::Next(number_asked(asked.number)?)),
        EDIT_TIMEOUT => Ok(Edit::Timeout(number_asked(asked.number)?)),
        EDIT_ACTIVATE => Ok(Edit::Activate(numbers)),
        EDIT_DEACTIVATE => Ok(Edit::Deactivate(numbers)),
        _ => Err(Failure::bare(UNEDITED_BAD_KIND)),
    }
}

/// The entry of these bytes that is to be added.
fn addition_asked<'a>(asked: &EditNumbers, option: &'a [u8]) -> Result<Addition<'a>, Failure>
    ensures asked { IfOk result (IsAdditionAsked asked.now option.now) }
    ensures fault { IfErr result (λ failed. IsNumberUnasked asked.now.number failed
        ⊎ ((asked.now.number ≤ 0x10000) × IsPositionUnasked asked.now.position failed)) }
{
    Ok(Addition {
        entry: number_asked(asked.number)?,
        option,
        position: position_asked(asked.position)?,
        again: asked.again != 0,
    })
}

/// The BootOrder of these numbers.
fn order_asked<'a>(asked: &EditNumbers, numbers: &'a [u16]) -> NewOrder<'a>
    ensures { IsOrderAsked asked.now numbers.now result }
{
    NewOrder {
        entries: numbers,
        stale: asked.stale != 0,
        only: asked.only != 0,
    }
}

/// The number of an entry, or seconds, or none.
fn number_asked(number: u32) -> Result<Option<u16>, Failure>
    ensures asked { IfOk result (IsNumberAsked number) }
    ensures fault { IfErr result (IsNumberUnasked number) }
{
    if number == NO_ENTRY {
        return Ok(None);
    }
    match u16::try_from(number) {
        Ok(number) => Ok(Some(number)),
        Err(_) => Err(Failure::bare(UNEDITED_BAD_NUMBER)),
    }
}

/// Where a new entry comes in BootOrder.
fn position_asked(position: u32) -> Result<Position, Failure>
    ensures asked { IfOk result (IsPositionAsked position) }
    ensures fault { IfErr result (IsPositionUnasked position) }
{
    match position {
        POSITION_LAST => Ok(Position::Last),
        POSITION_FIRST => Ok(Position::First),
        POSITION_NONE => Ok(Position::NoOrder),
        _ => Err(Failure::bare(UNEDITED_BAD_POSITION)),
    }
}
