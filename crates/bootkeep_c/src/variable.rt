//! Where the variables of a set are in its bytes.

ghost use Rattle.std.specs.Prelude.{◌≡◌, ◌≢◌, ◌+◌, ◌<◌, ◌^◌, length, IfOk, IfErr};
ghost use Rattle.std.specs.FinMap.{entries};
ghost use Rattle.uefi_vars.specs.Set.{SpellsSet, magic, record_bytes};
ghost use Rattle.bootkeep_c.specs.declared.failure.Failure.{Failure};
ghost use Rattle.bootkeep_c.specs.Status.{bad_size};
ghost use Rattle.bootkeep_c.specs.Buffer.{IsKept};
ghost use Rattle.bootkeep_c.specs.Answers.{Answers};
ghost use Rattle.bootkeep_c.specs.Sets.{IsSetFailure};
ghost use Rattle.bootkeep_c.specs.Variables.{places_at, places_from, HasVariablesAt};

use crate::answer::answer;
use crate::failure::Failure;
use crate::refusal::Refusal;
use crate::status::BAD_SIZE;
use std::alloc::{AllocError, Global};
use uefi_vars::{SET_MAGIC, Vars, read_set};

/// The bytes that state the length of a name.
const NAME_LEN_LEN: usize = 1;

/// The bytes that state the length of data.
const DATA_LEN_LEN: usize = 4;

/// How many bytes the struct of a variable's places has.
const VARIABLE_LEN: usize = 32;

/// Where a variable is in the bytes of its set: `struct bootkeep_variable`.
#[repr(C)]
#[derive(Clone, Copy, Debug, PartialEq, Eq)]
pub struct VariablePlaces {
    /// Where its name is.
    pub name: usize,
    /// How many bytes its name has.
    pub name_len: usize,
    /// Where its data is.
    pub data: usize,
    /// How many bytes its data has.
    pub data_len: usize,
}

// As many bytes as the header asserts.
const _: () = prove!(size_of::<VariablePlaces>() == VARIABLE_LEN);

/// Where the variables of the set are in its bytes, in the order of their names.
#[unsafe(no_mangle)]
pub extern "C" fn bootkeep_vars_list(
    alloc: Global,
    set: &[u8],
    variables: &mut [VariablePlaces],
    item_size: usize,
    len: &mut usize,
    refusal: &mut Refusal,
) -> u32
    ensures size { item_size ≢ 32 → (result ≡ bad_size) × IsKept variables.old variables.new len.old len.new
        × (refusal.new ≡ refusal.old) }
    ensures answers { item_size ≡ 32 → Answers (HasVariablesAt set.now) (IsSetFailure set.now)
        result variables.old variables.new len.old len.new refusal.old refusal.new }
{
    if item_size != VARIABLE_LEN {
        return BAD_SIZE;
    }
    let found = variables_of(alloc, set);
    answer(found, variables, len, refusal)
}

/// The places of the variables of the set.
fn variables_of(alloc: Global, set: &[u8]) -> Result<Vec<VariablePlaces>, Failure>
    ensures found { IfOk result (λ places. HasVariablesAt set.now places.items) }
    ensures fault { IfErr result (λ failed. failed ≢ Failure.Memory → IsSetFailure set.now failed) }
{
    let vars = read_set(alloc, set)?;
    Ok(places_in(alloc, set, &vars)?)
}

/// The places of these variables in the bytes of their set.
fn places_in(alloc: Global, set: &[u8], vars: &Vars) -> Result<Vec<VariablePlaces>, AllocError>
    requires { SpellsSet set.now vars.now }
    ensures { IfOk result (λ places. places.items ≡ places_from (length magic) (entries vars.now)) }
{
    let mut places = Vec::new(alloc);
    let mut at = SET_MAGIC.len();
    for (name, value) in vars.iter() {
        let variable = places_at(at, name, value);
        at = variable.data + variable.data_len;
        places.push(variable)?;
    }
    Ok(places)
}

/// The places of a variable whose record is at this place of a set.
fn places_at(at: usize, name: &str, value: &[u8]) -> VariablePlaces
    requires { at + length (record_bytes (name.now, value.now)) < 2 ^ 64 }
    ensures places { result ≡ places_at at (name.now, value.now) }
    ensures end { result.«data» + result.data_len ≡ at + length (record_bytes (name.now, value.now)) }
{
    let start = at + NAME_LEN_LEN;
    VariablePlaces {
        name: start,
        name_len: name.len(),
        data: start + name.len() + DATA_LEN_LEN,
        data_len: value.len(),
    }
}
