//! Sets of variables: their plans and their data, and sets with one variable changed.

ghost use Rattle.std.specs.Prelude.{◌≡◌, ◌≢◌, ◌⊎◌, ◌<◌, ℕ, List, [], ◌++◌, length, Option, Some, None, IfOk, IfErr, IfSome, IfNone, OnOk, true, false};
ghost use Rattle.std.specs.Option.{option_map};
ghost use Rattle.std.specs.FinMap as map;
ghost use Rattle.uefi_vars.specs.declared.fault.SetFault.{SetFault};
ghost use Rattle.uefi_vars.specs.declared.fault.VarFault.{VarFault};
ghost use Rattle.uefi_vars.specs.declared.fault.PutFault.{PutFault};
ghost use Rattle.uefi_vars.specs.Name.{IsName};
ghost use Rattle.uefi_vars.specs.Vars.{Variables, data_max, IsVars};
ghost use Rattle.uefi_vars.specs.Set.{SpellsSet, set_bytes};
ghost use Rattle.uefi_vars.specs.Fault.{IsFirstFault};
ghost use Rattle.uefi_vars.specs.Order.{HasBadOrder, HasBadNext};
ghost use Rattle.uefi_vars.specs.Plan.{PlanParts, HasPlan};
ghost use Rattle.bootkeep_c.specs.declared.failure.Failure.{Failure};
ghost use Rattle.bootkeep_c.specs.Status.{done, refused, no_room, absent, no_memory, IsGiveStatus, IsFindStatus};
ghost use Rattle.bootkeep_c.specs.Refusals.{set_failure, vars_failure, put_failure, Tells, TellsUnless};
ghost use Rattle.bootkeep_c.specs.Buffer.{IsInFront, Gives, GivesUnless};
ghost use Rattle.bootkeep_c.specs.Plans.{number_or_none, next_number, normal_numbers};
ghost use Rattle.bootkeep_c.specs.Sets.{IsPlanFailure, HasPlanNumbers, AreAtRisk, HasAtRisk, IsPut, IsPutFault, IsPutFailure, IsNameText, GivesValue};

use crate::buffer::give;
use crate::failure::Failure;
use crate::refusal::Refusal;
use crate::status::{ABSENT, DONE};
use std::alloc::Global;
use std::str;
use uefi_vars::{
    AtRisk, PlanNumbers, PutFault, Vars, entries_at_risk, laws, plan_numbers, read_set, write_set,
};

/// What stands for the number of no entry.
pub const NO_ENTRY: u32 = 0x10000;

/// What a boot would try (UEFI 2.10, 3.3): the number of BootNext's entry, and those of the normal entries of BootOrder.
#[unsafe(no_mangle)]
pub extern "C" fn bootkeep_vars_plan(
    alloc: Global,
    set: &[u8],
    numbers: &mut [u16],
    len: &mut usize,
    next: &mut u32,
    refusal: &mut Refusal,
) -> u32
    // Of variables that have a plan, its numbers are given.
    ensures plan { (vars : Variables) (plan : PlanParts) → SpellsSet set.now vars → HasPlan vars plan →
        GivesUnless result (normal_numbers plan) numbers.old numbers.new len.old len.new
        × (result ≡ done → next.new ≡ next_number plan) }
    // The first fault is told: that of the set, or otherwise that of its variables.
    ensures fault { (fault : SetFault) → IsFirstFault set.now fault →
        TellsUnless (set_failure fault) result refusal.old refusal.new }
    ensures bad_order { (vars : Variables) → SpellsSet set.now vars → HasBadOrder vars →
        TellsUnless (vars_failure VarFault.BadOrder) result refusal.old refusal.new }
    ensures bad_next { (vars : Variables) → SpellsSet set.now vars → ¬ HasBadOrder vars → HasBadNext vars →
        TellsUnless (vars_failure VarFault.BadNext) result refusal.old refusal.new }
    ensures found { result ≡ done → (vars : Variables) × (plan : PlanParts) × SpellsSet set.now vars
        × HasPlan vars plan × IsInFront (normal_numbers plan) numbers.old numbers.new len.new
        × (next.new ≡ next_number plan) }
    ensures told { result ≡ refused → (failed : Failure)
        × IsPlanFailure set.now failed × Tells failed result refusal.old refusal.new }
    ensures status { IsGiveStatus result }
    // What isn't told stays as it was.
    ensures untouched { result ≢ done → (numbers.new ≡ numbers.old) × (next.new ≡ next.old) }
    ensures len { result ≡ done ⊎ (result ≡ no_room ⊎ (len.new ≡ len.old)) }
    ensures refusal { result ≢ refused → refusal.new ≡ refusal.old }
{
    laws::bytes_spell_one_set();
    laws::variables_have_one_plan();
    laws::a_bad_order_gives_no_order();
    laws::a_bad_next_gives_no_next();
    match planned(alloc, set) {
        Ok(plan) => {
            let status = give(&plan.normal, numbers, len);
            if status == DONE {
                *next = number_or_none(plan.next);
            }
            status
        }
        Err(failure) => failure.tell(refusal),
    }
}

/// The number, or what stands for none.
pub(crate) fn number_or_none(number: Option<u16>) -> u32
    ensures { result ≡ number_or_none number }
{
    match number {
        Some(number) => u32::from(number),
        None => NO_ENTRY,
    }
}

/// The numbers of the plan of a set.
fn planned(alloc: Global, set: &[u8]) -> Result<PlanNumbers, Failure>
    ensures found { IfOk result (λ numbers. HasPlanNumbers set.now numbers.next numbers.normal.items) }
    ensures fault { IfErr result (λ failed. failed ≢ Failure.Memory → IsPlanFailure set.now failed) }
{
    let vars = read_set(alloc, set)?;
    let numbers = plan_numbers(alloc, &vars)?;
    Ok(numbers)
}

/// The entries that a start of firmware may write over or delete (UEFI 2.10, 3.3): those that neither BootOrder nor
/// BootNext names, and after them those of BootOrder that are no load option.
#[unsafe(no_mangle)]
pub extern "C" fn bootkeep_vars_at_risk(
    alloc: Global,
    set: &[u8],
    numbers: &mut [u16],
    len: &mut usize,
    unnamed: &mut usize,
    refusal: &mut Refusal,
) -> u32
    // Of variables with a good BootOrder and a good BootNext, the numbers are given.
    ensures numbers { (vars : Variables) (first others : List ℕ) → SpellsSet set.now vars → AreAtRisk vars first others →
        GivesUnless result (first ++ others) numbers.old numbers.new len.old len.new
        × (result ≡ done → unnamed.new ≡ length first) }
    // The first fault is told: that of the set, or otherwise that of its variables.
    ensures fault { (fault : SetFault) → IsFirstFault set.now fault →
        TellsUnless (set_failure fault) result refusal.old refusal.new }
    ensures bad_order { (vars : Variables) → SpellsSet set.now vars → HasBadOrder vars →
        TellsUnless (vars_failure VarFault.BadOrder) result refusal.old refusal.new }
    ensures bad_next { (vars : Variables) → SpellsSet set.now vars → ¬ HasBadOrder vars → HasBadNext vars →
        TellsUnless (vars_failure VarFault.BadNext) result refusal.old refusal.new }
    ensures found { result ≡ done → (vars : Variables) × (first : List ℕ) × (others : List ℕ) × SpellsSet set.now vars
        × AreAtRisk vars first others × IsInFront (first ++ others) numbers.old numbers.new len.new
        × (unnamed.new ≡ length first) }
    ensures told { result ≡ refused → (failed : Failure)
        × IsPlanFailure set.now failed × Tells failed result refusal.old refusal.new }
    ensures status { IsGiveStatus result }
    // What isn't told stays as it was.
    ensures untouched { result ≢ done → (numbers.new ≡ numbers.old) × (unnamed.new ≡ unnamed.old) }
    ensures len { result ≡ done ⊎ (result ≡ no_room ⊎ (len.new ≡ len.old)) }
    ensures refusal { result ≢ refused → refusal.new ≡ refusal.old }
{
    laws::bytes_spell_one_set();
    match at_risk(alloc, set) {
        Ok(risk) => {
            let status = give(&risk.numbers, numbers, len);
            if status == DONE {
                *unnamed = risk.unnamed;
            }
            status
        }
        Err(failure) => failure.tell(refusal),
    }
}

/// The entries at risk as C is told them: the unnamed ones, and after them the undecodable ones.
#[derive(Drop)]
struct Listed {
    numbers: Vec<u16>,
    /// How many of them are unnamed.
    unnamed: usize,
}

/// The entries of a set that are at risk.
fn at_risk(alloc: Global, set: &[u8]) -> Result<Listed, Failure>
    ensures found { IfOk result (λ listed. HasAtRisk set.now listed.numbers.items listed.unnamed) }
    ensures fault { IfErr result (λ failed. failed ≢ Failure.Memory → IsPlanFailure set.now failed) }
{
    let vars = read_set(alloc, set)?;
    let risk = entries_at_risk(alloc, &vars)?;
    let AtRisk {
        unnamed: mut numbers,
        undecodable,
    } = risk;
    let unnamed = numbers.len();
    numbers.extend_from_slice(&undecodable)?;
    Ok(Listed { numbers, unnamed })
}

/// The data of the variable of this name.
#[unsafe(no_mangle)]
pub extern "C" fn bootkeep_vars_get(
    alloc: Global,
    set: &[u8],
    name: &[u8],
    out: &mut [u8],
    len: &mut usize,
    refusal: &mut Refusal,
) -> u32
    // The data that is under the name is given.
    ensures value { (vars : Variables) (value : List ℕ) → SpellsSet set.now vars → map.get vars name.now ≡ Some value →
        GivesUnless result value out.old out.new len.old len.new }
    ensures absent { (vars : Variables) → SpellsSet set.now vars → map.get vars name.now ≡ None →
        (result ≡ absent) ⊎ (result ≡ no_memory) }
    // The first fault is told.
    ensures fault { (fault : SetFault) → IsFirstFault set.now fault →
        TellsUnless (set_failure fault) result refusal.old refusal.new }
    ensures found { result ≡ done → (vars : Variables) × (value : List ℕ) × SpellsSet set.now vars
        × (map.get vars name.now ≡ Some value) × IsInFront value out.old out.new len.new }
    ensures missing { result ≡ absent → (vars : Variables)
        × SpellsSet set.now vars × (map.get vars name.now ≡ None) }
    ensures told { result ≡ refused → (fault : SetFault)
        × IsFirstFault set.now fault × Tells (set_failure fault) result refusal.old refusal.new }
    ensures status { IsFindStatus result }
    // What isn't told stays as it was.
    ensures untouched { result ≢ done → out.new ≡ out.old }
    ensures len { result ≡ done ⊎ (result ≡ no_room ⊎ (len.new ≡ len.old)) }
    ensures refusal { result ≢ refused → refusal.new ≡ refusal.old }
{
    laws::bytes_spell_one_set();
    match read_set(alloc, set) {
        Ok(vars) => give_value(&vars, name, out, len),
        Err(fault) => Failure::from(fault).tell(refusal),
    }
}

/// Gives the data of the variable of this name, if there is one, and room for it.
fn give_value(vars: &Vars, name: &[u8], out: &mut [u8], len: &mut usize) -> u32
    ensures { GivesValue vars.now name.now result out.old out.new len.old len.new }
{
    match value_of(vars, name) {
        Some(value) => give(value, out, len),
        None => ABSENT,
    }
}

/// The data of the variable of this name, if there is one.
fn value_of<'a>(vars: &'a Vars, name: &[u8]) -> Option<&'a [u8]>
    ensures { option_map (λ value. value.now) result ≡ map.get vars.now name.now }
{
    vars.get(name_text(name))
}

/// The name as text. If it isn't UTF-8 it is no name, and nor is the empty text in its place.
pub(crate) fn name_text(name: &[u8]) -> &str
    ensures { IsNameText name.now result.now }
{
    match str::from_utf8(name) {
        Ok(text) => text,
        Err(_) => "",
    }
}

/// The set with this data for the variable of this name.
#[unsafe(no_mangle)]
pub extern "C" fn bootkeep_vars_put(
    alloc: Global,
    set: &[u8],
    name: &[u8],
    value: &[u8],
    out: &mut [u8],
    len: &mut usize,
    refusal: &mut Refusal,
) -> u32
    // The set with the variable is given.
    ensures set { (vars : Variables) → SpellsSet set.now vars → IsPut name.now value.now →
        GivesUnless result (set_bytes (map.insert vars name.now value.now)) out.old out.new len.old len.new }
    // The first fault is told: that of the set, or otherwise that of the variable.
    ensures fault { (fault : SetFault) → IsFirstFault set.now fault →
        TellsUnless (set_failure fault) result refusal.old refusal.new }
    ensures bad_name { (vars : Variables) → SpellsSet set.now vars → ¬ IsName name.now →
        TellsUnless (put_failure PutFault.BadName) result refusal.old refusal.new }
    ensures empty_data { (vars : Variables) → SpellsSet set.now vars → IsName name.now → value.now ≡ [] →
        TellsUnless (put_failure PutFault.EmptyData) result refusal.old refusal.new }
    ensures data_too_long { (vars : Variables) → SpellsSet set.now vars → IsName name.now →
        data_max < length value.now →
        TellsUnless (put_failure PutFault.DataTooLong) result refusal.old refusal.new }
    ensures found { result ≡ done → (vars : Variables) × SpellsSet set.now vars × IsPut name.now value.now
        × IsInFront (set_bytes (map.insert vars name.now value.now)) out.old out.new len.new }
    ensures told { result ≡ refused → (failed : Failure)
        × IsPutFailure set.now name.now value.now failed × Tells failed result refusal.old refusal.new }
    ensures status { IsGiveStatus result }
    // What isn't told stays as it was.
    ensures untouched { result ≢ done → out.new ≡ out.old }
    ensures len { result ≡ done ⊎ (result ≡ no_room ⊎ (len.new ≡ len.old)) }
    ensures refusal { result ≢ refused → refusal.new ≡ refusal.old }
{
    laws::bytes_spell_one_set();
    match with_variable(alloc, set, name, value) {
        Ok(bytes) => give(&bytes, out, len),
        Err(failure) => failure.tell(refusal),
    }
}

/// The bytes of the set with this data for the variable of this name.
fn with_variable(alloc: Global, set: &[u8], name: &[u8], value: &[u8]) -> Result<Vec<u8>, Failure>
    ensures found { IfOk result (λ bytes. (vars : Variables) × SpellsSet set.now vars × IsPut name.now value.now
        × (bytes.items ≡ set_bytes (map.insert vars name.now value.now))) }
    ensures fault { IfErr result (λ failed. failed ≢ Failure.Memory →
        IsPutFailure set.now name.now value.now failed) }
{
    let mut vars = read_set(alloc, set)?;
    put(&mut vars, name, value)?;
    Ok(write_set(alloc, &vars)?)
}

/// Sets the variable of this name to this data.
fn put(vars: &mut Vars, name: &[u8], value: &[u8]) -> Result<(), PutFault>
    ensures put { OnOk result (IsPut name.now value.now × (vars.new ≡ map.insert vars.old name.now value.now)) }
    ensures fault { IfErr result (λ fault. fault ≢ PutFault.OutOfMemory → IsPutFault name.now value.now fault) }
    ensures valid { IsVars vars.new }
{
    vars.put(name_text(name), value)
}

/// The set without the variable of this name.
#[unsafe(no_mangle)]
pub extern "C" fn bootkeep_vars_remove(
    alloc: Global,
    set: &[u8],
    name: &[u8],
    out: &mut [u8],
    len: &mut usize,
    refusal: &mut Refusal,
) -> u32
    // The set without the variable is given.
    ensures set { (vars : Variables) → SpellsSet set.now vars → map.contains_key vars name.now ≡ true →
        GivesUnless result (set_bytes (map.remove vars name.now)) out.old out.new len.old len.new }
    ensures absent { (vars : Variables) → SpellsSet set.now vars → map.contains_key vars name.now ≡ false →
        (result ≡ absent) ⊎ (result ≡ no_memory) }
    // The first fault is told.
    ensures fault { (fault : SetFault) → IsFirstFault set.now fault →
        TellsUnless (set_failure fault) result refusal.old refusal.new }
    ensures found { result ≡ done → (vars : Variables) × SpellsSet set.now vars
        × (map.contains_key vars name.now ≡ true)
        × IsInFront (set_bytes (map.remove vars name.now)) out.old out.new len.new }
    ensures missing { result ≡ absent → (vars : Variables)
        × SpellsSet set.now vars × (map.contains_key vars name.now ≡ false) }
    ensures told { result ≡ refused → (fault : SetFault)
        × IsFirstFault set.now fault × Tells (set_failure fault) result refusal.old refusal.new }
    ensures status { IsFindStatus result }
    // What isn't told stays as it was.
    ensures untouched { result ≢ done → out.new ≡ out.old }
    ensures len { result ≡ done ⊎ (result ≡ no_room ⊎ (len.new ≡ len.old)) }
    ensures refusal { result ≢ refused → refusal.new ≡ refusal.old }
{
    laws::bytes_spell_one_set();
    match without_variable(alloc, set, name) {
        Ok(Some(bytes)) => give(&bytes, out, len),
        Ok(None) => ABSENT,
        Err(failure) => failure.tell(refusal),
    }
}

/// The bytes of the set without the variable of this name, if there is one.
fn without_variable(alloc: Global, set: &[u8], name: &[u8]) -> Result<Option<Vec<u8>>, Failure>
    ensures found { IfOk result (λ found. IfSome found (λ bytes. (vars : Variables) × SpellsSet set.now vars
        × (map.contains_key vars name.now ≡ true) × (bytes.items ≡ set_bytes (map.remove vars name.now)))) }
    ensures absent { IfOk result (λ found. IfNone found
        ((vars : Variables) × SpellsSet set.now vars × (map.contains_key vars name.now ≡ false))) }
    ensures fault { IfErr result (λ failed. failed ≢ Failure.Memory →
        (fault : SetFault) × IsFirstFault set.now fault × (failed ≡ set_failure fault)) }
{
    let mut vars = read_set(alloc, set)?;
    if !remove(&mut vars, name) {
        return Ok(None);
    }
    let bytes = write_set(alloc, &vars)?;
    Ok(Some(bytes))
}

/// Takes out the variable of this name. Whether there was one.
fn remove(vars: &mut Vars, name: &[u8]) -> bool
    requires { IsVars vars.old }
    ensures was { result ≡ map.contains_key vars.old name.now }
    ensures removed { vars.new ≡ map.remove vars.old name.now }
    ensures valid { IsVars vars.new }
{
    vars.remove(name_text(name))
}
