//! Emulators' variable files: what they have, as a set of what a machine keeps, and files with the entries of such a set.

ghost use Rattle.std.specs.Prelude.{◌≡◌, ◌≢◌, map, IfOk, IfErr};
ghost use Rattle.std.specs.List.{AllByRecursion};
ghost use Rattle.boot_journal.specs.Attributes.{data_of};
ghost use Rattle.var_stores.specs.Record.{record_parts, IsRecord};
ghost use Rattle.var_stores.specs.Rewriting.{IsWritten};
ghost use Rattle.bootkeep_c.specs.declared.failure.Failure.{Failure};
ghost use Rattle.bootkeep_c.specs.Answers.{Answers};
ghost use Rattle.bootkeep_c.specs.Stores.{AreStored, AreUnstored, IsStored, IsUnstored, IsUnwritten, IsFileWith, IsNoFileWith};

use crate::answer::answer;
use crate::failure::Failure;
use crate::refusal::Refusal;
use boot_journal::{with_attributes, without_attributes};
use std::alloc::Global;
use uefi_vars::{Vars, read_set, write_set};
use var_stores::{VariableStore, read_store, store_attributes, store_vars, write_boot_vars};

/// What an emulator's variable file has of the variables that the standard names (UEFI 2.10, 3.3), as a machine keeps it:
/// a set, in which the boot manager's have their attributes.
#[unsafe(no_mangle)]
pub extern "C" fn bootkeep_store_vars(
    alloc: Global,
    file: &[u8],
    out: &mut [u8],
    len: &mut usize,
    refusal: &mut Refusal,
) -> u32
    ensures { Answers (IsStored file.now) (IsUnstored file.now)
        result out.old out.new len.old len.new refusal.old refusal.new }
{
    let made = kept_in(alloc, file);
    answer(made, out, len, refusal)
}

/// The bytes of the file once the boot manager's variables are those of a set that a machine keeps.
#[unsafe(no_mangle)]
pub extern "C" fn bootkeep_store_with(
    alloc: Global,
    file: &[u8],
    set: &[u8],
    out: &mut [u8],
    len: &mut usize,
    refusal: &mut Refusal,
) -> u32
    ensures { Answers (IsFileWith file.now set.now) (IsNoFileWith file.now set.now)
        result out.old out.new len.old len.new refusal.old refusal.new }
{
    let made = file_with(alloc, file, set);
    answer(made, out, len, refusal)
}

/// The set of what the file has.
fn kept_in(alloc: Global, file: &[u8]) -> Result<Vec<u8>, Failure>
    ensures made { IfOk result (λ bytes. IsStored file.now bytes.items) }
    ensures fault { IfErr result (λ failed. failed ≢ Failure.Memory → IsUnstored file.now failed) }
{
    let store = read_store(alloc, file)?;
    let kept = kept_of(alloc, &store)?;
    Ok(write_set(alloc, &kept)?)
}

/// What a machine keeps that has the variables of the store.
fn kept_of(alloc: Global, store: &VariableStore<'_>) -> Result<Vars, Failure>
    requires { AllByRecursion IsRecord (map record_parts store.now.records.items) }
    ensures kept { IfOk result (λ kept. AreStored (map record_parts store.now.records.items) kept) }
    ensures fault { IfErr result (λ failed. failed ≢ Failure.Memory →
        AreUnstored (map record_parts store.now.records.items) failed) }
{
    let vars = store_vars(alloc, store)?;
    let attributes = store_attributes(alloc, store)?;
    Ok(with_attributes(alloc, &vars, &attributes)?)
}

/// The file with the boot manager's variables of the set.
fn file_with(alloc: Global, file: &[u8], set: &[u8]) -> Result<Vec<u8>, Failure>
    ensures made { IfOk result (λ bytes. IsFileWith file.now set.now bytes.items) }
    ensures fault { IfErr result (λ failed. failed ≢ Failure.Memory → IsNoFileWith file.now set.now failed) }
{
    let kept = read_set(alloc, set)?;
    rewritten(alloc, file, &kept)
}

/// The file with the boot manager's variables of what a machine keeps.
fn rewritten(alloc: Global, file: &[u8], kept: &Vars) -> Result<Vec<u8>, Failure>
    ensures made { IfOk result (λ bytes. IsWritten file.now (data_of kept.now) kept.now bytes.items) }
    ensures fault { IfErr result (λ failed. failed ≢ Failure.Memory → IsUnwritten file.now kept.now failed) }
{
    let vars = without_attributes(alloc, kept)?;
    Ok(write_boot_vars(alloc, file, &vars, kept)?)
}
