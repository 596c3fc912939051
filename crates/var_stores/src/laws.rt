//! The laws of the definitions. Each is a function that does nothing, and whose contract is the law.

ghost use Rattle.std.specs.Prelude.{◌≡◌, ◌≢◌, ◌⊎◌, ◌↔◌, ℕ, List, ◌∷◌, ◌++◌, ◌&&◌, None, Some, true, false};
ghost use Rattle.std.specs.Option.{option_map};
ghost use Rattle.std.specs.List.{AllByRecursion};
ghost use Rattle.std.specs.FinMap as map;
ghost use Rattle.uefi_vars.specs.Name.{IsName, global_vendor};
ghost use Rattle.uefi_vars.specs.Vars.{Variables};
ghost use Rattle.uefi_vars.specs.BootChange.{is_boot_name};
ghost use Rattle.var_stores.specs.declared.fault.StoreFault.{StoreFault};
ghost use Rattle.var_stores.specs.Volume.{volume_signature, StoreParts, SpellsStore, IsStoreFault};
ghost use Rattle.var_stores.specs.Record.{RecordParts, vendor_in};
ghost use Rattle.var_stores.specs.Present.{global_key, is_of, is_added, is_alive, is_left_out, if_left_out, found, IsSetOf};
ghost use Rattle.var_stores.specs.Rewriting.{new_attributes, new_record, IsWritten};
ghost use Rattle.var_stores.specs.Damage.{CountsRecords};

use crate::volume::VOLUME_SIGNATURE;
use uefi_vars::laws as vars_laws;

/// A file has at most one store of variables.
pub fn a_file_has_one_store()
    ensures { (file : List ℕ) (s t : StoreParts) → SpellsStore file s → SpellsStore file t → s ≡ t }
{}

/// A file with a fault has no store of variables.
pub fn a_fault_leaves_no_store()
    ensures { (file : List ℕ) (fault : StoreFault) (store : StoreParts) → fault ≢ StoreFault.OutOfMemory →
        IsStoreFault file fault → SpellsStore file store → ⊥ }
{}

/// A file has at most one first fault.
pub fn a_file_has_one_fault()
    ensures { (file : List ℕ) (f g : StoreFault) → f ≢ StoreFault.OutOfMemory → g ≢ StoreFault.OutOfMemory →
        IsStoreFault file f → IsStoreFault file g → f ≡ g }
{}

/// The record of a variable that is there is the first of its records that was added; if none was, the last that is being
/// replaced; and if there is none of either kind, the variable isn't there.
pub fn one_record_of_a_variable_is_there()
    ensures added { (key : List ℕ) (before after : List RecordParts) (r : RecordParts) →
        AllByRecursion (λ s. (is_of key s && is_added s) ≡ false) before → (is_of key r && is_added r) ≡ true →
        found key (before ++ (r ∷ after)) ≡ Some r }
    ensures replaced { (key : List ℕ) (before after : List RecordParts) (r : RecordParts) →
        AllByRecursion (λ s. (is_of key s && is_added s) ≡ false) before → (is_of key r && is_alive r) ≡ true →
        AllByRecursion (λ s. (is_of key s && is_alive s) ≡ false) after → found key (before ++ (r ∷ after)) ≡ Some r }
    ensures none { (key : List ℕ) (records : List RecordParts) →
        AllByRecursion (λ s. (is_of key s && is_alive s) ≡ false) records → found key records ≡ None }
{}

/// A variable of the standard's vendor that is there is in the store's set, with its value, exactly if it isn't left out.
pub fn a_variable_is_in_the_set_or_left_out()
    ensures { (records : List RecordParts) (vars : Variables) (key : List ℕ) (r : RecordParts) → IsSetOf records vars →
        found key records ≡ Some r → vendor_in r.header ≡ global_vendor → (is_left_out r ≡ false)
        ↔ ((name : List ℕ) × IsName name × (key ≡ global_key name) × (map.get vars name ≡ Some r.value)) }
{}

/// Once they are written, the boot manager's variables are those that were asked for: of each the value is there that the
/// set has, or none is there if it has none. This is so of each variable that the set has, and of each of which the store
/// had no record that no set can hold. A variable of which the store had such a record, and that the set doesn't have, is
/// there as before: its record is the same, with its attributes and its value.
pub fn written_boot_variables_are_those_asked_for()
    ensures asked { (file bytes : List ℕ) (to attributes : Variables) (written : IsWritten file to attributes bytes) (name : List ℕ) →
        is_boot_name name ≡ true →
        (map.get to name ≢ None) ⊎ (if_left_out (found (global_key name) written.before.records) ≡ None) →
        option_map (λ r. r.value) (found (global_key name) written.after.records) ≡ map.get to name }
    ensures left_out { (file bytes : List ℕ) (to attributes : Variables) (written : IsWritten file to attributes bytes) (name : List ℕ) →
        is_boot_name name ≡ true →
        (r : RecordParts) → found (global_key name) written.before.records ≡ Some r → is_left_out r ≡ true → map.get to name ≡ None →
        found (global_key name) written.after.records ≡ Some r }
{
    vars_laws::boot_names_are_names();
}

/// The record of a boot variable that is new or has a new value has the attributes that are given for it: the first four
/// bytes of what is given under its name. If none are given, or none that a record can have, they are those of the record
/// that was there, or those of a new variable if there was none. Its value is that of the set.
pub fn new_records_have_the_attributes_that_are_given()
    ensures { (file bytes : List ℕ) (to attributes : Variables) (written : IsWritten file to attributes bytes) (name value : List ℕ) →
        is_boot_name name ≡ true → map.get to name ≡ Some value → map.get written.from name ≢ Some value →
        found (global_key name) written.after.records ≡ Some (new_record
        (new_attributes (map.get attributes name) (found (global_key name) written.before.records)) name value) }
{
    vars_laws::boot_names_are_names();
}

/// Every other variable is there as before: its record is the same, with its attributes and its value.
pub fn other_variables_are_there_as_before()
    ensures { (file bytes : List ℕ) (to attributes : Variables) (written : IsWritten file to attributes bytes) (key : List ℕ) →
        ((name : List ℕ) → is_boot_name name ≡ true → key ≢ global_key name) →
        found key written.after.records ≡ found key written.before.records }
{}

/// Bytes have one count of the records that are among them.
pub fn bytes_have_one_count_of_records()
    ensures { (bytes : List ℕ) (m n : ℕ) → CountsRecords bytes m → CountsRecords bytes n → m ≡ n }
{}

/// The public constant is what the definitions state.
pub fn constants_are_those_of_the_definitions()
    ensures { VOLUME_SIGNATURE ≡ volume_signature }
{}
