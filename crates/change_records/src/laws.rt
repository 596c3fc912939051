//! What follows from the definitions.

ghost use Rattle.std.specs.Prelude.{◌≡◌, ℕ, List};
ghost use Rattle.change_records.specs.declared.fault.RecordFault.{RecordFault};
ghost use Rattle.change_records.specs.Record.{RecordParts, SpellsRecord};
ghost use Rattle.change_records.specs.Fault.{IsRecordFault};

use uefi_vars::laws as vars_laws;

/// A record has one spelling.
pub fn a_record_has_one_spelling()
    ensures { (a b : List ℕ) (parts : RecordParts) →
        SpellsRecord a parts → SpellsRecord b parts → a ≡ b }
{}

/// Bytes spell one record at most.
pub fn bytes_spell_one_record()
    ensures { (bytes : List ℕ) (a b : RecordParts) →
        SpellsRecord bytes a → SpellsRecord bytes b → a ≡ b }
{
    vars_laws::bytes_spell_one_set();
}

/// If bytes have a fault, they spell no record.
pub fn a_fault_leaves_no_record()
    ensures { (bytes : List ℕ) (fault : RecordFault) (parts : RecordParts) →
        IsRecordFault bytes fault → SpellsRecord bytes parts → ⊥ }
{
    vars_laws::a_fault_leaves_no_set();
}
