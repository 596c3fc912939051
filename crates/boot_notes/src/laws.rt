//! Laws of the definitions. Each function's contract is one law; calling it does nothing.

ghost use Rattle.std.specs.Prelude.{◌≡◌, ◌++◌, ◌<◌, ◌≤◌, ℕ, List};
ghost use Rattle.std.specs.List.{AllByRecursion};
ghost use Rattle.boot_notes.specs.declared.digest.FrameDigest.{FrameDigest};
ghost use Rattle.boot_notes.specs.declared.fault.NotesFault.{NotesFault};
ghost use Rattle.boot_notes.specs.Bytes.{SpellsNotes};
ghost use Rattle.boot_notes.specs.Fault.{IsNotesFault};
ghost use Rattle.boot_notes.specs.Notes.{NotesParts, HaveLast, after_run};

/// Bytes spell notes, and a file behind them, in one way at most.
pub fn bytes_spell_notes_once()
    ensures { (bytes : List ℕ) (a b : NotesParts) (c d : List ℕ) →
        SpellsNotes bytes a c → SpellsNotes bytes b d → (a ≡ b) × (c ≡ d) }
{}

/// If bytes have a fault, they spell no notes.
pub fn a_fault_leaves_no_notes()
    ensures { (bytes : List ℕ) (fault : NotesFault) (notes : NotesParts) (file : List ℕ) →
        IsNotesFault bytes fault → SpellsNotes bytes notes file → ⊥ }
{}

/// Bytes have one fault at most.
pub fn bytes_have_one_notes_fault()
    ensures { (bytes : List ℕ) (a b : NotesFault) → IsNotesFault bytes a → IsNotesFault bytes b → a ≡ b }
{}

/// If notes have the last digests of all frames that were applied up to a run, then after it they have the last of all with
/// those of the run, and if the run is taken back, so that the next number is the one before it, the last of those up to it.
pub fn the_last_are_kept_whatever_becomes_of_a_run()
    ensures { (notes : NotesParts) (first next : ℕ) (digests applied : List FrameDigest) →
        first ≤ next → HaveLast notes first digests →
        AllByRecursion (λ (kept : FrameDigest). kept.number < first) digests →
        AllByRecursion (λ (kept : FrameDigest). (first ≤ kept.number) × (kept.number < next)) applied →
        HaveLast (after_run notes first applied) next (digests ++ applied) × HaveLast (after_run notes first applied) first digests }
{}
