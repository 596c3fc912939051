//! The laws of the definitions. Each is a function that does nothing, and whose contract is the law.

ghost use Rattle.std.specs.Prelude.{◌≡◌, ◌↔◌, ℕ, true, List, None, Some, IsTrue};
ghost use Rattle.std.specs.List.{AllByRecursion};
ghost use Rattle.efi_images.specs.declared.fault.ImageFault.{ImageFault};
ghost use Rattle.efi_images.specs.Check.{Check, first_fault, IsFirst};
ghost use Rattle.efi_images.specs.Checks.{image_checks};
ghost use Rattle.efi_images.specs.InPlace.{IsInPlace};
ghost use Rattle.efi_images.specs.declared.answer.SecureBootAnswer.{SecureBootAnswer};
ghost use Rattle.efi_images.specs.declared.answer.Verdict.{Verdict};
ghost use Rattle.efi_images.specs.SecureBoot.{IsSecureBootAnswer, IsAllowed, verdict_of};

/// A fault is that of the first check that doesn't hold, and there is none exactly if each check holds.
pub fn the_first_check_that_does_not_hold_is_told()
    ensures fault { (checks : List Check) (fault : ImageFault) → (first_fault checks ≡ Some fault)
        ↔ ((c : Check) × IsFirst checks c × (c.otherwise ≡ fault)) }
    ensures none { (checks : List Check) → (first_fault checks ≡ None) ↔ AllByRecursion (λ (c : Check). IsTrue c.holds) checks }
{}

/// Of an image without a fault each section is in the file and in the image's memory, and the headers, the certificate
/// table, the relocations and the entry point are where a loader may look for them.
pub fn an_image_without_a_fault_is_in_place()
    ensures { (file : List ℕ) → first_fault (image_checks file) ≡ None → IsInPlace file }
{}

/// An image of which it is told that Secure Boot allows it, while it is on, isn't signed, and its digest is in db and not in
/// dbx.
pub fn an_allowed_image_is_in_db_and_not_in_dbx()
    ensures { (file db dbx : List ℕ) (told : SecureBootAnswer) → IsSecureBootAnswer file true db dbx told
        → verdict_of told ≡ Verdict.Allowed → IsAllowed file db dbx }
{}
