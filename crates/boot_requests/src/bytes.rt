//! The bytes of a delivery.

ghost use Rattle.std.specs.Prelude.{◌≡◌, IfOk};
ghost use Rattle.std.specs.List.{AllByRecursion};
ghost use Rattle.uefi_path.specs.Row.{IsByte};

use std::alloc::{AllocError, Global};
use std::marker::Model;

/// The bytes of a delivery, whatever they are.
#[derive(Debug, Drop)]
pub struct Bytes {
    bytes: Vec<u8>,
}

impl Model for Bytes {
    ghost use Rattle.std.specs.Prelude.{ℕ, List};

    ghost Value = { List ℕ };

    ghost view = { λ delivery. delivery.bytes.items };
}

impl PartialEq for Bytes {
    ghost use Rattle.std.specs.Prelude.{◌≡◌, ◌==◌, ◌↔◌, IsTrue};
    ghost use Rattle.std.proofs.Common.{rules};
    ghost use Rattle.std.specs.Cmp.Lexicographic.{pointwise};
    ghost use Rattle.std.specs.Cmp.Rules.{comparing};

    ghost eq = { pointwise ◌==◌ };

    ghost laws = { Prim.search (comparing, rules) };

    fn eq(&self, other: &Bytes) -> bool
        ensures value { result ≡ pointwise ◌==◌ self.now other.now }
        ensures equal { IsTrue result ↔ (self.now ≡ other.now) }
    {
        self.bytes == other.bytes
    }
}

impl Eq for Bytes {
    ghost use Rattle.std.proofs.Common.{rules};
    ghost use Rattle.std.specs.Cmp.Rules.{comparing};

    ghost laws = { Prim.search (comparing, rules) };
}

impl Bytes {
    /// These bytes.
    pub fn new(bytes: Vec<u8>) -> Bytes
        ensures { result ≡ bytes.items }
    {
        Bytes { bytes }
    }

    /// The bytes themselves, and not a copy of them.
    pub(crate) fn into_bytes(self) -> Vec<u8>
        ensures { result.items ≡ self }
    {
        self.bytes
    }

    /// Equal bytes. This fails only when out of memory.
    pub fn copy(&self, alloc: Global) -> Result<Bytes, AllocError>
        ensures equal { IfOk result (λ bytes. bytes ≡ self.now) }
        ensures valid { AllByRecursion IsByte self.now }
    {
        let bytes = Vec::from_slice(alloc, self.bytes())?;
        Ok(Bytes { bytes })
    }

    /// The bytes.
    pub fn bytes(&self) -> &[u8]
        ensures bytes { result.now ≡ self.now }
        ensures valid { AllByRecursion IsByte self.now }
    {
        each_byte(&self.bytes)
    }
}

/// The same bytes. A contract learns here what the type says: that these are bytes.
fn each_byte(bytes: &[u8]) -> &[u8]
    ensures same { result.now ≡ bytes.now }
    ensures valid { AllByRecursion IsByte bytes.now }
{
    bytes
}
