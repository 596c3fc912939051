//! Names of machines.

ghost use Rattle.std.specs.Prelude.{◌≡◌, ◌↔◌, None, IfOk, IfSome, IsTrue};
ghost use Rattle.machine_names.specs.MachineName.{IsMachineName};

use std::alloc::{AllocError, Global};
use std::marker::Model;

/// The most bytes that the name of a machine has.
pub const MACHINE_NAME_MAX: usize = 4_096;

/// The name by which a file tells which machine's it is: 1 to 4,096 bytes, any bytes. No two machines have the same. It may
/// be the machine's UUID, the path of the place of its variables, or what a user gives.
#[derive(Debug, Drop)]
pub struct MachineName {
    bytes: Vec<u8>,
}

impl Model for MachineName {
    ghost use Rattle.std.specs.Prelude.{ℕ, List};
    ghost use Rattle.machine_names.specs.MachineName.{IsMachineName};

    ghost Value = { List ℕ };

    ghost view = { λ m. m.bytes.items };

    ghost invariant = { λ m. IsMachineName m.bytes.items };
}

impl MachineName {
    /// The name of these bytes: `None` if there are none, or more than [`MACHINE_NAME_MAX`].
    pub fn new(bytes: Vec<u8>) -> Option<MachineName>
        ensures value { IfSome result (λ name. name ≡ bytes.items) }
        ensures none { (result ≡ None) ↔ (¬ IsMachineName bytes.items) }
    {
        if is_machine_name(&bytes) {
            Some(MachineName { bytes })
        } else {
            None
        }
    }

    /// The name of these bytes. This fails only if memory is refused.
    fn from_slice(alloc: Global, bytes: &[u8]) -> Result<MachineName, AllocError>
        requires { IsMachineName bytes.now }
        ensures { IfOk result (λ name. name ≡ bytes.now) }
    {
        Ok(MachineName {
            bytes: Vec::from_slice(alloc, bytes)?,
        })
    }

    /// Its bytes.
    pub fn as_bytes(&self) -> &[u8]
        ensures value { result.now ≡ self.now }
        ensures valid { IsMachineName self.now }
    {
        &self.bytes
    }

    /// An equal name. This fails only if memory is refused.
    pub fn copy(&self, alloc: Global) -> Result<MachineName, AllocError>
        ensures { IfOk result (λ copy. copy ≡ self.now) }
    {
        MachineName::from_slice(alloc, &self.bytes)
    }
}

/// Whether there are 1 to 4,096 bytes.
fn is_machine_name(bytes: &[u8]) -> bool
    ensures { IsTrue result ↔ IsMachineName bytes.now }
{
    !bytes.is_empty() && bytes.len() <= MACHINE_NAME_MAX
}
