//! Identities of a machine's starts.

ghost use Rattle.std.specs.Prelude.{◌≡◌, ◌↔◌, None, IfOk, IfSome, IsTrue};
ghost use Rattle.std.specs.String.{string_bytes};
ghost use Rattle.uefi_vars.specs.Name.{IsName};

use std::alloc::{AllocError, Global};
use std::marker::Model;
use uefi_vars::NAME_MAX;

/// The identity of a machine's start: one to 64 characters of ASCII that print, without blanks. Each start has another one,
/// as Linux tells it in `/proc/sys/kernel/random/boot_id`.
#[derive(Debug, Drop)]
pub struct BootId {
    text: String,
}

impl Model for BootId {
    ghost use Rattle.std.specs.Prelude.{ℕ, List};
    ghost use Rattle.std.specs.String.{string_bytes};
    ghost use Rattle.uefi_vars.specs.Name.{IsName};

    ghost Value = { List ℕ };

    ghost view = { λ b. string_bytes b.text };

    ghost invariant = { λ b. IsName (string_bytes b.text) };
}

impl BootId {
    /// The identity of this text: `None` if it isn't one to 64 characters from 0x21 to 0x7E.
    pub fn new(text: String) -> Option<BootId>
        ensures value { IfSome result (λ boot. boot ≡ string_bytes text) }
        ensures none { (result ≡ None) ↔ (¬ IsName (string_bytes text)) }
    {
        if is_name(text.as_str()) {
            Some(BootId { text })
        } else {
            None
        }
    }

    /// The identity of these characters. This fails only if memory is refused.
    pub(crate) fn from_name(alloc: Global, name: &[u8]) -> Result<BootId, AllocError>
        requires { IsName name.now }
        ensures { IfOk result (λ boot. boot ≡ name.now) }
    {
        // Each of them is ASCII.
        let text = unsafe { str::from_utf8_unchecked(name) };
        Ok(BootId {
            text: String::from_str(alloc, text)?,
        })
    }

    /// Its text.
    pub fn as_str(&self) -> &str
        ensures value { result.now ≡ self.now }
        ensures valid { IsName self.now }
    {
        self.text.as_str()
    }

    /// An equal identity. This fails only if memory is refused.
    pub(crate) fn copy(&self) -> Result<BootId, AllocError>
        ensures { IfOk result (λ copy. copy ≡ self.now) }
    {
        Ok(BootId {
            text: self.text.clone()?,
        })
    }
}

/// Whether the text is one to 64 characters from 0x21 to 0x7E.
fn is_name(text: &str) -> bool
    ensures { IsTrue result ↔ IsName text.now }
{
    let bytes = text.as_bytes();
    !bytes.is_empty()
        && bytes.len() <= NAME_MAX
        && bytes.iter().all(|byte| matches!(byte, 0x21..=0x7e))
}
