//! How long the boot manager waits, as it is shown (UEFI 2.10, 3.3).

use std::alloc::{AllocError, Global};
use uefi_vars::{TIMEOUT, Vars};
use value_texts::Content;
use value_texts::json::{JsonObject, JsonWriter, Leaf, append_leaf, append_object, json_line};

/// Timeout as it is shown alone.
#[derive(Drop)]
struct ShownTimeout {
    /// What it holds, if it is there.
    content: Option<Content>,
}

impl ShownTimeout {
    /// What is shown of it.
    fn new(alloc: Global, vars: &Vars) -> Result<ShownTimeout, AllocError> {
        Ok(ShownTimeout {
            content: match vars.get(TIMEOUT) {
                Some(bytes) => Some(Content::from_timeout(alloc, bytes)?),
                None => None,
            },
        })
    }
}

impl JsonObject for ShownTimeout {
    fn append_members(&self, out: &mut JsonWriter) -> Result<(), AllocError> {
        match &self.content {
            Some(Content::Undecodable(_)) => append_object("fault", self.content.as_ref(), out),
            Some(Content::Timeout(timeout)) => {
                append_leaf("timeout", Leaf::Number(Some(u32::from(timeout.0))), out)
            }
            _ => append_leaf("timeout", Leaf::Number(None), out),
        }
    }
}

/// Shows for how long the boot manager waits before it boots by itself (UEFI 2.10, 3.3), as a line for a person: `timeout` and
/// the seconds, or `-` if there is no Timeout. docs/formats.md has the line.
///
/// # Errors
///
/// [`AllocError`] if memory was refused.
pub fn timeout_report(alloc: Global, vars: &Vars) -> Result<String, AllocError> {
    match ShownTimeout::new(alloc, vars)?.content {
        Some(content) => format!(in alloc; "timeout{content}\n"),
        None => String::from_str(alloc, "timeout -\n"),
    }
}

/// Shows the same as JSON, an object on one line that ends with a line feed. docs/formats.md has its members.
///
/// # Errors
///
/// [`AllocError`] if memory was refused.
pub fn timeout_json(alloc: Global, vars: &Vars) -> Result<String, AllocError> {
    json_line(alloc, &ShownTimeout::new(alloc, vars)?)
}
