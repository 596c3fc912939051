//! The printed text of a path.

ghost use Rattle.std.specs.Prelude.{◌≡◌, IfOk, OnOk};
ghost use Rattle.std.specs.String.{string_bytes};
ghost use Rattle.uefi_path.specs.Path.{IsPath};
ghost use Rattle.uefi_text.specs.Printed.{canonical};

use crate::print_node::NodeText;
use std::alloc::{AllocError, Global};
use std::fmt;
use uefi_path::{Node, Path};

/// A path that is written by `{}`, as [`path_text`] has it.
#[derive(Clone, Copy, Debug)]
pub struct PathText<'a>(pub &'a Path);

impl fmt::Display for PathText<'_> {
    ghost use Rattle.std.specs.Prelude.{Some};
    ghost use Rattle.uefi_text.specs.Printed.{canonical};

    ghost output = { λ text. Some (canonical text.0.now) };

    fn fmt<W: fmt::Write>(&self, f: &mut fmt::Formatter<W>) -> fmt::Result {
        let Some((first, others)) = self.0.instances().split_first() else {
            return Ok(());
        };
        write!(f, "{}", InstanceText(first))?;
        for nodes in others {
            write!(f, ",{}", InstanceText(nodes))?;
        }
        Ok(())
    }
}

/// The nodes of an instance, joined by slashes.
#[derive(Clone, Copy, Debug)]
struct InstanceText<'a>(&'a [Node]);

impl fmt::Display for InstanceText<'_> {
    ghost use Rattle.std.specs.Prelude.{Some, map};
    ghost use Rattle.uefi_text.specs.Segment.{instance_text};
    ghost use Rattle.uefi_text.specs.Printed.{segment_of};

    ghost output = { λ text. Some (instance_text (map segment_of text.0.now)) };

    fn fmt<W: fmt::Write>(&self, f: &mut fmt::Formatter<W>) -> fmt::Result {
        let Some((first, others)) = self.0.split_first() else {
            return Ok(());
        };
        write!(f, "{}", NodeText(first))?;
        for node in others {
            write!(f, "/{}", NodeText(node))?;
        }
        Ok(())
    }
}

/// The text of a path: its instances joined by commas, their nodes joined by slashes, and each node in the one form
/// that is printed (docs/formats.md). This fails only when out of memory.
pub fn path_text(alloc: Global, path: &Path) -> Result<String, AllocError>
    ensures text { IfOk result (λ text. string_bytes text ≡ canonical path.now) }
    ensures valid { OnOk result (IsPath path.now) }
{
    // for its contract, that the path is one
    let _ = path.instances();
    PathText(path).to_string(alloc)
}
