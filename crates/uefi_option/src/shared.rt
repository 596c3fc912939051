//! The lists of a load option.

ghost use Rattle.std.specs.Prelude.{◌≡◌, IfOk};
ghost use Rattle.uefi_option.specs.Shared.{HaveItems};

use crate::fault::{OptionFault, OptionRefused};
use std::alloc::{AllocError, Global};
use uefi_path::Path;

/// The lists of a load option, which its copies share.
#[derive(Debug, Drop)]
pub(crate) struct Lists {
    /// The units of the description, without the zero unit that closes it.
    pub(crate) description: Vec<u16>,
    /// The device paths.
    pub(crate) paths: Vec<Path>,
    /// The optional data.
    pub(crate) optional: Vec<u8>,
}

impl Lists {
    /// Lists of these items, which are copied, if there is memory for them.
    pub(crate) fn from_slices(
        alloc: Global,
        description: &[u16],
        paths: &[Path],
        optional: &[u8],
    ) -> Result<Lists, AllocError>
        ensures items { IfOk result (λ lists.
            HaveItems lists description.now paths.now optional.now) }
    {
        Ok(Lists {
            description: Vec::from_slice(alloc, description)?,
            paths: copy_paths(alloc, paths)?,
            optional: Vec::from_slice(alloc, optional)?,
        })
    }

    /// Equal lists, if there is memory for them.
    pub(crate) fn copy(&self, alloc: Global) -> Result<Lists, AllocError>
        ensures equal { IfOk result (λ copies.
            HaveItems copies self.now.description.items self.now.paths.items self.now.optional.items) }
    {
        Lists::from_slices(alloc, &self.description, &self.paths, &self.optional)
    }

    /// The lists, handed back with this fault.
    pub(crate) fn refused(self, fault: OptionFault) -> OptionRefused
        ensures fault { result.fault ≡ fault }
        ensures lists { (result.description ≡ self.description) × (result.paths ≡ self.paths)
            × (result.optional ≡ self.optional) }
    {
        let Lists {
            description,
            paths,
            optional,
        } = self;
        OptionRefused {
            fault,
            description,
            paths,
            optional,
        }
    }
}

/// Equal paths, if there is memory for them.
fn copy_paths(alloc: Global, paths: &[Path]) -> Result<Vec<Path>, AllocError>
    ensures equal { IfOk result (λ copies. copies.items ≡ paths.now) }
{
    let mut copies = Vec::with_capacity(alloc, paths.len())?;
    for path in paths {
        copies.push(path.copy(alloc)?)?;
    }
    Ok(copies)
}
