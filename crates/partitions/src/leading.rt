//! Which mount a path leads to, and what the path is there.

ghost use Rattle.std.specs.Prelude.{◌≡◌, ◌↔◌, ◌++◌, ◌∷◌, [], ℕ, List, IsTrue, IfOk, MatchOption};
ghost use Rattle.partitions.specs.declared.mount.Mount.{Mount};
ghost use Rattle.partitions.specs.Leading.{stem_of, IsInFolder, IsBehindFolder, LeadsTo, IsLeading, LeadsToNone};

use crate::mount::Mount;
use std::alloc::{AllocError, Global};

/// The mount that has what is at this path, which is one from the root on, without links, and without a slash at its end
/// but for the root's: of those whose mount point leads there, by whole names, the one with the longest, and of several
/// with one mount point the last. So `/boot` leads to `/boot/efi`, and not to `/bootx`. `None` if the path leads to none.
pub fn leading_mount<'a>(mounts: &'a [Mount], path: &[u8]) -> Option<&'a Mount>
    ensures { MatchOption result
        (LeadsToNone mounts.now path.now)
        (λ mount. IsLeading mounts.now path.now mount.now) }
{
    let mut leading: Option<&'a Mount> = None;
    for mount in mounts {
        leading = leading_of(leading, mount, path);
    }
    leading
}

/// The one to which the path leads, of the mount to which it leads among others, and of one that comes after these.
fn leading_of<'a>(leading: Option<&'a Mount>, mount: &'a Mount, path: &[u8]) -> Option<&'a Mount>
    ensures { (others : List Mount) →
        MatchOption leading.entry (LeadsToNone others path.now) (λ one. IsLeading others path.now one.now) →
        MatchOption result
        (LeadsToNone (others ++ mount.now ∷ []) path.now)
        (λ one. IsLeading (others ++ mount.now ∷ []) path.now one.now) }
{
    let Some(longest) = leading else {
        return if mount.leads_to(path) {
            Some(mount)
        } else {
            None
        };
    };
    if longest.point.len() > mount.point.len() {
        return Some(longest);
    }
    if mount.leads_to(path) {
        Some(mount)
    } else {
        Some(longest)
    }
}

impl Mount {
    /// Whether the path, which is one from the root on, leads to this mount: it is the mount point's, or has it in front,
    /// and a slash after it.
    pub fn leads_to(&self, path: &[u8]) -> bool
        ensures { IsTrue result ↔ LeadsTo self.now path.now }
    {
        behind(&self.point, path).is_some()
    }

    /// The path that a file has in the file system, from its root on, if this is its path where the file system is
    /// mounted: `/EFI/x` of `/boot/EFI/x`, if that is at `/boot`, and more in front if a folder of it is mounted. `None`
    /// if the path doesn't lead to this mount. This fails only when out of memory.
    pub fn name_of(&self, alloc: Global, path: &[u8]) -> Result<Option<Vec<u8>>, AllocError>
        ensures { IfOk result (λ found. MatchOption found
            (¬ LeadsTo self.now path.now)
            (λ name. (rest : List ℕ) × IsInFolder self.now.point.items path.now rest
            × (name.items ≡ stem_of self.now.root.items ++ rest))) }
    {
        let Some(rest) = behind(&self.point, path) else {
            return Ok(None);
        };
        let mut name = Vec::from_slice(alloc, stem(&self.root))?;
        name.extend_from_slice(rest)?;
        Ok(Some(name))
    }
}

/// What a path has behind that of a folder, if it is in the folder.
fn behind<'a>(folder: &[u8], path: &'a [u8]) -> Option<&'a [u8]>
    ensures { MatchOption result
        ((rest : List ℕ) → ¬ IsInFolder folder.now path.now rest)
        (λ rest. IsInFolder folder.now path.now rest.now) }
{
    let rest = path.strip_prefix(stem(folder))?;
    if is_behind_folder(rest) {
        Some(rest)
    } else {
        None
    }
}

/// Whether this can be behind a folder's path: nothing, or more behind a slash.
fn is_behind_folder(rest: &[u8]) -> bool
    ensures { IsTrue result ↔ IsBehindFolder rest.now }
{
    match rest {
        [] => true,
        [first, ..] => *first == b'/',
    }
}

/// A folder's path as that of a file in it begins.
fn stem(folder: &[u8]) -> &[u8]
    ensures { result.now ≡ stem_of folder.now }
{
    if folder == b"/".as_slice() {
        &[]
    } else {
        folder
    }
}
