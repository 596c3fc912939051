//! The path that leads to a file on a partition, in the short form that firmware completes (UEFI 2.10, 3.1.2).

ghost use Rattle.std.specs.Prelude.{◌≡◌, ◌++◌, map, IfOk, IfErr, OnOk};
ghost use Rattle.disk_files.specs.FilePath.{IsFilePath, IsPathFault, is_from_root, slashed, slash_of};

use crate::fault::DiskFault;
use partitions::{LoaderNameFault, Partition, loader_name};
use std::alloc::{AllocError, Global};
use uefi_path::{Node, Path, make_path};

/// The path of a file of this name on a partition: the partition and the name, which is the file's path in its file
/// system, from the root on, with slashes.
///
/// # Errors
///
/// [`DiskFault::Partition`] if the partition has no node; otherwise [`DiskFault::Name`] if the name can't be one that
/// firmware reads; and [`DiskFault::OutOfMemory`] if memory was refused.
pub(crate) fn file_path(
    alloc: Global,
    partition: &Partition,
    name: &[u8],
) -> Result<Path, DiskFault>
    ensures path { IfOk result (λ path. IsFilePath partition.now name.now path) }
    ensures fault { IfErr result (λ fault. IsPathFault partition.now name.now fault) }
{
    let drive = match partition.node() {
        Ok(node) => node,
        Err(fault) => return Err(DiskFault::Partition(fault)),
    };
    let file = match loader_name(alloc, name) {
        Ok(file) => file,
        Err(LoaderNameFault::OutOfMemory) => return Err(DiskFault::OutOfMemory),
        Err(fault) => return Err(DiskFault::Name(fault)),
    };
    let nodes = Vec::from_array(alloc, [Node::HardDrive(drive), Node::FilePath(file)])?;
    let instances = Vec::from_array(alloc, [nodes])?;
    match make_path(instances) {
        Ok(path) => Ok(path),
        // It has an instance.
        Err(_) => Err(DiskFault::OutOfMemory),
    }
}

/// The name with a slash for each backslash, and one in front.
pub(crate) fn slashed(alloc: Global, loader: &str) -> Result<Vec<u8>, AllocError>
    ensures { IfOk result (λ name. name.items ≡ slashed loader.now) }
{
    let mut name = Vec::with_capacity(alloc, loader.len())?;
    if !is_from_root(loader.as_bytes()) {
        name.push(b'/')?;
    }
    append_slashed(loader.as_bytes(), &mut name)?;
    Ok(name)
}

/// Whether a slash or a backslash is in front.
fn is_from_root(loader: &[u8]) -> bool
    ensures { result ≡ is_from_root loader.now }
{
    matches!(loader, [b'/' | b'\\', ..])
}

/// Appends the bytes, with a slash for each backslash.
fn append_slashed(loader: &[u8], name: &mut Vec<u8>) -> Result<(), AllocError>
    ensures { OnOk result (name.new.items ≡ name.old.items ++ map slash_of loader.now) }
{
    for byte in loader {
        name.push(slash_of(*byte))?;
    }
    Ok(())
}

/// A slash for a backslash, and every other byte as it is.
fn slash_of(byte: u8) -> u8
    ensures { result ≡ slash_of byte }
{
    if byte == b'\\' { b'/' } else { byte }
}
