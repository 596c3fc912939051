//! What is mounted, as /proc/self/mountinfo tells it.

ghost use Rattle.std.specs.Prelude.{◌≡◌, ◌≤◌, ◌⊎◌, ◌∷◌, length, map, Some, None, Ok, Err, IfOk, IfErr, OnOk, MatchOption};
ghost use Rattle.std.specs.Option.{option_map};
ghost use Rattle.partitions.specs.Escape.{unescaped, in_front, escape_of};
ghost use Rattle.partitions.specs.Mount.{mount_parts, parts_of_line, parts_of_fields, after_dash, mount_of, mount_of_parts};
ghost use Rattle.partitions.specs.Mounts.{mounts_of};
ghost use Rattle.partitions.specs.Adding.{AddsMount, IsLineFault};

use crate::cut::{cut, cut_line};
use crate::device::{DeviceNumber, read_device};
use crate::fault::{MountFault, MountsFault};
use crate::number::{DECIMAL, number, number_u32};
use std::alloc::{AllocError, Global};

/// What parts the fields of a line.
const BLANK: u8 = b' ';

/// The base of the numbers that stand for bytes.
const OCTAL: u8 = 8;

/// A file system that is mounted.
#[derive(Debug, Drop, PartialEq, Eq)]
pub struct Mount {
    /// The device that it is on.
    pub device: DeviceNumber,
    /// The path, in the file system, of the folder that is mounted: `/`, or the path of another one, as in a bind mount.
    pub root: Vec<u8>,
    /// The path of the folder at which it is mounted.
    pub point: Vec<u8>,
    /// The type of the file system.
    pub kind: Vec<u8>,
}

/// The fields of a line that count, as they are written.
#[derive(Clone, Copy)]
struct LineFields<'a> {
    id: &'a [u8],
    parent: &'a [u8],
    device: &'a [u8],
    root: &'a [u8],
    point: &'a [u8],
    kind: &'a [u8],
}

/// The mounts that a text in the form of /proc/self/mountinfo tells of, in its order: one for each line that isn't empty.
/// Line feeds part the lines, which are those of [`read_mount`].
///
/// # Errors
///
/// [`MountsFault::BadLine`] with the number of the first line that isn't one of these, empty lines counted, and what is
/// wrong with it. Otherwise [`MountsFault::OutOfMemory`] if memory was refused, which may come before a bad line.
pub fn read_mounts(alloc: Global, text: &[u8]) -> Result<Vec<Mount>, MountsFault>
    ensures mounts { IfOk result (λ mounts. mounts_of text.now ≡ Ok (map mount_parts mounts.items)) }
    ensures fault { IfErr result (λ fault. (fault ≡ MountsFault.OutOfMemory) ⊎ (mounts_of text.now ≡ Err fault)) }
{
    let mut mounts = Vec::new(alloc);
    let mut number = 1usize;
    let mut rest = text;
    loop {
        let (line, others) = cut_line(rest);
        add_mount(alloc, line, number, &mut mounts)?;
        match others {
            Some(others) => {
                number += 1;
                rest = others;
            }
            None => return Ok(mounts),
        }
    }
}

/// Appends the mount that the line of this number tells of, or nothing if the line is empty.
fn add_mount(
    alloc: Global,
    line: &[u8],
    number: usize,
    mounts: &mut Vec<Mount>,
) -> Result<(), MountsFault>
    ensures ok { OnOk result (AddsMount line.now mounts.old.items mounts.new.items) }
    ensures fault { IfErr result (λ fault. (fault ≡ MountsFault.OutOfMemory) ⊎ IsLineFault line.now number fault) }
{
    if line.is_empty() {
        return Ok(());
    }
    match read_mount(alloc, line) {
        Ok(mount) => Ok(mounts.push(mount)?),
        Err(MountFault::OutOfMemory) => Err(MountsFault::OutOfMemory),
        Err(fault) => Err(MountsFault::BadLine(number, fault)),
    }
}

/// The mount that a line of /proc/self/mountinfo tells of. Its fields are parted by one blank each: the mount's number,
/// the number of the mount that it is on, the device as MAJOR:MINOR, the folder of the file system that is mounted, the
/// mount point, and options; more fields, up to one that is `-`; and the file system's type, its source, and its options.
/// In the folder, the mount point and the type, a backslash and three octal digits stand for a byte. The line feed isn't
/// part of the line.
///
/// # Errors
///
/// [`MountFault::Cut`] if fields are missing; otherwise the fault of the first field that isn't what it has to be.
/// [`MountFault::OutOfMemory`] if memory was refused, which may come before the fault of a path or of the type.
#[tactic(auto, unfolding(crate::specs::Mount::mount_of))]
pub fn read_mount(alloc: Global, line: &[u8]) -> Result<Mount, MountFault>
    ensures mount { IfOk result (λ mount. mount_of line.now ≡ Ok (mount_parts mount)) }
    ensures fault { IfErr result (λ fault. (fault ≡ MountFault.OutOfMemory) ⊎ (mount_of line.now ≡ Err fault)) }
{
    let fields = fields_of(line).ok_or(MountFault::Cut)?;
    mount_of_fields(alloc, &fields)
}

/// The fields of a line, if it has all that there have to be.
#[tactic(auto, unfolding(crate::specs::Mount::parts_of_line))]
fn fields_of(line: &[u8]) -> Option<LineFields<'_>>
    ensures { option_map parts_of_fields result ≡ parts_of_line line.now }
{
    let (id, rest) = cut(line, BLANK)?;
    let (parent, rest) = cut(rest, BLANK)?;
    let (device, rest) = cut(rest, BLANK)?;
    let (root, rest) = cut(rest, BLANK)?;
    let (point, rest) = cut(rest, BLANK)?;
    let (kind, rest) = cut(after_dash(rest)?, BLANK)?;
    let (_source, _options) = cut(rest, BLANK)?;
    Some(LineFields {
        id,
        parent,
        device,
        root,
        point,
        kind,
    })
}

/// What is after the first ` - `.
fn after_dash(text: &[u8]) -> Option<&[u8]>
    ensures { option_map (λ rest. rest.now) result ≡ after_dash text.now }
{
    let mut rest = text;
    while let [_, others @ ..] = rest {
        if let Some(system) = rest.strip_prefix(b" - ") {
            return Some(system);
        }
        rest = others;
    }
    None
}

/// The mount that the fields of a line tell of.
#[tactic(auto, unfolding(crate::specs::Mount::mount_of_parts))]
fn mount_of_fields(alloc: Global, line: &LineFields<'_>) -> Result<Mount, MountFault>
    ensures mount { IfOk result (λ mount. mount_of_parts (parts_of_fields line.now) ≡ Ok (mount_parts mount)) }
    ensures fault { IfErr result (λ fault.
        (fault ≡ MountFault.OutOfMemory) ⊎ (mount_of_parts (parts_of_fields line.now) ≡ Err fault)) }
{
    let _id = number_u32(line.id, DECIMAL).ok_or(MountFault::BadId)?;
    let _parent = number_u32(line.parent, DECIMAL).ok_or(MountFault::BadParent)?;
    let device = read_device(line.device).ok_or(MountFault::BadDevice)?;
    let root = unescaped(alloc, line.root)?.ok_or(MountFault::BadRoot)?;
    let point = unescaped(alloc, line.point)?.ok_or(MountFault::BadPoint)?;
    let kind = unescaped(alloc, line.kind)?.ok_or(MountFault::BadKind)?;
    Ok(Mount {
        device,
        root,
        point,
        kind,
    })
}

/// The bytes that a field stands for: `None` if a backslash isn't followed by the three octal digits of a byte.
fn unescaped(alloc: Global, field: &[u8]) -> Result<Option<Vec<u8>>, AllocError>
    ensures { IfOk result (λ found. option_map (λ bytes. bytes.items) found ≡ unescaped field.now) }
{
    let mut bytes = Vec::with_capacity(alloc, field.len())?;
    let mut rest = field;
    while let [first, others @ ..] = rest {
        let Some((byte, behind)) = first_byte(*first, others) else {
            return Ok(None);
        };
        bytes.push(byte)?;
        rest = behind;
    }
    Ok(Some(bytes))
}

/// The byte that a field begins with, of which this is written first and the others behind it, and what is behind the
/// byte: `None` if it begins with a backslash that isn't followed by the three octal digits of a byte.
fn first_byte(first: u8, others: &[u8]) -> Option<(u8, &[u8])>
    ensures { MatchOption result
        (unescaped (first ∷ others.now) ≡ None)
        (λ found. (unescaped (first ∷ others.now) ≡ in_front (Some found.0) (unescaped found.1.now))
        × (length found.1.now ≤ length others.now)) }
{
    if first != b'\\' {
        return Some((first, others));
    }
    match others {
        [high, middle, low, behind @ ..] => match escaped(*high, *middle, *low) {
            Some(byte) => Some((byte, behind)),
            None => None,
        },
        _ => None,
    }
}

/// The byte that three octal digits write.
fn escaped(high: u8, middle: u8, low: u8) -> Option<u8>
    ensures { result ≡ escape_of high middle low }
{
    match number(&[high, middle, low], OCTAL, 0xFF) {
        Some(byte) => Some(byte as u8),
        None => None,
    }
}
