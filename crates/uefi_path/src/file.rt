//! File paths.

ghost use Rattle.std.specs.Prelude.{◌≡◌, ◌↔◌, ◌*◌, ◌<◌, ◌≤◌, ◌++◌, ◌==◌, ◌≢◌, ℕ, length, is_some, IsSome, Some, None, Err, IfOk, IfErr, OnOk, OnErr};
ghost use Rattle.std.specs.List.{flat_map, position};
ghost use Rattle.std.specs.Int.{w16, to_le_bytes};
ghost use Rattle.uefi_path.specs.declared.fault.NameFault.{NameFault};
ghost use Rattle.uefi_path.specs.Standard.{body_max, path_name_max};
ghost use Rattle.uefi_path.specs.Parts.{name_bytes, IsPathName};
ghost use Rattle.uefi_path.specs.Reader.{name_of};
ghost use Rattle.uefi_path.specs.Writer.{Extends};

use crate::fault::NameFault;
use crate::generic::{BODY_MAX, HEADER_LEN};
use crate::units::{UNIT_LEN, append_before_zeros, read_units};
use std::alloc::{AllocError, Global};
use std::marker::Model;

/// The most units that a name can have, without the zero that closes it.
pub const PATH_NAME_MAX: usize = BODY_MAX / UNIT_LEN - 1;

/// Units that aren't a path name of a file, handed back, and why they aren't.
#[derive(Debug, Drop)]
pub struct NameRefused {
    /// Why they aren't a path name. It is never [`NameFault::OutOfMemory`].
    pub fault: NameFault,
    /// The units.
    pub units: Vec<u16>,
}

/// The path name of a file (UEFI 2.10, 10.3.5.4) as CHAR16 units. None of them is zero, and there
/// are at most [`PATH_NAME_MAX`]; the zero that closes the name in the bytes is not held.
#[derive(Debug, Drop)]
pub struct FileNode {
    units: Vec<u16>,
}

impl Model for FileNode {
    ghost use Rattle.std.specs.Prelude.{ℕ, List};
    ghost use Rattle.uefi_path.specs.Parts.{IsPathName};

    ghost Value = { List ℕ };

    ghost view = { λ node. node.units.items };

    ghost invariant = { λ node. IsPathName node.units.items };
}

impl PartialEq for FileNode {
    ghost use Rattle.std.specs.Prelude.{◌≡◌, ◌↔◌, ◌==◌, IsTrue};
    ghost use Rattle.std.proofs.Common.{rules};
    ghost use Rattle.std.specs.Cmp.Rules.{comparing};
    ghost use Rattle.std.specs.Cmp.Lexicographic.{pointwise};

    ghost eq = { pointwise ◌==◌ };

    ghost laws = { Prim.search (comparing, rules) };

    fn eq(&self, other: &FileNode) -> bool
        ensures value { result ≡ pointwise ◌==◌ self.now other.now }
        ensures equal { IsTrue result ↔ (self.now ≡ other.now) }
    {
        self.units == other.units
    }
}

impl Eq for FileNode {
    ghost use Rattle.std.proofs.Common.{rules};
    ghost use Rattle.std.specs.Cmp.Rules.{comparing};

    ghost laws = { Prim.search (comparing, rules) };
}

impl FileNode {
    /// A node of a copy of this path name, given as CHAR16 units without the zero that closes it
    /// (UEFI 2.10, 10.3.5.4).
    ///
    /// # Errors
    ///
    /// [`NameFault::ZeroUnit`] if a unit is zero; otherwise [`NameFault::TooLong`] if there are more than
    /// [`PATH_NAME_MAX`] units; otherwise [`NameFault::OutOfMemory`] if memory for them was refused.
    pub fn new(alloc: Global, units: &[u16]) -> Result<FileNode, NameFault>
        ensures made { IfOk result (λ node. node ≡ units.now) }
        ensures valid { IfOk result (λ node. IsPathName node) }
        ensures zero_unit { (at : ℕ) → (result ≡ Err (NameFault.ZeroUnit at))
            ↔ (position (λ unit. unit == 0) units.now ≡ Some at) }
        ensures too_long { (result ≡ Err NameFault.TooLong)
            ↔ ((position (λ unit. unit == 0) units.now ≡ None) × (path_name_max < length units.now)) }
    {
        if let Err(fault) = check_name(units) {
            return Err(fault);
        }
        let units = Vec::from_slice(alloc, units)?;
        Ok(FileNode { units })
    }

    /// A node of this path name, given as CHAR16 units without the zero that closes it (UEFI 2.10,
    /// 10.3.5.4). This takes no memory.
    ///
    /// # Errors
    ///
    /// The units themselves, with the fault: [`NameFault::ZeroUnit`] if a unit is zero; otherwise
    /// [`NameFault::TooLong`] if there are more than [`PATH_NAME_MAX`] units.
    pub fn from_vec(units: Vec<u16>) -> Result<FileNode, NameRefused>
        ensures made { IfOk result (λ node. node ≡ units.items) }
        ensures valid { IfOk result (λ node. IsPathName node) }
        ensures zero_unit { (at : ℕ) →
            (result ≡ Err (record { fault = NameFault.ZeroUnit at; units = units }))
            ↔ (position (λ unit. unit == 0) units.items ≡ Some at) }
        ensures too_long { (result ≡ Err (record { fault = NameFault.TooLong; units = units }))
            ↔ ((position (λ unit. unit == 0) units.items ≡ None) × (path_name_max < length units.items)) }
        ensures named { IfErr result (λ refused. refused.fault ≢ NameFault.OutOfMemory) }
        ensures handed_back { IfErr result (λ refused. refused.units ≡ units) }
    {
        match check_name(&units) {
            Ok(()) => Ok(FileNode { units }),
            Err(fault) => Err(NameRefused { fault, units }),
        }
    }

    /// The node of these bytes, which are a name's units and a zero, if there is memory for it.
    #[inline(always)]
    pub(crate) fn from_bytes(alloc: Global, bytes: &[u8]) -> Result<FileNode, AllocError>
        requires name { IsSome (name_of bytes.now) }
        requires len { length bytes.now ≤ body_max }
        ensures { IfOk result (λ name. Some name ≡ name_of bytes.now) }
    {
        let units = read_units(alloc, &bytes[..bytes.len() - UNIT_LEN])?;
        Ok(FileNode { units })
    }

    /// The units of the name, without the zero that closes it.
    pub fn units(&self) -> &[u16]
        ensures units { result.now ≡ self.now }
        ensures valid { IsPathName self.now }
    {
        &self.units
    }

    /// The units of the name, given away. This takes no memory.
    pub fn into_units(self) -> Vec<u16>
        ensures units { result.items ≡ self }
        ensures valid { IsPathName self }
    {
        let FileNode { units } = self;
        units
    }

    /// An equal node. This fails only when out of memory.
    pub fn copy(&self, alloc: Global) -> Result<FileNode, AllocError>
        ensures equal { IfOk result (λ node. node ≡ self.now) }
        ensures valid { OnOk result (IsPathName self.now) }
    {
        let units = Vec::from_slice(alloc, &self.units)?;
        Ok(FileNode { units })
    }

    /// How many bytes the name and its zero take.
    pub(crate) fn data_len(&self) -> usize
        ensures len { result ≡ length (name_bytes self.now) }
        ensures bound { result ≤ body_max }
    {
        UNIT_LEN * self.units.len() + UNIT_LEN
    }

    /// Appends the header, the name and its zero. An `Err` may leave a part of them.
    pub(crate) fn append(
        &self,
        header: [u8; HEADER_LEN],
        out: &mut Vec<u8>,
    ) -> Result<(), AllocError>
        ensures valid { OnOk result (IsPathName self.now) }
        ensures ok { OnOk result (out.new.items ≡ out.old.items ++ (header ++ name_bytes self.now)) }
        ensures err { OnErr result (Extends out.old.items out.new.items) }
    {
        out.extend_from_slice(&header)?;
        append_before_zeros(&self.units, UNIT_LEN, out)
    }
}

/// Whether the bytes are those of a name's units with a zero after them.
pub(crate) fn is_path_name(bytes: &[u8]) -> bool
    ensures { result ≡ is_some (name_of bytes.now) }
{
    let mut rest = bytes;
    while let [low, high, behind @ ..] = rest {
        if u16::from_le_bytes([*low, *high]) == 0 {
            return behind.is_empty();
        }
        rest = behind;
    }
    false
}

/// Tests whether units are a path name.
fn check_name(units: &[u16]) -> Result<(), NameFault>
    ensures ok { OnOk result (IsPathName units.now) }
    ensures no_zero { OnOk result (position (λ unit. unit == 0) units.now ≡ None) }
    ensures zero_unit { (at : ℕ) → (result ≡ Err (NameFault.ZeroUnit at))
        ↔ (position (λ unit. unit == 0) units.now ≡ Some at) }
    ensures too_long { (result ≡ Err NameFault.TooLong)
        ↔ ((position (λ unit. unit == 0) units.now ≡ None) × (path_name_max < length units.now)) }
    ensures named { result ≢ Err NameFault.OutOfMemory }
{
    if let Some(at) = first_zero(units) {
        return Err(NameFault::ZeroUnit(at));
    }
    if units.len() > PATH_NAME_MAX {
        return Err(NameFault::TooLong);
    }
    Ok(())
}

/// The index of the first unit that is zero.
fn first_zero(units: &[u16]) -> Option<usize>
    ensures { result ≡ position (λ unit. unit == 0) units.now }
{
    units.iter().position(|unit| *unit == 0)
}
