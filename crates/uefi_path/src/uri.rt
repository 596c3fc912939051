//! URI nodes.

ghost use Rattle.std.specs.Prelude.{◌≡◌, ◌≢◌, ◌↔◌, ◌<◌, ◌≤◌, length, Err, IfOk, IfErr, OnOk};
ghost use Rattle.uefi_path.specs.declared.fault.NodeFault.{NodeFault};
ghost use Rattle.uefi_path.specs.Standard.{body_max};
ghost use Rattle.uefi_path.specs.Parts.{IsUri};

use crate::fault::NodeFault;
use crate::fields::each_octet;
use crate::generic::BODY_MAX;
use std::alloc::{AllocError, Global};
use std::marker::Model;

/// A URI (UEFI 2.10, 10.3.4), at most [`BODY_MAX`] bytes, whatever they are.
#[derive(Debug, Drop)]
pub struct UriNode {
    bytes: Vec<u8>,
}

impl Model for UriNode {
    ghost use Rattle.std.specs.Prelude.{ℕ, List};
    ghost use Rattle.uefi_path.specs.Parts.{IsUri};

    ghost Value = { List ℕ };

    ghost view = { λ node. node.bytes.items };

    ghost invariant = { λ node. IsUri node.bytes.items };
}

impl PartialEq for UriNode {
    ghost use Rattle.std.specs.Prelude.{◌≡◌, ◌↔◌, ◌==◌, IsTrue};
    ghost use Rattle.std.proofs.Common.{rules};
    ghost use Rattle.std.specs.Cmp.Rules.{comparing};
    ghost use Rattle.std.specs.Cmp.Lexicographic.{pointwise};

    ghost eq = { pointwise ◌==◌ };

    ghost laws = { Prim.search (comparing, rules) };

    fn eq(&self, other: &UriNode) -> bool
        ensures value { result ≡ pointwise ◌==◌ self.now other.now }
        ensures equal { IsTrue result ↔ (self.now ≡ other.now) }
    {
        self.bytes == other.bytes
    }
}

impl Eq for UriNode {
    ghost use Rattle.std.proofs.Common.{rules};
    ghost use Rattle.std.specs.Cmp.Rules.{comparing};

    ghost laws = { Prim.search (comparing, rules) };
}

impl UriNode {
    /// A node of a copy of these bytes (UEFI 2.10, 10.3.4).
    ///
    /// # Errors
    ///
    /// [`NodeFault::TooLong`] if there are more than [`BODY_MAX`] bytes; otherwise [`NodeFault::OutOfMemory`] if memory
    /// for them was refused.
    pub fn new(alloc: Global, bytes: &[u8]) -> Result<UriNode, NodeFault>
        ensures made { IfOk result (λ node. node ≡ bytes.now) }
        ensures valid { IfOk result (λ node. IsUri node) }
        ensures too_long { (result ≡ Err NodeFault.TooLong) ↔ (body_max < length bytes.now) }
        ensures no_bad_end { result ≢ Err NodeFault.BadEnd }
    {
        if bytes.len() > BODY_MAX {
            return Err(NodeFault::TooLong);
        }
        Ok(UriNode::from_bytes(alloc, bytes)?)
    }

    /// A node of these bytes (UEFI 2.10, 10.3.4). This takes no memory.
    ///
    /// # Errors
    ///
    /// The bytes themselves, if there are more than [`BODY_MAX`].
    pub fn from_vec(bytes: Vec<u8>) -> Result<UriNode, Vec<u8>>
        ensures made { IfOk result (λ node. node ≡ bytes.items) }
        ensures valid { IfOk result (λ node. IsUri node) }
        ensures refused { (result ≡ Err bytes) ↔ (body_max < length bytes.items) }
        ensures handed_back { IfErr result (λ refused. refused ≡ bytes) }
    {
        if bytes.len() > BODY_MAX {
            return Err(bytes);
        }
        let _ = each_octet(&bytes);
        Ok(UriNode { bytes })
    }

    /// A node of these bytes, if there is memory for them.
    #[inline(always)]
    pub(crate) fn from_bytes(alloc: Global, bytes: &[u8]) -> Result<UriNode, AllocError>
        requires { length bytes.now ≤ body_max }
        ensures { IfOk result (λ node. node ≡ bytes.now) }
    {
        let bytes = Vec::from_slice(alloc, bytes)?;
        Ok(UriNode { bytes })
    }

    /// The bytes of the URI.
    pub fn bytes(&self) -> &[u8]
        ensures bytes { result.now ≡ self.now }
        ensures valid { IsUri self.now }
    {
        &self.bytes
    }

    /// The bytes of the URI, given away. This takes no memory.
    pub fn into_bytes(self) -> Vec<u8>
        ensures bytes { result.items ≡ self }
        ensures valid { IsUri self }
    {
        let UriNode { bytes } = self;
        bytes
    }

    /// An equal node. This fails only when out of memory.
    pub fn copy(&self, alloc: Global) -> Result<UriNode, AllocError>
        ensures equal { IfOk result (λ node. node ≡ self.now) }
        ensures valid { OnOk result (IsUri self.now) }
    {
        let bytes = Vec::from_slice(alloc, &self.bytes)?;
        Ok(UriNode { bytes })
    }
}
