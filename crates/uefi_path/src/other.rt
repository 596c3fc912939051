//! Nodes that are kept as bytes.

ghost use Rattle.std.specs.Prelude.{◌≡◌, ◌↔◌, ◌⊎◌, ◌<◌, length, Err, IfOk, IfErr, OnOk};

use crate::fields::each_octet;
use crate::generic::{BODY_MAX, END};
use crate::node::Node;
use std::alloc::{AllocError, Global};
use std::marker::Model;

/// A node whose type, sub-type and data no other case of `Node` stands for (UEFI 2.10, 10.3.1). Its
/// type isn't 0x7F, and its data has at most [`BODY_MAX`](crate::BODY_MAX) bytes.
#[derive(Debug, Drop)]
pub struct OtherNode {
    kind: u8,
    sub: u8,
    body: Vec<u8>,
}

impl Model for OtherNode {
    ghost use Rattle.uefi_path.specs.Row.{Row, row, IsOther};

    ghost Value = { Row };

    ghost view = { λ node. row node.kind node.sub node.body.items };

    ghost invariant = { λ node. IsOther (row node.kind node.sub node.body.items) };
}

impl PartialEq for OtherNode {
    ghost use Rattle.std.specs.Prelude.{◌≡◌, ◌↔◌, IsTrue};
    ghost use Rattle.std.proofs.Common.{rules};
    ghost use Rattle.std.specs.Cmp.Rules.{comparing};
    ghost use Rattle.uefi_path.specs.Equality.{row_eq};

    ghost eq = { row_eq };

    ghost laws = { Prim.search (comparing, rules) };

    fn eq(&self, other: &OtherNode) -> bool
        ensures value { result ≡ row_eq self.now other.now }
        ensures equal { IsTrue result ↔ (self.now ≡ other.now) }
    {
        self.kind == other.kind && self.sub == other.sub && self.body == other.body
    }
}

impl Eq for OtherNode {
    ghost use Rattle.std.proofs.Common.{rules};
    ghost use Rattle.std.specs.Cmp.Rules.{comparing};

    ghost laws = { Prim.search (comparing, rules) };
}

impl OtherNode {
    ghost use Rattle.uefi_path.specs.Standard.{body_max};
    ghost use Rattle.uefi_path.specs.Row.{row, IsListed, IsOther};

    /// A node of this type, this sub-type and this data (UEFI 2.10, 10.3.1), which no other case of
    /// `Node` stands for. This takes no memory.
    ///
    /// # Errors
    ///
    /// The data itself, if the type is 0x7F, if there are more than [`BODY_MAX`](crate::BODY_MAX) bytes of it, or if
    /// another case of `Node` stands for these parts, which [`node_from_parts`](crate::node_from_parts) makes.
    pub fn from_vec(kind: u8, sub: u8, body: Vec<u8>) -> Result<OtherNode, Vec<u8>>
        ensures made { IfOk result (λ node. node ≡ row kind sub body.items) }
        ensures valid { IfOk result (λ node. IsOther node) }
        ensures refused { (result ≡ Err body) ↔ ((kind ≡ 0x7F)
            ⊎ ((body_max < length body.items) ⊎ IsListed (row kind sub body.items))) }
        ensures handed_back { IfErr result (λ refused. refused ≡ body) }
    {
        if kind == END || body.len() > BODY_MAX || Node::is_listed(kind, sub, &body) {
            return Err(body);
        }
        let _ = each_octet(&body);
        Ok(OtherNode { kind, sub, body })
    }

    /// A node of these bytes, if there is memory for them.
    #[inline(always)]
    pub(crate) fn new(
        alloc: Global,
        kind: u8,
        sub: u8,
        body: &[u8],
    ) -> Result<OtherNode, AllocError>
        requires { IsOther (row kind sub body.now) }
        ensures made { IfOk result (λ node. node ≡ row kind sub body.now) }
        ensures valid { IfOk result (λ node. IsOther node) }
    {
        let body = Vec::from_slice(alloc, body)?;
        Ok(OtherNode { kind, sub, body })
    }

    /// The type.
    pub fn kind(&self) -> u8
        ensures value { result ≡ self.now.kind }
        ensures valid { IsOther self.now }
    {
        self.kind
    }

    /// The sub-type.
    pub fn sub(&self) -> u8
        ensures value { result ≡ self.now.sub }
        ensures valid { IsOther self.now }
    {
        self.sub
    }

    /// The data after the four bytes of the header.
    pub fn body(&self) -> &[u8]
        ensures bytes { result.now ≡ self.now.body }
        ensures valid { IsOther self.now }
    {
        &self.body
    }

    /// The type, the sub-type and the data, given away. This takes no memory.
    pub fn into_parts(self) -> (u8, u8, Vec<u8>)
        ensures kind { result.0 ≡ self.kind }
        ensures sub { result.1 ≡ self.sub }
        ensures body { result.2.items ≡ self.body }
        ensures valid { IsOther self }
    {
        let OtherNode { kind, sub, body } = self;
        (kind, sub, body)
    }

    /// An equal node. This fails only when out of memory.
    pub fn copy(&self, alloc: Global) -> Result<OtherNode, AllocError>
        ensures equal { IfOk result (λ node. node ≡ self.now) }
        ensures valid { OnOk result (IsOther self.now) }
    {
        let body = Vec::from_slice(alloc, &self.body)?;
        Ok(OtherNode {
            kind: self.kind,
            sub: self.sub,
            body,
        })
    }
}
