//! Nodes that a vendor defines.

ghost use Rattle.std.specs.Prelude.{◌≡◌, ◌≢◌, ◌↔◌, ◌<◌, ◌≤◌, ◌++◌, length, Some, Err, IfOk, IfErr, OnOk, OnErr};
ghost use Rattle.uefi_path.specs.declared.fault.NodeFault.{NodeFault};
ghost use Rattle.uefi_path.specs.Standard.{body_max, vendor_body_max};
ghost use Rattle.uefi_path.specs.Parts.{vendor_parts, vendor_bytes, vendor_of, IsVendor};
ghost use Rattle.uefi_path.specs.Writer.{Extends};

use crate::fault::NodeFault;
use crate::fields::{NodeBytes, bytes_at, each_octet, field, octets};
use crate::generic::{BODY_MAX, HEADER_LEN};
use crate::guid::Guid;
use std::alloc::{AllocError, Global};
use std::marker::Model;

/// The bytes of the identifier before a vendor's data.
pub(crate) const GUID_LEN: usize = 16;

/// The most bytes of data that a vendor's node can have after its identifier.
pub const VENDOR_BODY_MAX: usize = BODY_MAX - GUID_LEN;

/// What a vendor's node holds (UEFI 2.10, 10.3.2.4, 10.3.4.17 and 10.3.5.3): the identifier that
/// says what the data means, and at most [`VENDOR_BODY_MAX`] bytes of data.
#[derive(Debug, Drop)]
pub struct Vendor {
    guid: Guid,
    body: Vec<u8>,
}

impl Model for Vendor {
    ghost use Rattle.uefi_path.specs.Parts.{VendorParts, vendor_parts, IsVendor};

    ghost Value = { VendorParts };

    ghost view = { λ node. vendor_parts node.guid.0 node.body.items };

    ghost invariant = { λ node. IsVendor (vendor_parts node.guid.0 node.body.items) };
}

impl PartialEq for Vendor {
    ghost use Rattle.std.specs.Prelude.{◌≡◌, ◌↔◌, IsTrue};
    ghost use Rattle.std.proofs.Common.{rules};
    ghost use Rattle.std.specs.Cmp.Rules.{comparing};
    ghost use Rattle.uefi_path.specs.Equality.{vendor_eq};

    ghost eq = { vendor_eq };

    ghost laws = { Prim.search (comparing, rules) };

    fn eq(&self, other: &Vendor) -> bool
        ensures value { result ≡ vendor_eq self.now other.now }
        ensures equal { IsTrue result ↔ (self.now ≡ other.now) }
    {
        self.guid == other.guid && self.body == other.body
    }
}

impl Eq for Vendor {
    ghost use Rattle.std.proofs.Common.{rules};
    ghost use Rattle.std.specs.Cmp.Rules.{comparing};

    ghost laws = { Prim.search (comparing, rules) };
}

impl Vendor {
    /// What a vendor's node of this identifier and a copy of this data holds (UEFI 2.10, 10.3.2.4,
    /// 10.3.4.17 and 10.3.5.3).
    ///
    /// # Errors
    ///
    /// [`NodeFault::TooLong`] if there are more than [`VENDOR_BODY_MAX`] bytes of data; otherwise
    /// [`NodeFault::OutOfMemory`] if memory for them was refused.
    pub fn new(alloc: Global, guid: Guid, body: &[u8]) -> Result<Vendor, NodeFault>
        ensures made { IfOk result (λ node. node ≡ vendor_parts guid.0 body.now) }
        ensures valid { IfOk result (λ node. IsVendor node) }
        ensures too_long { (result ≡ Err NodeFault.TooLong) ↔ (vendor_body_max < length body.now) }
        ensures no_bad_end { result ≢ Err NodeFault.BadEnd }
    {
        if body.len() > VENDOR_BODY_MAX {
            return Err(NodeFault::TooLong);
        }
        Ok(Vendor::from_parts(alloc, guid, body)?)
    }

    /// What a vendor's node of this identifier and this data holds (UEFI 2.10, 10.3.2.4, 10.3.4.17
    /// and 10.3.5.3). This takes no memory.
    ///
    /// # Errors
    ///
    /// The data itself, if there are more than [`VENDOR_BODY_MAX`] bytes of it.
    pub fn from_vec(guid: Guid, body: Vec<u8>) -> Result<Vendor, Vec<u8>>
        ensures made { IfOk result (λ node. node ≡ vendor_parts guid.0 body.items) }
        ensures valid { IfOk result (λ node. IsVendor node) }
        ensures refused { (result ≡ Err body) ↔ (vendor_body_max < length body.items) }
        ensures handed_back { IfErr result (λ refused. refused ≡ body) }
    {
        if body.len() > VENDOR_BODY_MAX {
            return Err(body);
        }
        let guid = Guid(octets(guid.0));
        let _ = each_octet(&body);
        Ok(Vendor { guid, body })
    }

    #[inline(always)]
    fn from_parts(alloc: Global, guid: Guid, body: &[u8]) -> Result<Vendor, AllocError>
        requires { length body.now ≤ vendor_body_max }
        ensures made { IfOk result (λ node. node ≡ vendor_parts guid.0 body.now) }
        ensures valid { IfOk result (λ node. IsVendor node) }
    {
        let guid = Guid(octets(guid.0));
        let body = Vec::from_slice(alloc, body)?;
        Ok(Vendor { guid, body })
    }

    /// What a node of these bytes holds, the identifier first, if there is memory for it.
    #[inline(always)]
    pub(crate) fn from_bytes(alloc: Global, bytes: &[u8]) -> Result<Vendor, AllocError>
        requires least { GUID_LEN ≤ length bytes.now }
        requires most { length bytes.now ≤ body_max }
        ensures { IfOk result (λ vendor. Some vendor ≡ vendor_of bytes.now) }
    {
        let guid = Guid(bytes_at(bytes, 0));
        Vendor::from_parts(alloc, guid, &bytes[GUID_LEN..])
    }

    /// The identifier of what the data means.
    pub fn guid(&self) -> &Guid
        ensures bytes { result.now.0 ≡ self.now.guid }
        ensures valid { IsVendor self.now }
    {
        &self.guid
    }

    /// The data after the identifier.
    pub fn body(&self) -> &[u8]
        ensures bytes { result.now ≡ self.now.body }
        ensures valid { IsVendor self.now }
    {
        &self.body
    }

    /// The identifier and the data, given away. This takes no memory.
    pub fn into_parts(self) -> (Guid, Vec<u8>)
        ensures guid { result.0.0 ≡ self.guid }
        ensures body { result.1.items ≡ self.body }
        ensures valid { IsVendor self }
    {
        let Vendor { guid, body } = self;
        (guid, body)
    }

    /// An equal value. This fails only when out of memory.
    pub fn copy(&self, alloc: Global) -> Result<Vendor, AllocError>
        ensures equal { IfOk result (λ node. node ≡ self.now) }
        ensures valid { OnOk result (IsVendor self.now) }
    {
        let body = Vec::from_slice(alloc, &self.body)?;
        Ok(Vendor {
            guid: self.guid,
            body,
        })
    }

    /// How many bytes the identifier and the data take.
    pub(crate) fn data_len(&self) -> usize
        ensures len { result ≡ length (vendor_bytes self.now) }
        ensures bound { result ≤ body_max }
    {
        field(&self.guid.0).len() + self.body.len()
    }

    /// Appends the header, the identifier and the data. An `Err` may leave a part of them.
    pub(crate) fn append(
        &self,
        header: [u8; HEADER_LEN],
        out: &mut Vec<u8>,
    ) -> Result<(), AllocError>
        ensures valid { OnOk result (IsVendor self.now) }
        ensures ok { OnOk result (out.new.items ≡ out.old.items ++ (header ++ vendor_bytes self.now)) }
        ensures err { OnErr result (Extends out.old.items out.new.items) }
    {
        self.append_front(header, out)?;
        out.extend_from_slice(&self.body)
    }

    /// Appends the header and the identifier.
    fn append_front(&self, header: [u8; HEADER_LEN], out: &mut Vec<u8>) -> Result<(), AllocError>
        ensures ok { OnOk result (out.new.items ≡ out.old.items ++ (header ++ self.now.guid)) }
        ensures err { OnErr result (out.new.items ≡ out.old.items) }
    {
        let mut front = NodeBytes::<20>::new(header);
        front.put(&self.guid.0);
        front.append_to(out)
    }
}
