//! IPv4 nodes.

ghost use Rattle.std.specs.Prelude.{◌≡◌, ◌≤◌, ◌++◌, length, OnOk, OnErr};
ghost use Rattle.std.specs.List.{concat};
ghost use Rattle.uefi_path.specs.Standard.{body_max};
ghost use Rattle.uefi_path.specs.Reader.{ipv4_at};
ghost use Rattle.uefi_path.specs.Writer.{Extends};
ghost use Rattle.uefi_path.specs.Parts.{AreIpv4Parts, ipv4_parts, ipv4_fields};

use crate::fields::{NodeBytes, bytes_at, field, octets, u8_at, u16_at};
use crate::generic::{BODY_MAX, HEADER_LEN};
use std::alloc::AllocError;
use std::marker::Model;

/// An IPv4 connection (UEFI 2.10, 10.3.4.12).
#[derive(Clone, Copy, Debug, PartialEq, Eq, Hash)]
pub struct Ipv4Node {
    local: [u8; 4],
    remote: [u8; 4],
    local_port: u16,
    remote_port: u16,
    protocol: u16,
    fixed: u8,
    gateway: [u8; 4],
    mask: [u8; 4],
}

impl Model for Ipv4Node {
    ghost use Rattle.uefi_path.specs.Parts.{Ipv4Parts, ipv4_parts, AreIpv4Parts};

    ghost Value = { Ipv4Parts };

    ghost view = { λ node. ipv4_parts node.local node.remote node.local_port node.remote_port node.protocol node.fixed node.gateway node.mask };

    ghost invariant = { λ node. AreIpv4Parts (ipv4_parts node.local node.remote node.local_port node.remote_port node.protocol node.fixed node.gateway node.mask) };

    ghost inverse = { λ parts. record {
      local = parts.local;
      remote = parts.remote;
      local_port = parts.local_port;
      remote_port = parts.remote_port;
      protocol = parts.protocol;
      fixed = parts.fixed;
      gateway = parts.gateway;
      mask = parts.mask;
    } };
}

impl Ipv4Node {
    /// The static flag of a local address from DHCP.
    pub const DHCP: u8 = 0;

    /// The static flag of a local address that was set.
    pub const STATIC: u8 = 1;

    /// A node of these parts (UEFI 2.10, 10.3.4.12): the addresses of this side and of the other, as
    /// four bytes in the order in which they are written, their ports, the number of the internet
    /// protocol, how the local address was set, the gateway's address and the subnet's mask.
    pub fn new(
        local: [u8; 4],
        remote: [u8; 4],
        local_port: u16,
        remote_port: u16,
        protocol: u16,
        fixed: u8,
        gateway: [u8; 4],
        mask: [u8; 4],
    ) -> Ipv4Node
        ensures made { result ≡ ipv4_parts local remote local_port remote_port protocol fixed gateway mask }
        ensures valid { AreIpv4Parts result }
    {
        Ipv4Node {
            local: octets(local),
            remote: octets(remote),
            local_port,
            remote_port,
            protocol,
            fixed,
            gateway: octets(gateway),
            mask: octets(mask),
        }
    }

    /// The node that has these bytes.
    #[inline(always)]
    pub(crate) fn from_bytes(body: &[u8]) -> Ipv4Node
        requires { length body.now ≡ 23 }
        ensures { result ≡ ipv4_at body.now }
    {
        Ipv4Node::new(
            bytes_at(body, 0),
            bytes_at(body, 4),
            u16_at(body, 8),
            u16_at(body, 10),
            u16_at(body, 12),
            u8_at(body, 14),
            bytes_at(body, 15),
            bytes_at(body, 19),
        )
    }

    /// The local address, in the order in which it is written.
    pub fn local(&self) -> &[u8; 4]
        ensures bytes { result.now ≡ self.now.local }
        ensures valid { AreIpv4Parts self.now }
    {
        &self.local
    }

    /// The remote address, in the order in which it is written.
    pub fn remote(&self) -> &[u8; 4]
        ensures bytes { result.now ≡ self.now.remote }
        ensures valid { AreIpv4Parts self.now }
    {
        &self.remote
    }

    /// The port on this side.
    pub fn local_port(&self) -> u16
        ensures value { result ≡ self.now.local_port }
        ensures valid { AreIpv4Parts self.now }
    {
        self.local_port
    }

    /// The port on the other side.
    pub fn remote_port(&self) -> u16
        ensures value { result ≡ self.now.remote_port }
        ensures valid { AreIpv4Parts self.now }
    {
        self.remote_port
    }

    /// The protocol number of the internet protocol, such as 17 for UDP.
    pub fn protocol(&self) -> u16
        ensures value { result ≡ self.now.protocol }
        ensures valid { AreIpv4Parts self.now }
    {
        self.protocol
    }

    /// The static flag, how the local address was set: [`Ipv4Node::DHCP`] or [`Ipv4Node::STATIC`].
    /// Other values are kept.
    pub fn fixed(&self) -> u8
        ensures value { result ≡ self.now.fixed }
        ensures valid { AreIpv4Parts self.now }
    {
        self.fixed
    }

    /// The address of the gateway, in the order in which it is written.
    pub fn gateway(&self) -> &[u8; 4]
        ensures bytes { result.now ≡ self.now.gateway }
        ensures valid { AreIpv4Parts self.now }
    {
        &self.gateway
    }

    /// The mask of the subnet, in the order in which it is written.
    pub fn mask(&self) -> &[u8; 4]
        ensures bytes { result.now ≡ self.now.mask }
        ensures valid { AreIpv4Parts self.now }
    {
        &self.mask
    }

    /// An equal node.
    pub(crate) fn copied(&self) -> Ipv4Node
        ensures equal { result ≡ self.now }
        ensures valid { AreIpv4Parts self.now }
    {
        Ipv4Node {
            local: self.local,
            remote: self.remote,
            local_port: self.local_port,
            remote_port: self.remote_port,
            protocol: self.protocol,
            fixed: self.fixed,
            gateway: self.gateway,
            mask: self.mask,
        }
    }

    /// How many bytes the fields take.
    pub(crate) fn data_len(&self) -> usize
        ensures len { result ≡ length (concat (ipv4_fields self.now)) }
        ensures bound { result ≤ body_max }
    {
        field(&self.local).len()
            + field(&self.remote).len()
            + 7
            + field(&self.gateway).len()
            + field(&self.mask).len()
    }

    /// Appends the header and the fields in their order.
    pub(crate) fn append(
        &self,
        header: [u8; HEADER_LEN],
        out: &mut Vec<u8>,
    ) -> Result<(), AllocError>
        ensures valid { OnOk result (AreIpv4Parts self.now) }
        ensures ok { OnOk result (out.new.items ≡ out.old.items ++ (header ++ concat (ipv4_fields self.now))) }
        ensures err { OnErr result (Extends out.old.items out.new.items) }
    {
        let mut node = NodeBytes::<27>::new(header);
        node.put(&self.local);
        node.put(&self.remote);
        node.put(&self.local_port.to_le_bytes());
        node.put(&self.remote_port.to_le_bytes());
        node.put(&self.protocol.to_le_bytes());
        node.put(&self.fixed.to_le_bytes());
        node.put(&self.gateway);
        node.put(&self.mask);
        node.append_to(out)
    }
}
