//! Device paths of the UEFI specification, version 2.10, as values and as bytes (chapter 10).
//!
//! A [`Path`] is one or more instances, each a list of [`Node`]s. [`read_path`] reads a path from the start of some
//! bytes and [`write_path`] appends the one spelling of a path. What no case of [`Node`] stands for is kept as bytes,
//! as [`OtherNode`], so a path that was read is written as it was. [`check_path`] and [`nodes`] tell how long the path
//! in the bytes is and which nodes it has, each as a [`NodeView`], and take no memory.
#![tactic(auto)]

mod fault;
mod fields;
mod file;
mod generic;
mod guid;
mod hard_drive;
mod ipv4;
pub mod laws;
mod node;
mod other;
mod path;
mod reader;
mod table;
mod units;
mod uri;
mod vendor;
mod view;
mod writer;

pub use fault::{NameFault, NodeFault, PathFault};
pub use fields::field;
pub use file::{FileNode, NameRefused, PATH_NAME_MAX};
pub use generic::BODY_MAX;
pub use guid::Guid;
pub use hard_drive::HardDriveNode;
pub use ipv4::Ipv4Node;
pub use node::{Node, PCI_ROOT_HID, PCIE_ROOT_HID};
pub use other::OtherNode;
pub use path::{Nodes, Path, make_path};
pub use reader::{check_path, node_from_parts, nodes, read_path};
pub use units::{append_units, read_units};
pub use uri::UriNode;
pub use vendor::{VENDOR_BODY_MAX, Vendor};
pub use view::{NodeIter, NodeView};
pub use writer::{node_len, path_len, write_node, write_path};
