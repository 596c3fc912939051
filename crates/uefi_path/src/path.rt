//! Device paths.

ghost use Rattle.std.specs.Prelude.{◌≡◌, ◌≢◌, ◌↔◌, [], map, IfOk, OnOk, Err, IfErr};
ghost use Rattle.std.specs.List.{AllByRecursion};
ghost use Rattle.uefi_path.specs.Node.{IsNode};
ghost use Rattle.uefi_path.specs.Path.{IsPath};

use crate::node::Node;
use std::alloc::{AllocError, Global};
use std::marker::Model;

/// A device path (UEFI 2.10, 10.2): one or more instances, each a list of nodes, perhaps empty.
#[derive(Debug, Drop)]
pub struct Path {
    instances: Vec<Vec<Node>>,
}

impl Model for Path {
    ghost use Rattle.std.specs.Prelude.{List, map};
    ghost use Rattle.uefi_path.specs.declared.node.Node.{Node};
    ghost use Rattle.uefi_path.specs.Path.{IsPath};

    ghost Value = { List (List Node) };

    ghost view = { λ path. map (λ nodes. nodes.items) path.instances.items };

    ghost invariant = { λ path. IsPath (map (λ nodes. nodes.items) path.instances.items) };
}

impl PartialEq for Path {
    ghost use Rattle.std.specs.Prelude.{◌≡◌, ◌↔◌, IsTrue};
    ghost use Rattle.std.specs.Cmp.Lexicographic.{lists_per, pointwise};
    ghost use Rattle.uefi_path.specs.contracts.node.NodePartialEq.TheImpl.Laws.{laws-law};

    ghost eq = { pointwise (pointwise ⟦<Node as PartialEq>⟧.eq) };

    ghost laws = { lists_per (lists_per laws-law) };

    fn eq(&self, other: &Path) -> bool
        ensures value { result ≡ pointwise (pointwise ⟦<Node as PartialEq>⟧.eq) self.now other.now }
        ensures equal { IsTrue result ↔ (self.now ≡ other.now) }
    {
        self.instances == other.instances
    }
}

impl Eq for Path {
    ghost use Rattle.std.proofs.lemmas.Cmp.{lists_equiv};
    ghost use Rattle.uefi_path.specs.contracts.node.NodeEq.TheImpl.Laws.{laws-law};

    ghost laws = { lists_equiv (lists_equiv laws-law) };
}

/// The nodes of a path, one after the other, as [`Path::nodes`] gives them.
#[derive(Clone, Copy, Debug)]
pub struct Nodes<'a> {
    nodes: &'a [Node],
    others: &'a [Vec<Node>],
}

impl<'a> Iterator for Nodes<'a> {
    type Item = &'a Node;

    ghost use Rattle.std.specs.Iterator.{YieldsFirstRef, item_count};
    ghost use Rattle.uefi_path.specs.Nodes.{nodes_left};

    ghost next_gives = { YieldsFirstRef nodes_left };

    ghost remaining = { item_count nodes_left };

    fn next(&mut self) -> Option<&'a Node> {
        loop {
            if let Some((node, nodes)) = self.nodes.split_first() {
                self.nodes = nodes;
                return Some(node);
            }
            let (nodes, others) = self.others.split_first()?;
            self.nodes = nodes;
            self.others = others;
        }
    }
}

impl Path {
    ghost use Rattle.uefi_path.specs.Nodes.{nodes_left, all_nodes};

    /// The path of these instances, of which there is at least one.
    pub(crate) fn from_instances(instances: Vec<Vec<Node>>) -> Path
        requires { IsPath (map (λ nodes. nodes.items) instances.items) }
        ensures { result ≡ map (λ nodes. nodes.items) instances.items }
    {
        Path { instances }
    }

    /// An equal path. This fails only when out of memory.
    pub fn copy(&self, alloc: Global) -> Result<Path, AllocError>
        ensures equal { IfOk result (λ path. path ≡ self.now) }
        ensures valid { OnOk result (IsPath self.now) }
    {
        let mut instances = Vec::with_capacity(alloc, self.instances.len())?;
        for nodes in &self.instances {
            instances.push(copy_nodes(alloc, nodes)?)?;
        }
        Ok(Path { instances })
    }

    /// The instances, in order.
    pub fn instances(&self) -> &[Vec<Node>]
        ensures items { map (λ nodes. nodes.items) result.now ≡ self.now }
        ensures valid { IsPath self.now }
    {
        &self.instances
    }

    /// The nodes of all instances, in order. The ends of instances aren't among them.
    pub fn nodes(&self) -> Nodes<'_>
        ensures { nodes_left result ≡ all_nodes self.now }
    {
        Nodes {
            nodes: &[],
            others: &self.instances,
        }
    }

    /// The instances, in order, given away. This takes no memory.
    pub fn into_instances(self) -> Vec<Vec<Node>>
        ensures items { map (λ nodes. nodes.items) result.items ≡ self }
        ensures valid { IsPath self }
    {
        let Path { instances } = self;
        instances
    }
}

/// The path of these instances (UEFI 2.10, 10.2).
///
/// # Errors
///
/// The list itself, if it is empty: a path has at least one instance.
pub fn make_path(instances: Vec<Vec<Node>>) -> Result<Path, Vec<Vec<Node>>>
    ensures made { IfOk result (λ path. path ≡ map (λ nodes. nodes.items) instances.items) }
    ensures valid { IfOk result (λ path. IsPath path) }
    ensures refused { (result ≡ Err instances) ↔ (instances.items ≡ []) }
    ensures handed_back { IfErr result (λ refused. refused ≡ instances) }
{
    if instances.is_empty() {
        return Err(instances);
    }
    for nodes in &instances {
        look_at_each(nodes);
    }
    Ok(Path::from_instances(instances))
}

/// Looks at each node, for the contract alone: what a value's type keeps is known when the value is looked at.
fn look_at_each(nodes: &[Node])
    ensures { AllByRecursion IsNode nodes.now }
{
    for node in nodes {
        node.look();
    }
}

/// Equal nodes, if there is memory for them.
fn copy_nodes(alloc: Global, nodes: &[Node]) -> Result<Vec<Node>, AllocError>
    ensures equal { IfOk result (λ copies. copies.items ≡ nodes.now) }
    ensures valid { OnOk result (AllByRecursion IsNode nodes.now) }
{
    let mut copies = Vec::with_capacity(alloc, nodes.len())?;
    for node in nodes {
        copies.push(node.copy(alloc)?)?;
    }
    Ok(copies)
}
