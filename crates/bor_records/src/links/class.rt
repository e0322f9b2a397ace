//! Nodes, each once: while all that stand for one entity are looked for, and once a list of them is
//! made.

ghost use Rattle.std.specs.Prelude.{◌≡◌, ◌≢◌, ◌↔◌, ◌<◌, ◌≤◌, ◌∷◌, [], IfOk, OnOk, IsTrue, Contains, length, slice_index_or};
ghost use Rattle.std.specs.List.{IsDistinct};
ghost use Rattle.bor_records.specs.declared.links.node.Node.{Node};
ghost use Rattle.bor_records.specs.Links.Nodes.{same_node};
ghost use Rattle.bor_records.specs.Links.Growth.{Grown};

use crate::links::node::Node;
use std::alloc::{AllocError, Global};
use std::collections::BTreeSet;
use std::marker::Model;

/// Nodes in the order in which they were added, each once: those that stand for one entity, while
/// they are looked for. All but the first stand in a set too, where one is found by one look-up:
/// most entities stand alone, and need no set.
#[derive(Drop)]
pub struct Class {
    alloc: Global,
    order: Vec<Node>,
    rest: BTreeSet<Node>,
}

impl Model for Class {
    ghost use Rattle.std.specs.Prelude.{List, drop};
    ghost use Rattle.std.specs.List.{IsDistinct};
    ghost use Rattle.bor_records.specs.declared.links.node.Node.{Node};
    ghost use Rattle.bor_records.specs.Links.Nodes.{same_node};
    ghost use Rattle.bor_records.specs.Links.Growth.{AreGiven};

    ghost Value = { List Node };

    ghost view = { λ c. c.order.items };

    ghost invariant = { λ c. AreGiven (drop 1 c.order.items) c.rest.keys
        × IsDistinct same_node c.order.items };
}

impl Class {
    /// No node.
    #[tactic(auto, using(crate::proofs::OnLinks::InOrder::none_once))]
    pub fn new(alloc: Global) -> Class
        ensures { result ≡ [] }
    {
        Class {
            alloc,
            order: Vec::new(alloc),
            rest: BTreeSet::new(alloc),
        }
    }

    /// How many there are.
    pub fn len(&self) -> usize
        ensures { result ≡ length self.now }
    {
        self.order.len()
    }

    /// Another copy of the node at a place, counted from 0.
    pub fn copy_at(&self, place: usize) -> Result<Node, AllocError>
        requires { place < length self.now }
        ensures { IfOk result (λ node. node ≡ slice_index_or self.now place node) }
    {
        self.order[place].copy(self.alloc)
    }

    /// Whether the node is there.
    pub fn has(&self, node: &Node) -> bool
        ensures { IsTrue result ↔ Contains self.now node.now }
    {
        match self.order.first() {
            Some(first) => *first == *node || self.rest.contains(node),
            None => false,
        }
    }

    /// Adds a node at the end, unless it is there. Without memory the nodes stay as they are.
    pub fn add(&mut self, node: Node) -> Result<(), AllocError>
        ensures longer { OnOk result (length self.old ≤ length self.new) }
        ensures grown { OnOk result (Grown (λ n. n ≡ node) self.old self.new) }
    {
        if self.has(&node) {
            return Ok(());
        }
        if self.order.is_empty() {
            self.order.push(node)?;
            return Ok(());
        }
        let copied = node.copy(self.alloc)?;
        self.order.push(node)?;
        if self.rest.insert(copied).is_err() {
            let _ = self.order.pop();
            return Err(AllocError);
        }
        Ok(())
    }

    /// The nodes but for one.
    pub fn into_others(self, node: &Node) -> Vec<Node>
        ensures others { (n : Node) → Contains result.items n ↔ Contains self n × (n ≢ node.now) }
        ensures distinct { IsDistinct same_node result.items }
    {
        let mut others = self.order;
        others.retain(|other| *other != *node);
        others
    }

    /// The nodes.
    pub fn into_nodes(self) -> Vec<Node>
        ensures same { result.items ≡ self }
        ensures distinct { IsDistinct same_node result.items }
    {
        self.order
    }
}

/// Each of the nodes once, in their order.
pub fn once(nodes: Vec<Node>) -> Result<Vec<Node>, AllocError>
    ensures same { IfOk result (λ out. (n : Node) → Contains out.items n ↔ Contains nodes.items n) }
    ensures distinct { IfOk result (λ out. IsDistinct same_node out.items) }
{
    let mut out = nodes;
    out.sort()?;
    out.dedup();
    Ok(out)
}
