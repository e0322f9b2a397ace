//! Which records stand in evidence.

ghost use Rattle.std.specs.Prelude.{◌≡◌, ◌↔◌, IfOk, OnOk, Contains};
ghost use Rattle.std.specs.List.Sorted.{IsStrictlySortedBy};
ghost use Rattle.bor_chains.specs.Lines.{reading_cmp};
ghost use Rattle.bor_desk.specs.Mentioned.{AreMentioned, IsGained, IsOfAny, IsOfLink, key_of, node_of, nodes_in};

use crate::evidence::lines::{LinkEvidence, record_of};
use bor_chains::{Evidence, EvidenceLink, EvidencePerson, Node};
use bor_terms::{AgentName, Ident};
use std::alloc::{AllocError, Global};
use std::collections::BTreeSet;

// A record's key, in the order of a reply: by agent, then declaration, then record.
#[derive(Drop, PartialEq, Eq, PartialOrd, Ord)]
struct Key {
    agent: AgentName,
    declaration: Ident,
    rec: Ident,
}

impl Key {
    // The key of a record.
    fn of(node: Node) -> Key
        ensures { result ≡ key_of node }
    {
        Key {
            agent: node.agent,
            declaration: node.declaration,
            rec: node.rec,
        }
    }

    // The record that has the key.
    fn into_node(self) -> Node
        ensures { result ≡ node_of self }
    {
        Node {
            agent: self.agent,
            declaration: self.declaration,
            rec: self.rec,
        }
    }
}

// Adds a record, unless it is there.
fn add(keys: &mut BTreeSet<Key>, node: Node) -> Result<(), AllocError>
    ensures { OnOk result (IsGained (λ n. n ≡ node) (nodes_in keys.old) (nodes_in keys.new)) }
{
    keys.insert(Key::of(node))?;
    Ok(())
}

// Adds a copy of a record, unless it is there.
fn add_copy(alloc: Global, keys: &mut BTreeSet<Key>, node: &Node) -> Result<(), AllocError>
    ensures { OnOk result (IsGained (λ n. n ≡ node.now) (nodes_in keys.old) (nodes_in keys.new)) }
{
    add(keys, node.copy(alloc)?)
}

// Adds records.
#[tactic(auto, using(bor_records::proofs::OnLinks::Found::none))]
fn add_all(alloc: Global, keys: &mut BTreeSet<Key>, nodes: &[Node]) -> Result<(), AllocError>
    ensures { OnOk result (IsGained (λ n. Contains nodes.now n)
        (nodes_in keys.old) (nodes_in keys.new)) }
{
    for node in nodes {
        add_copy(alloc, keys, node)?;
    }
    Ok(())
}

// Adds the records of persons.
#[tactic(auto, using(bor_records::proofs::OnLinks::Found::none, std::proofs::lemmas::List::take_all))]
fn add_persons(
    alloc: Global,
    keys: &mut BTreeSet<Key>,
    persons: &[EvidencePerson],
) -> Result<(), AllocError>
    ensures { OnOk result (IsGained (IsOfAny persons.now (λ person n. n ≡ person.node))
        (nodes_in keys.old) (nodes_in keys.new)) }
{
    for person in persons {
        add_copy(alloc, keys, &person.node)?;
    }
    Ok(())
}

// Adds the record of a link and those of its ends.
fn add_link(alloc: Global, keys: &mut BTreeSet<Key>, line: &EvidenceLink) -> Result<(), AllocError>
    ensures { OnOk result (IsGained (IsOfLink line.now) (nodes_in keys.old) (nodes_in keys.new)) }
{
    add(keys, record_of(alloc, &line.link)?)?;
    add_copy(alloc, keys, &line.link.subject)?;
    add_copy(alloc, keys, &line.link.party)
}

// Adds the records of links and those of their ends.
#[tactic(auto, using(bor_records::proofs::OnLinks::Found::none, std::proofs::lemmas::List::take_all))]
fn add_links(
    alloc: Global,
    keys: &mut BTreeSet<Key>,
    links: &[EvidenceLink],
) -> Result<(), AllocError>
    ensures { OnOk result (IsGained (IsOfAny links.now IsOfLink)
        (nodes_in keys.old) (nodes_in keys.new)) }
{
    for line in links {
        add_link(alloc, keys, line)?;
    }
    Ok(())
}

// Adds the records by which entities are one.
#[tactic(auto, using(bor_records::proofs::OnLinks::Found::none, std::proofs::lemmas::List::take_all))]
fn add_sames(
    alloc: Global,
    keys: &mut BTreeSet<Key>,
    links: &[LinkEvidence],
) -> Result<(), AllocError>
    ensures { OnOk result (IsGained (IsOfAny links.now (λ line n. Contains line.same n))
        (nodes_in keys.old) (nodes_in keys.new)) }
{
    for line in links {
        add_all(alloc, keys, line.same.as_slice())?;
    }
    Ok(())
}

// The records that have the keys, in their order.
fn nodes_of(alloc: Global, keys: BTreeSet<Key>) -> Result<Vec<Node>, AllocError>
    ensures same { IfOk result (λ nodes. nodes.items ≡ nodes_in keys) }
    ensures sorted { IfOk result (λ nodes. IsStrictlySortedBy reading_cmp nodes.items) }
{
    keys.into_iter().map(|key| key.into_node()).collect(alloc)
}

/// These records, each once, by agent, declaration and record.
pub(crate) fn in_order(alloc: Global, nodes: Vec<Node>) -> Result<Vec<Node>, AllocError>
    ensures each { IfOk result (λ out. (n : Node) → Contains out.items n ↔ Contains nodes.items n) }
    ensures sorted { IfOk result (λ out. IsStrictlySortedBy reading_cmp out.items) }
{
    let mut keys = BTreeSet::new(alloc);
    for node in nodes {
        add(&mut keys, node)?;
    }
    nodes_of(alloc, keys)
}

/// The records that stand in evidence, each once, by agent, declaration and record: the entity that
/// was asked for, the persons, the links with their ends, and those by which entities are one.
pub(crate) fn records_in(
    alloc: Global,
    entity: &Node,
    tree: &Evidence,
    links: &[LinkEvidence],
) -> Result<Vec<Node>, AllocError>
    ensures { IfOk result (λ nodes. AreMentioned entity.now tree.now links.now nodes.items) }
{
    let mut keys = BTreeSet::new(alloc);
    add_copy(alloc, &mut keys, entity)?;
    add_persons(alloc, &mut keys, tree.persons.as_slice())?;
    add_links(alloc, &mut keys, tree.links.as_slice())?;
    add_sames(alloc, &mut keys, links)?;
    nodes_of(alloc, keys)
}
