//! The parts of evidence: persons, links and records.

ghost use Rattle.std.specs.Prelude.{◌≡◌, IfOk, map, option_map};
ghost use Rattle.bor_records.specs.Links.Nodes.{link_record};
ghost use Rattle.bor_desk.specs.Evidence.{person_evidence};

use bor_chains::{EvidencePerson, Link, Node, PersonInfo};
use bor_records::Entry;
use bor_terms::{AgentName, Listed};
use std::alloc::{AllocError, Global};

/// Why the persons behind an entity are named, and by which records. A person's chain is read off
/// the links: it begins with the person's first one, and after each comes the one that is named
/// with it, up to one that none follows.
#[derive(Drop)]
pub struct EntityEvidence {
    /// The persons, by agent, declaration and record.
    pub persons: Listed<PersonEvidence>,
    /// Each link of their chains once, by the agent, declaration and record of its record.
    pub links: Listed<LinkEvidence>,
    /// Each record that stands in the evidence once, by agent, declaration and record.
    pub records: Listed<RecordEvidence>,
}

/// A person, with where the reason begins.
#[derive(Drop)]
pub struct PersonEvidence {
    /// The record of the person.
    pub node: Node,
    /// What is shown of the person.
    pub info: PersonInfo,
    /// The record of the first link of the person's chain.
    pub first: Node,
    /// The number of links of that chain.
    pub links: u64,
}

/// A link of the chains.
#[derive(Drop)]
pub struct LinkEvidence {
    /// The record of the link.
    pub node: Node,
    /// The record of the link that follows it; `None` where it is the last.
    pub next: Option<Node>,
    /// The records by which its subject is the party of the link that follows it, or the entity
    /// that was asked for: none where it is that record itself, else both with those between them,
    /// neighbours being aliases.
    pub same: Listed<Node>,
}

/// The content of a record on the day.
#[derive(Drop)]
pub struct RecordEvidence {
    /// The agent that lodged it.
    pub agent: AgentName,
    /// The record's latest statement, as a snapshot shows it.
    pub entry: Entry,
}

/// The record of a link: its agent and declaration are those of its ends.
pub(crate) fn record_of(alloc: Global, link: &Link) -> Result<Node, AllocError>
    ensures { IfOk result (λ node. node ≡ link_record link.now) }
{
    Ok(Node {
        agent: link.subject.agent.copy(alloc)?,
        declaration: link.subject.declaration.copy(alloc)?,
        rec: link.rec.copy(alloc)?,
    })
}

/// The record of the link that follows, where one does.
pub(crate) fn record_of_next(alloc: Global, next: &Option<Link>) -> Result<Option<Node>, AllocError>
    ensures { IfOk result (λ node. node ≡ option_map link_record next.now) }
{
    match next {
        Some(link) => Ok(Some(record_of(alloc, link)?)),
        None => Ok(None),
    }
}

// The record of the first link of a person's chain.
fn first_record(alloc: Global, person: &EvidencePerson) -> Result<Node, AllocError>
    ensures { IfOk result (λ node. node ≡ link_record person.now.first) }
{
    record_of(alloc, &person.first)
}

// A person as evidence tells it, by the record of its first link.
fn line_with(person: EvidencePerson, first: Node) -> PersonEvidence
    requires { first ≡ link_record person.first }
    ensures { result ≡ person_evidence person }
{
    PersonEvidence {
        node: person.node,
        info: person.info,
        first,
        links: person.links,
    }
}

// A person as evidence tells it.
fn person_line(alloc: Global, person: EvidencePerson) -> Result<PersonEvidence, AllocError>
    ensures { IfOk result (λ line. line ≡ person_evidence person) }
{
    match first_record(alloc, &person) {
        Ok(first) => Ok(line_with(person, first)),
        Err(error) => {
            drop(person);
            Err(error)
        }
    }
}

/// The persons as evidence tells them, in their order.
pub(crate) fn person_lines(
    alloc: Global,
    persons: Vec<EvidencePerson>,
) -> Result<Vec<PersonEvidence>, AllocError>
    ensures { IfOk result (λ lines. lines.items ≡ map person_evidence persons.items) }
{
    let mut lines = Vec::with_capacity(alloc, persons.len())?;
    for person in persons {
        lines.push(person_line(alloc, person)?)?;
    }
    Ok(lines)
}
