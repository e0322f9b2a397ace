//! The nodes that rows make, and the links that they state.

ghost use Rattle.std.specs.Prelude.{◌≡◌, IfOk};
ghost use Rattle.bor_records.specs.Links.Answers.{only_into};
ghost use Rattle.bor_records.specs.Links.Nodes.{same_node};
ghost use Rattle.bor_records.specs.Links.Rows.{is_legal_kind, node_in, info_stated, link_stated, named_by};
ghost use Rattle.bor_records.specs.Links.Candidates.{beside};
ghost use Rattle.bor_records.specs.Links.Stakes.{is_holding, is_stake};

use crate::Row;
use crate::links::node::{Link, Node, NodeInfo, OpenNode, PersonInfo};
use crate::links::stake::{holding_of, stake_of};
use bods_read::{Details, EntityKind, Identifier, Interest};
use bor_terms::{Day, Ident, Listed};
use std::alloc::{AllocError, Global};

fn is_legal(kind: EntityKind) -> bool
    ensures { result ≡ is_legal_kind kind }
{
    kind == EntityKind::RegisteredEntity || kind == EntityKind::LegalEntity
}

/// The node of a record of the row's own declaration.
pub fn record_of(alloc: Global, row: &Row, rec: &Ident) -> Result<Node, AllocError>
    ensures { IfOk result (λ node. node ≡ beside row.now rec.now) }
{
    Ok(Node {
        agent: row.agent.copy(alloc)?,
        declaration: row.statement.declaration.copy(alloc)?,
        rec: rec.copy(alloc)?,
    })
}

fn copied(alloc: Global, identifiers: &[Identifier]) -> Result<Listed<Identifier>, AllocError>
    ensures { IfOk result (λ copied. copied ≡ identifiers.now) }
{
    let mut copied = Vec::new(alloc);
    for identifier in identifiers {
        copied.push(identifier.copy(alloc)?)?;
    }
    Ok(Listed::new(copied))
}

/// The node that a row's statement makes, of an entity or a person, with what a chain asks of it; a
/// relationship makes none.
pub fn node_of(alloc: Global, row: &Row) -> Result<Option<OpenNode>, AllocError>
    ensures { IfOk result (λ node. node ≡ node_in row.now) }
{
    match &row.statement.details {
        Details::Entity {
            kind,
            identifiers,
            ..
        } => Ok(Some(OpenNode {
            node: record_of(alloc, row, &row.statement.rec)?,
            info: NodeInfo::Entity {
                legal: is_legal(*kind),
            },
            identifiers: copied(alloc, identifiers.as_slice())?,
        })),
        Details::Person { name, .. } => Ok(Some(OpenNode {
            node: record_of(alloc, row, &row.statement.rec)?,
            info: NodeInfo::Person(PersonInfo::named(alloc, name)?),
            identifiers: Listed::new(Vec::new(alloc)),
        })),
        Details::Relationship { .. } => Ok(None),
    }
}

/// The data that a chain needs of the node that details make; those of a relationship make none.
pub fn info_stated(alloc: Global, details: &Details) -> Result<Option<NodeInfo>, AllocError>
    ensures { IfOk result (λ info. info ≡ info_stated details.now) }
{
    match details {
        Details::Entity { kind, .. } => Ok(Some(NodeInfo::Entity {
            legal: is_legal(*kind),
        })),
        Details::Person { name, .. } => Ok(Some(NodeInfo::Person(PersonInfo::named(alloc, name)?))),
        Details::Relationship { .. } => Ok(None),
    }
}

// Whether a node is the record of this identifier that stands with another one: of its agent and
// declaration.
fn is_named(node: &Node, other: &Node, rec: &Ident) -> bool
    ensures { result ≡ same_node (named_by other.now rec.now) node.now }
{
    other.agent == node.agent && other.declaration == node.declaration && *rec == node.rec
}

/// The link into `subject` that the details of a record's statement state on a day, whether or not
/// its ends are open. It shares the texts of `subject`.
pub fn link_stated(
    alloc: Global,
    subject: &Node,
    rec: &Node,
    details: &Details,
    day: Day,
) -> Result<Option<Link>, AllocError>
    ensures { IfOk result (λ link.
        link ≡ only_into subject.now (link_stated day rec.now details.now)) }
{
    let Details::Relationship {
        subject: Some(named),
        party: Some(party),
        interests,
    } = details
    else {
        return Ok(None);
    };
    if !is_named(subject, rec, named) {
        return Ok(None);
    }
    let interests = interests.as_slice();
    Ok(Some(link_from(alloc, party, subject, rec, interests, day)?))
}

// The link from a party to `subject` by these interests, all of one declaration.
fn link_from(
    alloc: Global,
    party: &Ident,
    subject: &Node,
    rec: &Node,
    interests: &[Interest],
    day: Day,
) -> Result<Link, AllocError>
    ensures { IfOk result (λ link. link ≡ record {
      rec = rec.now.rec;
      party = named_by subject.now party.now;
      subject = subject.now;
      stake = is_stake day interests.now;
      holding = is_holding day interests.now;
    }) }
{
    Ok(Link {
        rec: rec.rec.copy(alloc)?,
        subject: subject.copy(alloc)?,
        party: named_by(alloc, subject, party)?,
        stake: stake_of(interests, day),
        holding: holding_of(interests, day),
    })
}

// The node of another record of a node's declaration.
fn named_by(alloc: Global, node: &Node, rec: &Ident) -> Result<Node, AllocError>
    ensures { IfOk result (λ named. named ≡ named_by node.now rec.now) }
{
    Ok(Node {
        agent: node.agent.copy(alloc)?,
        declaration: node.declaration.copy(alloc)?,
        rec: rec.copy(alloc)?,
    })
}
