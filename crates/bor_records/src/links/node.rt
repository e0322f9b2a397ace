//! Nodes, the links between them, and what is known of a node.

ghost use Rattle.std.specs.Prelude.{◌≡◌, IfOk, Some, refl};
ghost use Rattle.std.specs.List.{list_any};
ghost use Rattle.bor_records.specs.Links.Nodes.{node_cmp};
ghost use Rattle.bor_records.specs.Links.Orders.{node_po, node_total, node_ties};
ghost use Rattle.bor_records.specs.Links.Rows.{person_named};
ghost use Rattle.bor_records.specs.Links.Shown.{is_entity, are_alike, share_identifier, same_identifier, same_record};

use bods_read::{FreeText, Identifier};
use bor_terms::{AgentName, Ident, Listed};
use std::alloc::{AllocError, Global};
use std::cmp::Ordering;

/// A record of an agent's declaration, by its key (this register's profile): the agent, the
/// declaration's subject and the record's identifier.
#[derive(Drop, PartialEq, Eq)]
pub struct Node {
    /// The agent that lodged the record.
    pub agent: AgentName,
    /// `declarationSubject` (BODS 0.4).
    pub declaration: Ident,
    /// `recordId` (BODS 0.4).
    pub rec: Ident,
}

impl Node {
    /// Another copy of the node.
    pub fn copy(&self, alloc: Global) -> Result<Node, AllocError>
        ensures { IfOk result (λ copied. copied ≡ self.now) }
    {
        Ok(Node {
            agent: self.agent.copy(alloc)?,
            declaration: self.declaration.copy(alloc)?,
            rec: self.rec.copy(alloc)?,
        })
    }
}

impl PartialOrd for Node {
    ghost partial_cmp = { λ x y. Some (node_cmp x y) };

    ghost laws = { node_po };

    fn partial_cmp(&self, other: &Node) -> Option<Ordering> {
        Some(self.cmp(other))
    }
}

/// Nodes are ordered by record, then declaration, then agent, byte by byte: among the nodes of few
/// declarations nearly all compares end with the record.
impl Ord for Node {
    ghost cmp = { node_cmp };

    ghost total = { node_total };

    ghost matches_partial_cmp = { λ x y. refl };

    ghost matches_eq = { node_ties };

    fn cmp(&self, other: &Node) -> Ordering {
        match self.rec.cmp(&other.rec) {
            Ordering::Equal => match self.declaration.cmp(&other.declaration) {
                Ordering::Equal => self.agent.cmp(&other.agent),
                unequal => unequal,
            },
            unequal => unequal,
        }
    }
}

impl Node {
    fn is_elsewhere(&self, other: &Node) -> bool
        ensures { result ≡ same_record self.now other.now }
    {
        self.agent == other.agent && self.rec == other.rec && self.declaration != other.declaration
    }
}

/// What a report's line shows of a person beside its record.
#[derive(Drop)]
pub struct PersonInfo {
    /// The name that is shown.
    pub name: Option<FreeText>,
}

impl PersonInfo {
    /// What is shown of a person with this name.
    pub(crate) fn named(alloc: Global, name: &Option<FreeText>) -> Result<PersonInfo, AllocError>
        ensures { IfOk result (λ person. person ≡ person_named name.now) }
    {
        match name {
            Some(name) => Ok(PersonInfo {
                name: Some(name.copy(alloc)?),
            }),
            None => Ok(PersonInfo { name: None }),
        }
    }

    // Another copy of the information.
    fn copy(&self, alloc: Global) -> Result<PersonInfo, AllocError>
        ensures { IfOk result (λ copied. copied ≡ self.now) }
    {
        PersonInfo::named(alloc, &self.name)
    }
}

/// The data that a chain needs of a node.
#[derive(Drop)]
pub enum NodeInfo {
    /// An entity.
    Entity {
        /// It is a legal entity: a `registeredEntity` or a `legalEntity` (BODS 0.4), and nothing
        /// else.
        legal: bool,
    },
    /// A person.
    Person(PersonInfo),
}

impl NodeInfo {
    /// Another copy of the information.
    pub fn copy(&self, alloc: Global) -> Result<NodeInfo, AllocError>
        ensures { IfOk result (λ copied. copied ≡ self.now) }
    {
        match self {
            NodeInfo::Entity { legal } => Ok(NodeInfo::Entity { legal: *legal }),
            NodeInfo::Person(person) => Ok(NodeInfo::Person(person.copy(alloc)?)),
        }
    }

    /// Whether the node is an entity, of whatever kind.
    pub fn is_entity(&self) -> bool
        ensures { result ≡ is_entity self.now }
    {
        matches!(self, NodeInfo::Entity { .. })
    }
}

/// The record of an entity or a person that is open, with what its latest statement says.
#[derive(Drop)]
pub struct OpenNode {
    /// The record.
    pub node: Node,
    /// Whether it is an entity or a person, with what a chain asks of it.
    pub info: NodeInfo,
    /// An entity's identifiers, in order; a person has none.
    pub identifiers: Listed<Identifier>,
}

impl OpenNode {
    /// Whether two open nodes stand for one entity by one step (this register's profile): two
    /// entities of one agent with equal record in different declarations, or two different ones
    /// that share an identifier of equal scheme and id.
    pub fn is_alias(&self, other: &OpenNode) -> bool
        ensures { result ≡ are_alike self.now other.now }
    {
        self.info.is_entity()
            && other.info.is_entity()
            && (self.node.is_elsewhere(&other.node)
                || share_identifier(self.identifiers.as_slice(), other.identifiers.as_slice())
                    && self.node != other.node)
    }
}

fn share_identifier(ours: &[Identifier], theirs: &[Identifier]) -> bool
    ensures { result ≡ share_identifier ours.now theirs.now }
{
    ours.iter()
        .any(|identifier| has_identifier(theirs, identifier))
}

fn has_identifier(identifiers: &[Identifier], one: &Identifier) -> bool
    ensures { result ≡ list_any (λ other. same_identifier one.now other) identifiers.now }
{
    identifiers.iter().any(|other| one.scheme.as_str() == other.scheme.as_str()
        && one.id.as_str() == other.id.as_str())
}

/// An open relationship between two nodes, from the party that holds to the subject that is held.
/// Links are ordered by the identifiers of their records, then by subject and by party: of all that
/// the rows of a register show, no two with one record in one declaration of one agent differ.
#[derive(Drop, PartialEq, Eq, PartialOrd, Ord)]
pub struct Link {
    /// `recordId` of the relationship (BODS 0.4). The record's agent and declaration are those of
    /// the two ends.
    pub rec: Ident,
    /// `subject` (BODS 0.4).
    pub subject: Node,
    /// `interestedParty` (BODS 0.4).
    pub party: Node,
    /// The party has a majority stake in the subject (UK Companies Act 2006, Schedule 1A, paragraph
    /// 18).
    pub stake: bool,
    /// The party holds a share or right in the subject.
    pub holding: bool,
}

impl Link {
    /// Another copy of the link.
    pub fn copy(&self, alloc: Global) -> Result<Link, AllocError>
        ensures { IfOk result (λ copied. copied ≡ self.now) }
    {
        Ok(Link {
            rec: self.rec.copy(alloc)?,
            subject: self.subject.copy(alloc)?,
            party: self.party.copy(alloc)?,
            stake: self.stake,
            holding: self.holding,
        })
    }
}
