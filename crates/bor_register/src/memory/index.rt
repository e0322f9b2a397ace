//! Maps beside the filings of a register in memory, so that what is asked of a record takes no
//! scan.

ghost use Rattle.std.specs.Prelude.{◌≡◌, ◌<◌, ◌++◌, ◌∷◌, [], OnOk, IfOk, IfSome, if◌then◌else◌, option_map, slice_get};
ghost use Rattle.std.specs.Ordering.{is_eq};
ghost use Rattle.bor_records.specs.Links.Nodes.{node_cmp};
ghost use Rattle.bor_records.specs.Links.Series.{stated};
ghost use Rattle.bor_records.specs.Links.Signs.{sign_cmp};
ghost use Rattle.bor_records.specs.Links.Values.{IsNoted, under};
ghost use Rattle.bor_register.specs.Memory.Indexed.{IsGrown, IsIndex, key_cmp, key_of, signs_stated, subjects_of};
ghost use Rattle.bor_register.specs.declared.memory.index.StatementKey.{StatementKey};
ghost use Rattle.bor_records.specs.declared.links.node.Node.{Node};

use crate::AcceptedFiling;
use bods_read::{Details, Statement};
use bor_records::links::values::{self, Values};
use bor_records::links::{Node, Sign, push_signs};
use bor_terms::{AgentName, Ident};
use std::alloc::{AllocError, Global};
use std::collections::BTreeMap;

/// Where an agent's statement stands: in which of the agent's filings, and where there, both from
/// 0.
#[derive(Clone, Copy)]
pub(crate) struct Place {
    pub(crate) filing: usize,
    pub(crate) statement: usize,
}

impl Place {
    /// The filing there.
    pub(crate) fn filing_in<'a>(self, filings: &'a [AcceptedFiling]) -> Option<&'a AcceptedFiling>
        ensures { option_map (λ f. f.now) result ≡ slice_get filings.now self.filing }
    {
        filings.get(self.filing)
    }

    /// The statement of its filing there.
    pub(crate) fn statement_in<'a>(self, filing: &'a AcceptedFiling) -> Option<&'a Statement>
        ensures value { option_map (λ s. s.now) result
            ≡ slice_get filing.now.statements self.statement }
        ensures below_max { IfSome result (λ s. self.statement < usize.MAX) }
    {
        filing.statements.as_slice().get(self.statement)
    }
}

/// An agent's statement, by its identifier. The identifier is compared first: most statements are
/// of few agents.
#[derive(Drop, PartialEq, Eq, PartialOrd, Ord)]
pub(crate) struct StatementKey {
    pub(crate) id: Ident,
    pub(crate) agent: AgentName,
}

/// By record and by identifier the places of an agent's statements, in order of acceptance; by
/// subject the relationships that have named it; by sign the entities that have had it. A place may
/// have lost its statement, and a record that was found may name something else by now.
#[derive(Drop)]
pub(crate) struct Index {
    pub(crate) series: BTreeMap<Node, Values<Place>>,
    pub(crate) named: BTreeMap<StatementKey, Values<Place>>,
    pub(crate) naming: BTreeMap<Node, Values<Node>>,
    pub(crate) signed: BTreeMap<Sign, Values<Node>>,
}

impl Index {
    /// The maps of no filings.
    pub(crate) fn new(alloc: Global) -> Index
        ensures { IsIndex [] result }
    {
        Index {
            series: BTreeMap::new(alloc),
            named: BTreeMap::new(alloc),
            naming: BTreeMap::new(alloc),
            signed: BTreeMap::new(alloc),
        }
    }

    /// The maps with the statements of the agent's filing at place `filing`, counted from 0.
    pub(crate) fn with_filing(
        self,
        alloc: Global,
        agent: &AgentName,
        filing: usize,
        statements: &[Statement],
    ) -> Result<Index, AllocError>
        ensures { IfOk result (λ index. IsGrown agent.now filing 0 statements.now self index) }
    {
        let mut index = self;
        for (i, statement) in statements.iter().enumerate() {
            let place = Place {
                filing,
                statement: i,
            };
            index.add(alloc, agent, place, statement)?;
        }
        Ok(index)
    }

    // Puts a statement's place under its record and its identifier, and the record under the
    // subject that it names, if it is a relationship, and under its signs, if it is an entity.
    fn add(
        &mut self,
        alloc: Global,
        agent: &AgentName,
        place: Place,
        statement: &Statement,
    ) -> Result<(), AllocError>
        ensures { OnOk result
            (IsGrown agent.now place.filing place.statement (statement.now ∷ []) self.old self.new) }
    {
        put_named(alloc, &mut self.named, agent, statement, place)?;
        let node = record_of(alloc, agent, statement)?;
        note_subject(alloc, &mut self.naming, agent, statement, &node)?;
        note_signs(alloc, &mut self.signed, statement, &node)?;
        put_record(alloc, &mut self.series, node, place)
    }

    /// The places of a record's statements.
    pub(crate) fn places_of(&self, node: &Node) -> &[Place]
        ensures { result.now ≡ under node_cmp self.now.series node.now }
    {
        values::under(&self.series, node)
    }

    /// The places of the statements with an identifier.
    pub(crate) fn places_named(&self, key: &StatementKey) -> &[Place]
        ensures { result.now ≡ under key_cmp self.now.named key.now }
    {
        values::under(&self.named, key)
    }

    /// The relationships that have named a record as their subject, some maybe more than once.
    pub(crate) fn naming(&self, subject: &Node) -> &[Node]
        ensures { result.now ≡ under node_cmp self.now.naming subject.now }
    {
        values::under(&self.naming, subject)
    }

    /// The entities that have had a sign, some maybe more than once.
    pub(crate) fn signed(&self, sign: &Sign) -> &[Node]
        ensures { result.now ≡ under sign_cmp self.now.signed sign.now }
    {
        values::under(&self.signed, sign)
    }
}

/// A record of an agent's declaration.
pub(crate) fn node_named(
    alloc: Global,
    agent: &AgentName,
    declaration: &Ident,
    rec: &Ident,
) -> Result<Node, AllocError>
    ensures { IfOk result (λ node.
        node ≡ record { agent = agent.now; declaration = declaration.now; rec = rec.now }) }
{
    Ok(Node {
        agent: agent.copy(alloc)?,
        declaration: declaration.copy(alloc)?,
        rec: rec.copy(alloc)?,
    })
}

/// An agent's statement, by its identifier.
pub(crate) fn key_named(
    alloc: Global,
    agent: &AgentName,
    id: &Ident,
) -> Result<StatementKey, AllocError>
    ensures { IfOk result (λ key. key ≡ record { id = id.now; agent = agent.now }) }
{
    Ok(StatementKey {
        id: id.copy(alloc)?,
        agent: agent.copy(alloc)?,
    })
}

/// The record that an agent's statement is of.
pub(crate) fn record_of(
    alloc: Global,
    agent: &AgentName,
    statement: &Statement,
) -> Result<Node, AllocError>
    ensures { IfOk result (λ node. node ≡ stated agent.now statement.now) }
{
    node_named(alloc, agent, &statement.declaration, &statement.rec)
}

// The record that a statement names as its subject.
fn subjects_of(
    alloc: Global,
    agent: &AgentName,
    statement: &Statement,
) -> Result<Vec<Node>, AllocError>
    ensures { IfOk result (λ subjects. subjects.items ≡ subjects_of agent.now statement.now) }
{
    let mut subjects = Vec::new(alloc);
    if let Details::Relationship {
        subject: Some(subject),
        ..
    } = &statement.details
    {
        subjects.push(node_named(alloc, agent, &statement.declaration, subject)?)?;
    }
    Ok(subjects)
}

// Puts a statement's place under its record.
fn put_record(
    alloc: Global,
    series: &mut BTreeMap<Node, Values<Place>>,
    node: Node,
    place: Place,
) -> Result<(), AllocError>
    ensures { OnOk result ((n : Node) → under node_cmp series.new n
        ≡ under node_cmp series.old n ++ (if is_eq (node_cmp node n) then place ∷ [] else [])) }
{
    values::put(alloc, series, node, place)?;
    Ok(())
}

// Puts a statement's place under its identifier.
fn put_named(
    alloc: Global,
    named: &mut BTreeMap<StatementKey, Values<Place>>,
    agent: &AgentName,
    statement: &Statement,
    place: Place,
) -> Result<(), AllocError>
    ensures { OnOk result ((k : StatementKey) → under key_cmp named.new k
        ≡ under key_cmp named.old k ++ (if is_eq (key_cmp (key_of agent.now statement.now) k)
        then place ∷ [] else [])) }
{
    let key = key_named(alloc, agent, &statement.id)?;
    values::put(alloc, named, key, place)?;
    Ok(())
}

// Puts a statement's record under the subject that it names.
fn note_subject(
    alloc: Global,
    naming: &mut BTreeMap<Node, Values<Node>>,
    agent: &AgentName,
    statement: &Statement,
    node: &Node,
) -> Result<(), AllocError>
    ensures { OnOk result (IsNoted (subjects_of agent.now statement.now) node.now
        (under node_cmp naming.old) (under node_cmp naming.new)) }
{
    let subjects = subjects_of(alloc, agent, statement)?;
    values::note(alloc, naming, subjects, node)?;
    Ok(())
}

// The signs of the entity that a statement of this record makes.
fn signs_of(alloc: Global, node: &Node, statement: &Statement) -> Result<Vec<Sign>, AllocError>
    ensures { IfOk result (λ signs. signs.items ≡ signs_stated node.now statement.now.details) }
{
    let mut signs = Vec::new(alloc);
    if let Details::Entity { identifiers, .. } = &statement.details {
        signs.push(Sign::of_node(alloc, node)?)?;
        push_signs(alloc, &mut signs, identifiers.as_slice())?;
    }
    Ok(signs)
}

// Puts a statement's record under the signs of the entity that it makes.
fn note_signs(
    alloc: Global,
    signed: &mut BTreeMap<Sign, Values<Node>>,
    statement: &Statement,
    node: &Node,
) -> Result<(), AllocError>
    ensures { OnOk result (IsNoted (signs_stated node.now statement.now.details) node.now
        (under sign_cmp signed.old) (under sign_cmp signed.new)) }
{
    let signs = signs_of(alloc, node, statement)?;
    values::note(alloc, signed, signs, node)?;
    Ok(())
}
