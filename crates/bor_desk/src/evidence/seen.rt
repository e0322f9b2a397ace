//! The evidence that a viewer sees.

ghost use Rattle.std.specs.Prelude.{◌≡◌, List, Some, IfOk};
ghost use Rattle.bor_records.specs.declared.links.node.Node.{Node};
ghost use Rattle.bor_records.specs.Links.Rows.{shown_of};
ghost use Rattle.bor_records.specs.Links.Aliases.{Same};
ghost use Rattle.bor_records.specs.Links.Answers.{Identified};
ghost use Rattle.bor_records.specs.Promises.{Kept, Promised};
ghost use Rattle.bor_register.specs.Seen.{seen_at};
ghost use Rattle.bor_desk.specs.Operations.Sight.{seen_by};
ghost use Rattle.bor_desk.specs.Operations.Outcomes.{Accounts, store_fault};
ghost use Rattle.bor_desk.specs.Refusals.{failed};
ghost use Rattle.bor_desk.specs.Evidence.{AreRecords, AreLinkEvidence, IsLinkEvidence, goal_of, record_evidence};
ghost use Rattle.bor_desk.specs.Mentioned.{AreMentioned, records_at};
ghost use Rattle.bor_desk.specs.Outcomes.{IsEvidenceFound, IsTreeFound};
ghost use Rattle.bor_desk.specs.Ways.{AreGoals, AreLinked};

use crate::evidence::keys::{in_order, records_in};
use crate::evidence::lines::{
    EntityEvidence, LinkEvidence, RecordEvidence, person_lines, record_of, record_of_next,
};
use crate::evidence::same::Goals;
use crate::operations::{Keep, KeepSource, StoreFault};
use crate::refusal::DeskFault;
use bods_read::Identifier;
use bor_chains::{Evidence, EvidenceLink, Node, evidence_of};
use bor_records::{Entry, Row};
use bor_terms::{AgentName, Day, Listed};
use std::alloc::Global;

/// Why the persons behind an entity are named on a day, as the viewer sees it.
pub(crate) fn tree_seen<K: Keep>(
    alloc: Global,
    keep: &mut K,
    viewer: &AgentName,
    entity: &Node,
    day: Day,
) -> Result<Evidence, DeskFault>
    ensures kept { Kept K.meaning keep.old keep.new }
    ensures answer { Promised K.meaning keep.old keep.new (λ r.
        IsTreeFound result (shown_of day (seen_by viewer.now r)) entity.now day) }
    ensures accounted { Accounts K.meaning keep.old keep.new (store_fault failed result) }
{
    let mut source = KeepSource::new(keep, viewer, day);
    Ok(evidence_of(alloc, &mut source, entity)?)
}

// Where a link leads: the party of the one that follows it, or the entity that was asked for.
fn goal_of<'a>(line: &'a EvidenceLink, entity: &'a Node) -> &'a Node
    ensures { result.now ≡ goal_of entity.now line.now }
{
    match &line.next {
        Some(next) => &next.party,
        None => entity,
    }
}

// A link as evidence tells it.
fn link_line<K: Keep>(
    alloc: Global,
    keep: &mut K,
    viewer: &AgentName,
    day: Day,
    goals: &mut Goals,
    line: &EvidenceLink,
    entity: &Node,
) -> Result<LinkEvidence, StoreFault>
    ensures kept { Kept K.meaning keep.old keep.new }
    ensures answer { Promised K.meaning keep.old keep.new (λ r. IfOk result (λ told.
        AreGoals (seen_at viewer.now day r) goals.old
        → Same (seen_at viewer.now day r) line.now.link.subject (goal_of entity.now line.now)
        → AreGoals (seen_at viewer.now day r) goals.new
        × IsLinkEvidence (seen_at viewer.now day r) entity.now line.now told)) }
    ensures accounted { Accounts K.meaning keep.old keep.new (store_fault Some result) }
{
    let goal = goal_of(line, entity);
    let same = goals.same(alloc, keep, viewer, day, &line.link.subject, goal)?;
    Ok(LinkEvidence {
        node: record_of(alloc, &line.link)?,
        next: record_of_next(alloc, &line.next)?,
        same: Listed::new(same),
    })
}

// The links as evidence tells them, in their order.
fn link_lines<K: Keep>(
    alloc: Global,
    keep: &mut K,
    viewer: &AgentName,
    day: Day,
    links: &[EvidenceLink],
    entity: &Node,
) -> Result<Vec<LinkEvidence>, StoreFault>
    ensures kept { Kept K.meaning keep.old keep.new }
    ensures answer { Promised K.meaning keep.old keep.new (λ r. IfOk result (λ lines.
        AreLinked (seen_at viewer.now day r) entity.now links.now
        → AreLinkEvidence (seen_at viewer.now day r) entity.now links.now lines.items)) }
    ensures accounted { Accounts K.meaning keep.old keep.new (store_fault Some result) }
{
    let mut goals = Goals::new(alloc);
    let mut lines = Vec::with_capacity(alloc, links.len())?;
    for line in links {
        let told = link_line(alloc, keep, viewer, day, &mut goals, line, entity)?;
        lines.push_reserved(told);
    }
    Ok(lines)
}

// The content of a row, as evidence has it.
fn record_line(row: Row) -> RecordEvidence
    ensures { result ≡ record_evidence row }
{
    RecordEvidence {
        agent: row.agent,
        entry: Entry {
            status: row.status,
            statement: row.statement,
        },
    }
}

// The statements of the records on a day, as the viewer sees them. A record that isn't open is left
// out.
fn records_seen<K: Keep>(
    alloc: Global,
    keep: &mut K,
    viewer: &AgentName,
    day: Day,
    nodes: &[Node],
) -> Result<Vec<RecordEvidence>, StoreFault>
    ensures kept { Kept K.meaning keep.old keep.new }
    ensures answer { Promised K.meaning keep.old keep.new (λ r. IfOk result (λ records.
        records.items ≡ records_at day (seen_by viewer.now r) nodes.now)) }
    ensures accounted { Accounts K.meaning keep.old keep.new (store_fault Some result) }
{
    let mut records = Vec::with_capacity(alloc, nodes.len())?;
    for node in nodes {
        if let Some(row) = keep.open_row(viewer, day, node)? {
            records.push_reserved(record_line(row));
        }
    }
    Ok(records)
}

/// The open entities that have an identifier on a day, as the viewer sees it: what their records
/// say, by agent, declaration and record. The keep is asked for their records once, and for what
/// each of them says once.
pub(crate) fn entities_seen<K: Keep>(
    alloc: Global,
    keep: &mut K,
    viewer: &AgentName,
    identifier: &Identifier,
    day: Day,
) -> Result<Vec<RecordEvidence>, StoreFault>
    ensures kept { Kept K.meaning keep.old keep.new }
    ensures answer { Promised K.meaning keep.old keep.new (λ r. IfOk result (λ records.
        AreRecords day (seen_by viewer.now r)
        (Identified (shown_of day (seen_by viewer.now r)) identifier.now) records.items)) }
    ensures accounted { Accounts K.meaning keep.old keep.new (store_fault Some result) }
{
    let found = keep.identified(viewer, day, identifier)?;
    let nodes = in_order(alloc, found)?;
    records_seen(alloc, keep, viewer, day, &nodes)
}

// What the records say that stand in evidence, each of them once.
fn records_told<K: Keep>(
    alloc: Global,
    keep: &mut K,
    viewer: &AgentName,
    day: Day,
    entity: &Node,
    tree: &Evidence,
    links: &[LinkEvidence],
) -> Result<Vec<RecordEvidence>, StoreFault>
    ensures kept { Kept K.meaning keep.old keep.new }
    ensures answer { Promised K.meaning keep.old keep.new (λ r. IfOk result (λ records.
        (nodes : List Node) × AreMentioned entity.now tree.now links.now nodes
        × (records.items ≡ records_at day (seen_by viewer.now r) nodes))) }
    ensures accounted { Accounts K.meaning keep.old keep.new (store_fault Some result) }
{
    let nodes = records_in(alloc, entity, tree, links)?;
    records_seen(alloc, keep, viewer, day, &nodes)
}

/// The evidence of an entity on a day, as the viewer sees it: why each person behind it is named,
/// and what the records say that this stands on. For the tree the keep is asked for a class of
/// entities and for the links into one at most twice, for the records by which entities are one as
/// [`Goals::same`] says, and for what each record says once.
pub(crate) fn evidence_seen<K: Keep>(
    alloc: Global,
    keep: &mut K,
    viewer: &AgentName,
    entity: &Node,
    day: Day,
) -> Result<EntityEvidence, DeskFault>
    ensures kept { Kept K.meaning keep.old keep.new }
    ensures answer { Promised K.meaning keep.old keep.new (λ r.
        IsEvidenceFound result (seen_by viewer.now r) entity.now day) }
    ensures accounted { Accounts K.meaning keep.old keep.new (store_fault failed result) }
{
    let tree = tree_seen(alloc, keep, viewer, entity, day)?;
    let links = link_lines(alloc, keep, viewer, day, tree.links.as_slice(), entity)?;
    let records = records_told(alloc, keep, viewer, day, entity, &tree, &links)?;
    let persons = person_lines(alloc, tree.persons.into_vec())?;
    Ok(EntityEvidence {
        persons: Listed::new(persons),
        links: Listed::new(links),
        records: Listed::new(records),
    })
}
