//! The part of a register in memory that a viewer sees on a day, read by key.

ghost use Rattle.std.specs.Prelude.{◌≡◌, None, IfOk, filter, option_map, option_and_then};
ghost use Rattle.std.specs.List.{last_or};
ghost use Rattle.bor_records.specs.Links.Candidates.{stated_at};
ghost use Rattle.bor_records.specs.Links.Rows.{info_stated, is_some_info};
ghost use Rattle.bor_records.specs.Links.Series.{open_at};
ghost use Rattle.bor_records.specs.Links.Shown.{identifiers_in, info_of};
ghost use Rattle.bor_records.specs.Snapshot.{unless_closed as row_unless_closed};
ghost use Rattle.bor_register.specs.Memory.Sited.{is_told, passes, row_sited, sited_at};
ghost use Rattle.bor_register.specs.Rows.{row_of};
ghost use Rattle.bor_register.specs.Memory.Sighted.{IsIndexed, identifiers_stated, in_sight, rows_in_sight, statement_open, statement_unless_closed};

use crate::member::find_filings;
use crate::memory::index::{Index, Place};
use crate::{AcceptedFiling, Member, row_of};
use bods_read::{Details, Identifier, Statement, Status};
use bor_records::Row;
use bor_records::links::{Link, Node, NodeInfo, info_stated, link_stated};
use bor_terms::{AgentName, Day};
use std::alloc::{AllocError, Global};

/// The part of these members that a viewer sees on the register's day, `today`, as it stands on a
/// day.
#[derive(Drop)]
pub(crate) struct Sight<'a> {
    pub(crate) alloc: Global,
    pub(crate) index: &'a Index,
    pub(crate) members: &'a [Member],
    pub(crate) viewer: &'a AgentName,
    pub(crate) today: Day,
    pub(crate) day: Day,
}

// Whether the viewer sees a statement of the agent at this place, dated at or before the day.
fn is_told(sight: &Sight, agent: &AgentName, filings: &[AcceptedFiling], place: Place) -> bool
    ensures { result ≡ passes (is_told sight.now.viewer.now sight.now.today sight.now.day agent.now)
        (sited_at filings.now place) }
{
    let Some(filing) = place.filing_in(filings) else {
        return false;
    };
    match place.statement_in(filing) {
        Some(statement) => {
            filing.is_visible(sight.viewer, agent, sight.today) && statement.day <= sight.day
        }
        None => false,
    }
}

// The last of the places at which the viewer sees a statement, dated at or before the day.
fn last_told(
    sight: &Sight,
    agent: &AgentName,
    filings: &[AcceptedFiling],
    places: &[Place],
) -> Option<Place>
    ensures { result ≡ last_or None
        (filter (λ p. passes (is_told sight.now.viewer.now sight.now.today sight.now.day agent.now)
        (sited_at filings.now p)) places.now) }
{
    let mut next = places.len();
    while next > 0 {
        next -= 1;
        let place = places[next];
        if is_told(sight, agent, filings, place) {
            return Some(place);
        }
    }
    None
}

/// The statement at a place.
pub(crate) fn statement_at<'a>(filings: &'a [AcceptedFiling], place: Place) -> Option<&'a Statement>
    ensures { option_map (λ s. s.now) result
        ≡ option_map (λ x. x.statement) (sited_at filings.now place) }
{
    match place.filing_in(filings) {
        Some(filing) => place.statement_in(filing),
        None => None,
    }
}

fn unless_closed<'a>(statement: &'a Statement) -> Option<&'a Statement>
    ensures { option_map (λ s. s.now) result ≡ statement_unless_closed statement.now }
{
    if statement.status == Some(Status::Closed) {
        None
    } else {
        Some(statement)
    }
}

// The latest statement of a record that the viewer sees.
fn latest<'a>(sight: &Sight<'a>, node: &Node) -> Option<&'a Statement>
    requires { IsIndexed sight.now }
    ensures { option_and_then statement_unless_closed (option_map (λ s. s.now) result)
        ≡ statement_open sight.now node.now }
{
    let filings = find_filings(sight.members, &node.agent);
    let places = sight.index.places_of(node);
    match last_told(sight, &node.agent, filings, places) {
        Some(place) => statement_at(filings, place),
        None => None,
    }
}

// The statement that a record shows: the latest one, where it isn't closed.
fn open_statement<'a>(sight: &Sight<'a>, node: &Node) -> Option<&'a Statement>
    requires { IsIndexed sight.now }
    ensures { option_map (λ s. s.now) result ≡ statement_open sight.now node.now }
{
    match latest(sight, node) {
        Some(statement) => unless_closed(statement),
        None => None,
    }
}

// The row of an agent's statement, unless it is closed.
fn row_open(
    alloc: Global,
    agent: &AgentName,
    filing: u32,
    place: usize,
    statement: &Statement,
) -> Result<Option<Row>, AllocError>
    ensures { IfOk result (λ row.
        row ≡ row_unless_closed (row_of agent.now filing place statement.now)) }
{
    if statement.status == Some(Status::Closed) {
        return Ok(None);
    }
    Ok(Some(row_of(alloc, agent, filing, place, statement)?))
}

// The row of the agent's statement at a place, unless it is closed.
fn row_at(
    alloc: Global,
    agent: &AgentName,
    filings: &[AcceptedFiling],
    place: Place,
) -> Result<Option<Row>, AllocError>
    ensures { IfOk result (λ row. row ≡ option_and_then row_unless_closed
        (option_map (row_sited agent.now) (sited_at filings.now place))) }
{
    let Some(filing) = place.filing_in(filings) else {
        return Ok(None);
    };
    match place.statement_in(filing) {
        Some(statement) => row_open(alloc, agent, filing.number, place.statement + 1, statement),
        None => Ok(None),
    }
}

/// The row that a record shows: its latest statement that the viewer sees, where it isn't closed.
pub(crate) fn row_told(sight: &Sight, node: &Node) -> Result<Option<Row>, AllocError>
    requires { IsIndexed sight.now }
    ensures { IfOk result (λ row.
        row ≡ open_at sight.now.day node.now (rows_in_sight sight.now)) }
{
    let filings = find_filings(sight.members, &node.agent);
    let places = sight.index.places_of(node);
    match last_told(sight, &node.agent, filings, places) {
        Some(place) => row_at(sight.alloc, &node.agent, filings, place),
        None => Ok(None),
    }
}

/// The data that a chain needs of a node; `None` where it isn't open.
pub(crate) fn node_told(sight: &Sight, node: &Node) -> Result<Option<NodeInfo>, AllocError>
    requires { IsIndexed sight.now }
    ensures { IfOk result (λ info. info ≡ info_of (in_sight sight.now) node.now) }
{
    match open_statement(sight, node) {
        Some(statement) => info_stated(sight.alloc, &statement.details),
        None => Ok(None),
    }
}

// Whether the details are of an entity or a person.
fn is_node_stated(details: &Details) -> bool
    ensures { result ≡ is_some_info (info_stated details.now) }
{
    !matches!(details, Details::Relationship { .. })
}

/// Whether the record is an open entity or person.
pub(crate) fn is_node(sight: &Sight, node: &Node) -> bool
    requires { IsIndexed sight.now }
    ensures { result ≡ is_some_info (info_of (in_sight sight.now) node.now) }
{
    match open_statement(sight, node) {
        Some(statement) => is_node_stated(&statement.details),
        None => false,
    }
}

// An entity's identifiers.
fn identifiers_stated<'a>(details: &'a Details) -> Option<&'a [Identifier]>
    ensures { option_map (λ i. i.now) result ≡ identifiers_stated details.now }
{
    match details {
        Details::Entity { identifiers, .. } => Some(identifiers.as_slice()),
        _ => None,
    }
}

/// The identifiers of a record that is an open entity; `None` where it isn't one.
pub(crate) fn identifiers_told<'a>(sight: &Sight<'a>, node: &Node) -> Option<&'a [Identifier]>
    requires { IsIndexed sight.now }
    ensures { option_map (λ i. i.now) result
        ≡ identifiers_in (in_sight sight.now).nodes node.now }
{
    match open_statement(sight, node) {
        Some(statement) => identifiers_stated(&statement.details),
        None => None,
    }
}

/// The link into `subject` that the open statement of a record states, whether or not its ends are
/// open.
pub(crate) fn stated_link(
    sight: &Sight,
    subject: &Node,
    rec: &Node,
) -> Result<Option<Link>, AllocError>
    requires { IsIndexed sight.now }
    ensures { IfOk result (λ link.
        link ≡ stated_at sight.now.day (rows_in_sight sight.now) subject.now rec.now) }
{
    match open_statement(sight, rec) {
        Some(statement) => link_stated(sight.alloc, subject, rec, &statement.details, sight.day),
        None => Ok(None),
    }
}
