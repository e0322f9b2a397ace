//! The row that a record shows on a day, with the lists of its statement.

ghost use Rattle.std.specs.Prelude.{◌≡◌, map};
ghost use Rattle.bor_records.specs.Links.Series.{open_at};
ghost use Rattle.bor_register.specs.Rows.{visible};
ghost use Rattle.bor_store_sql.specs.Selected.{identifiers_at, interests_at};
ghost use Rattle.bor_store_reads.specs.Answering.{ReadsIn};
ghost use Rattle.bor_store_keys.specs.Latest.{listed_row};
ghost use Rattle.bor_store_keys.specs.Viewed.{rows_seen};

use crate::latest::open_statement;
use crate::lookup::Lookup;
use crate::view::View;
use crate::views::view_of;
use bods_read::{Identifier, Interest};
use bor_records::Row;
use bor_records::links::Node;
use bor_store_reads::ReadError;
use bor_store_sql::rows::{At, Part, StatementRow};
use bor_terms::{AgentName, Day};
use sqlite::Alter;
use std::alloc::Global;

// The interests of the statement at this place.
fn interests<S: Alter + Drop>(
    lookup: &mut Lookup<S>,
    alloc: Global,
    at: &At,
) -> Result<Vec<Interest>, ReadError>
    ensures { ReadsIn S.Store lookup.old lookup.new result (λ r interests.
        interests.items ≡ map (λ row. row.interest) (interests_at at.now r.members)) }
{
    let rows = lookup.interests(alloc, at)?;
    Ok(rows.into_iter().map(|row| row.interest).collect(alloc)?)
}

// The identifiers of the statement at this place.
fn identifiers<S: Alter + Drop>(
    lookup: &mut Lookup<S>,
    alloc: Global,
    at: &At,
) -> Result<Vec<Identifier>, ReadError>
    ensures { ReadsIn S.Store lookup.old lookup.new result (λ r identifiers.
        identifiers.items ≡ map (λ row. row.identifier) (identifiers_at at.now r.members)) }
{
    let rows = lookup.identifiers(alloc, at)?;
    Ok(rows.into_iter().map(|row| row.identifier).collect(alloc)?)
}

// The row of a statement with its lists: an entity's identifiers, or a relationship's interests.
fn with_lists<S: Alter + Drop>(
    lookup: &mut Lookup<S>,
    alloc: Global,
    row: StatementRow,
) -> Result<Row, ReadError>
    ensures { ReadsIn S.Store lookup.old lookup.new result (λ r listed.
        listed ≡ listed_row r.members row) }
{
    match &row.part {
        Part::Entity { .. } => {
            let identifiers = identifiers(lookup, alloc, &row.at)?;
            Ok(row.with(Vec::new(alloc), identifiers).into_row())
        }
        Part::Person { .. } => Ok(row.with(Vec::new(alloc), Vec::new(alloc)).into_row()),
        Part::Relationship { .. } => {
            let interests = interests(lookup, alloc, &row.at)?;
            Ok(row.with(interests, Vec::new(alloc)).into_row())
        }
    }
}

/// The row that a record shows: its latest statement, where that isn't closed.
pub(crate) fn open_row<S: Alter + Drop>(
    lookup: &mut Lookup<S>,
    alloc: Global,
    view: &View,
    node: &Node,
) -> Result<Option<Row>, ReadError>
    ensures { ReadsIn S.Store lookup.old lookup.new result (λ r row.
        row ≡ open_at view.now.day node.now (rows_seen view.now r)) }
{
    match open_statement(lookup, alloc, view, node)? {
        Some(row) => {
            let listed = with_lists(lookup, alloc, row)?;
            Ok(Some(listed))
        }
        None => Ok(None),
    }
}

/// The row that a record shows on a day, of what the viewer sees: its latest statement dated at or
/// before the day, where that isn't closed.
pub fn read_open_row<S: Alter + Drop>(
    lookup: &mut Lookup<S>,
    alloc: Global,
    viewer: &AgentName,
    day: Day,
    node: &Node,
) -> Result<Option<Row>, ReadError>
    ensures { ReadsIn S.Store lookup.old lookup.new result (λ r row.
        row ≡ open_at day node.now (visible viewer.now r.day r.members)) }
{
    let view = view_of(lookup, alloc, viewer, day)?;
    open_row(lookup, alloc, &view, node)
}
