//! The records of statements that are found by what they name.

ghost use Rattle.std.specs.Prelude.{◌≡◌, IfOk, map};
ghost use Rattle.std.specs.List.{filter_map};
ghost use Rattle.bor_store_sql.specs.Rows.Placed.{placed};
ghost use Rattle.bor_store_sql.specs.Selected.{in_record, placed_of, with_subject};
ghost use Rattle.bor_store_reads.specs.Answering.{ReadsIn};
ghost use Rattle.bor_store_keys.specs.Recorded.{CoverRecords, record_at};
ghost use Rattle.bor_store_keys.specs.Signed.{record_standing, with_identifier, with_sign};

use crate::lookup::Lookup;
use bor_records::links::{Node, Sign, once, push_some};
use bor_store_reads::ReadError;
use bor_store_sql::rows::{At, IdentifierRow, StatementRow};
use sqlite::Alter;
use std::alloc::{AllocError, Global};

// The record that a statement is of.
fn record_at(row: StatementRow) -> Node
    ensures { result ≡ record_at row }
{
    Node {
        agent: row.at.agent,
        declaration: row.declaration,
        rec: row.rec,
    }
}

// The records that these statements are of.
fn records_at(alloc: Global, rows: Vec<StatementRow>) -> Result<Vec<Node>, AllocError>
    ensures { IfOk result (λ nodes. nodes.items ≡ map record_at rows.items) }
{
    rows.into_iter().map(|row| record_at(row)).collect(alloc)
}

/// The records of the statements that name this record as their subject, some maybe more than once.
pub(crate) fn records_into<S: Alter + Drop>(
    lookup: &mut Lookup<S>,
    alloc: Global,
    node: &Node,
) -> Result<Vec<Node>, ReadError>
    ensures { ReadsIn S.Store lookup.old lookup.new result (λ r records.
        CoverRecords
        (with_subject node.now.declaration node.now.rec
        (placed_of node.now.agent r)) records.items) }
{
    let rows = lookup.naming(alloc, node)?;
    Ok(records_at(alloc, rows)?)
}

// The record of the statement at this place, as the tables have it.
fn record_read<S: Alter + Drop>(
    lookup: &mut Lookup<S>,
    alloc: Global,
    at: &At,
) -> Result<Option<Node>, ReadError>
    ensures { ReadsIn S.Store lookup.old lookup.new result (λ r one.
        one ≡ record_standing r.members at.now) }
{
    match lookup.standing(alloc, at)? {
        Some(row) => Ok(Some(record_at(row))),
        None => Ok(None),
    }
}

// The record of the statement at this place, which is read of the tables where it wasn't found yet.
fn record_standing<S: Alter + Drop>(
    lookup: &mut Lookup<S>,
    alloc: Global,
    at: &At,
) -> Result<Option<Node>, ReadError>
    ensures { ReadsIn S.Store lookup.old lookup.new result (λ r one.
        one ≡ record_standing r.members at.now) }
{
    match lookup.placed(alloc, at)? {
        Some(node) => Ok(Some(node)),
        None => record_read(lookup, alloc, at),
    }
}

// The records of the statements that have these identifiers.
fn records_standing<S: Alter + Drop>(
    lookup: &mut Lookup<S>,
    alloc: Global,
    rows: &[IdentifierRow],
) -> Result<Vec<Node>, ReadError>
    ensures { ReadsIn S.Store lookup.old lookup.new result (λ r records.
        records.items ≡ filter_map (λ row. record_standing r.members row.at) rows.now) }
{
    let mut records = Vec::new(alloc);
    for row in rows {
        let one = record_standing(lookup, alloc, &row.at)?;
        push_some(&mut records, one)?;
    }
    Ok(records)
}

// The records of the statements that have this identifier of the scheme, each once.
fn records_identified<S: Alter + Drop>(
    lookup: &mut Lookup<S>,
    alloc: Global,
    scheme: &str,
    id: &str,
) -> Result<Vec<Node>, ReadError>
    ensures { ReadsIn S.Store lookup.old lookup.new result (λ r records.
        CoverRecords (with_identifier scheme.now id.now (placed r.members)) records.items) }
{
    let rows = lookup.identified(alloc, scheme, id)?;
    let records = records_standing(lookup, alloc, &rows)?;
    Ok(once(records)?)
}

// The records of the agent with this identifier, of whatever declaration, each once.
fn records_named<S: Alter + Drop>(
    lookup: &mut Lookup<S>,
    alloc: Global,
    agent: &str,
    rec: &str,
) -> Result<Vec<Node>, ReadError>
    ensures { ReadsIn S.Store lookup.old lookup.new result (λ r records.
        CoverRecords (in_record rec.now (placed_of agent.now r)) records.items) }
{
    let rows = lookup.recorded(alloc, agent, rec)?;
    let records = records_at(alloc, rows)?;
    Ok(once(records)?)
}

/// The records whose statements have a sign, each once.
pub(crate) fn records_with<S: Alter + Drop>(
    lookup: &mut Lookup<S>,
    alloc: Global,
    sign: &Sign,
) -> Result<Vec<Node>, ReadError>
    ensures { ReadsIn S.Store lookup.old lookup.new result (λ r records.
        CoverRecords (with_sign sign.now r) records.items) }
{
    if sign.of_record {
        records_named(lookup, alloc, sign.group.as_str(), sign.name.as_str())
    } else {
        records_identified(lookup, alloc, sign.group.as_str(), sign.name.as_str())
    }
}
