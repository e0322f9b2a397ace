//! The statement that a record shows on a day: the latest that the viewer sees.

ghost use Rattle.std.specs.Prelude.{◌≡◌, false, filter, None, option_map};
ghost use Rattle.std.specs.List.{last_or};
ghost use Rattle.bor_records.specs.Links.Series.{open_at};
ghost use Rattle.bor_register.specs.Register.{filings_of};
ghost use Rattle.bor_store_reads.specs.Answering.{ReadsIn};
ghost use Rattle.bor_store_keys.specs.Latest.{bare_row, is_row_seen, stored_unless_closed};
ghost use Rattle.bor_store_keys.specs.Viewed.{rows_seen};

use crate::lookup::Lookup;
use crate::view::View;
use crate::views::is_filing_seen;
use bods_read::Status;
use bor_records::links::Node;
use bor_store_reads::ReadError;
use bor_store_sql::rows::StatementRow;
use bor_terms::AgentName;
use sqlite::Alter;
use std::alloc::Global;
use std::mem::drop;

// Whether the agent's statement is dated at or before the day, and seen by the viewer.
fn is_told<S: Alter + Drop>(
    lookup: &mut Lookup<S>,
    alloc: Global,
    view: &View,
    agent: &AgentName,
    row: &StatementRow,
) -> Result<bool, ReadError>
    ensures { ReadsIn S.Store lookup.old lookup.new result (λ r told.
        told ≡ is_row_seen view.now agent.now (filings_of agent.now r.members) row.now) }
{
    if view.day < row.day {
        return Ok(false);
    }
    is_filing_seen(lookup, alloc, view, agent, row.at.filing)
}

// The last of the agent's statements that the viewer sees, dated at or before the day.
fn last_told<S: Alter + Drop>(
    lookup: &mut Lookup<S>,
    alloc: Global,
    view: &View,
    agent: &AgentName,
    mut rows: Vec<StatementRow>,
) -> Result<Option<StatementRow>, ReadError>
    ensures { ReadsIn S.Store lookup.old lookup.new result (λ r last.
        last ≡ last_or None
        (filter (is_row_seen view.now agent.now (filings_of agent.now r.members)) rows.items)) }
{
    while let Some(row) = rows.last() {
        if is_told(lookup, alloc, view, agent, row)? {
            return Ok(rows.pop());
        }
        drop(rows.pop());
    }
    Ok(None)
}

fn unless_closed(row: StatementRow) -> Option<StatementRow>
    ensures { result ≡ stored_unless_closed row }
{
    if row.status == Some(Status::Closed) {
        None
    } else {
        Some(row)
    }
}

/// The row of the statement that a record shows: the latest one, where it isn't closed.
pub(crate) fn open_statement<S: Alter + Drop>(
    lookup: &mut Lookup<S>,
    alloc: Global,
    view: &View,
    node: &Node,
) -> Result<Option<StatementRow>, ReadError>
    ensures { ReadsIn S.Store lookup.old lookup.new result (λ r row.
        row ≡ option_map bare_row (open_at view.now.day node.now (rows_seen view.now r))) }
{
    let rows = lookup.series(alloc, node)?;
    match last_told(lookup, alloc, view, &node.agent, rows)? {
        Some(row) => Ok(unless_closed(row)),
        None => Ok(None),
    }
}
