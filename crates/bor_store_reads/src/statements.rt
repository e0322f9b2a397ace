//! An agent's live statements, by identifier and by record.

ghost use Rattle.std.specs.Prelude.{◌≡◌, option_map, slice_get};
ghost use Rattle.std.specs.List.{last_or};
ghost use Rattle.std.specs.Prelude.{None};
ghost use Rattle.bor_records.specs.Admission.{last_of};
ghost use Rattle.bor_records.specs.Settling.{has_id};
ghost use Rattle.bor_register.specs.Register.{filings_of};
ghost use Rattle.bor_register.specs.Live.{live_of};
ghost use Rattle.bor_store_sql.specs.Rows.Placed.{bare, filing_row};
ghost use Rattle.bor_store_sql.specs.Selected.{in_series, numbered, placed_of};
ghost use Rattle.bor_store_reads.specs.Answering.{ReadsIn};

use crate::fault::ReadError;
use crate::values::{any, first_value};
use bor_records::Last;
use bor_store_sql::rows::{FilingRow, StatementRow};
use bor_store_sql::{last_of_series, line_by_number, statement_by_id};
use bor_terms::{AgentName, Day, Ident};
use sqlite::{Alter, Connection};
use std::alloc::Global;

/// Whether a live statement of the agent has the identifier.
pub fn has_statement<S: Alter>(
    conn: &mut Connection<S>,
    agent: &AgentName,
    id: &Ident,
) -> Result<bool, ReadError>
    ensures { ReadsIn S.Store conn.old conn.new result (λ r has.
        has ≡ has_id id.now (live_of (filings_of agent.now r.members))) }
{
    any(statement_by_id(conn, agent.as_str(), id.as_str()))
}

/// The row of the record's last live statement.
pub(crate) fn found_statement<S: Alter>(
    conn: &mut Connection<S>,
    alloc: Global,
    agent: &AgentName,
    declaration: &Ident,
    rec: &Ident,
) -> Result<Option<StatementRow>, ReadError>
    ensures { ReadsIn S.Store conn.old conn.new result (λ r row.
        row ≡ option_map bare
        (last_or None (in_series declaration.now rec.now (placed_of agent.now r)))) }
{
    first_value(
        alloc,
        last_of_series(conn, agent.as_str(), declaration.as_str(), rec.as_str()),
    )
}

/// The row of the agent's filing with this number.
pub(crate) fn found_filing<S: Alter>(
    conn: &mut Connection<S>,
    alloc: Global,
    agent: &AgentName,
    number: u32,
) -> Result<Option<FilingRow>, ReadError>
    ensures { ReadsIn S.Store conn.old conn.new result (λ r row.
        row ≡ option_map (filing_row agent.now)
        (slice_get (numbered number (filings_of agent.now r.members)) 0)) }
{
    first_value(alloc, line_by_number(conn, agent.as_str(), number))
}

// The due day of the filing that was found.
fn due_of(found: Option<FilingRow>) -> Option<Day>
    ensures { result ≡ option_map (λ f. f.due) found }
{
    match found {
        Some(filing) => Some(filing.due),
        None => None,
    }
}

/// The record's last live statement, as far as the rules ask; `rec` is its identifier. `None` where
/// the record has none.
pub fn read_last<S: Alter>(
    conn: &mut Connection<S>,
    alloc: Global,
    agent: &AgentName,
    declaration: &Ident,
    rec: &Ident,
) -> Result<Option<Last>, ReadError>
    ensures { ReadsIn S.Store conn.old conn.new result (λ r last.
        last ≡ last_of declaration.now rec.now (live_of (filings_of agent.now r.members))) }
{
    let Some(row) = found_statement(conn, alloc, agent, declaration, rec)? else {
        return Ok(None);
    };
    match due_of(found_filing(conn, alloc, agent, row.at.filing)?) {
        Some(due) => Ok(Some(row.known(due))),
        None => Err(ReadError::Damaged),
    }
}
