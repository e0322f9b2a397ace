//! Whether a filing has a successor.

ghost use Rattle.std.specs.Prelude.{◌≡◌, false, map, None};
ghost use Rattle.std.specs.List.{last_or, list_any};
ghost use Rattle.bor_register.specs.Register.{filings_of};
ghost use Rattle.bor_register.specs.Withdrawal.{has_successor};
ghost use Rattle.bor_store_sql.specs.Rows.Placed.{bare};
ghost use Rattle.bor_store_sql.specs.Rows.Seen.{is_later};
ghost use Rattle.bor_store_sql.specs.Selected.{in_filing, in_series, placed_of};
ghost use Rattle.bor_store_reads.specs.Answering.{ReadsIn};

use crate::fault::ReadError;
use crate::statements::found_statement;
use crate::values::all_values;
use bor_store_sql::rows::StatementRow;
use bor_store_sql::statements_of_filing;
use bor_terms::AgentName;
use sqlite::{Alter, Connection};
use std::alloc::Global;

// The rows of the live statements of the agent's filing with this number.
fn found_statements<S: Alter>(
    conn: &mut Connection<S>,
    alloc: Global,
    agent: &AgentName,
    number: u32,
) -> Result<Vec<StatementRow>, ReadError>
    ensures { ReadsIn S.Store conn.old conn.new result (λ r rows.
        rows.items ≡ map bare (in_filing number (placed_of agent.now r))) }
{
    all_values(alloc, statements_of_filing(conn, agent.as_str(), number))
}

// Whether the last statement of this one's record stands in a filing after the one with this
// number.
fn is_followed<S: Alter>(
    conn: &mut Connection<S>,
    alloc: Global,
    agent: &AgentName,
    number: u32,
    row: &StatementRow,
) -> Result<bool, ReadError>
    ensures { ReadsIn S.Store conn.old conn.new result (λ r followed.
        followed ≡ is_later number
        (last_or None (in_series row.now.declaration row.now.rec (placed_of agent.now r)))) }
{
    match found_statement(conn, alloc, agent, &row.declaration, &row.rec)? {
        Some(last) => Ok(number < last.at.filing),
        None => Ok(false),
    }
}

// Whether that is so of one of these statements.
fn any_followed<S: Alter>(
    conn: &mut Connection<S>,
    alloc: Global,
    agent: &AgentName,
    number: u32,
    rows: &[StatementRow],
) -> Result<bool, ReadError>
    ensures { ReadsIn S.Store conn.old conn.new result (λ r any.
        any ≡ list_any
        (λ row. is_later number
        (last_or None (in_series row.declaration row.rec (placed_of agent.now r)))) rows.now) }
{
    for row in rows {
        if is_followed(conn, alloc, agent, number, row)? {
            return Ok(true);
        }
    }
    Ok(false)
}

/// Whether a filing of the agent that was accepted after the one with this number has a live
/// statement of one of its records. `false` where the agent has no such filing, and where that one
/// is withdrawn: its statements are gone.
pub fn has_successor<S: Alter>(
    conn: &mut Connection<S>,
    alloc: Global,
    agent: &AgentName,
    number: u32,
) -> Result<bool, ReadError>
    ensures { ReadsIn S.Store conn.old conn.new result (λ r has.
        has ≡ has_successor number (filings_of agent.now r.members)) }
{
    let rows = found_statements(conn, alloc, agent, number)?;
    any_followed(conn, alloc, agent, number, rows.as_slice())
}
