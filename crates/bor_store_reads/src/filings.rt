//! An agent's filings, by key and all of them.

ghost use Rattle.std.specs.Prelude.{◌≡◌, map, option_map, length, unwrap_or};
ghost use Rattle.bor_register.specs.Register.{filings_of, filing_keyed};
ghost use Rattle.bor_register.specs.Publication.{line_of, filing_shown, has_bytes};
ghost use Rattle.bor_store_sql.specs.Rows.Placed.{filing_row};
ghost use Rattle.bor_store_reads.specs.Answering.{ReadsIn};

use crate::fault::ReadError;
use crate::register::read_day;
use crate::values::{all_values, first_value, flag};
use bor_register::{Filing, FilingLine};
use bor_store_sql::rows::{FilingRow, lines_of};
use bor_store_sql::{filing_by_key, filings_of_agent, last_filing, line_by_key, same_bytes};
use bor_terms::{AgentName, LodgeKey};
use sqlite::{Alter, Connection};
use std::alloc::Global;

/// The agent's filing under a key, a withdrawn one too; `None` where it has lodged none under it.
pub fn read_filing<S: Alter>(
    conn: &mut Connection<S>,
    alloc: Global,
    agent: &AgentName,
    key: &LodgeKey,
) -> Result<Option<Filing>, ReadError>
    ensures { ReadsIn S.Store conn.old conn.new result (λ r filing.
        filing ≡ option_map filing_shown (filing_keyed key.now (filings_of agent.now r.members))) }
{
    first_value(alloc, filing_by_key(conn, agent.as_str(), key.as_str()))
}

// The row of the agent's filing under a key.
fn found_line<S: Alter>(
    conn: &mut Connection<S>,
    alloc: Global,
    agent: &AgentName,
    key: &LodgeKey,
) -> Result<Option<FilingRow>, ReadError>
    ensures { ReadsIn S.Store conn.old conn.new result (λ r row.
        row ≡ option_map (filing_row agent.now)
        (filing_keyed key.now (filings_of agent.now r.members))) }
{
    first_value(alloc, line_by_key(conn, agent.as_str(), key.as_str()))
}

/// The line of the agent's filing under a key, on the register's day; `None` where it has lodged
/// none under it.
#[tactic(auto, using(crate::proofs::FoundFilings::line_found))]
pub fn read_line<S: Alter>(
    conn: &mut Connection<S>,
    alloc: Global,
    agent: &AgentName,
    key: &LodgeKey,
) -> Result<Option<FilingLine>, ReadError>
    ensures { ReadsIn S.Store conn.old conn.new result (λ r line.
        line ≡ option_map (line_of r.day) (filing_keyed key.now (filings_of agent.now r.members))) }
{
    let day = read_day(conn, alloc)?;
    match found_line(conn, alloc, agent, key)? {
        Some(row) => Ok(Some(row.into_line(day))),
        None => Ok(None),
    }
}

/// Whether the agent has a filing under the key, withdrawn or not, whose file has these bytes.
pub fn has_file<S: Alter>(
    conn: &mut Connection<S>,
    agent: &AgentName,
    key: &LodgeKey,
    bytes: &[u8],
) -> Result<bool, ReadError>
    ensures { ReadsIn S.Store conn.old conn.new result (λ r has.
        has ≡ has_bytes bytes.now (filing_keyed key.now (filings_of agent.now r.members))) }
{
    flag(same_bytes(conn, agent.as_str(), key.as_str(), bytes))
}

// The agent's last filing.
fn found_last<S: Alter>(
    conn: &mut Connection<S>,
    alloc: Global,
    agent: &AgentName,
) -> Result<Option<FilingRow>, ReadError>
    ensures { ReadsIn S.Store conn.old conn.new result (λ r row.
        unwrap_or (option_map (λ f. f.number) row) 0 ≡ length (filings_of agent.now r.members)) }
{
    first_value(alloc, last_filing(conn, agent.as_str()))
}

// The number of the last filing; 0 where there is none.
fn number_of(last: Option<FilingRow>) -> usize
    ensures { result ≡ unwrap_or (option_map (λ f. f.number) last) 0 }
{
    match last {
        Some(row) => row.number as usize,
        None => 0,
    }
}

/// How many filings the agent has, withdrawn ones included: the number of the last one.
pub fn filing_count<S: Alter>(
    conn: &mut Connection<S>,
    alloc: Global,
    agent: &AgentName,
) -> Result<usize, ReadError>
    ensures { ReadsIn S.Store conn.old conn.new result (λ r count.
        count ≡ length (filings_of agent.now r.members)) }
{
    let last = found_last(conn, alloc, agent)?;
    Ok(number_of(last))
}

// The rows of the agent's filings, by number.
fn found_lines<S: Alter>(
    conn: &mut Connection<S>,
    alloc: Global,
    agent: &AgentName,
) -> Result<Vec<FilingRow>, ReadError>
    ensures { ReadsIn S.Store conn.old conn.new result (λ r rows.
        rows.items ≡ map (filing_row agent.now) (filings_of agent.now r.members)) }
{
    all_values(alloc, filings_of_agent(conn, agent.as_str()))
}

/// The lines of the agent's filings on the register's day, by number.
pub fn read_filings<S: Alter>(
    conn: &mut Connection<S>,
    alloc: Global,
    agent: &AgentName,
) -> Result<Vec<FilingLine>, ReadError>
    ensures { ReadsIn S.Store conn.old conn.new result (λ r lines.
        lines.items ≡ map (line_of r.day) (filings_of agent.now r.members)) }
{
    let day = read_day(conn, alloc)?;
    let rows = found_lines(conn, alloc, agent)?;
    Ok(lines_of(alloc, rows, day)?)
}
