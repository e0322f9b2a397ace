//! Which filings of an agent a viewer sees. The one that was asked for last isn't asked for again.

ghost use Rattle.std.specs.Prelude.{◌≡◌, false, option_map, unwrap_or, IfOk};
ghost use Rattle.bor_register.specs.Register.{filings_of};
ghost use Rattle.bor_store_sql.specs.Rows.Seen.{is_line_visible};
ghost use Rattle.bor_store_reads.specs.Answering.{ReadsIn};
ghost use Rattle.bor_store_reads.specs.Asking.{is_number_seen, IsKnown};

use crate::fault::ReadError;
use crate::statements::found_filing;
use bor_store_sql::rows::FilingRow;
use bor_terms::{AgentName, Day};
use sqlite::{Alter, Connection};
use std::alloc::Global;

/// Whether a viewer sees the filing with this number.
#[derive(Clone, Copy)]
pub(crate) struct Known {
    pub(crate) number: u32,
    pub(crate) seen: bool,
}

// Whether the viewer sees the filing that was found, if any, on a day.
fn is_found_visible(found: Option<FilingRow>, viewer: &AgentName, day: Day) -> bool
    ensures { result ≡ unwrap_or (option_map (is_line_visible viewer.now day) found) false }
{
    match found {
        Some(filing) => filing.is_visible(viewer, day),
        None => false,
    }
}

/// Whether the viewer sees the agent's filing with this number, on a day.
pub fn is_number_seen<S: Alter>(
    conn: &mut Connection<S>,
    alloc: Global,
    viewer: &AgentName,
    agent: &AgentName,
    day: Day,
    number: u32,
) -> Result<bool, ReadError>
    ensures { ReadsIn S.Store conn.old conn.new result (λ r seen.
        seen ≡ is_number_seen viewer.now day agent.now (filings_of agent.now r.members) number) }
{
    let found = found_filing(conn, alloc, agent, number)?;
    Ok(is_found_visible(found, viewer, day))
}

/// The same, where one filing is known already.
pub(crate) fn known_of<S: Alter>(
    conn: &mut Connection<S>,
    alloc: Global,
    viewer: &AgentName,
    agent: &AgentName,
    day: Day,
    last: Known,
    number: u32,
) -> Result<Known, ReadError>
    ensures number { IfOk result (λ known. known.number ≡ number) }
    ensures reads { ReadsIn S.Store conn.old conn.new result (λ r known.
        IsKnown viewer.now day agent.now (filings_of agent.now r.members) last
        → IsKnown viewer.now day agent.now (filings_of agent.now r.members) known) }
{
    if last.number == number {
        return Ok(last);
    }
    let seen = is_number_seen(conn, alloc, viewer, agent, day, number)?;
    Ok(Known { number, seen })
}
