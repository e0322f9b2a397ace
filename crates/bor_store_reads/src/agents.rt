//! Agents: by name, by token, and all of them with how much each has published.

ghost use Rattle.std.specs.Prelude.{◌≡◌, IfOk, map, option_map};
ghost use Rattle.sqlite.specs.Held.{state};
ghost use Rattle.bor_register.specs.Publication.{agent_line};
ghost use Rattle.bor_register.specs.Register.{agent_with, caller_of, is_enrolled};
ghost use Rattle.bor_store_sql.specs.Shown.{IsUp};
ghost use Rattle.bor_store_reads.specs.Answering.{ReadsIn};

use crate::fault::ReadError;
use crate::register::{read_day, read_register};
use crate::tables::{agents, filings};
use crate::values::{any, first_value};
use bor_register::{AgentLine, Caller};
use bor_store_sql::rows::{AgentRow, agent_lines};
use bor_store_sql::{agent_by_name, agent_by_token};
use bor_terms::{AgentName, Token};
use sqlite::{Alter, Connection};
use std::alloc::Global;

// The agent that has the token.
fn found_agent<S: Alter>(
    conn: &mut Connection<S>,
    alloc: Global,
    token: &Token,
) -> Result<Option<AgentRow>, ReadError>
    ensures { ReadsIn S.Store conn.old conn.new result (λ r agent.
        option_map (λ a. a.name) agent ≡ agent_with token.now r.members) }
{
    first_value(alloc, agent_by_token(conn, token.as_str()))
}

/// Who has the token; `None` where nobody has. Only a connection that is open answers, if its disk
/// has returned what was written.
pub fn read_who<S: Alter>(
    conn: &mut Connection<S>,
    alloc: Global,
    token: &Token,
) -> Result<Option<Caller>, ReadError>
    ensures reads { ReadsIn S.Store conn.old conn.new result (λ r caller.
        caller ≡ caller_of token.now r) }
    ensures up { IfOk result (λ _. IsUp (state S.Store conn.new)) }
{
    if read_register(conn, alloc)?.registrar == *token {
        return Ok(Some(Caller::Registrar));
    }
    match found_agent(conn, alloc, token)? {
        Some(agent) => Ok(Some(Caller::Agent(agent.name))),
        None => Ok(None),
    }
}

/// Whether an agent has the name.
pub fn has_agent<S: Alter>(conn: &mut Connection<S>, agent: &AgentName) -> Result<bool, ReadError>
    ensures { ReadsIn S.Store conn.old conn.new result (λ r has.
        has ≡ is_enrolled agent.now r.members) }
{
    any(agent_by_name(conn, agent.as_str()))
}

/// The agents by name, each with how many filings it has published. No statement is read, and no
/// file.
pub fn read_agents<S: Alter>(
    conn: &mut Connection<S>,
    alloc: Global,
) -> Result<Vec<AgentLine>, ReadError>
    ensures { ReadsIn S.Store conn.old conn.new result (λ r lines.
        lines.items ≡ map (agent_line r.day) r.members) }
{
    let day = read_day(conn, alloc)?;
    let agents = agents(conn, alloc)?;
    let filings = filings(conn, alloc)?;
    Ok(agent_lines(alloc, agents.as_slice(), filings.as_slice(), day)?)
}
