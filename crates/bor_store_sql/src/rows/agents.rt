//! The registrar's lines of agents, from the rows of their filings.

ghost use Rattle.std.specs.Prelude.{◌≡◌, List, IfOk, map, filter, length};
ghost use Rattle.bor_register.specs.declared.member.Member.{Member};
ghost use Rattle.bor_register.specs.Publication.{agent_line};
ghost use Rattle.bor_register.specs.Register.{IsOrdered};
ghost use Rattle.bor_store_sql.specs.Rows.Placed.{agent_row, filing_lines};
ghost use Rattle.bor_store_sql.specs.Rows.Seen.{is_line_published};

use crate::rows::members::split_filings;
use crate::rows::typed::{AgentRow, FilingRow};
use bor_register::AgentLine;
use bor_terms::Day;
use std::alloc::{AllocError, Global};

/// The lines of the agents whose rows these are, on a day. The rows are sorted by their keys.
pub fn agent_lines(
    alloc: Global,
    agents: &[AgentRow],
    filings: &[FilingRow],
    day: Day,
) -> Result<Vec<AgentLine>, AllocError>
    ensures { IfOk result (λ lines.
        (ms : List Member) → IsOrdered ms → agents.now ≡ map agent_row ms
        → filings.now ≡ filing_lines ms → lines.items ≡ map (agent_line day) ms) }
{
    let mut lines = Vec::new(alloc);
    let mut filings_left = filings;
    for agent in agents {
        let (own_filings, more_filings) = split_filings(filings_left, &agent.name);
        filings_left = more_filings;
        lines.push(AgentLine {
            agent: agent.name.copy(alloc)?,
            published: published_count(own_filings, day),
        })?;
    }
    Ok(lines)
}

// How many of these filings are published on a day.
fn published_count(filings: &[FilingRow], day: Day) -> usize
    ensures { result ≡ length (filter (is_line_published day) filings.now) }
{
    filings
        .iter()
        .filter(|filing| filing.is_published(day))
        .count()
}
