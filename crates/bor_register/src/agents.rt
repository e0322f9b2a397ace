//! The agents as the registrar sees them.

ghost use Rattle.std.specs.Prelude.{◌≡◌, IfOk, map};
ghost use Rattle.bor_register.specs.Publication.{agent_line, published_count};

use crate::filing::AcceptedFiling;
use crate::member::Member;
use bor_terms::{AgentName, Day};
use std::alloc::{AllocError, Global};

/// A line of the registrar's list of agents.
#[derive(Drop)]
pub struct AgentLine {
    /// The agent's name.
    pub agent: AgentName,
    /// How many filings it has published; drafts and withdrawn ones aren't counted.
    pub published: usize,
}

/// How many of an agent's filings are published on a day.
fn published_count(filings: &[AcceptedFiling], day: Day) -> usize
    ensures { result ≡ published_count day filings.now }
{
    filings
        .iter()
        .filter(|filing| filing.is_published(day))
        .count()
}

// An agent's line on a day.
fn agent_line(alloc: Global, member: &Member, day: Day) -> Result<AgentLine, AllocError>
    ensures { IfOk result (λ line. line ≡ agent_line day member.now) }
{
    Ok(AgentLine {
        agent: member.name.copy(alloc)?,
        published: published_count(member.filings.as_slice(), day),
    })
}

/// The lines of all agents on a day, by name.
pub fn all_agents(alloc: Global, members: &[Member], day: Day) -> Result<Vec<AgentLine>, AllocError>
    ensures { IfOk result (λ lines. lines.items ≡ map (agent_line day) members.now) }
{
    let mut lines = Vec::new(alloc);
    for member in members {
        lines.push(agent_line(alloc, member, day)?)?;
    }
    Ok(lines)
}
