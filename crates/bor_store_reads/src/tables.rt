//! Whole tables, whether there are more statements than a number, and the members of the register
//! that the tables are.

ghost use Rattle.std.specs.Prelude.{◌≡◌, ◌<◌, IfOk, MatchOption, length, map, nat_le, not};
ghost use Rattle.std.specs.List.{flat_map};
ghost use Rattle.sqlite.specs.Held.{state};
ghost use Rattle.bor_store_sql.specs.Rows.Placed.{agent_row, bare, filing_lines, identifier_rows, interest_rows, interest_line, period_rows, placed};
ghost use Rattle.bor_register.specs.Bare.{without_files};
ghost use Rattle.bor_store_sql.specs.Shown.{IsUp};
ghost use Rattle.bor_store_reads.specs.Answering.{ReadsIn};

use crate::fault::ReadError;
use crate::register::read_register;
use crate::values::{all_values, any};
use bor_register::Member;
use bor_store_sql::rows::{
    AgentRow, FilingRow, IdentifierRow, InterestLine, InterestRow, PeriodRow, Placed, StatementRow,
    joined, members_of, with_periods,
};
use bor_store_sql::{
    all_agents, all_filings, all_identifiers, all_interests, all_periods, all_statements,
    more_statements,
};
use bor_terms::{Day, Token};
use sqlite::{Alter, Connection};
use std::alloc::Global;

/// A register, each of its filings without its file.
#[derive(Drop)]
pub struct WholeRegister {
    /// Its day.
    pub day: Day,
    /// The registrar's token.
    pub registrar: Token,
    /// Its members, by name.
    pub members: Vec<Member>,
}

/// The rows of all agents, by name.
pub(crate) fn agents<S: Alter>(
    conn: &mut Connection<S>,
    alloc: Global,
) -> Result<Vec<AgentRow>, ReadError>
    ensures { ReadsIn S.Store conn.old conn.new result (λ r rows.
        rows.items ≡ map agent_row r.members) }
{
    all_values(alloc, all_agents(conn))
}

/// The rows of all filings without their files, by agent and number.
pub(crate) fn filings<S: Alter>(
    conn: &mut Connection<S>,
    alloc: Global,
) -> Result<Vec<FilingRow>, ReadError>
    ensures { ReadsIn S.Store conn.old conn.new result (λ r rows.
        rows.items ≡ filing_lines r.members) }
{
    all_values(alloc, all_filings(conn))
}

// The rows of all statements, by agent, filing and place.
fn statements<S: Alter>(
    conn: &mut Connection<S>,
    alloc: Global,
) -> Result<Vec<StatementRow>, ReadError>
    ensures { ReadsIn S.Store conn.old conn.new result (λ r rows.
        rows.items ≡ map bare (placed r.members)) }
{
    all_values(alloc, all_statements(conn))
}

// The rows of all interests without their days, by the place of their statement.
fn interest_lines<S: Alter>(
    conn: &mut Connection<S>,
    alloc: Global,
) -> Result<Vec<InterestLine>, ReadError>
    ensures { ReadsIn S.Store conn.old conn.new result (λ r rows.
        rows.items ≡ map interest_line (flat_map interest_rows (placed r.members))) }
{
    all_values(alloc, all_interests(conn))
}

// The rows of the days of all interests, by the place of their statement.
fn periods<S: Alter>(conn: &mut Connection<S>, alloc: Global) -> Result<Vec<PeriodRow>, ReadError>
    ensures { ReadsIn S.Store conn.old conn.new result (λ r rows.
        rows.items ≡ flat_map period_rows (flat_map interest_rows (placed r.members))) }
{
    all_values(alloc, all_periods(conn))
}

// All interests, by the place of their statement.
fn interests<S: Alter>(
    conn: &mut Connection<S>,
    alloc: Global,
) -> Result<Vec<InterestRow>, ReadError>
    ensures { ReadsIn S.Store conn.old conn.new result (λ r rows.
        rows.items ≡ flat_map interest_rows (placed r.members)) }
{
    let lines = interest_lines(conn, alloc)?;
    let periods = periods(conn, alloc)?;
    Ok(with_periods(alloc, lines, periods.as_slice())?)
}

// The rows of all identifiers, by the place of their statement.
fn identifiers<S: Alter>(
    conn: &mut Connection<S>,
    alloc: Global,
) -> Result<Vec<IdentifierRow>, ReadError>
    ensures { ReadsIn S.Store conn.old conn.new result (λ r rows.
        rows.items ≡ flat_map identifier_rows (placed r.members)) }
{
    all_values(alloc, all_identifiers(conn))
}

// All live statements, by agent, filing and place.
fn placed<S: Alter>(conn: &mut Connection<S>, alloc: Global) -> Result<Vec<Placed>, ReadError>
    ensures { ReadsIn S.Store conn.old conn.new result (λ r statements.
        statements.items ≡ placed r.members) }
{
    let statements = statements(conn, alloc)?;
    let interests = interests(conn, alloc)?;
    let identifiers = identifiers(conn, alloc)?;
    Ok(joined(
        alloc,
        statements,
        interests.as_slice(),
        identifiers.as_slice(),
    )?)
}

/// Whether there are more live statements than so many. Only a connection that is open answers, if
/// its disk has returned what was written.
pub fn has_more<S: Alter>(conn: &mut Connection<S>, most: u32) -> Result<bool, ReadError>
    ensures reads { ReadsIn S.Store conn.old conn.new result (λ r more.
        more ≡ not (nat_le (length (placed r.members)) most)) }
    ensures up { IfOk result (λ _. IsUp (state S.Store conn.new)) }
{
    any(more_statements(conn, most))
}

/// The members of the register, each filing without its file.
pub(crate) fn members<S: Alter>(
    conn: &mut Connection<S>,
    alloc: Global,
) -> Result<Vec<Member>, ReadError>
    ensures { ReadsIn S.Store conn.old conn.new result (λ r members.
        members.items ≡ without_files r.members) }
{
    let agents = agents(conn, alloc)?;
    let filings = filings(conn, alloc)?;
    let statements = placed(conn, alloc)?;
    Ok(members_of(
        alloc,
        agents.as_slice(),
        filings.as_slice(),
        statements.as_slice(),
    )?)
}

// The register, each filing without its file.
fn whole<S: Alter>(conn: &mut Connection<S>, alloc: Global) -> Result<WholeRegister, ReadError>
    ensures reads { ReadsIn S.Store conn.old conn.new result (λ r whole.
        (whole.day ≡ r.day) × (whole.registrar ≡ r.registrar) ×
        (whole.members.items ≡ without_files r.members)) }
    ensures up { IfOk result (λ _. IsUp (state S.Store conn.new)) }
{
    let row = read_register(conn, alloc)?;
    let members = members(conn, alloc)?;
    Ok(WholeRegister {
        day: row.day,
        registrar: row.registrar,
        members,
    })
}

/// The register, each filing without its file; `None` where it has more live statements than so
/// many. Only a connection that is open answers, if its disk has returned what was written.
pub fn read_whole<S: Alter>(
    conn: &mut Connection<S>,
    alloc: Global,
    most: u32,
) -> Result<Option<WholeRegister>, ReadError>
    ensures reads { ReadsIn S.Store conn.old conn.new result (λ r whole.
        MatchOption whole (most < length (placed r.members))
        (λ whole. (whole.day ≡ r.day) × (whole.registrar ≡ r.registrar) ×
        (whole.members.items ≡ without_files r.members))) }
    ensures up { IfOk result (λ _. IsUp (state S.Store conn.new)) }
{
    if has_more(conn, most)? {
        return Ok(None);
    }
    Ok(Some(whole(conn, alloc)?))
}
