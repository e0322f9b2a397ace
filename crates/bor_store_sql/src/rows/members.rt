//! The members of a register from the rows of its tables, without their files.

ghost use Rattle.std.specs.Prelude.{◌≡◌, ◌++◌, ℕ, List, [], IfOk, map, true, false, ◌==◌};
ghost use Rattle.std.specs.List.{AllByRecursion};
ghost use Rattle.bor_terms.specs.Texts.{is_same};
ghost use Rattle.bor_register.specs.Register.{IsOrdered};
ghost use Rattle.bor_store_sql.specs.Rows.Placed.{agent_row, filing_row, filing_lines, placed, placed_by};
ghost use Rattle.bor_register.specs.Bare.{without_file, without_files, member_without_files};
ghost use Rattle.bor_store_sql.specs.Rows.Stored.{AreNumbered, AllNumbered};

use crate::rows::split::split_own;
use crate::rows::typed::{AgentRow, FilingRow, Placed};
use bods_read::Statement;
use bor_register::{AcceptedFiling, Member};
use bor_terms::{AgentName, Listed};
use std::alloc::{AllocError, Global};

/// The members whose rows these are, all sorted by their keys. Each filing is without its file.
pub fn members_of(
    alloc: Global,
    agents: &[AgentRow],
    filings: &[FilingRow],
    statements: &[Placed],
) -> Result<Vec<Member>, AllocError>
    ensures { IfOk result (λ members.
        (ms : List Member) → IsOrdered ms → AllNumbered ms → agents.now ≡ map agent_row ms
        → filings.now ≡ filing_lines ms → statements.now ≡ placed ms
        → members.items ≡ without_files ms) }
{
    let mut members = Vec::new(alloc);
    let mut filings_left = filings;
    let mut statements_left = statements;
    for agent in agents {
        let (own_filings, more_filings) = split_filings(filings_left, &agent.name);
        let (own_statements, more_statements) = split_agent(statements_left, &agent.name);
        filings_left = more_filings;
        statements_left = more_statements;
        let made = member(alloc, agent, own_filings, own_statements)?;
        members.push(made)?;
    }
    Ok(members)
}

fn member(
    alloc: Global,
    agent: &AgentRow,
    filings: &[FilingRow],
    statements: &[Placed],
) -> Result<Member, AllocError>
    ensures { IfOk result (λ member.
        (m : Member) → AreNumbered 1 m.filings → agent.now ≡ agent_row m
        → filings.now ≡ map (filing_row m.name) m.filings
        → statements.now ≡ placed_by m.name m.filings
        → member ≡ member_without_files m) }
{
    Ok(Member {
        name: agent.name.copy(alloc)?,
        token: agent.token.copy(alloc)?,
        filings: Listed::new(filings_of(alloc, filings, statements)?),
    })
}

// The filings of an agent, from rows that are its own.
fn filings_of(
    alloc: Global,
    filings: &[FilingRow],
    statements: &[Placed],
) -> Result<Vec<AcceptedFiling>, AllocError>
    ensures { IfOk result (λ own. (agent : List ℕ) (fs : List AcceptedFiling) → AreNumbered 1 fs
        → filings.now ≡ map (filing_row agent) fs → statements.now ≡ placed_by agent fs
        → own.items ≡ map without_file fs) }
{
    let mut own = Vec::new(alloc);
    let mut statements_left = statements;
    for filing in filings {
        let (own_statements, more_statements) = split_filing(statements_left, filing.number);
        statements_left = more_statements;
        let made = filing_with(alloc, filing, own_statements)?;
        own.push(made)?;
    }
    Ok(own)
}

fn filing_with(
    alloc: Global,
    filing: &FilingRow,
    statements: &[Placed],
) -> Result<AcceptedFiling, AllocError>
    ensures { IfOk result (λ f. f ≡ record {
      number = filing.now.number;
      key = filing.now.key;
      due = filing.now.due;
      withdrawn = filing.now.withdrawn;
      bytes = [];
      statements = map (λ p. p.statement) statements.now;
    }) }
{
    Ok(AcceptedFiling {
        number: filing.number,
        key: filing.key.copy(alloc)?,
        due: filing.due,
        withdrawn: filing.withdrawn,
        bytes: Listed::new(Vec::new(alloc)),
        statements: Listed::new(copied(alloc, statements)?),
    })
}

fn copied(alloc: Global, statements: &[Placed]) -> Result<Vec<Statement>, AllocError>
    ensures { IfOk result (λ copied. copied.items ≡ map (λ p. p.statement) statements.now) }
{
    let mut copied = Vec::new(alloc);
    for placed in statements {
        copied.push(placed.statement.copy(alloc)?)?;
    }
    Ok(copied)
}

/// The filings of an agent, and those that follow, where none of them is its own.
pub(crate) fn split_filings<'a>(
    rows: &'a [FilingRow],
    agent: &AgentName,
) -> (&'a [FilingRow], &'a [FilingRow])
    ensures { (mine more : _) → rows.now ≡ mine ++ more
        → AllByRecursion (λ row. is_same row.agent agent.now ≡ true) mine
        → AllByRecursion (λ row. is_same row.agent agent.now ≡ false) more
        → (result.0.now ≡ mine) × (result.1.now ≡ more) }
{
    split_own(rows, |row| row.agent == *agent)
}

fn split_agent<'a>(rows: &'a [Placed], agent: &AgentName) -> (&'a [Placed], &'a [Placed])
    ensures { (mine more : _) → rows.now ≡ mine ++ more
        → AllByRecursion (λ row. is_same row.at.agent agent.now ≡ true) mine
        → AllByRecursion (λ row. is_same row.at.agent agent.now ≡ false) more
        → (result.0.now ≡ mine) × (result.1.now ≡ more) }
{
    split_own(rows, |row| row.at.agent == *agent)
}

fn split_filing<'a>(rows: &'a [Placed], number: u32) -> (&'a [Placed], &'a [Placed])
    ensures { (mine more : _) → rows.now ≡ mine ++ more
        → AllByRecursion (λ row. (row.at.filing == number) ≡ true) mine
        → AllByRecursion (λ row. (row.at.filing == number) ≡ false) more
        → (result.0.now ≡ mine) × (result.1.now ≡ more) }
{
    split_own(rows, |row| row.at.filing == number)
}
