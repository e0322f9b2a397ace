//! The rows of statements that a viewer sees.

ghost use Rattle.std.specs.Prelude.{◌≡◌, ◌++◌, option_map, OnOk, IfOk};
ghost use Rattle.bor_register.specs.Rows.{is_asked, asked_rows, row_of, rows_from, visible_in, rows_of, visible};

use crate::filing::AcceptedFiling;
use crate::member::Member;
use bods_read::{Statement, Status};
use bor_records::Row;
use bor_terms::{AgentName, Day, Ident};
use std::alloc::{AllocError, Global};

/// The row of an agent's statement, which stands at this place of the filing, counted from 1.
pub(crate) fn row_of(
    alloc: Global,
    agent: &AgentName,
    filing: u32,
    place: usize,
    statement: &Statement,
) -> Result<Row, AllocError>
    ensures { IfOk result (λ row. row ≡ row_of agent.now filing place statement.now) }
{
    Ok(Row {
        agent: agent.copy(alloc)?,
        filing,
        place,
        status: statement.status.unwrap_or(Status::New),
        statement: statement.copy(alloc)?,
    })
}

fn is_asked(declaration: Option<&Ident>, statement: &Statement) -> bool
    ensures { result ≡ is_asked (option_map (λ d. d.now) declaration.entry) statement.now }
{
    match declaration {
        Some(declaration) => statement.declaration == *declaration,
        None => true,
    }
}

// Adds the rows of a filing's statements of a declaration, or of all.
#[tactic(auto, using(crate::proofs::SeenRows::more_rows))]
fn add_rows(
    alloc: Global,
    rows: &mut Vec<Row>,
    agent: &AgentName,
    filing: &AcceptedFiling,
    declaration: Option<&Ident>,
) -> Result<(), AllocError>
    ensures { OnOk result (rows.new.items ≡ rows.old.items
        ++ asked_rows (option_map (λ d. d.now) declaration.entry)
        (rows_from agent.now filing.now.number 1 filing.now.statements)) }
{
    for (i, statement) in filing.statements.as_slice().iter().enumerate() {
        if is_asked(declaration, statement) {
            rows.push(row_of(alloc, agent, filing.number, i + 1, statement)?)?;
        }
    }
    Ok(())
}

// Adds the rows of an agent's filings that the viewer sees, of a declaration or of all.
fn add_visible(
    alloc: Global,
    rows: &mut Vec<Row>,
    viewer: &AgentName,
    day: Day,
    agent: &AgentName,
    filings: &[AcceptedFiling],
    declaration: Option<&Ident>,
) -> Result<(), AllocError>
    ensures { OnOk result (rows.new.items ≡ rows.old.items
        ++ asked_rows (option_map (λ d. d.now) declaration.entry)
        (visible_in viewer.now day agent.now filings.now)) }
{
    for filing in filings {
        if filing.is_visible(viewer, agent, day) {
            add_rows(alloc, rows, agent, filing, declaration)?;
        }
    }
    Ok(())
}

/// The rows of a declaration of the agent that the viewer sees on a day, by the agent's filings: of
/// its own live ones, and of another's published ones. They stand in order of acceptance and of
/// place.
pub fn rows_seen(
    alloc: Global,
    viewer: &AgentName,
    day: Day,
    agent: &AgentName,
    declaration: &Ident,
    filings: &[AcceptedFiling],
) -> Result<Vec<Row>, AllocError>
    ensures { IfOk result (λ rows.
        rows.items ≡ rows_of viewer.now day agent.now declaration.now filings.now) }
{
    let mut rows = Vec::new(alloc);
    add_visible(
        alloc,
        &mut rows,
        viewer,
        day,
        agent,
        filings,
        Some(declaration),
    )?;
    Ok(rows)
}

/// The rows of all agents that the viewer sees on a day: by agent, then in order of acceptance and
/// of place. A viewer that isn't among the members sees what is published.
pub fn all_visible(
    alloc: Global,
    viewer: &AgentName,
    day: Day,
    members: &[Member],
) -> Result<Vec<Row>, AllocError>
    ensures { IfOk result (λ rows. rows.items ≡ visible viewer.now day members.now) }
{
    let mut rows = Vec::new(alloc);
    for member in members {
        let filings = member.filings.as_slice();
        add_visible(alloc, &mut rows, viewer, day, &member.name, filings, None)?;
    }
    Ok(rows)
}
