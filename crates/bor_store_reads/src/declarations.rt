//! The rows of one declaration that a viewer sees.

ghost use Rattle.std.specs.Prelude.{◌≡◌, ◌++◌, ◌∷◌, [], if◌then◌else◌, false, filter, map, IfOk, MatchResult};
ghost use Rattle.std.specs.List.{flat_map};
ghost use Rattle.bor_register.specs.Register.{filings_of};
ghost use Rattle.bor_register.specs.Rows.{rows_of};
ghost use Rattle.bor_store_sql.specs.Rows.Placed.{bare, identifier_rows, interest_line, interest_rows, period_rows, AreApart};
ghost use Rattle.bor_store_sql.specs.Rows.Seen.{is_seen, row_placed};
ghost use Rattle.bor_store_sql.specs.Selected.{identifiers_at, in_declaration, interests_at, placed_of};
ghost use Rattle.bor_store_reads.specs.Answering.{IsNoDamage, ReadsIn};
ghost use Rattle.bor_store_reads.specs.Asking.{part_identifiers, part_interests, IsKnown};

use crate::fault::ReadError;
use crate::known::{Known, known_of};
use crate::register::read_day;
use crate::values::all_values;
use bor_records::Row;
use bor_store_sql::rows::{
    At, IdentifierRow, InterestLine, InterestRow, Part, PeriodRow, Placed, StatementRow, joined,
    with_periods,
};
use bor_store_sql::{
    identifiers_of_statement, interests_of_statement, periods_of_statement,
    statements_of_declaration,
};
use bor_terms::{AgentName, Day, Ident};
use sqlite::{Alter, Connection};
use std::alloc::Global;

// The rows of the declaration's statements, by filing and place.
fn statements<S: Alter>(
    conn: &mut Connection<S>,
    alloc: Global,
    agent: &AgentName,
    declaration: &Ident,
) -> Result<Vec<StatementRow>, ReadError>
    ensures { ReadsIn S.Store conn.old conn.new result (λ r rows.
        rows.items ≡ map bare (in_declaration declaration.now (placed_of agent.now r))) }
{
    all_values(
        alloc,
        statements_of_declaration(conn, agent.as_str(), declaration.as_str()),
    )
}

// The interests of the statement at this place, without their days.
fn lines_of_one<S: Alter>(
    conn: &mut Connection<S>,
    alloc: Global,
    at: &At,
) -> Result<Vec<InterestLine>, ReadError>
    ensures { ReadsIn S.Store conn.old conn.new result (λ r rows.
        rows.items ≡ map interest_line (interests_at at.now r.members)) }
{
    all_values(alloc, interests_of_statement(conn, at))
}

// The days of the interests of the statement at this place.
fn periods_of_one<S: Alter>(
    conn: &mut Connection<S>,
    alloc: Global,
    at: &At,
) -> Result<Vec<PeriodRow>, ReadError>
    ensures { ReadsIn S.Store conn.old conn.new result (λ r rows.
        rows.items ≡ flat_map period_rows (interests_at at.now r.members)) }
{
    all_values(alloc, periods_of_statement(conn, at))
}

/// The interests of the statement at this place.
pub fn interests_of_one<S: Alter>(
    conn: &mut Connection<S>,
    alloc: Global,
    at: &At,
) -> Result<Vec<InterestRow>, ReadError>
    ensures { ReadsIn S.Store conn.old conn.new result (λ r rows.
        rows.items ≡ interests_at at.now r.members) }
{
    let lines = lines_of_one(conn, alloc, at)?;
    let periods = periods_of_one(conn, alloc, at)?;
    Ok(with_periods(alloc, lines, periods.as_slice())?)
}

// The interests of the statement of this row. A relationship alone has any, so none are asked for
// of another.
fn interests_of_row<S: Alter>(
    conn: &mut Connection<S>,
    alloc: Global,
    row: &StatementRow,
) -> Result<Vec<InterestRow>, ReadError>
    ensures { ReadsIn S.Store conn.old conn.new result (λ r rows.
        rows.items ≡ part_interests row.now.part row.now.at r.members) }
{
    match row.part {
        Part::Entity { .. } => Ok(Vec::new(alloc)),
        Part::Person { .. } => Ok(Vec::new(alloc)),
        Part::Relationship { .. } => interests_of_one(conn, alloc, &row.at),
    }
}

// The interests of these statements, one statement after the other.
fn interests_of<S: Alter>(
    conn: &mut Connection<S>,
    alloc: Global,
    rows: &[StatementRow],
) -> Result<Vec<InterestRow>, ReadError>
    ensures { ReadsIn S.Store conn.old conn.new result (λ r interests.
        interests.items ≡ flat_map (λ row. part_interests row.part row.at r.members) rows.now) }
{
    let mut interests = Vec::new(alloc);
    for row in rows {
        let mut own = interests_of_row(conn, alloc, row)?;
        interests.append(&mut own)?;
    }
    Ok(interests)
}

/// The identifiers of the statement at this place.
pub fn identifiers_of_one<S: Alter>(
    conn: &mut Connection<S>,
    alloc: Global,
    at: &At,
) -> Result<Vec<IdentifierRow>, ReadError>
    ensures { ReadsIn S.Store conn.old conn.new result (λ r rows.
        rows.items ≡ identifiers_at at.now r.members) }
{
    all_values(alloc, identifiers_of_statement(conn, at))
}

// The identifiers of the statement of this row. An entity alone has any, so none are asked for of
// another.
fn identifiers_of_row<S: Alter>(
    conn: &mut Connection<S>,
    alloc: Global,
    row: &StatementRow,
) -> Result<Vec<IdentifierRow>, ReadError>
    ensures { ReadsIn S.Store conn.old conn.new result (λ r rows.
        rows.items ≡ part_identifiers row.now.part row.now.at r.members) }
{
    match row.part {
        Part::Entity { .. } => identifiers_of_one(conn, alloc, &row.at),
        Part::Person { .. } => Ok(Vec::new(alloc)),
        Part::Relationship { .. } => Ok(Vec::new(alloc)),
    }
}

// The identifiers of these statements, one statement after the other.
fn identifiers_of<S: Alter>(
    conn: &mut Connection<S>,
    alloc: Global,
    rows: &[StatementRow],
) -> Result<Vec<IdentifierRow>, ReadError>
    ensures { ReadsIn S.Store conn.old conn.new result (λ r identifiers.
        identifiers.items ≡ flat_map (λ row. part_identifiers row.part row.at r.members) rows.now) }
{
    let mut identifiers = Vec::new(alloc);
    for row in rows {
        let mut own = identifiers_of_row(conn, alloc, row)?;
        identifiers.append(&mut own)?;
    }
    Ok(identifiers)
}

// These statements with these interests, and with their identifiers.
fn with_identifiers<S: Alter>(
    conn: &mut Connection<S>,
    alloc: Global,
    statements: Vec<StatementRow>,
    interests_sorted: &[InterestRow],
) -> Result<Vec<Placed>, ReadError>
    ensures { ReadsIn S.Store conn.old conn.new result (λ r placed. (ps : _) → AreApart ps
        → statements.items ≡ map bare ps → interests_sorted.now ≡ flat_map interest_rows ps
        → flat_map (λ row. part_identifiers row.part row.at r.members) statements.items
        ≡ flat_map identifier_rows ps → placed.items ≡ ps) }
{
    let identifiers = identifiers_of(conn, alloc, statements.as_slice())?;
    Ok(joined(alloc, statements, interests_sorted, identifiers.as_slice())?)
}

// The declaration's live statements.
fn placed<S: Alter>(
    conn: &mut Connection<S>,
    alloc: Global,
    agent: &AgentName,
    declaration: &Ident,
) -> Result<Vec<Placed>, ReadError>
    ensures { ReadsIn S.Store conn.old conn.new result (λ r placed.
        placed.items ≡ in_declaration declaration.now (placed_of agent.now r)) }
{
    let statements = statements(conn, alloc, agent, declaration)?;
    let interests = interests_of(conn, alloc, statements.as_slice())?;
    with_identifiers(conn, alloc, statements, interests.as_slice())
}

// Adds the statement's row.
fn push_row(rows: &mut Vec<Row>, placed: Placed) -> Result<(), ReadError>
    ensures { MatchResult result (λ _. rows.new.items ≡ rows.old.items ++ row_placed placed ∷ [])
        IsNoDamage }
{
    Ok(rows.push(placed.into_row())?)
}

// Adds the statement's row where it is seen.
fn push_if(rows: &mut Vec<Row>, seen: bool, placed: Placed) -> Result<(), ReadError>
    ensures { MatchResult result (λ _. rows.new.items
        ≡ rows.old.items ++ (if seen then row_placed placed ∷ [] else [])) IsNoDamage }
{
    if seen {
        push_row(rows, placed)
    } else {
        drop(placed);
        Ok(())
    }
}

// Adds the row of a statement of the agent where the viewer sees it on a day, and tells what is
// known of its filing then.
fn push_seen<S: Alter>(
    conn: &mut Connection<S>,
    alloc: Global,
    viewer: &AgentName,
    agent: &AgentName,
    day: Day,
    last: Known,
    rows: &mut Vec<Row>,
    placed: Placed,
) -> Result<Known, ReadError>
    ensures number { IfOk result (λ known. known.number ≡ placed.at.filing) }
    ensures reads { ReadsIn S.Store conn.old conn.new result (λ r known.
        IsKnown viewer.now day agent.now (filings_of agent.now r.members) last
        → IsKnown viewer.now day agent.now (filings_of agent.now r.members) known) }
    ensures pushed { IfOk result (λ known. rows.new.items
        ≡ rows.old.items ++ (if known.seen then row_placed placed ∷ [] else [])) }
{
    match known_of(conn, alloc, viewer, agent, day, last, placed.at.filing) {
        Ok(known) => {
            push_if(rows, known.seen, placed)?;
            Ok(known)
        }
        Err(error) => {
            drop(placed);
            Err(error)
        }
    }
}

// The rows of these statements of the agent that the viewer sees on a day.
fn seen<S: Alter>(
    conn: &mut Connection<S>,
    alloc: Global,
    viewer: &AgentName,
    agent: &AgentName,
    day: Day,
    statements: Vec<Placed>,
) -> Result<Vec<Row>, ReadError>
    ensures { ReadsIn S.Store conn.old conn.new result (λ r rows.
        rows.items ≡ map row_placed
        (filter (is_seen viewer.now day agent.now
        (filings_of agent.now r.members)) statements.items)) }
{
    let mut rows = Vec::new(alloc);
    // Filings are numbered from 1 on.
    let mut known = Known {
        number: 0,
        seen: false,
    };
    for placed in statements {
        known = push_seen(conn, alloc, viewer, agent, day, known, &mut rows, placed)?;
    }
    Ok(rows)
}

/// The rows of a declaration of the agent that the viewer sees: of its own live filings, and of
/// another's published ones. They stand in order of acceptance and of place.
pub fn read_rows_of<S: Alter>(
    conn: &mut Connection<S>,
    alloc: Global,
    viewer: &AgentName,
    agent: &AgentName,
    declaration: &Ident,
) -> Result<Vec<Row>, ReadError>
    ensures { ReadsIn S.Store conn.old conn.new result (λ r rows.
        rows.items ≡ rows_of viewer.now r.day agent.now declaration.now
        (filings_of agent.now r.members)) }
{
    let day = read_day(conn, alloc)?;
    let statements = placed(conn, alloc, agent, declaration)?;
    seen(conn, alloc, viewer, agent, day, statements)
}
