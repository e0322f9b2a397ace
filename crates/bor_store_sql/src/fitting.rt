//! Comparing the statements of a file with those that the tables have of its filing.

ghost use Rattle.std.specs.Prelude.{◌≡◌, ◌↔◌, false, map, IsTrue, IfOk};
ghost use Rattle.bor_store_sql.specs.Rows.Placed.{interests_from, identifiers_from};
ghost use Rattle.bor_store_sql.specs.Rows.Encoding.{interest_columns, identifier_columns};
ghost use Rattle.bor_store_sql.specs.Fitting.{Pairwise, Fit, statements_kept, TellsOf, IsRowOf, HasListsOf, IsKept};
ghost use Rattle.bor_store_sql.specs.Selected.{interests_at, identifiers_at};

use crate::additions::{identifiers, interests};
use crate::columns::{STATUS, is_row, statement_values};
use crate::items::{are_items, next_number};
use crate::keyed::{identifiers_of_statement, interests_of_statement, statements_of_filing};
use crate::rows::{At, FilingKey, value_at};
use bods_read::{Identifier, Interest, Statement};
use sqlite::{Alter, Connection, Error, Row};

// Whether a row is that of the statement at this place. Where the statement says no status, a row
// of any status is.
fn is_statement<'a>(row: &'a Row, at: &'a At, statement: &'a Statement) -> bool
    ensures { IsTrue result ↔ IsRowOf row.now (record { at = at.now; statement = statement.now }) }
{
    let mut values = statement_values(at, statement);
    if statement.status.is_none() {
        values[STATUS] = value_at(row, STATUS);
    }
    is_row(row, &values)
}

// Whether the tables have these interests, and no others, at the statement's place.
fn keeps_interests<S: Alter>(
    conn: &mut Connection<S>,
    at: &At,
    interests: &[Interest],
) -> Result<bool, Error>
    ensures { TellsOf S.Store conn.old conn.new result (λ r.
        map interest_columns (interests_from at.now 1 interests.now)
        ≡ map interest_columns (interests_at at.now r.members)) }
{
    let rows = interests_of_statement(conn, at)?;
    are_items(rows.as_slice(), at, interests)
}

// Whether the tables have these identifiers, and no others, at the statement's place.
fn keeps_identifiers<S: Alter>(
    conn: &mut Connection<S>,
    at: &At,
    identifiers: &[Identifier],
) -> Result<bool, Error>
    ensures { TellsOf S.Store conn.old conn.new result (λ r.
        map identifier_columns (identifiers_from at.now 1 identifiers.now)
        ≡ map identifier_columns (identifiers_at at.now r.members)) }
{
    let rows = identifiers_of_statement(conn, at)?;
    are_items(rows.as_slice(), at, identifiers)
}

// Whether the tables have the interests and the identifiers of the statement, at its place.
fn keeps_lists<S: Alter>(
    conn: &mut Connection<S>,
    at: &At,
    statement: &Statement,
) -> Result<bool, Error>
    ensures { TellsOf S.Store conn.old conn.new result (λ r.
        HasListsOf (record { at = at.now; statement = statement.now }) r.members) }
{
    let details = &statement.details;
    if !keeps_interests(conn, at, interests(details))? {
        return Ok(false);
    }
    keeps_identifiers(conn, at, identifiers(details))
}

// Whether the row is that of the statement at this place, and the tables have its lists.
fn keeps_statement<S: Alter>(
    conn: &mut Connection<S>,
    row: &Row,
    at: &At,
    statement: &Statement,
) -> Result<bool, Error>
    ensures { TellsOf S.Store conn.old conn.new result (λ r.
        IsKept at.now.agent at.now.filing r.members at.now.place statement.now row.now) }
{
    if !is_statement(row, at, statement) {
        return Ok(false);
    }
    keeps_lists(conn, at, statement)
}

// Whether these rows are those of the statements, by place, and the tables have their lists.
fn keeps_rows<S: Alter>(
    conn: &mut Connection<S>,
    rows: &[Row],
    filing: FilingKey,
    statements: &[Statement],
) -> Result<bool, Error>
    ensures { TellsOf S.Store conn.old conn.new result (λ r.
        Pairwise (IsKept filing.agent filing.number r.members) 1 statements.now rows.now) }
{
    if rows.len() != statements.len() {
        return Ok(false);
    }
    let mut at = filing.start();
    for (index, statement) in statements.iter().enumerate() {
        at.place = next_number(at.place)?;
        if !keeps_statement(conn, &rows[index], &at, statement)? {
            return Ok(false);
        }
    }
    Ok(true)
}

/// Whether the tables, of either version, have of the filing just the rows that these statements
/// make: of each its own, but for a status that it leaves out, and those of its interests, which
/// have no days, and of its identifiers. The tables are left as they are. A connection with a
/// transaction open is refused.
pub fn keeps_statements<S: Alter>(
    conn: &mut Connection<S>,
    filing: FilingKey,
    statements: &[Statement],
) -> Result<bool, Error>
    ensures tells { TellsOf S.Store conn.old conn.new result (λ r.
        Fit filing.agent filing.number 1 statements.now
        (statements_kept filing.agent filing.number r)) }
    ensures settled { IfOk result (λ fits. conn.old.in_transaction ≡ false) }
{
    let rows = statements_of_filing(conn, filing.agent.as_str(), filing.number)?;
    keeps_rows(conn, rows.as_slice(), filing, statements)
}
