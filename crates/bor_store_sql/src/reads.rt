//! Reading whole tables, and whether there are more statements than a number.

ghost use Rattle.std.specs.Prelude.{pos, [], ◌∷◌, drop, map, take};
ghost use Rattle.std.specs.List.{flat_map};
ghost use Rattle.sqlite.specs.declared.types.Value.TheVariants.{Int};
ghost use Rattle.bor_store_sql.specs.Rows.Placed.{bare, filing_lines, placed, interest_rows, period_rows, identifier_rows};
ghost use Rattle.bor_store_sql.specs.Rows.Encoding.{register_columns, agent_columns, line_columns, statement_columns, interest_columns, period_columns, identifier_columns};
ghost use Rattle.bor_store_sql.specs.Found.{Finds, FindsBoth};

use crate::columns::one_number;
use crate::queries::query;
use crate::texts::queries::{
    ALL_AGENTS, ALL_FILINGS, ALL_IDENTIFIERS, ALL_INTERESTS, ALL_PERIODS, ALL_REGISTER,
    ALL_STATEMENTS, MORE_STATEMENTS,
};
use sqlite::{Alter, Connection, Error, Row};

/// The register's row.
pub fn all_register<S: Alter>(conn: &mut Connection<S>) -> Result<Vec<Row>, Error>
    ensures { Finds S.Store conn.old conn.new result (λ r. register_columns r ∷ []) }
{
    query(conn, ALL_REGISTER, &[])
}

/// The agents with their tokens, by name.
pub fn all_agents<S: Alter>(conn: &mut Connection<S>) -> Result<Vec<Row>, Error>
    ensures { Finds S.Store conn.old conn.new result (λ r. map agent_columns r.members) }
{
    query(conn, ALL_AGENTS, &[])
}

/// All filings without their files, by agent and number.
pub fn all_filings<S: Alter>(conn: &mut Connection<S>) -> Result<Vec<Row>, Error>
    ensures { FindsBoth S.Store conn.old conn.new result (λ r.
        map line_columns (filing_lines r.members)) }
{
    query(conn, ALL_FILINGS, &[])
}

/// All statements, by agent, filing and place.
pub fn all_statements<S: Alter>(conn: &mut Connection<S>) -> Result<Vec<Row>, Error>
    ensures { Finds S.Store conn.old conn.new result (λ r.
        map (λ p. statement_columns (bare p)) (placed r.members)) }
{
    query(conn, ALL_STATEMENTS, &[])
}

/// All interests, by agent, filing, place and item.
pub fn all_interests<S: Alter>(conn: &mut Connection<S>) -> Result<Vec<Row>, Error>
    ensures { Finds S.Store conn.old conn.new result (λ r.
        map interest_columns (flat_map interest_rows (placed r.members))) }
{
    query(conn, ALL_INTERESTS, &[])
}

/// The days of all interests, by agent, filing, place and item.
pub fn all_periods<S: Alter>(conn: &mut Connection<S>) -> Result<Vec<Row>, Error>
    ensures { Finds S.Store conn.old conn.new result (λ r.
        map period_columns (flat_map period_rows (flat_map interest_rows (placed r.members)))) }
{
    query(conn, ALL_PERIODS, &[])
}

/// All identifiers, by agent, filing, place and item.
pub fn all_identifiers<S: Alter>(conn: &mut Connection<S>) -> Result<Vec<Row>, Error>
    ensures { Finds S.Store conn.old conn.new result (λ r.
        map identifier_columns (flat_map identifier_rows (placed r.members))) }
{
    query(conn, ALL_IDENTIFIERS, &[])
}

/// Whether there are more live statements than `count`: one row where there are, and else no row.
pub fn more_statements<S: Alter>(conn: &mut Connection<S>, count: u32) -> Result<Vec<Row>, Error>
    ensures { Finds S.Store conn.old conn.new result (λ r.
        map (λ p. Int (pos 1) ∷ []) (take 1 (drop count (placed r.members)))) }
{
    query(conn, MORE_STATEMENTS, &one_number(count))
}
