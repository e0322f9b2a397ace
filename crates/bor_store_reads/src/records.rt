//! The statements of records, by series, by record, by subject and by identifier.

ghost use Rattle.std.specs.Prelude.{◌≡◌, map, option_map, slice_get};
ghost use Rattle.bor_store_sql.specs.Rows.Placed.{bare};
ghost use Rattle.bor_store_sql.specs.Selected.{identified_by, in_record, in_series, placed_of, standing_at, with_subject};
ghost use Rattle.bor_store_reads.specs.Answering.{ReadsIn};

use crate::fault::ReadError;
use crate::values::{all_values, first_value};
use bor_store_sql::rows::{At, IdentifierRow, StatementRow};
use bor_store_sql::{
    identifiers_by_id, statement_by_place, statements_of_record, statements_of_series,
    statements_of_subject,
};
use bor_terms::{AgentName, Ident};
use sqlite::{Alter, Connection};
use std::alloc::Global;

/// The rows of a record's live statements, by filing and place; `rec` is its identifier.
pub fn read_series<S: Alter>(
    conn: &mut Connection<S>,
    alloc: Global,
    agent: &AgentName,
    declaration: &Ident,
    rec: &Ident,
) -> Result<Vec<StatementRow>, ReadError>
    ensures { ReadsIn S.Store conn.old conn.new result (λ r rows.
        rows.items ≡ map bare (in_series declaration.now rec.now (placed_of agent.now r))) }
{
    all_values(
        alloc,
        statements_of_series(conn, agent.as_str(), declaration.as_str(), rec.as_str()),
    )
}

/// The rows of the live statements of the agent's records with this identifier, of whatever
/// declaration, by filing and place.
pub fn read_record<S: Alter>(
    conn: &mut Connection<S>,
    alloc: Global,
    agent: &str,
    rec: &str,
) -> Result<Vec<StatementRow>, ReadError>
    ensures { ReadsIn S.Store conn.old conn.new result (λ r rows.
        rows.items ≡ map bare (in_record rec.now (placed_of agent.now r))) }
{
    all_values(alloc, statements_of_record(conn, agent, rec))
}

/// The rows of the agent's live relationship statements of a declaration that name this record as
/// their subject, by filing and place.
pub fn read_subject<S: Alter>(
    conn: &mut Connection<S>,
    alloc: Global,
    agent: &AgentName,
    declaration: &Ident,
    rec: &Ident,
) -> Result<Vec<StatementRow>, ReadError>
    ensures { ReadsIn S.Store conn.old conn.new result (λ r rows.
        rows.items ≡ map bare (with_subject declaration.now rec.now (placed_of agent.now r))) }
{
    all_values(
        alloc,
        statements_of_subject(conn, agent.as_str(), declaration.as_str(), rec.as_str()),
    )
}

/// The row of the live statement at this place; `None` where there is none.
pub fn read_place<S: Alter>(
    conn: &mut Connection<S>,
    alloc: Global,
    at: &At,
) -> Result<Option<StatementRow>, ReadError>
    ensures { ReadsIn S.Store conn.old conn.new result (λ r row.
        row ≡ option_map bare (slice_get (standing_at at.now r.members) 0)) }
{
    first_value(alloc, statement_by_place(conn, at))
}

/// The rows of the identifiers of all live statements that have this scheme and this identifier, by
/// agent, filing, place and item.
pub fn read_identified<S: Alter>(
    conn: &mut Connection<S>,
    alloc: Global,
    scheme: &str,
    id: &str,
) -> Result<Vec<IdentifierRow>, ReadError>
    ensures { ReadsIn S.Store conn.old conn.new result (λ r rows.
        rows.items ≡ identified_by scheme.now id.now r.members) }
{
    all_values(alloc, identifiers_by_id(conn, scheme, id))
}
