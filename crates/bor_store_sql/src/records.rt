//! Reading the statements of records by key: by series, by record, by subject and by identifier.

ghost use Rattle.std.specs.Prelude.{map};
ghost use Rattle.bor_store_sql.specs.Rows.Placed.{bare};
ghost use Rattle.bor_store_sql.specs.Rows.Encoding.{statement_columns, identifier_columns};
ghost use Rattle.bor_store_sql.specs.Found.{Finds};
ghost use Rattle.bor_store_sql.specs.Selected.{placed_of, in_series, in_record, with_subject, standing_at, identified_by};

use crate::columns::{statement_key, three_texts, two_texts};
use crate::queries::query;
use crate::rows::At;
use crate::texts::queries::{
    IDENTIFIERS_BY_ID, STATEMENT_BY_PLACE, STATEMENTS_OF_RECORD, STATEMENTS_OF_SERIES,
    STATEMENTS_OF_SUBJECT,
};
use sqlite::{Alter, Connection, Error, Row};

/// The live statements of a record, by filing and place.
pub fn statements_of_series<S: Alter>(
    conn: &mut Connection<S>,
    agent: &str,
    declaration: &str,
    rec: &str,
) -> Result<Vec<Row>, Error>
    ensures { Finds S.Store conn.old conn.new result (λ r.
        map (λ p. statement_columns (bare p))
        (in_series declaration.now rec.now (placed_of agent.now r))) }
{
    query(
        conn,
        STATEMENTS_OF_SERIES,
        &three_texts(agent, declaration, rec),
    )
}

/// The live statements of the agent's records with this identifier, of whatever declaration, by
/// filing and place.
pub fn statements_of_record<S: Alter>(
    conn: &mut Connection<S>,
    agent: &str,
    rec: &str,
) -> Result<Vec<Row>, Error>
    ensures { Finds S.Store conn.old conn.new result (λ r.
        map (λ p. statement_columns (bare p)) (in_record rec.now (placed_of agent.now r))) }
{
    query(conn, STATEMENTS_OF_RECORD, &two_texts(agent, rec))
}

/// The agent's live relationship statements of a declaration that name this record as their
/// subject, by filing and place.
pub fn statements_of_subject<S: Alter>(
    conn: &mut Connection<S>,
    agent: &str,
    declaration: &str,
    rec: &str,
) -> Result<Vec<Row>, Error>
    ensures { Finds S.Store conn.old conn.new result (λ r.
        map (λ p. statement_columns (bare p))
        (with_subject declaration.now rec.now (placed_of agent.now r))) }
{
    query(
        conn,
        STATEMENTS_OF_SUBJECT,
        &three_texts(agent, declaration, rec),
    )
}

/// The live statement at a place of the agent's filing with this number; no row where there is
/// none.
pub fn statement_by_place<S: Alter>(conn: &mut Connection<S>, at: &At) -> Result<Vec<Row>, Error>
    ensures { Finds S.Store conn.old conn.new result (λ r.
        map (λ p. statement_columns (bare p))
        (standing_at at.now r.members)) }
{
    query(conn, STATEMENT_BY_PLACE, &statement_key(at))
}

/// The identifiers of all live statements that have this scheme and this identifier, by agent,
/// filing, place and item.
pub fn identifiers_by_id<S: Alter>(
    conn: &mut Connection<S>,
    scheme: &str,
    id: &str,
) -> Result<Vec<Row>, Error>
    ensures { Finds S.Store conn.old conn.new result (λ r.
        map identifier_columns (identified_by scheme.now id.now r.members)) }
{
    query(conn, IDENTIFIERS_BY_ID, &two_texts(scheme, id))
}
