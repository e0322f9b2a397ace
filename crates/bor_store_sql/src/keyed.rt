//! Reading rows by key.

ghost use Rattle.std.specs.Prelude.{[], ◌∷◌, map};
ghost use Rattle.std.specs.List.{flat_map};
ghost use Rattle.bor_terms.specs.Texts.{is_same};
ghost use Rattle.bor_register.specs.Register.{filings_of};
ghost use Rattle.bor_register.specs.Publication.{filing_shown};
ghost use Rattle.bor_store_sql.specs.Rows.Placed.{period_rows, bare, filing_row};
ghost use Rattle.bor_store_sql.specs.Rows.Encoding.{truth, agent_columns, line_columns, shown_columns, statement_columns, interest_columns, period_columns, identifier_columns};
ghost use Rattle.bor_store_sql.specs.Found.{Finds, FindsBoth};
ghost use Rattle.bor_store_sql.specs.Selected.{members_named, members_having, keyed, numbered, last, placed_of, in_filing, in_declaration, in_series, identified, interests_at, identifiers_at, place_columns};

use crate::columns::{file_key, filing_key, one_text, statement_key, three_texts, two_texts};
use crate::queries::query;
use crate::rows::At;
use crate::texts::queries::{
    AGENT_BY_NAME, AGENT_BY_TOKEN, FILE_BY_NUMBER, FILING_BY_KEY, FILINGS_OF_AGENT,
    IDENTIFIERS_OF_STATEMENT, INTERESTS_OF_STATEMENT, LAST_FILING, LAST_OF_SERIES, LINE_BY_KEY,
    LINE_BY_NUMBER, PERIODS_OF_STATEMENT, SAME_BYTES, STATEMENT_BY_ID, STATEMENTS_OF_DECLARATION,
    STATEMENTS_OF_FILING,
};
use sqlite::{Alter, Connection, Error, Row};

/// The agent of this name with its token; no row where there is none.
pub fn agent_by_name<S: Alter>(conn: &mut Connection<S>, name: &str) -> Result<Vec<Row>, Error>
    ensures { Finds S.Store conn.old conn.new result (λ r.
        map agent_columns (members_named name.now r.members)) }
{
    query(conn, AGENT_BY_NAME, &one_text(name))
}

/// The agents that have this token, by name.
pub fn agent_by_token<S: Alter>(conn: &mut Connection<S>, token: &str) -> Result<Vec<Row>, Error>
    ensures { Finds S.Store conn.old conn.new result (λ r.
        map agent_columns (members_having token.now r.members)) }
{
    query(conn, AGENT_BY_TOKEN, &one_text(token))
}

/// The agent's filings under a key, by number: number, due day, whether it is withdrawn, and the
/// file. No row where it has lodged none.
pub fn filing_by_key<S: Alter>(
    conn: &mut Connection<S>,
    agent: &str,
    key: &str,
) -> Result<Vec<Row>, Error>
    ensures { Finds S.Store conn.old conn.new result (λ r.
        map (λ f. shown_columns (filing_shown f))
        (keyed key.now (filings_of agent.now r.members))) }
{
    query(conn, FILING_BY_KEY, &two_texts(agent, key))
}

/// The agent's filings under a key without their files, by number.
pub fn line_by_key<S: Alter>(
    conn: &mut Connection<S>,
    agent: &str,
    key: &str,
) -> Result<Vec<Row>, Error>
    ensures { Finds S.Store conn.old conn.new result (λ r.
        map (λ f. line_columns (filing_row agent.now f))
        (keyed key.now (filings_of agent.now r.members))) }
{
    query(conn, LINE_BY_KEY, &two_texts(agent, key))
}

/// The agent's filing with this number, without its file.
pub fn line_by_number<S: Alter>(
    conn: &mut Connection<S>,
    agent: &str,
    number: u32,
) -> Result<Vec<Row>, Error>
    ensures { Finds S.Store conn.old conn.new result (λ r.
        map (λ f. line_columns (filing_row agent.now f))
        (numbered number (filings_of agent.now r.members))) }
{
    query(conn, LINE_BY_NUMBER, &filing_key(agent, number))
}

/// Whether the file of the agent's filings under a key has these bytes, by number: 1 or 0.
pub fn same_bytes<S: Alter>(
    conn: &mut Connection<S>,
    agent: &str,
    key: &str,
    bytes: &[u8],
) -> Result<Vec<Row>, Error>
    ensures { Finds S.Store conn.old conn.new result (λ r.
        map (λ f. truth (is_same f.bytes bytes.now) ∷ [])
        (keyed key.now (filings_of agent.now r.members))) }
{
    query(conn, SAME_BYTES, &file_key(agent, key, bytes))
}

/// The agent's filings without their files, by number.
pub fn filings_of_agent<S: Alter>(conn: &mut Connection<S>, agent: &str) -> Result<Vec<Row>, Error>
    ensures { Finds S.Store conn.old conn.new result (λ r.
        map (λ f. line_columns (filing_row agent.now f)) (filings_of agent.now r.members)) }
{
    query(conn, FILINGS_OF_AGENT, &one_text(agent))
}

/// The agent's last filing, without its file; no row where it has none.
pub fn last_filing<S: Alter>(conn: &mut Connection<S>, agent: &str) -> Result<Vec<Row>, Error>
    ensures { Finds S.Store conn.old conn.new result (λ r.
        map (λ f. line_columns (filing_row agent.now f)) (last (filings_of agent.now r.members))) }
{
    query(conn, LAST_FILING, &one_text(agent))
}

/// The last live statement of a record; no row where it has none.
pub fn last_of_series<S: Alter>(
    conn: &mut Connection<S>,
    agent: &str,
    declaration: &str,
    rec: &str,
) -> Result<Vec<Row>, Error>
    ensures { Finds S.Store conn.old conn.new result (λ r.
        map (λ p. statement_columns (bare p))
        (last (in_series declaration.now rec.now (placed_of agent.now r)))) }
{
    query(conn, LAST_OF_SERIES, &three_texts(agent, declaration, rec))
}

/// Where the agent's live statements with this identifier stand: filing and place.
pub fn statement_by_id<S: Alter>(
    conn: &mut Connection<S>,
    agent: &str,
    id: &str,
) -> Result<Vec<Row>, Error>
    ensures { Finds S.Store conn.old conn.new result (λ r.
        map place_columns (identified id.now (placed_of agent.now r))) }
{
    query(conn, STATEMENT_BY_ID, &two_texts(agent, id))
}

/// The live statements of the agent's filing with this number, by place.
pub fn statements_of_filing<S: Alter>(
    conn: &mut Connection<S>,
    agent: &str,
    number: u32,
) -> Result<Vec<Row>, Error>
    ensures { FindsBoth S.Store conn.old conn.new result (λ r.
        map (λ p. statement_columns (bare p)) (in_filing number (placed_of agent.now r))) }
{
    query(conn, STATEMENTS_OF_FILING, &filing_key(agent, number))
}

/// The agent's live statements of a declaration, by filing and place.
pub fn statements_of_declaration<S: Alter>(
    conn: &mut Connection<S>,
    agent: &str,
    declaration: &str,
) -> Result<Vec<Row>, Error>
    ensures { Finds S.Store conn.old conn.new result (λ r.
        map (λ p. statement_columns (bare p))
        (in_declaration declaration.now (placed_of agent.now r))) }
{
    query(
        conn,
        STATEMENTS_OF_DECLARATION,
        &two_texts(agent, declaration),
    )
}

/// The interests of the statement at this place, by item.
pub fn interests_of_statement<S: Alter>(
    conn: &mut Connection<S>,
    at: &At,
) -> Result<Vec<Row>, Error>
    ensures { FindsBoth S.Store conn.old conn.new result (λ r.
        map interest_columns
        (interests_at at.now r.members)) }
{
    query(conn, INTERESTS_OF_STATEMENT, &statement_key(at))
}

/// The days of the interests of the statement at this place, by item.
pub fn periods_of_statement<S: Alter>(conn: &mut Connection<S>, at: &At) -> Result<Vec<Row>, Error>
    ensures { Finds S.Store conn.old conn.new result (λ r.
        map period_columns
        (flat_map period_rows
        (interests_at at.now r.members))) }
{
    query(conn, PERIODS_OF_STATEMENT, &statement_key(at))
}

/// The agent's filing with this number, with its file.
pub fn file_by_number<S: Alter>(
    conn: &mut Connection<S>,
    agent: &str,
    number: u32,
) -> Result<Vec<Row>, Error>
    ensures { FindsBoth S.Store conn.old conn.new result (λ r.
        map (λ f. shown_columns (filing_shown f))
        (numbered number (filings_of agent.now r.members))) }
{
    query(conn, FILE_BY_NUMBER, &filing_key(agent, number))
}

/// The identifiers of the statement at this place, by item.
pub fn identifiers_of_statement<S: Alter>(
    conn: &mut Connection<S>,
    at: &At,
) -> Result<Vec<Row>, Error>
    ensures { FindsBoth S.Store conn.old conn.new result (λ r.
        map identifier_columns
        (identifiers_at at.now r.members)) }
{
    query(conn, IDENTIFIERS_OF_STATEMENT, &statement_key(at))
}
