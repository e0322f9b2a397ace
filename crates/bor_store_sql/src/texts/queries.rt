//! The queries over the tables.
//!
//! Each query is over one table. Those with a condition find their rows by an index; what they show
//! is sorted by the table's primary key, or is the last row by it, or is the same in each row.

/// The register's one row.
pub const ALL_REGISTER: &str = "SELECT one, version, day, registrar FROM register ORDER BY one";

/// All agents.
pub const ALL_AGENTS: &str = "SELECT name, token FROM agent ORDER BY name";

/// All filings without their files.
pub const ALL_FILINGS: &str = "SELECT agent, number, lodge_key, due, withdrawn \
     FROM filing ORDER BY agent, number";

/// All statements.
pub const ALL_STATEMENTS: &str =
    "SELECT agent, filing, place, id, day, declaration, rec, kind, status, sub_kind, name, \
     subject, party FROM statement ORDER BY agent, filing, place";

/// All interests.
pub const ALL_INTERESTS: &str =
    "SELECT agent, filing, place, item, kind, directness, low, low_open, high, high_open \
     FROM interest ORDER BY agent, filing, place, item";

/// All identifiers.
pub const ALL_IDENTIFIERS: &str = "SELECT agent, filing, place, item, scheme, id \
     FROM identifier ORDER BY agent, filing, place, item";

/// An agent by its name.
pub const AGENT_BY_NAME: &str = "SELECT name, token FROM agent WHERE name = ?1 ORDER BY name";

/// An agent by its token.
pub const AGENT_BY_TOKEN: &str = "SELECT name, token FROM agent WHERE token = ?1 ORDER BY name";

/// A filing with its file, by agent and key.
pub const FILING_BY_KEY: &str = "SELECT number, due, withdrawn, bytes \
     FROM filing WHERE agent = ?1 AND lodge_key = ?2 ORDER BY agent, number";

/// A filing without its file, by agent and key.
pub const LINE_BY_KEY: &str = "SELECT agent, number, lodge_key, due, withdrawn \
     FROM filing WHERE agent = ?1 AND lodge_key = ?2 ORDER BY agent, number";

/// A filing without its file, by agent and number.
pub const LINE_BY_NUMBER: &str = "SELECT agent, number, lodge_key, due, withdrawn \
     FROM filing WHERE agent = ?1 AND number = ?2 ORDER BY agent, number";

/// Whether the file of a filing, by agent and key, has these bytes.
pub const SAME_BYTES: &str = "SELECT bytes = ?3 \
     FROM filing WHERE agent = ?1 AND lodge_key = ?2 ORDER BY agent, number";

/// The filings of an agent without their files.
pub const FILINGS_OF_AGENT: &str = "SELECT agent, number, lodge_key, due, withdrawn \
     FROM filing WHERE agent = ?1 ORDER BY agent, number";

/// An agent's last filing without its file.
pub const LAST_FILING: &str = "SELECT agent, number, lodge_key, due, withdrawn \
     FROM filing WHERE agent = ?1 ORDER BY number DESC LIMIT 1";

/// The last statement of a record of a declaration of an agent.
pub const LAST_OF_SERIES: &str =
    "SELECT agent, filing, place, id, day, declaration, rec, kind, status, sub_kind, name, \
     subject, party FROM statement WHERE agent = ?1 AND declaration = ?2 AND rec = ?3 \
     ORDER BY filing DESC, place DESC LIMIT 1";

/// The place of a statement, by agent and identifier.
pub const STATEMENT_BY_ID: &str = "SELECT filing, place \
     FROM statement WHERE agent = ?1 AND id = ?2 ORDER BY agent, filing, place";

/// The statements of a filing, by agent and number.
pub const STATEMENTS_OF_FILING: &str =
    "SELECT agent, filing, place, id, day, declaration, rec, kind, status, sub_kind, name, \
     subject, party FROM statement WHERE agent = ?1 AND filing = ?2 \
     ORDER BY agent, filing, place";

/// The statements of a declaration of an agent.
pub const STATEMENTS_OF_DECLARATION: &str =
    "SELECT agent, filing, place, id, day, declaration, rec, kind, status, sub_kind, name, \
     subject, party FROM statement WHERE agent = ?1 AND declaration = ?2 \
     ORDER BY agent, filing, place";

/// The interests of a statement, by agent, number and place.
pub const INTERESTS_OF_STATEMENT: &str =
    "SELECT agent, filing, place, item, kind, directness, low, low_open, high, high_open \
     FROM interest WHERE agent = ?1 AND filing = ?2 AND place = ?3 \
     ORDER BY agent, filing, place, item";

/// The identifiers of a statement, by agent, number and place.
pub const IDENTIFIERS_OF_STATEMENT: &str = "SELECT agent, filing, place, item, scheme, id \
     FROM identifier WHERE agent = ?1 AND filing = ?2 AND place = ?3 \
     ORDER BY agent, filing, place, item";

/// Whether there are more statements than a number: one row where there are.
///
/// Each row shows the same, so no order is asked for, and no more rows are passed over than the
/// number says.
pub const MORE_STATEMENTS: &str = "SELECT 1 FROM statement LIMIT 1 OFFSET ?1";

/// The statements of a record of a declaration of an agent.
pub const STATEMENTS_OF_SERIES: &str =
    "SELECT agent, filing, place, id, day, declaration, rec, kind, status, sub_kind, name, \
     subject, party FROM statement WHERE agent = ?1 AND declaration = ?2 AND rec = ?3 \
     ORDER BY agent, filing, place";

/// The statements of an agent's records with this identifier, of whatever declaration.
pub const STATEMENTS_OF_RECORD: &str =
    "SELECT agent, filing, place, id, day, declaration, rec, kind, status, sub_kind, name, \
     subject, party FROM statement WHERE agent = ?1 AND rec = ?2 \
     ORDER BY agent, filing, place";

/// The statements of a declaration of an agent with this subject.
pub const STATEMENTS_OF_SUBJECT: &str =
    "SELECT agent, filing, place, id, day, declaration, rec, kind, status, sub_kind, name, \
     subject, party FROM statement WHERE agent = ?1 AND declaration = ?2 AND subject = ?3 \
     ORDER BY agent, filing, place";

/// The statement at a place of a filing, by agent and number.
pub const STATEMENT_BY_PLACE: &str =
    "SELECT agent, filing, place, id, day, declaration, rec, kind, status, sub_kind, name, \
     subject, party FROM statement WHERE agent = ?1 AND filing = ?2 AND place = ?3 \
     ORDER BY agent, filing, place";

/// The identifiers of all statements that are these, by scheme and identifier.
pub const IDENTIFIERS_BY_ID: &str = "SELECT agent, filing, place, item, scheme, id \
     FROM identifier WHERE scheme = ?1 AND id = ?2 ORDER BY agent, filing, place, item";

/// All periods.
pub const ALL_PERIODS: &str = "SELECT agent, filing, place, item, starts, ends \
     FROM period ORDER BY agent, filing, place, item";

/// The periods of a statement, by agent, filing and place.
pub const PERIODS_OF_STATEMENT: &str = "SELECT agent, filing, place, item, starts, ends \
     FROM period WHERE agent = ?1 AND filing = ?2 AND place = ?3 \
     ORDER BY agent, filing, place, item";

/// A filing with its file, by agent and number.
pub const FILE_BY_NUMBER: &str = "SELECT number, due, withdrawn, bytes \
     FROM filing WHERE agent = ?1 AND number = ?2 ORDER BY agent, number";
