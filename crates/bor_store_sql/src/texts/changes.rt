//! The statements that change the tables.

/// The version of the tables that are made.
pub const VERSION: i64 = 2;

/// The version before it, of tables without `period`.
pub const FIRST_VERSION: i64 = 1;

/// Adds the register's row: the version of the tables, its day and the registrar's token.
pub const INSERT_REGISTER: &str = "INSERT INTO register (one, version, day, registrar) \
     VALUES (1, ?1, ?2, ?3)";

/// Adds an agent: its name and its token.
pub const INSERT_AGENT: &str = "INSERT INTO agent (name, token) VALUES (?1, ?2)";

/// Adds a live filing: its agent, number, key, due day and file.
pub const INSERT_FILING: &str =
    "INSERT INTO filing (agent, number, lodge_key, due, withdrawn, bytes) \
     VALUES (?1, ?2, ?3, ?4, 0, ?5)";

/// Adds a statement, column by column.
pub const INSERT_STATEMENT: &str =
    "INSERT INTO statement (agent, filing, place, id, day, declaration, rec, kind, status, \
     sub_kind, name, subject, party) \
     VALUES (?1, ?2, ?3, ?4, ?5, ?6, ?7, ?8, ?9, ?10, ?11, ?12, ?13)";

/// Adds an interest, column by column.
pub const INSERT_INTEREST: &str =
    "INSERT INTO interest (agent, filing, place, item, kind, directness, low, low_open, high, \
     high_open) VALUES (?1, ?2, ?3, ?4, ?5, ?6, ?7, ?8, ?9, ?10)";

/// Adds a period, column by column.
pub const INSERT_PERIOD: &str = "INSERT INTO period (agent, filing, place, item, starts, ends) \
     VALUES (?1, ?2, ?3, ?4, ?5, ?6)";

/// Adds an identifier, column by column.
pub const INSERT_IDENTIFIER: &str =
    "INSERT INTO identifier (agent, filing, place, item, scheme, id) \
     VALUES (?1, ?2, ?3, ?4, ?5, ?6)";

/// Deletes the identifiers of a filing, by agent and number.
pub const DELETE_IDENTIFIERS: &str = "DELETE FROM identifier WHERE agent = ?1 AND filing = ?2";

/// Deletes the periods of a filing, by agent and number.
pub const DELETE_PERIODS: &str = "DELETE FROM period WHERE agent = ?1 AND filing = ?2";

/// Deletes the interests of a filing, by agent and number.
pub const DELETE_INTERESTS: &str = "DELETE FROM interest WHERE agent = ?1 AND filing = ?2";

/// Deletes the statements of a filing, by agent and number.
pub const DELETE_STATEMENTS: &str = "DELETE FROM statement WHERE agent = ?1 AND filing = ?2";

/// Marks a filing as withdrawn, by agent and number.
pub const MARK_WITHDRAWN: &str = "UPDATE filing SET withdrawn = 1 WHERE agent = ?1 AND number = ?2";

/// Sets an agent's token, by the agent's name.
pub const UPDATE_TOKEN: &str = "UPDATE agent SET token = ?2 WHERE name = ?1";

/// Sets the register's day.
pub const UPDATE_DAY: &str = "UPDATE register SET day = ?1 WHERE one = 1";

/// Sets the version of the tables.
pub const UPDATE_VERSION: &str = "UPDATE register SET version = ?1 WHERE one = 1";
