//! The seven tables and their indexes, as SQL makes them.

/// One row: the version of the tables, the register's day as its day number from 1970-01-01, and
/// the registrar's token.
pub const REGISTER_TABLE: &str = "CREATE TABLE register (
    one INT NOT NULL,
    version INTEGER NOT NULL,
    day INTEGER NOT NULL,
    registrar TEXT NOT NULL,
    PRIMARY KEY (one)
) STRICT";

/// An agent and its token.
pub const AGENT_TABLE: &str = "CREATE TABLE agent (
    name TEXT NOT NULL,
    token TEXT NOT NULL,
    PRIMARY KEY (name),
    UNIQUE (token)
) STRICT";

/// A filing under its number and its key, withdrawn ones too, with the file as it was lodged.
pub const FILING_TABLE: &str = "CREATE TABLE filing (
    agent TEXT NOT NULL,
    number INTEGER NOT NULL,
    lodge_key TEXT NOT NULL,
    due INTEGER NOT NULL,
    withdrawn INTEGER NOT NULL,
    bytes BLOB NOT NULL,
    PRIMARY KEY (agent, number),
    UNIQUE (agent, lodge_key),
    FOREIGN KEY (agent) REFERENCES agent (name)
) STRICT";

/// A live statement by its filing and its place in the file, from 1. A withdrawn filing has none.
pub const STATEMENT_TABLE: &str = "CREATE TABLE statement (
    agent TEXT NOT NULL,
    filing INTEGER NOT NULL,
    place INTEGER NOT NULL,
    id TEXT NOT NULL,
    day INTEGER NOT NULL,
    declaration TEXT NOT NULL,
    rec TEXT NOT NULL,
    kind TEXT NOT NULL,
    status TEXT NOT NULL,
    sub_kind TEXT,
    name TEXT,
    subject TEXT,
    party TEXT,
    PRIMARY KEY (agent, filing, place),
    UNIQUE (agent, id),
    FOREIGN KEY (agent, filing) REFERENCES filing (agent, number)
) STRICT";

/// An interest of a live relationship statement, by its place in the statement, from 1. The last
/// four columns are null where it has no share.
pub const INTEREST_TABLE: &str = "CREATE TABLE interest (
    agent TEXT NOT NULL,
    filing INTEGER NOT NULL,
    place INTEGER NOT NULL,
    item INTEGER NOT NULL,
    kind TEXT NOT NULL,
    directness TEXT NOT NULL,
    low INTEGER,
    low_open INTEGER,
    high INTEGER,
    high_open INTEGER,
    PRIMARY KEY (agent, filing, place, item),
    FOREIGN KEY (agent, filing, place) REFERENCES statement (agent, filing, place)
) STRICT";

/// An identifier of a live entity statement, by its place in the statement, from 1.
pub const IDENTIFIER_TABLE: &str = "CREATE TABLE identifier (
    agent TEXT NOT NULL,
    filing INTEGER NOT NULL,
    place INTEGER NOT NULL,
    item INTEGER NOT NULL,
    scheme TEXT NOT NULL,
    id TEXT NOT NULL,
    PRIMARY KEY (agent, filing, place, item),
    FOREIGN KEY (agent, filing, place) REFERENCES statement (agent, filing, place)
) STRICT";

/// The first and the last day on which an interest counts, by its place in the statement: a row
/// only where one of them is there. It is made last, since tables of version 1 are those without
/// it.
pub const PERIOD_TABLE: &str = "CREATE TABLE period (
    agent TEXT NOT NULL,
    filing INTEGER NOT NULL,
    place INTEGER NOT NULL,
    item INTEGER NOT NULL,
    starts INTEGER,
    ends INTEGER,
    PRIMARY KEY (agent, filing, place, item),
    FOREIGN KEY (agent, filing, place, item) REFERENCES interest (agent, filing, place, item)
) STRICT";

/// A record's statements, in order of acceptance and of place.
pub const RECORD_INDEX: &str =
    "CREATE INDEX statement_record ON statement (agent, rec, declaration, filing, place)";

/// A declaration's statements, and those of them with a subject.
pub const SUBJECT_INDEX: &str =
    "CREATE INDEX statement_subject ON statement (agent, declaration, subject)";

/// Statements with an identifier.
pub const IDENTIFIER_INDEX: &str = "CREATE INDEX identifier_id ON identifier (scheme, id)";

/// The content of a filing's line, so that reading lines passes over no file.
pub const LINE_INDEX: &str =
    "CREATE INDEX filing_line ON filing (agent, number, lodge_key, due, withdrawn)";
