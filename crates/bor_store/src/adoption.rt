//! Taking the tables of a store for a register.

ghost use Rattle.std.specs.Prelude.{◌≡◌, ◌≢◌, ◌⊎◌, ◌↔◌, ℤ, false, [], Some, None, Err, IfOk, IfErr, OnOk, MatchResult, IsTrue, ◌&&◌, is_some};
ghost use Rattle.std.specs.List.{list_all, list_any};
ghost use Rattle.sqlite.specs.Held.{state};
ghost use Rattle.sqlite.specs.State.{HasCleanDisk};
ghost use Rattle.sqlite_schema.specs.Names.{same_name, column_named};
ghost use Rattle.bor_register.specs.Register.{Register};
ghost use Rattle.bor_store_sql.specs.Rows.Encoding.{tables_version};
ghost use Rattle.bor_store_sql.specs.Shown.{IsClean, IsUp, ShowsFirst, ShowsIn};
ghost use Rattle.bor_store_sql.specs.Found.{AnswersQuery, ReadsOnly};
ghost use Rattle.bor_store.specs.Opening.{AreVersions, IsFailure, IsJudged, IsRegister, RefusesFirst, answer_of, conn_in, has_all, has_first, is_versioned, version_in, version_text};
ghost use Rattle.bor_store.specs.declared.open_fault.OpenFault.TheVariants as faults;

use crate::open_fault::OpenFault;
use crate::refused::Refused;
use crate::sql_keep::SqlKeep;
use bor_store_keys::Lookup;
use bor_store_sql::texts::changes::VERSION;
use sqlite::{Alter, Connection, Error, ErrorCode, Row};
use sqlite_schema::schema::{Schema, Table};
use std::alloc::Global;

// Asks for the version of the tables.
const VERSIONS: &str = "SELECT version FROM register";

const FILING: [&str; 6] = ["agent", "number", "lodge_key", "due", "withdrawn", "bytes"];

const STATEMENT: [&str; 13] = [
    "agent",
    "filing",
    "place",
    "id",
    "day",
    "declaration",
    "rec",
    "kind",
    "status",
    "sub_kind",
    "name",
    "subject",
    "party",
];

const INTEREST: [&str; 10] = [
    "agent",
    "filing",
    "place",
    "item",
    "kind",
    "directness",
    "low",
    "low_open",
    "high",
    "high_open",
];

const IDENTIFIER: [&str; 6] = ["agent", "filing", "place", "item", "scheme", "id"];

const PERIOD: [&str; 6] = ["agent", "filing", "place", "item", "starts", "ends"];

// Whether the table has all these columns.
fn has_columns(table: &Table, columns: &[&str]) -> bool
    ensures { result ≡ list_all
        (λ column. is_some (column_named table.now column.now)) columns.now }
{
    columns
        .iter()
        .all(|column| table.column_named(column.as_bytes()).is_some())
}

// Whether there is a table of this name with all these columns.
fn has_table(schema: &Schema, name: &str, columns: &[&str]) -> bool
    ensures { result ≡ list_any
        (λ table. same_name table.name name.now
        && list_all (λ column. is_some (column_named table column.now)) columns.now)
        schema.now.tables }
{
    schema.tables.as_slice().iter().any(|table| table.is_named(name.as_bytes())
        && has_columns(table, columns))
}

/// Whether there are the columns that tell a version.
pub(crate) fn is_versioned(schema: &Schema) -> bool
    ensures { result ≡ is_versioned schema.now }
{
    has_table(schema, "register", &["one", "version"])
}

/// Whether there are all tables of a register of version 1, with all their columns.
pub(crate) fn has_first(schema: &Schema) -> bool
    ensures { result ≡ has_first schema.now }
{
    has_table(schema, "register", &["one", "version", "day", "registrar"])
        && has_table(schema, "agent", &["name", "token"])
        && has_table(schema, "filing", &FILING)
        && has_table(schema, "statement", &STATEMENT)
        && has_table(schema, "interest", &INTEREST)
        && has_table(schema, "identifier", &IDENTIFIER)
}

/// Whether there are all tables of a register, with all their columns.
pub(crate) fn has_all(schema: &Schema) -> bool
    ensures { result ≡ has_all schema.now }
{
    has_first(schema) && has_table(schema, "period", &PERIOD)
}

/// The versions that the table `register` tells, a row each. A connection with a transaction open
/// is refused.
pub(crate) fn version_rows<S: Alter>(conn: &mut Connection<S>) -> Result<Vec<Row>, Error>
    ensures asked { AnswersQuery version_text [] (state S.Store conn.old) (state S.Store conn.new)
        result }
    ensures versions { HasCleanDisk (state S.Store conn.new)
        → IfOk result (λ rows. AreVersions (state S.Store conn.old) rows.items) }
    ensures same { HasCleanDisk (state S.Store conn.new)
        → OnOk result ((state S.Store conn.new).now ≡ (state S.Store conn.old).now) }
{
    if !conn.is_autocommit() {
        return Err(Error::SqliteFailure(ErrorCode::TransactionState));
    }
    conn.query_all(VERSIONS, &[])
}

/// The whole version that the one row has.
pub(crate) fn version_in(rows: &[Row]) -> Result<i64, OpenFault>
    ensures { MatchResult result (λ version. version_in rows.now ≡ Some version)
        (λ fault. IsFailure fault ⊎ ((fault ≡ faults.NoRegister) × (version_in rows.now ≡ None))) }
{
    let [row] = rows else {
        return Err(OpenFault::NoRegister);
    };
    match row.get::<i64>(0) {
        Ok(version) => Ok(version),
        Err(Error::SqliteFailure(ErrorCode::OutOfMemory)) => Err(OpenFault::Memory),
        Err(_) => Err(OpenFault::NoRegister),
    }
}

// Whether a version is that of these tables, which may have all columns or not.
fn judge(version: i64, is_whole: bool) -> Result<(), OpenFault>
    ensures { MatchResult result (λ _. (version ≡ tables_version) × IsTrue is_whole)
        (λ fault. ((fault ≡ faults.OtherVersion version) × (version ≢ tables_version)) ⊎
        ((fault ≡ faults.NoRegister) × (version ≡ tables_version) × (is_whole ≡ false))) }
{
    if version != VERSION {
        return Err(OpenFault::OtherVersion(version));
    }
    if is_whole {
        Ok(())
    } else {
        Err(OpenFault::NoRegister)
    }
}

/// Whether the tables of a connection are those of a register, as [`SqlKeep::adopt`] asks. The
/// connection is only read (`ReadsOnly`); with a transaction open it is [`OpenFault::Store`]. If
/// the disk has returned what was written, the faults other than `Memory` and `Store` are, in their
/// order: [`OpenFault::NoRegister`] where there is no table `register` with the columns `one` and
/// `version`, or not exactly one row in it, with a whole version; [`OpenFault::OtherVersion`] where
/// that isn't 2; `NoRegister` where another table or column of a register is missing.
#[tactic(auto, using(crate::proofs::Judging::fault_fails))]
pub fn examine<S: Alter>(conn: &mut Connection<S>) -> Result<(), OpenFault>
    ensures reads { ReadsOnly (state S.Store conn.old) (state S.Store conn.new) }
    ensures busy { IsTrue conn.old.in_transaction
        → (result ≡ Err faults.Store) × (conn.new ≡ conn.old) }
    ensures settled { OnOk result (conn.old.in_transaction ≡ false) }
    ensures bare { conn.old.in_transaction ≡ false
        → is_versioned (state S.Store conn.old).now.schema ≡ false
        → result ≡ Err faults.NoRegister }
    ensures other { (n : ℤ) → result ≡ Err (faults.OtherVersion n) → n ≢ tables_version }
    ensures whole { OnOk result (IsTrue (has_all (state S.Store conn.old).now.schema)) }
    ensures up { OnOk result (IsUp (state S.Store conn.new)) }
    ensures same { HasCleanDisk (state S.Store conn.new)
        → OnOk result ((state S.Store conn.new).now ≡ (state S.Store conn.old).now) }
    ensures judged { HasCleanDisk (state S.Store conn.new)
        → IsJudged (state S.Store conn.old) result }
    ensures shown { HasCleanDisk (state S.Store conn.new) → IsTrue (state S.Store conn.old).is_open
        → (r : Register) → ShowsIn r (state S.Store conn.old) → IfErr result IsFailure }
    ensures first { HasCleanDisk (state S.Store conn.new) → IsTrue (state S.Store conn.old).is_open
        → (r : Register) → ShowsFirst r (state S.Store conn.old) → RefusesFirst result }
{
    if !conn.is_autocommit() {
        return Err(OpenFault::Store);
    }
    if !is_versioned(conn.schema()) {
        return Err(OpenFault::NoRegister);
    }
    let is_whole = has_all(conn.schema());
    let rows = version_rows(conn)?;
    let version = version_in(rows.as_slice())?;
    judge(version, is_whole)
}

impl<S: Alter + Drop> SqlKeep<S> {
    /// The register that the tables of a connection are, which are only read (`ReadsOnly`). A
    /// refusal gives the connection back. With a transaction open it is [`OpenFault::Store`]. If
    /// the disk has returned what was written, the faults other than `Memory` and `Store` are, in
    /// their order: [`OpenFault::NoRegister`] where there is no table `register` with the columns
    /// `one` and `version`, or not exactly one row in it, with a whole version;
    /// [`OpenFault::OtherVersion`] where that isn't 2; `NoRegister` where another table or column
    /// of a register is missing.
    pub fn adopt(alloc: Global, conn: Connection<S>) -> Result<SqlKeep<S>, Refused<Connection<S>>>
        ensures reads { ReadsOnly (state S.Store conn)
            (state S.Store (conn_in (λ k. k.conn) result)) }
        ensures busy { IsTrue conn.in_transaction → answer_of result ≡ Err faults.Store }
        ensures settled { OnOk result (conn.in_transaction ≡ false) }
        ensures bare { conn.in_transaction ≡ false
            → is_versioned (state S.Store conn).now.schema ≡ false
            → answer_of result ≡ Err faults.NoRegister }
        ensures other { (n : ℤ) → answer_of result ≡ Err (faults.OtherVersion n)
            → n ≢ tables_version }
        ensures whole { IfOk result (λ k. IsTrue (has_all (state S.Store conn).now.schema)) }
        ensures judged { HasCleanDisk (state S.Store (conn_in (λ k. k.conn) result))
            → IsJudged (state S.Store conn) (answer_of result) }
        ensures shown { HasCleanDisk (state S.Store (conn_in (λ k. k.conn) result))
            → IsTrue (state S.Store conn).is_open → (r : Register)
            → ShowsIn r (state S.Store conn) → IfErr (answer_of result) IsFailure }
        ensures first { HasCleanDisk (state S.Store (conn_in (λ k. k.conn) result))
            → IsTrue (state S.Store conn).is_open → (r : Register)
            → ShowsFirst r (state S.Store conn) → RefusesFirst (answer_of result) }
        ensures is { IfOk result (λ k.
            HasCleanDisk (state S.Store k.conn) → IsRegister (state S.Store k.conn)) }
        ensures up { IfOk result (λ k. IsUp (state S.Store k.conn)) }
        ensures began { IfOk result (λ k.
            IsClean (state S.Store k.conn) → IsClean (state S.Store conn)) }
        ensures shows { IfOk result (λ k.
            IsClean (state S.Store k.conn) → (r : Register)
            → ShowsIn r (state S.Store conn) ↔ ShowsIn r (state S.Store k.conn)) }
        ensures one { IfOk result (λ k.
            (r q : Register) → ShowsIn r (state S.Store k.conn)
            → ShowsIn q (state S.Store k.conn) → r ≡ q) }
        ensures unfaulted { IfOk result (λ k. k.faults ≡ 0) }
    {
        let mut conn = conn;
        match examine(&mut conn) {
            Ok(()) => Ok(SqlKeep {
                alloc,
                conn: Lookup::new(conn),
                faults: 0,
            }),
            Err(fault) => Err(Refused { fault, conn }),
        }
    }

    /// The connection, which shows what the keep showed, with no transaction open.
    pub fn into_connection(self) -> Connection<S>
        ensures same { result ≡ self.conn }
        ensures settled { result.in_transaction ≡ false }
    {
        let SqlKeep {
            alloc: _,
            conn,
            faults: _,
        } = self;
        conn.into_connection()
    }
}
