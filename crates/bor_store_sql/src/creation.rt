//! Making the tables.

ghost use Rattle.std.specs.Prelude.{◌≡◌, [], ◌∷◌, ◌++◌, OnOk};
ghost use Rattle.sqlite.specs.Held.{state};
ghost use Rattle.bor_register.specs.Register.{empty_register};
ghost use Rattle.bor_store_sql.specs.Texts.Tables.{no_schema, first_schema, period_table};
ghost use Rattle.bor_store_sql.specs.Rows.Encoding.{contents};
ghost use Rattle.bor_store_sql.specs.Beside.{Adds, PutsRegister, SetsUp, SetsUpIn, SetsUpSound, blank, details, four_indexes, lists};
ghost use Rattle.bor_store_sql.specs.Blank.{IsBlank, Leads, no_contents};
ghost use Rattle.bor_store_sql.specs.Moving.{MakesPeriod};
ghost use Rattle.bor_store_sql.specs.Ran.{Moves, RanOpen};
ghost use Rattle.bor_store_sql.specs.Shown.{Commits, Has, IsClean, LeavesAtMost, ShowsIn, Stands};

use crate::columns::register_values;
use crate::running::{finish, run, run_each};
use crate::texts::changes::INSERT_REGISTER;
use crate::texts::tables::{
    AGENT_TABLE, FILING_TABLE, IDENTIFIER_INDEX, IDENTIFIER_TABLE, INTEREST_TABLE, LINE_INDEX,
    PERIOD_TABLE, RECORD_INDEX, REGISTER_TABLE, STATEMENT_TABLE, SUBJECT_INDEX,
};
use bor_terms::{Day, Token};
use sqlite::{Alter, Connection, Error, ErrorCode, Transaction};

/// Makes the table `period` beside those of version 1, whatever rows they have.
pub(crate) fn create_period<S: Alter>(tx: &mut Transaction<'_, S>) -> Result<(), Error>
    ensures same_reference { tx.new.conn.ghost_name ≡ tx.old.conn.ghost_name }
    ensures ran_open { RanOpen S.Store tx.old.conn.now tx.new.conn.now result }
    ensures moves { Moves S.Store tx.old.conn.now tx.new.conn.now result MakesPeriod }
    ensures adds { Moves S.Store tx.old.conn.now tx.new.conn.now result
        (Adds (blank period_table ∷ []) []) }
{
    run(tx, PERIOD_TABLE, &[])
}

// The tables of version 1, and their indexes.
fn create_tables<S: Alter>(tx: &mut Transaction<'_, S>) -> Result<(), Error>
    ensures same_reference { tx.new.conn.ghost_name ≡ tx.old.conn.ghost_name }
    ensures ran_open { RanOpen S.Store tx.old.conn.now tx.new.conn.now result }
    ensures leads { Leads S.Store tx.old.conn.now tx.new.conn.now result (IsBlank no_schema)
        (IsBlank first_schema) }
    ensures adds { Moves S.Store tx.old.conn.now tx.new.conn.now result
        (Adds (lists ++ details) four_indexes) }
{
    let texts = [
        REGISTER_TABLE,
        AGENT_TABLE,
        FILING_TABLE,
        STATEMENT_TABLE,
        INTEREST_TABLE,
        IDENTIFIER_TABLE,
        RECORD_INDEX,
        SUBJECT_INDEX,
        IDENTIFIER_INDEX,
        LINE_INDEX,
    ];
    run_each(tx, &texts, &[])
}

fn insert_register<S: Alter>(
    tx: &mut Transaction<'_, S>,
    registrar: &str,
    day: Day,
) -> Result<(), Error>
    ensures same_reference { tx.new.conn.ghost_name ≡ tx.old.conn.ghost_name }
    ensures leads { Leads S.Store tx.old.conn.now tx.new.conn.now result (Has no_contents)
        (Has (contents (empty_register registrar.now day))) }
    ensures puts { Moves S.Store tx.old.conn.now tx.new.conn.now result
        (PutsRegister (empty_register registrar.now day)) }
{
    run(tx, INSERT_REGISTER, &register_values(day, registrar))
}

fn make_register<S: Alter>(
    tx: &mut Transaction<'_, S>,
    registrar: &str,
    day: Day,
) -> Result<(), Error>
    ensures same_reference { tx.new.conn.ghost_name ≡ tx.old.conn.ghost_name }
    ensures ran_open { RanOpen S.Store tx.old.conn.now tx.new.conn.now result }
    ensures leads { Leads S.Store tx.old.conn.now tx.new.conn.now result (IsBlank no_schema)
        (Has (contents (empty_register registrar.now day))) }
    ensures sets_up { Moves S.Store tx.old.conn.now tx.new.conn.now result
        (SetsUpSound (empty_register registrar.now day)) }
{
    create_tables(tx)?;
    create_period(tx)?;
    insert_register(tx, registrar, day)
}

/// Makes the tables of a register with no agents and no filings, in a transaction of its own. All
/// else that the store has stays as it was. Where it had nothing, the connection shows the
/// register.
pub fn set_up<S: Alter>(conn: &mut Connection<S>, registrar: &Token, day: Day) -> Result<(), Error>
    ensures commits { Commits (state S.Store conn.old) (state S.Store conn.new) result }
    ensures made { IsClean (state S.Store conn.new)
        → (state S.Store conn.old).committed.schema ≡ no_schema
        → OnOk result (ShowsIn (empty_register registrar.now day) (state S.Store conn.new)) }
    ensures stops { LeavesAtMost (λ trees. (state S.Store conn.old).committed.schema ≡ no_schema
        → Stands (empty_register registrar.now day) trees)
        (state S.Store conn.old) (state S.Store conn.new) }
    ensures beside { IsClean (state S.Store conn.new)
        → OnOk result (SetsUp (empty_register registrar.now day) (state S.Store conn.old).committed
        (state S.Store conn.new).committed) }
    ensures stops_beside { LeavesAtMost
        (SetsUpIn (empty_register registrar.now day) (state S.Store conn.old).committed)
        (state S.Store conn.old) (state S.Store conn.new) }
{
    if !conn.is_autocommit() {
        return Err(Error::SqliteFailure(ErrorCode::TransactionState));
    }
    // Its clause says that what the last commit left is sound.
    let _live = conn.schema();
    // Their clauses say that the token has its form, and that the number is that of a day.
    let token = registrar.as_str();
    let _known = day.number();
    let mut tx = conn.transaction();
    let done = make_register(&mut tx, token, day);
    finish(tx, done)
}
