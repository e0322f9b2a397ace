//! Adding a filing with its statements.

ghost use Rattle.std.specs.Prelude.{◌≡◌, [], IfOk};
ghost use Rattle.bor_store_sql.specs.Rows.Placed.{bare, interests_listed, identifiers_listed};
ghost use Rattle.bor_store_sql.specs.Fitting.{standing};
ghost use Rattle.bor_store_sql.specs.Ran.{RanOpen};
ghost use Rattle.bor_store_sql.specs.Shown.{Alters, Steps};
ghost use Rattle.bor_store_sql.specs.Changing.{Any, in_turn, live_filing, with_filing_row, with_statement_row, with_one_placed, with_live_filing, added, MayAdd};
ghost use Rattle.bor_store_sql.specs.Rows.Stored.{IsCounted, AreCounted};

use crate::columns::{filing_values, statement_values};
use crate::items::{insert_items, next_number};
use crate::rows::{At, FilingKey};
use crate::running::{finish, run};
use crate::texts::changes::{INSERT_FILING, INSERT_STATEMENT};
use bods_read::{Details, Identifier, Interest, Statement};
use bor_terms::{Day, LodgeKey};
use sqlite::{Alter, Connection, Error, ErrorCode, Transaction};

fn insert_filing<S: Alter>(
    tx: &mut Transaction<'_, S>,
    filing: &FilingKey,
    key: &str,
    due: Day,
    bytes: &[u8],
) -> Result<(), Error>
    ensures same_reference { tx.new.conn.ghost_name ≡ tx.old.conn.ghost_name }
    ensures ran_open { RanOpen S.Store tx.old.conn.now tx.new.conn.now result }
    ensures steps { Steps S.Store tx.old.conn.now tx.new.conn.now result Any
        (with_filing_row filing.now.agent
        (live_filing filing.now.number key.now due bytes.now [])) }
{
    run(tx, INSERT_FILING, &filing_values(filing, key, due, bytes))
}

fn insert_statement<S: Alter>(
    tx: &mut Transaction<'_, S>,
    at: &At,
    statement: &Statement,
) -> Result<(), Error>
    ensures same_reference { tx.new.conn.ghost_name ≡ tx.old.conn.ghost_name }
    ensures steps { Steps S.Store tx.old.conn.now tx.new.conn.now result Any
        (with_statement_row (bare (record { at = at.now; statement = statement.now }))) }
{
    run(tx, INSERT_STATEMENT, &statement_values(at, statement))
}

/// The interests that a relationship has.
pub fn interests(details: &Details) -> &[Interest]
    ensures { result.now ≡ interests_listed details.now }
{
    match details {
        Details::Relationship { interests, .. } => interests.as_slice(),
        _ => &[],
    }
}

/// The identifiers that an entity has.
pub(crate) fn identifiers(details: &Details) -> &[Identifier]
    ensures { result.now ≡ identifiers_listed details.now }
{
    match details {
        Details::Entity { identifiers, .. } => identifiers.as_slice(),
        _ => &[],
    }
}

// A statement's row, its identifiers, its interests and their days.
fn insert_placed<S: Alter>(
    tx: &mut Transaction<'_, S>,
    at: &At,
    statement: &Statement,
) -> Result<(), Error>
    ensures same_reference { tx.new.conn.ghost_name ≡ tx.old.conn.ghost_name }
    ensures steps { Steps S.Store tx.old.conn.now tx.new.conn.now result Any
        (with_one_placed (record { at = at.now; statement = statement.now })) }
    ensures counted { IfOk result (λ _. IsCounted statement.now) }
{
    insert_statement(tx, at, statement)?;
    insert_items(tx, at, identifiers(&statement.details))?;
    insert_items(tx, at, interests(&statement.details))
}

fn insert_statements<S: Alter>(
    tx: &mut Transaction<'_, S>,
    filing: FilingKey,
    statements: &[Statement],
) -> Result<(), Error>
    ensures same_reference { tx.new.conn.ghost_name ≡ tx.old.conn.ghost_name }
    ensures steps { Steps S.Store tx.old.conn.now tx.new.conn.now result Any
        (in_turn (λ place s. with_one_placed (standing filing.agent filing.number place s)) 1
        statements.now) }
    ensures counted { IfOk result (λ _. AreCounted statements.now) }
{
    let mut at = filing.start();
    for statement in statements {
        at.place = next_number(at.place)?;
        insert_placed(tx, &at, statement)?;
    }
    Ok(())
}

// A filing and all that its statements have.
fn insert_rows<S: Alter>(
    tx: &mut Transaction<'_, S>,
    filing: FilingKey,
    key: &str,
    due: Day,
    bytes: &[u8],
    statements: &[Statement],
) -> Result<(), Error>
    ensures same_reference { tx.new.conn.ghost_name ≡ tx.old.conn.ghost_name }
    ensures ran_open { RanOpen S.Store tx.old.conn.now tx.new.conn.now result }
    ensures steps { Steps S.Store tx.old.conn.now tx.new.conn.now result Any
        (with_live_filing filing.agent filing.number key.now due bytes.now statements.now) }
    ensures counted { IfOk result (λ _. AreCounted statements.now) }
{
    insert_filing(tx, &filing, key, due, bytes)?;
    insert_statements(tx, filing, statements)
}

/// Adds a filing to those of its agent, in a transaction of its own: its row, then for each
/// statement its row, its identifiers and its interests. The number is the agent's next.
pub fn add_filing<S: Alter>(
    conn: &mut Connection<S>,
    filing: FilingKey,
    key: &LodgeKey,
    due: Day,
    bytes: &[u8],
    statements: &[Statement],
) -> Result<(), Error>
    ensures { Alters S.Store conn.old conn.new result
        (MayAdd filing.agent filing.number statements.now)
        (added filing.agent key.now due bytes.now statements.now) }
{
    if !conn.is_autocommit() {
        return Err(Error::SqliteFailure(ErrorCode::TransactionState));
    }
    // Their clauses say that the key has its form, and that the number is that of a day.
    let lodge_key = key.as_str();
    let _known = due.number();
    let mut tx = conn.transaction();
    let done = insert_rows(&mut tx, filing, lodge_key, due, bytes, statements);
    finish(tx, done)
}
