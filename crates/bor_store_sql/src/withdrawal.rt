//! Withdrawing a filing.

ghost use Rattle.std.specs.Prelude.{◌≡◌};
ghost use Rattle.bor_store_sql.specs.Ran.{RanOpen};
ghost use Rattle.bor_store_sql.specs.Shown.{Alters, Always, Steps};
ghost use Rattle.bor_store_sql.specs.Changing.{IsOnce, withdrawn_in, withdrawn};

use crate::columns::filing_key;
use crate::running::{finish, run_each};
use crate::texts::changes::{
    DELETE_IDENTIFIERS, DELETE_INTERESTS, DELETE_PERIODS, DELETE_STATEMENTS, MARK_WITHDRAWN,
};
use sqlite::{Alter, Connection, Error, ErrorCode, Transaction};

fn withdraw_rows<S: Alter>(
    tx: &mut Transaction<'_, S>,
    agent: &str,
    number: u32,
) -> Result<(), Error>
    ensures same_reference { tx.new.conn.ghost_name ≡ tx.old.conn.ghost_name }
    ensures ran_open { RanOpen S.Store tx.old.conn.now tx.new.conn.now result }
    ensures steps { Steps S.Store tx.old.conn.now tx.new.conn.now result (IsOnce agent.now number)
        (withdrawn_in agent.now number) }
{
    let texts = [
        MARK_WITHDRAWN,
        DELETE_PERIODS,
        DELETE_IDENTIFIERS,
        DELETE_INTERESTS,
        DELETE_STATEMENTS,
    ];
    run_each(tx, &texts, &filing_key(agent, number))
}

/// Withdraws the agent's filing with this number, in a transaction of its own.
pub fn withdraw_filing<S: Alter>(
    conn: &mut Connection<S>,
    agent: &str,
    number: u32,
) -> Result<(), Error>
    ensures { Alters S.Store conn.old conn.new result Always (withdrawn agent.now number) }
{
    if !conn.is_autocommit() {
        return Err(Error::SqliteFailure(ErrorCode::TransactionState));
    }
    let mut tx = conn.transaction();
    let done = withdraw_rows(&mut tx, agent, number);
    finish(tx, done)
}
