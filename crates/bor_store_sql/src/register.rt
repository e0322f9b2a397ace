//! Setting the register's day, adding an agent, and renewing an agent's token.

ghost use Rattle.std.specs.Prelude.{◌≡◌, false};
ghost use Rattle.bor_register.specs.Additions.{with_renewal};
ghost use Rattle.bor_register.specs.Register.{is_enrolled, new_member};
ghost use Rattle.bor_store_sql.specs.Rows.Encoding.{agent_columns};
ghost use Rattle.bor_store_sql.specs.Ran.{RanOpen};
ghost use Rattle.bor_store_sql.specs.Shown.{Alters, Always, Steps};
ghost use Rattle.bor_store_sql.specs.Changing.{Any, IsOneAgent, IsOneRegister, with_day, with_agent_row, with_token_row, enrolled};

use crate::columns::{agent_values, day_value, two_texts};
use crate::running::{finish, run};
use crate::texts::changes::{INSERT_AGENT, UPDATE_DAY, UPDATE_TOKEN};
use bor_terms::{AgentName, Day, Token};
use sqlite::{Alter, Connection, Error, ErrorCode, Transaction};

fn update_day<S: Alter>(tx: &mut Transaction<'_, S>, day: Day) -> Result<(), Error>
    ensures same_reference { tx.new.conn.ghost_name ≡ tx.old.conn.ghost_name }
    ensures ran_open { RanOpen S.Store tx.old.conn.now tx.new.conn.now result }
    ensures steps { Steps S.Store tx.old.conn.now tx.new.conn.now result (IsOneRegister day)
        (with_day day) }
{
    run(tx, UPDATE_DAY, &day_value(day))
}

fn insert_agent<S: Alter>(
    tx: &mut Transaction<'_, S>,
    agent: &str,
    token: &str,
) -> Result<(), Error>
    ensures same_reference { tx.new.conn.ghost_name ≡ tx.old.conn.ghost_name }
    ensures ran_open { RanOpen S.Store tx.old.conn.now tx.new.conn.now result }
    ensures steps { Steps S.Store tx.old.conn.now tx.new.conn.now result Any
        (with_agent_row (agent_columns (new_member agent.now token.now))) }
{
    run(tx, INSERT_AGENT, &agent_values(agent, token))
}

fn update_token<S: Alter>(
    tx: &mut Transaction<'_, S>,
    agent: &str,
    token: &str,
) -> Result<(), Error>
    ensures same_reference { tx.new.conn.ghost_name ≡ tx.old.conn.ghost_name }
    ensures ran_open { RanOpen S.Store tx.old.conn.now tx.new.conn.now result }
    ensures steps { Steps S.Store tx.old.conn.now tx.new.conn.now result (IsOneAgent agent.now)
        (with_token_row agent.now token.now) }
{
    run(tx, UPDATE_TOKEN, &two_texts(agent, token))
}

/// Sets the register's day, in a transaction of its own.
pub fn set_day<S: Alter>(conn: &mut Connection<S>, day: Day) -> Result<(), Error>
    ensures { Alters S.Store conn.old conn.new result Always (λ r. record r { day = day }) }
{
    if !conn.is_autocommit() {
        return Err(Error::SqliteFailure(ErrorCode::TransactionState));
    }
    // Its clause says that the number is that of a day.
    let _known = day.number();
    let mut tx = conn.transaction();
    let done = update_day(&mut tx, day);
    finish(tx, done)
}

/// Adds an agent, in a transaction of its own.
pub fn add_agent<S: Alter>(
    conn: &mut Connection<S>,
    agent: &AgentName,
    token: &Token,
) -> Result<(), Error>
    ensures { Alters S.Store conn.old conn.new result
        (λ r. is_enrolled agent.now r.members ≡ false) (enrolled agent.now token.now) }
{
    if !conn.is_autocommit() {
        return Err(Error::SqliteFailure(ErrorCode::TransactionState));
    }
    let name = agent.as_str();
    let secret = token.as_str();
    let mut tx = conn.transaction();
    let done = insert_agent(&mut tx, name, secret);
    finish(tx, done)
}

/// Gives an agent another token, in a transaction of its own; with no such agent all stays. The
/// table refuses a token that another agent has.
pub fn set_token<S: Alter>(
    conn: &mut Connection<S>,
    agent: &AgentName,
    token: &Token,
) -> Result<(), Error>
    ensures { Alters S.Store conn.old conn.new result Always (with_renewal agent.now token.now) }
{
    if !conn.is_autocommit() {
        return Err(Error::SqliteFailure(ErrorCode::TransactionState));
    }
    let name = agent.as_str();
    let secret = token.as_str();
    let mut tx = conn.transaction();
    let done = update_token(&mut tx, name, secret);
    finish(tx, done)
}
