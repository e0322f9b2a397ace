//! Moving the tables of version 1 to those of version 2.

ghost use Rattle.std.specs.Prelude.{◌≡◌, [], ◌∷◌};
ghost use Rattle.sqlite.specs.Held.{state};
ghost use Rattle.bor_store_sql.specs.Changing.{all_periods};
ghost use Rattle.bor_store_sql.specs.Moving.{PutsPeriods, SetsVersion, MovesRows};
ghost use Rattle.bor_store_sql.specs.Ran.{Moves, RanOpen};
ghost use Rattle.bor_store_sql.specs.Shown.{AltersTo, ShowsFirst};

use crate::columns::{period_values, version_value};
use crate::creation::create_period;
use crate::rows::PeriodRow;
use crate::running::{finish, run};
use crate::texts::changes::{INSERT_PERIOD, UPDATE_VERSION};
use sqlite::{Alter, Connection, Error, ErrorCode, Transaction};

fn put_row<S: Alter>(tx: &mut Transaction<'_, S>, period: &PeriodRow) -> Result<(), Error>
    ensures same_reference { tx.new.conn.ghost_name ≡ tx.old.conn.ghost_name }
    ensures moves { Moves S.Store tx.old.conn.now tx.new.conn.now result
        (PutsPeriods (period.now ∷ [])) }
{
    run(
        tx,
        INSERT_PERIOD,
        &period_values(&period.at, period.item, period.starts, period.ends),
    )
}

fn put_rows<S: Alter>(tx: &mut Transaction<'_, S>, periods: &[PeriodRow]) -> Result<(), Error>
    ensures same_reference { tx.new.conn.ghost_name ≡ tx.old.conn.ghost_name }
    ensures moves { Moves S.Store tx.old.conn.now tx.new.conn.now result (PutsPeriods periods.now) }
{
    for period in periods {
        put_row(tx, period)?;
    }
    Ok(())
}

fn set_version<S: Alter>(tx: &mut Transaction<'_, S>) -> Result<(), Error>
    ensures same_reference { tx.new.conn.ghost_name ≡ tx.old.conn.ghost_name }
    ensures moves { Moves S.Store tx.old.conn.now tx.new.conn.now result SetsVersion }
{
    run(tx, UPDATE_VERSION, &version_value())
}

// Makes the table `period` with these rows, and sets the version.
fn move_rows<S: Alter>(tx: &mut Transaction<'_, S>, periods: &[PeriodRow]) -> Result<(), Error>
    ensures same_reference { tx.new.conn.ghost_name ≡ tx.old.conn.ghost_name }
    ensures ran_open { RanOpen S.Store tx.old.conn.now tx.new.conn.now result }
    ensures moves { Moves S.Store tx.old.conn.now tx.new.conn.now result (MovesRows periods.now) }
{
    create_period(tx)?;
    put_rows(tx, periods)?;
    set_version(tx)
}

/// Moves the tables of version 1 to those of version 2, with these rows of the days of interests,
/// in a transaction of its own. After a failure the tables are as they were, unless the store shut
/// in its commit.
pub fn move_tables<S: Alter>(conn: &mut Connection<S>, periods: &[PeriodRow]) -> Result<(), Error>
    ensures { AltersTo ShowsFirst (λ r. periods.now ≡ all_periods r.members) (λ r. r)
        (state S.Store conn.old) (state S.Store conn.new) result }
{
    if !conn.is_autocommit() {
        return Err(Error::SqliteFailure(ErrorCode::TransactionState));
    }
    let mut tx = conn.transaction();
    let done = move_rows(&mut tx, periods);
    finish(tx, done)
}
