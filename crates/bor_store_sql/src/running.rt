//! Running a statement of a transaction, and ending the transaction.

ghost use Rattle.std.specs.Prelude.{◌≡◌, false, map};
ghost use Rattle.sqlite.specs.Held.{state};
ghost use Rattle.sqlite.specs.Values.{bound};
ghost use Rattle.bor_store_sql.specs.Ran.{Ends, Ran, RanEach};

use sqlite::types::ValueRef;
use sqlite::{Alter, Error, Transaction};

/// Runs a statement of the transaction that is under way.
pub(crate) fn run<S: Alter>(
    tx: &mut Transaction<'_, S>,
    sql: &str,
    params: &[ValueRef<'_>],
) -> Result<(), Error>
    ensures same_reference { tx.new.conn.ghost_name ≡ tx.old.conn.ghost_name }
    ensures ran { Ran sql.now (bound params.now) (state S.Store tx.old.conn.now)
        (state S.Store tx.new.conn.now) result }
{
    tx.execute(sql, params)?;
    Ok(())
}

/// Runs statements of the transaction that is under way, each with these parameters.
pub(crate) fn run_each<S: Alter>(
    tx: &mut Transaction<'_, S>,
    texts: &[&str],
    params: &[ValueRef<'_>],
) -> Result<(), Error>
    ensures same_reference { tx.new.conn.ghost_name ≡ tx.old.conn.ghost_name }
    ensures ran { RanEach S.Store (map (λ text. text.now) texts.now) (bound params.now)
        tx.old.conn.now tx.new.conn.now result }
{
    for sql in texts {
        run(tx, sql, params)?;
    }
    Ok(())
}

/// Commits the transaction where all went well that was done in it, and else undoes it.
pub(crate) fn finish<S: Alter>(tx: Transaction<'_, S>, done: Result<(), Error>) -> Result<(), Error>
    ensures mode { tx.exit.0.now.in_transaction ≡ false }
    ensures ends { Ends (state S.Store tx.entry.conn.now) (state S.Store tx.exit.0.now) done
        result }
{
    done?;
    tx.commit()
}
