//! Setting a register up.

ghost use Rattle.std.specs.Prelude.{◌≡◌, ◌≢◌, ◌↔◌, false, Err, OnOk, OnErr, IsTrue};
ghost use Rattle.sqlite.specs.Held.{state};
ghost use Rattle.sqlite.specs.State.{HasCleanDisk};
ghost use Rattle.bor_register.specs.Register.{empty_register};
ghost use Rattle.bor_store_sql.specs.Beside.{SetsUp, SetsUpIn};
ghost use Rattle.bor_store_sql.specs.Texts.Tables.{no_schema};
ghost use Rattle.bor_store_sql.specs.Shown.{IsClean, IsUp, LeavesAtMost, ShowsIn, Stands};
ghost use Rattle.bor_store.specs.declared.open_fault.OpenFault.TheVariants as faults;

use crate::open_fault::OpenFault;
use bor_store_sql::set_up as make_tables;
use bor_terms::{Day, Token};
use sqlite::{Alter, Connection};
use sqlite_schema::schema::Schema;

// Whether a store has no table, no index and no view.
fn is_bare(schema: &Schema) -> bool
    ensures { IsTrue result ↔ (schema.now ≡ no_schema) }
{
    schema.tables.is_empty() && schema.indexes.is_empty() && schema.views.is_empty()
}

/// Sets up a register of this day and registrar with no agents and no filings, in one transaction,
/// in a store that has no table, no index and no view; of any other it is [`OpenFault::Taken`], and
/// the store stays as it was. What SQL here doesn't read stays as it was too. With a transaction
/// open it is [`OpenFault::Store`]. Another fault than `Taken` leaves what the last commit left,
/// unless the store shut in its commit.
pub fn set_up<S: Alter>(
    conn: &mut Connection<S>,
    registrar: &Token,
    day: Day,
) -> Result<(), OpenFault>
    ensures mode { conn.new.in_transaction ≡ conn.old.in_transaction }
    ensures settled { OnOk result (conn.old.in_transaction ≡ false) }
    ensures clean { HasCleanDisk (state S.Store conn.new) → HasCleanDisk (state S.Store conn.old) }
    ensures up { OnOk result (IsUp (state S.Store conn.new)) }
    ensures began { IsClean (state S.Store conn.new) → IsClean (state S.Store conn.old) }
    ensures taken { (result ≡ Err faults.Taken)
        ↔ ((state S.Store conn.old).now.schema ≢ no_schema) }
    ensures untouched { result ≡ Err faults.Taken → conn.new ≡ conn.old }
    ensures bare { OnOk result ((state S.Store conn.old).now.schema ≡ no_schema) }
    ensures made { IsClean (state S.Store conn.new)
        → OnOk result (ShowsIn (empty_register registrar.now day) (state S.Store conn.new)) }
    ensures kept { IsClean (state S.Store conn.new)
        → OnErr result ((state S.Store conn.new).committed ≡ (state S.Store conn.old).committed) }
    ensures stops { LeavesAtMost (Stands (empty_register registrar.now day))
        (state S.Store conn.old) (state S.Store conn.new) }
    ensures beside { IsClean (state S.Store conn.new)
        → OnOk result (SetsUp (empty_register registrar.now day) (state S.Store conn.old).committed
        (state S.Store conn.new).committed) }
    ensures stops_beside { LeavesAtMost
        (SetsUpIn (empty_register registrar.now day) (state S.Store conn.old).committed)
        (state S.Store conn.old) (state S.Store conn.new) }
{
    if !is_bare(conn.schema()) {
        return Err(OpenFault::Taken);
    }
    if !conn.is_autocommit() {
        return Err(OpenFault::Store);
    }
    make_tables(conn, registrar, day)?;
    Ok(())
}
