//! The move of tables of version 1 to version 2.

ghost use Rattle.std.specs.Prelude.{◌≡◌, ◌⊎◌, true, false, Err, IfErr, IsErrAnd, IsTrue, MatchResult, OnOk};
ghost use Rattle.sqlite.specs.Held.{state};
ghost use Rattle.sqlite.specs.State.{HasCleanDisk};
ghost use Rattle.bor_desk.specs.Operations.Legality.{IsLegal};
ghost use Rattle.bor_register.specs.Register.{Register};
ghost use Rattle.bor_store_sql.specs.Shown.{Commits, IsClean, IsUp, LeavesAtMost, ShowsFirst, ShowsIn, Stands};
ghost use Rattle.bor_store_sql.specs.Found.{ReadsOnly};
ghost use Rattle.bor_store.specs.Opening.{IsFailure, is_period_used, is_used, is_versioned, version_in};
ghost use Rattle.bor_store.specs.Migrating.{IsMoveJudged, IsVersionJudged, Migrates, TellsVersion};
ghost use Rattle.bor_store.specs.declared.open_fault.OpenFault.TheVariants as faults;

use crate::adoption::{has_all, has_first, is_versioned, version_in, version_rows};
use crate::files::days_in_files;
use crate::open_fault::OpenFault;
use bor_store_sql::move_tables;
use bor_store_sql::texts::changes::{FIRST_VERSION, VERSION};
use sqlite::{Alter, Connection, Row};
use sqlite_schema::schema::Schema;
use std::alloc::Global;

// Whether a table, an index or a view has the name, but for the case of ASCII letters.
fn is_used(schema: &Schema, name: &str) -> bool
    ensures { result ≡ is_used schema.now name.now }
{
    let name = name.as_bytes();
    schema.table_named(name).is_some()
        || schema.index_named(name).is_some()
        || schema.view_named(name).is_some()
}

// Whether tables are of version 1, and not of version 2: by the rows of their versions, and by
// whether all tables of each version are there and the name `period` is used.
fn version_told(rows: &[Row], first: bool, used: bool, second: bool) -> Result<bool, OpenFault>
    ensures { IsErrAnd result IsFailure ⊎ TellsVersion
        (version_in rows.now) first used second result }
{
    let version = version_in(rows)?;
    if version == FIRST_VERSION {
        if !first {
            return Err(OpenFault::NoRegister);
        }
        if used {
            return Err(OpenFault::Taken);
        }
        return Ok(true);
    }
    if version != VERSION {
        return Err(OpenFault::OtherVersion(version));
    }
    if !second {
        return Err(OpenFault::NoRegister);
    }
    Ok(false)
}

// Whether the tables of a connection are of version 1, and not of version 2.
#[tactic(auto, using(crate::proofs::Judging::fault_fails))]
fn is_first<S: Alter>(conn: &mut Connection<S>) -> Result<bool, OpenFault>
    ensures reads { ReadsOnly (state S.Store conn.old) (state S.Store conn.new) }
    ensures busy { IsTrue conn.old.in_transaction
        → (result ≡ Err faults.Store) × (conn.new ≡ conn.old) }
    ensures settled { OnOk result (conn.old.in_transaction ≡ false) }
    ensures up { OnOk result (IsUp (state S.Store conn.new)) }
    ensures bare { conn.old.in_transaction ≡ false
        → is_versioned (state S.Store conn.old).now.schema ≡ false
        → result ≡ Err faults.NoRegister }
    ensures taken { result ≡ Err faults.Taken
        → IsTrue (is_period_used (state S.Store conn.old).now.schema) }
    ensures judged { HasCleanDisk (state S.Store conn.new)
        → IsVersionJudged (state S.Store conn.old) result }
    ensures first { IsClean (state S.Store conn.new)
        → (r : Register) → ShowsFirst r (state S.Store conn.old)
        → MatchResult result (λ first. first ≡ true) IsFailure }
    ensures second { IsClean (state S.Store conn.new)
        → (r : Register) → ShowsIn r (state S.Store conn.old)
        → MatchResult result (λ first. first ≡ false) IsFailure }
{
    if !conn.is_autocommit() {
        return Err(OpenFault::Store);
    }
    if !is_versioned(conn.schema()) {
        return Err(OpenFault::NoRegister);
    }
    let first = has_first(conn.schema());
    let used = is_used(conn.schema(), "period");
    let second = has_all(conn.schema());
    let rows = version_rows(conn)?;
    version_told(rows.as_slice(), first, used, second)
}

// Moves tables of version 1.
#[tactic(auto, using(crate::proofs::Judging::fault_fails))]
fn move_first<S: Alter>(conn: &mut Connection<S>, alloc: Global) -> Result<(), OpenFault>
    ensures commits { Commits (state S.Store conn.old) (state S.Store conn.new) result }
    ensures told { IfErr result (λ fault. IsFailure fault ⊎ (fault ≡ faults.Damaged)) }
    ensures refused { IfErr result (λ fault. IsFailure fault
        ⊎ ReadsOnly (state S.Store conn.old) (state S.Store conn.new)) }
    ensures migrated { IsClean (state S.Store conn.new)
        → (r : Register) → ShowsFirst r (state S.Store conn.old)
        → Migrates r (state S.Store conn.new) result }
    ensures stops { LeavesAtMost (λ trees. (r : Register) → ShowsFirst r (state S.Store conn.old)
        → IsLegal r → Stands r trees) (state S.Store conn.old) (state S.Store conn.new) }
{
    let days = days_in_files(conn, alloc)?;
    move_tables(conn, days.as_slice())?;
    Ok(())
}

/// Moves the tables of a register from version 1 to version 2, in one transaction: the table
/// `period` is made and filled from the files of the live filings, and the version is set. Tables
/// of version 2 stay as they are. With a transaction open it is [`OpenFault::Store`], and nothing
/// is done. Else [`OpenFault::NoRegister`] comes first, where there is no table `register` with the
/// columns `one` and `version`, or not exactly one row in it, with a whole version; then
/// [`OpenFault::OtherVersion`] where that is neither 1 nor 2; then `NoRegister` where another table
/// or column of a register of this version is missing. Of version 1 [`OpenFault::Taken`] comes
/// where a table, an index or a view is named `period`, and then [`OpenFault::Damaged`] where the
/// reader refuses the file of a live filing, or what it is read to isn't what the tables have of
/// the filing, but for statuses that it leaves out and for days, or a row of a filing has a value
/// of no form. A fault other than `Memory` and `Store` comes before anything is written
/// (`ReadsOnly`). These two leave the tables as they were, unless the store shut in its commit.
/// Then the next opening finds the tables as they were, or, of a legal register, all of them moved,
/// if the disk has returned what was written.
pub fn migrate<S: Alter>(conn: &mut Connection<S>, alloc: Global) -> Result<(), OpenFault>
    ensures commits { Commits (state S.Store conn.old) (state S.Store conn.new) result }
    ensures refused { IfErr result (λ fault. IsFailure fault
        ⊎ ReadsOnly (state S.Store conn.old) (state S.Store conn.new)) }
    ensures busy { IsTrue conn.old.in_transaction
        → (result ≡ Err faults.Store) × (conn.new ≡ conn.old) }
    ensures bare { conn.old.in_transaction ≡ false
        → is_versioned (state S.Store conn.old).now.schema ≡ false
        → result ≡ Err faults.NoRegister }
    ensures taken { result ≡ Err faults.Taken
        → IsTrue (is_period_used (state S.Store conn.old).now.schema) }
    ensures judged { IsClean (state S.Store conn.new)
        → IsMoveJudged (state S.Store conn.old) (state S.Store conn.new) result }
    ensures unchanged { IsClean (state S.Store conn.new)
        → (r : Register) → ShowsIn r (state S.Store conn.old)
        → MatchResult result (λ _. (state S.Store conn.new).committed
        ≡ (state S.Store conn.old).committed) IsFailure }
    ensures migrated { IsClean (state S.Store conn.new)
        → (r : Register) → ShowsFirst r (state S.Store conn.old)
        → Migrates r (state S.Store conn.new) result }
    ensures legal { IsClean (state S.Store conn.new)
        → (r : Register) → ShowsFirst r (state S.Store conn.old) → IsLegal r
        → MatchResult result (λ _. ShowsIn r (state S.Store conn.new)) IsFailure }
    ensures stops { LeavesAtMost (λ trees.
        ((r : Register) → ShowsFirst r (state S.Store conn.old) → IsLegal r → Stands r trees)
        × ((r : Register) → ShowsIn r (state S.Store conn.old) → Stands r trees))
        (state S.Store conn.old) (state S.Store conn.new) }
{
    let first = is_first(conn)?;
    if !first {
        return Ok(());
    }
    move_first(conn, alloc)
}
