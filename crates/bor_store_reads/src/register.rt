//! The register's day and the registrar's token.

ghost use Rattle.std.specs.Prelude.{◌≡◌, IfOk, Some};
ghost use Rattle.sqlite.specs.Held.{state};
ghost use Rattle.bor_store_sql.specs.Rows.Placed.{register_row};
ghost use Rattle.bor_store_sql.specs.Shown.{IsUp};
ghost use Rattle.bor_store_reads.specs.Answering.{ReadsIn};

use crate::fault::ReadError;
use crate::values::first_value;
use bor_store_sql::all_register;
use bor_store_sql::rows::RegisterRow;
use bor_terms::Day;
use sqlite::{Alter, Connection};
use std::alloc::Global;

fn found_register<S: Alter>(
    conn: &mut Connection<S>,
    alloc: Global,
) -> Result<Option<RegisterRow>, ReadError>
    ensures reads { ReadsIn S.Store conn.old conn.new result (λ r row.
        row ≡ Some (register_row r)) }
    ensures up { IfOk result (λ _. IsUp (state S.Store conn.new)) }
{
    first_value(alloc, all_register(conn))
}

/// The register's row.
pub(crate) fn read_register<S: Alter>(
    conn: &mut Connection<S>,
    alloc: Global,
) -> Result<RegisterRow, ReadError>
    ensures reads { ReadsIn S.Store conn.old conn.new result (λ r row. row ≡ register_row r) }
    ensures up { IfOk result (λ _. IsUp (state S.Store conn.new)) }
{
    match found_register(conn, alloc)? {
        Some(row) => Ok(row),
        None => Err(ReadError::Damaged),
    }
}

/// The register's day.
pub fn read_day<S: Alter>(conn: &mut Connection<S>, alloc: Global) -> Result<Day, ReadError>
    ensures { ReadsIn S.Store conn.old conn.new result (λ r day. day ≡ r.day) }
{
    Ok(read_register(conn, alloc)?.day)
}
