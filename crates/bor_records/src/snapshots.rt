//! The statements that a declaration's records have on a day.

ghost use Rattle.std.specs.Prelude.{◌≡◌, ◌&&◌, ℕ, List, IfOk};
ghost use Rattle.bor_terms.specs.Texts.{is_same};
ghost use Rattle.bor_records.specs.Found.{found_at};
ghost use Rattle.bor_records.specs.Snapshot.{is_dated, latest, record_rows, entry_of, snapshot};

use crate::dated::is_dated;
use crate::row::{Entry, Row};
use bods_read::Status;
use bor_terms::{Day, Ident};
use std::alloc::{AllocError, Global};
use std::collections::BTreeMap;

fn counts(row: &Row, declaration: &Ident, day: Day) -> bool
    ensures { result ≡ (is_same row.now.statement.declaration declaration.now
        && is_dated day row.now) }
{
    row.statement.declaration == *declaration && is_dated(row, day)
}

// The latest row of each record of the declaration, by the record's identifier.
fn latest_rows<'a>(
    alloc: Global,
    rows: &'a [Row],
    declaration: &Ident,
    day: Day,
) -> Result<BTreeMap<&'a str, &'a Row>, AllocError>
    ensures { IfOk result (λ found. (rec : List ℕ) →
        found_at found rec ≡ latest day (record_rows declaration.now rec rows.now)) }
{
    let mut found = BTreeMap::new(alloc);
    for row in rows {
        if counts(row, declaration, day) {
            found.insert(row.statement.rec.as_str(), row)?;
        }
    }
    Ok(found)
}

fn entry(alloc: Global, row: &Row) -> Result<Entry, AllocError>
    ensures { IfOk result (λ entry. entry ≡ entry_of row.now) }
{
    Ok(Entry {
        status: row.status,
        statement: row.statement.copy(alloc)?,
    })
}

/// The latest statements on a day of a declaration's open records, in the order of the records'
/// identifiers, byte by byte. The rows are those of one agent, of all declarations, in order of
/// lodging and of place (this register's profile of BODS 0.4, `recordStatus`). Only what is
/// answered is copied.
pub fn snapshot(
    alloc: Global,
    rows: &[Row],
    declaration: &Ident,
    day: Day,
) -> Result<Vec<Entry>, AllocError>
    ensures { IfOk result (λ entries. entries.items ≡ snapshot declaration.now day rows.now) }
{
    let found = latest_rows(alloc, rows, declaration, day)?;
    let mut entries = Vec::new(alloc);
    for row in found.values() {
        if row.status != Status::Closed {
            entries.push(entry(alloc, *row)?)?;
        }
    }
    Ok(entries)
}
