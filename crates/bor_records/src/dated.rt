//! The statement that a record has on a day.

ghost use Rattle.std.specs.Prelude.{◌≡◌, Some, option_and_then, slice_get, if◌then◌else◌};
ghost use Rattle.bor_records.specs.Snapshot.{is_dated, latest, latest_place};

use crate::row::Row;
use bor_terms::Day;

/// Whether the row's statement is dated at or before the day.
pub(crate) fn is_dated(row: &Row, day: Day) -> bool
    ensures { result ≡ is_dated day row.now }
{
    row.statement.day <= day
}

// The row's place, where it is dated at or before the day, else the place of one before it.
fn latest_of(before: Option<usize>, place: usize, row: &Row, day: Day) -> Option<usize>
    ensures { result ≡ (if is_dated day row.now then Some place else before) }
{
    if is_dated(row, day) {
        Some(place)
    } else {
        before
    }
}

/// Where the latest row on a day stands among the rows of one record: the last one, in order of
/// lodging and of place, that is dated at or before the day. `None` where no row is. The record is
/// open on the day where that row is there and isn't closed (this register's profile of BODS 0.4,
/// `statementDate` and `recordStatus`). It takes no memory.
pub fn latest(rows: &[Row], day: Day) -> Option<usize>
    ensures place { result ≡ latest_place day rows.now }
    ensures row { option_and_then (slice_get rows.now) result ≡ latest day rows.now }
{
    let mut last = None;
    for (i, row) in rows.iter().enumerate() {
        last = latest_of(last, i, row, day);
    }
    last
}
