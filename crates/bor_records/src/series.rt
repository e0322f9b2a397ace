//! The rows that are open on a day, whosever they are: the latest of each series.

ghost use Rattle.std.specs.Prelude.{◌≡◌, ◌&&◌, ◌||◌, not, IfOk, OnOk, map};
ghost use Rattle.std.specs.BTreeSet.{contains};
ghost use Rattle.bor_records.specs.declared.series.Series.{Series};
ghost use Rattle.bor_records.specs.Admission.{is_closed};
ghost use Rattle.bor_records.specs.Snapshot.{is_dated};
ghost use Rattle.bor_records.specs.OpenRows.{open_rows};
ghost use Rattle.bor_records.specs.Seen.{IsOf, is_in, series_cmp};

use crate::dated::is_dated;
use crate::row::Row;
use bods_read::Status;
use bor_terms::Day;
use std::alloc::{AllocError, Global};
use std::collections::BTreeSet;

// A record of an agent's declaration, by the texts of one of its rows. The record is compared
// first: most rows are of few agents and declarations, so nearly all compares end with it.
#[derive(Clone, Copy, PartialEq, Eq, PartialOrd, Ord)]
struct Series<'a> {
    rec: &'a str,
    declaration: &'a str,
    agent: &'a str,
}

fn series_of(row: &Row) -> Series
    ensures { IsOf result row.now }
{
    Series {
        rec: row.statement.rec.as_str(),
        declaration: row.statement.declaration.as_str(),
        agent: row.agent.as_str(),
    }
}

// Whether the row is the latest of its series on the day, and open, where `seen` has the series of
// the rows after it that are dated. Its own is added.
fn is_latest<'a>(
    seen: &mut BTreeSet<Series<'a>>,
    series: Series<'a>,
    row: &Row,
    day: Day,
) -> Result<bool, AllocError>
    requires { IsOf series row.now }
    ensures latest { IfOk result (λ latest.
        latest ≡ (is_dated day row.now && not (is_closed row.now.status)
        && not (contains series_cmp seen.old series.entry))) }
    ensures seen { OnOk result ((other : Series) →
        contains series_cmp seen.new other
        ≡ ((is_in other row.now && is_dated day row.now) || contains series_cmp seen.old other)) }
{
    if !is_dated(row, day) {
        return Ok(false);
    }
    let fresh = seen.insert(series)?;
    Ok(fresh && row.status != Status::Closed)
}

/// The rows that are open on a day, in their order: of each series, which is the statements of one
/// record of an agent's declaration, the latest, where it isn't closed (this register's profile of
/// BODS 0.4, `statementDate` and `recordStatus`). The rows may be of several agents; no text is
/// copied. It takes the time of n look-ups among n.
pub fn open_rows<'a>(alloc: Global, rows: &'a [Row], day: Day) -> Result<Vec<&'a Row>, AllocError>
    ensures { IfOk result (λ latest. map (λ x. x.now) latest.items ≡ open_rows day rows.now) }
{
    let mut seen = BTreeSet::new(alloc);
    let mut latest = Vec::new(alloc);
    let mut next = rows.len();
    while next > 0 {
        next -= 1;
        let row = &rows[next];
        if is_latest(&mut seen, series_of(row), row, day)? {
            latest.push(row)?;
        }
    }
    latest.reverse();
    Ok(latest)
}
