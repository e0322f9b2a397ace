//! Interests with their days, from the sorted rows of two tables.

ghost use Rattle.std.specs.Prelude.{◌≡◌, IfOk, map};
ghost use Rattle.std.specs.List.{flat_map};
ghost use Rattle.bor_store_sql.specs.Rows.Placed.{AreSeveral, OfNext, interest_line, period_rows, same_interest};

use crate::rows::typed::{InterestLine, InterestRow, PeriodRow};
use bods_read::Interest;
use bor_terms::Day;
use std::alloc::{AllocError, Global};

fn is_of(period: &PeriodRow, line: &InterestLine) -> bool
    ensures { result ≡ same_interest period.now.at period.now.item line.now.at line.now.item }
{
    period.item == line.item && period.at == line.at
}

// The days of the interest: those of the first row where it is the interest's, else none.
fn days_of(periods: &[PeriodRow], line: &InterestLine) -> (Option<Day>, Option<Day>)
    ensures { OfNext line.now periods.now (λ i others.
        (result.0 ≡ i.interest.starts) × (result.1 ≡ i.interest.ends)) }
{
    match periods.first() {
        Some(first) if is_of(first, line) => (first.starts, first.ends),
        _ => (None, None),
    }
}

// The rows of other interests: all but the first where it is the interest's, else all.
fn beyond<'a>(periods: &'a [PeriodRow], line: &InterestLine) -> &'a [PeriodRow]
    ensures { OfNext line.now periods.now (λ i others. result.now ≡ others) }
{
    match periods.split_first() {
        Some((first, more)) if is_of(first, line) => more,
        _ => periods,
    }
}

/// The interests whose rows in both tables these are, all sorted by place and item. An interest
/// without a row among the periods has no days.
pub fn with_periods(
    alloc: Global,
    lines: Vec<InterestLine>,
    periods_sorted: &[PeriodRow],
) -> Result<Vec<InterestRow>, AllocError>
    ensures { IfOk result (λ rows. (is : _) → AreSeveral is → lines.items ≡ map interest_line is
        → periods_sorted.now ≡ flat_map period_rows is → rows.items ≡ is) }
{
    let mut rows = Vec::new(alloc);
    let mut left = periods_sorted;
    for line in lines {
        let (starts, ends) = days_of(left, &line);
        left = beyond(left, &line);
        rows.push(InterestRow {
            at: line.at,
            item: line.item,
            interest: Interest {
                kind: line.kind,
                directness: line.directness,
                share: line.share,
                starts,
                ends,
            },
        })?;
    }
    Ok(rows)
}
