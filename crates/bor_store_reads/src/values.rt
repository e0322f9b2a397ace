//! The values of the rows that a query finds.

ghost use Rattle.std.specs.Prelude.{◌≡◌, List, [], ◌∷◌, Bool, false, unwrap_or, map, not, length, ◌==◌, All, IfOk, IsOk, MatchResult, OnOk, slice_get};
ghost use Rattle.sqlite.specs.Order.{Row as SqlRow};
ghost use Rattle.bor_store_sql.specs.Rows.Encoding.{truth};
ghost use Rattle.bor_store_reads.specs.Answering.{IsNoDamage};

use crate::fault::ReadError;
use bor_store_sql::rows::{TableRow, first_flag, first_row, read_rows};
use sqlite::{Error, Row};
use std::alloc::Global;

/// The value of the first row; none where no row was found.
///
/// # Errors
///
/// An error in place of rows, want of memory, or a row that has no value of the type.
pub fn first_value<T: TableRow + Drop>(
    alloc: Global,
    found: Result<Vec<Row>, Error>,
) -> Result<Option<T>, ReadError>
    ensures value { (xs : List T) → IfOk found (λ rows. rows.items ≡ map T.columns xs)
        → All T.is_formed xs → MatchResult result (λ x. x ≡ slice_get xs 0) IsNoDamage }
    ensures found { OnOk result (IsOk found) }
{
    let rows = found?;
    Ok(first_row(alloc, rows.as_slice())?)
}

/// The values of all rows, in order.
///
/// # Errors
///
/// An error in place of rows, want of memory, or a row that has no value of the type.
pub fn all_values<T: TableRow + Drop>(
    alloc: Global,
    found: Result<Vec<Row>, Error>,
) -> Result<Vec<T>, ReadError>
    ensures values { (xs : List T) → IfOk found (λ rows. rows.items ≡ map T.columns xs)
        → All T.is_formed xs → MatchResult result (λ values. values.items ≡ xs) IsNoDamage }
    ensures found { OnOk result (IsOk found) }
{
    let rows = found?;
    Ok(read_rows(alloc, rows.as_slice())?)
}

/// Whether a row was found.
pub(crate) fn any(found: Result<Vec<Row>, Error>) -> Result<bool, ReadError>
    ensures any { (xs : List SqlRow) → IfOk found (λ rows. rows.items ≡ xs)
        → MatchResult result (λ any. any ≡ not (length xs == 0)) IsNoDamage }
    ensures found { OnOk result (IsOk found) }
{
    let rows = found?;
    Ok(!rows.as_slice().is_empty())
}

/// The truth value of the first row; false where no row was found.
pub(crate) fn flag(found: Result<Vec<Row>, Error>) -> Result<bool, ReadError>
    ensures flag { (bs : List Bool) → IfOk found (λ rows. rows.items ≡ map (λ b. truth b ∷ []) bs)
        → MatchResult result (λ flag. flag ≡ unwrap_or (slice_get bs 0) false) IsNoDamage }
    ensures found { OnOk result (IsOk found) }
{
    let rows = found?;
    Ok(first_flag(rows.as_slice())?)
}
