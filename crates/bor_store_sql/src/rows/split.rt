//! The first rows of a sorted list: those of one owner.

ghost use Rattle.std.specs.Prelude.{◌≡◌, ◌++◌, IfOk, map, Bool, true, false};
ghost use Rattle.std.specs.Fn.{FnReturnsAt};
ghost use Rattle.std.specs.List.{AllByRecursion};
ghost use Rattle.bor_store_sql.specs.Rows.Placed.{same_place};

use crate::rows::places::At;
use crate::rows::typed::{IdentifierRow, InterestRow};
use bods_read::{Identifier, Interest};
use std::alloc::{AllocError, Global};

/// The rows that pass, which come first, and those that follow.
pub(crate) fn split_own<'a, T, P: Fn(&T) -> bool>(rows: &'a [T], is_own: P) -> (&'a [T], &'a [T])
    requires { P.IsAlwaysCallable is_own }
    ensures { (own : T → Bool) → ((x : T) (r : Bool) → FnReturnsAt P.Fn is_own x r → r ≡ own x)
        → (mine more : _) → rows.now ≡ mine ++ more
        → AllByRecursion (λ x. own x ≡ true) mine → AllByRecursion (λ x. own x ≡ false) more
        → (result.0.now ≡ mine) × (result.1.now ≡ more) }
{
    for (count, row) in rows.iter().enumerate() {
        if !is_own(row) {
            return rows.split_at(count);
        }
    }
    rows.split_at(rows.len())
}

/// The rows at this place, and those that follow, where none of them is at it.
pub(crate) fn split_interests<'a>(
    rows: &'a [InterestRow],
    at: &At,
) -> (&'a [InterestRow], &'a [InterestRow])
    ensures { (mine more : _) → rows.now ≡ mine ++ more
        → AllByRecursion (λ row. same_place row.at at.now ≡ true) mine
        → AllByRecursion (λ row. same_place row.at at.now ≡ false) more
        → (result.0.now ≡ mine) × (result.1.now ≡ more) }
{
    split_own(rows, |row| row.at == *at)
}

/// The rows at this place, and those that follow, where none of them is at it.
pub(crate) fn split_identifiers<'a>(
    rows: &'a [IdentifierRow],
    at: &At,
) -> (&'a [IdentifierRow], &'a [IdentifierRow])
    ensures { (mine more : _) → rows.now ≡ mine ++ more
        → AllByRecursion (λ row. same_place row.at at.now ≡ true) mine
        → AllByRecursion (λ row. same_place row.at at.now ≡ false) more
        → (result.0.now ≡ mine) × (result.1.now ≡ more) }
{
    split_own(rows, |row| row.at == *at)
}

/// The interests of these rows.
pub(crate) fn interests(alloc: Global, rows: &[InterestRow]) -> Result<Vec<Interest>, AllocError>
    ensures { IfOk result (λ interests. interests.items ≡ map (λ row. row.interest) rows.now) }
{
    rows.iter().map(|row| row.interest).collect(alloc)
}

/// Copies of the identifiers of these rows.
pub(crate) fn identifiers(
    alloc: Global,
    rows: &[IdentifierRow],
) -> Result<Vec<Identifier>, AllocError>
    ensures { IfOk result (λ identifiers.
        identifiers.items ≡ map (λ row. row.identifier) rows.now) }
{
    let mut identifiers = Vec::new(alloc);
    for row in rows {
        identifiers.push(row.identifier.copy(alloc)?)?;
    }
    Ok(identifiers)
}
