//! The statements of sorted rows.

ghost use Rattle.std.specs.Prelude.{◌≡◌, IfOk, map};
ghost use Rattle.std.specs.List.{flat_map};
ghost use Rattle.bor_store_sql.specs.Rows.Placed.{bare, interest_rows, identifier_rows, with_lists, AreApart};

use crate::rows::split::{identifiers, interests, split_identifiers, split_interests};
use crate::rows::typed::{IdentifierRow, InterestRow, Placed, StatementRow};
use bods_read::{Identifier, Interest};
use std::alloc::{AllocError, Global};

/// The statements whose rows these are, all sorted by place.
pub fn joined(
    alloc: Global,
    statements: Vec<StatementRow>,
    interests_sorted: &[InterestRow],
    identifiers_sorted: &[IdentifierRow],
) -> Result<Vec<Placed>, AllocError>
    ensures { IfOk result (λ placed. (ps : _) → AreApart ps → statements.items ≡ map bare ps
        → interests_sorted.now ≡ flat_map interest_rows ps
        → identifiers_sorted.now ≡ flat_map identifier_rows ps → placed.items ≡ ps) }
{
    let mut placed = Vec::new(alloc);
    let mut interests_left = interests_sorted;
    let mut identifiers_left = identifiers_sorted;
    for row in statements {
        let (own_interests, more_interests) = split_interests(interests_left, &row.at);
        let (own_identifiers, more_identifiers) = split_identifiers(identifiers_left, &row.at);
        interests_left = more_interests;
        identifiers_left = more_identifiers;
        let made = with_rows(alloc, row, own_interests, own_identifiers)?;
        placed.push(made)?;
    }
    Ok(placed)
}

// The statement of a row, with the interests and the identifiers of these rows.
fn with_rows(
    alloc: Global,
    row: StatementRow,
    own_interests: &[InterestRow],
    own_identifiers: &[IdentifierRow],
) -> Result<Placed, AllocError>
    ensures { IfOk result (λ placed. placed
        ≡ with_lists row (map (λ r. r.interest) own_interests.now)
        (map (λ r. r.identifier) own_identifiers.now)) }
{
    let (interests, identifiers) = lists(alloc, own_interests, own_identifiers)?;
    Ok(row.with(interests, identifiers))
}

// The interests and the identifiers of these rows.
fn lists(
    alloc: Global,
    own_interests: &[InterestRow],
    own_identifiers: &[IdentifierRow],
) -> Result<(Vec<Interest>, Vec<Identifier>), AllocError>
    ensures { IfOk result (λ lists.
        (lists.0.items ≡ map (λ r. r.interest) own_interests.now)
        × (lists.1.items ≡ map (λ r. r.identifier) own_identifiers.now)) }
{
    let interests = interests(alloc, own_interests)?;
    Ok((interests, identifiers(alloc, own_identifiers)?))
}
