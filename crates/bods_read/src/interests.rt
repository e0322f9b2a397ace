//! The interests of a relationship, from an array.

ghost use Rattle.std.specs.Prelude.{◌≡◌, Some, None, map, option_map};
ghost use Rattle.serde_json.specs.View.{view};
ghost use Rattle.bods_read.specs.Outcome.{Gives, outcome};
ghost use Rattle.bods_read.specs.Words.{interest_worded, directness_worded};
ghost use Rattle.bods_read.specs.Interests.{is_share_read, starts_in, ends_in, share_lines, share_of, interest_object_lines, interest_lines, interest_of, each_lines, interests_lines, interests_of};

use crate::fault::{Fault, Field};
use crate::interest::{Directness, Interest, InterestKind};
use crate::member::{array, member, text_at};
use crate::share::range;
use crate::trouble::Trouble;
use crate::words::worded_or;
use bor_terms::{Day, Listed, Span};
use serde_json::Value;
use std::alloc::Global;

// Whether shares of interests of the kind are read.
fn is_named(kind: InterestKind) -> bool
    ensures { result ≡ is_share_read kind }
{
    !matches!(kind, InterestKind::Other)
}

// The share of an interest of the kind, where it has one that is read.
#[tactic(auto, unfolding(crate::specs::Interests::share_lines, crate::specs::Interests::share_of, crate::specs::Member::object_in))]
fn share(kind: InterestKind, interest: &Value) -> Result<Option<Span>, Trouble>
    ensures { Gives (λ o. o) result
        (outcome (share_lines kind (view interest.now)) (share_of kind (view interest.now))) }
{
    if !is_named(kind) {
        return Ok(None);
    }
    match member(interest, Field::Share.as_str()) {
        None => Ok(None),
        Some(value) => {
            if !value.is_object() {
                return Err(Trouble::Fault(Fault::Bad(Field::Share)));
            }
            Ok(Some(range(value)?))
        }
    }
}

// A value that is no text, or names no day, month or year, counts as absent.
fn starts(interest: &Value) -> Option<Day>
    ensures { result ≡ starts_in (view interest.now) }
{
    Day::read_start(text_at(interest, "startDate")?)
}

// The lines of its end, in the same way.
fn ends(interest: &Value) -> Option<Day>
    ensures { result ≡ ends_in (view interest.now) }
{
    Day::read_end(text_at(interest, "endDate")?)
}

#[tactic(auto, using(crate::proofs::MembersRead::interest_rules), unfolding(crate::specs::Words::interest_worded))]
fn of_object(value: &Value) -> Result<Interest, Trouble>
    ensures { Gives (λ i. i) result
        (outcome (interest_object_lines (view value.now)) (interest_of (view value.now))) }
{
    let kind = worded_or(text_at(value, "type"), InterestKind::Other);
    let directness = worded_or(text_at(value, "directOrIndirect"), Directness::Unknown);
    let share = share(kind, value)?;
    let starts = starts(value);
    let ends = ends(value);
    Ok(Interest {
        kind,
        directness,
        share,
        starts,
        ends,
    })
}

#[tactic(auto, unfolding(crate::specs::Interests::interest_lines, crate::specs::Member::object_in))]
fn interest(value: &Value) -> Result<Interest, Trouble>
    ensures { Gives (λ i. i) result
        (outcome (interest_lines (view value.now)) (interest_of (view value.now))) }
{
    if !value.is_object() {
        return Err(Trouble::Fault(Fault::Bad(Field::Interests)));
    }
    of_object(value)
}

fn each(alloc: Global, values: &[Value]) -> Result<Vec<Interest>, Trouble>
    ensures { Gives (λ v. v.items) result (outcome (each_lines (map view values.now))
        (map interest_of (map view values.now))) }
{
    let mut interests = Vec::new(alloc);
    for value in values {
        let interest = interest(value)?;
        // (the prover finds the type of a share by this line)
        let share = interest.share;
        interests.push(Interest { share, ..interest })?;
    }
    Ok(interests)
}

/// The interests of a relationship, in order.
#[tactic(auto, using(crate::proofs::Tables::table_rules), unfolding(crate::specs::Interests::interests_lines, crate::specs::Interests::interests_of))]
pub(crate) fn interests(alloc: Global, details: &Value) -> Result<Listed<Interest>, Trouble>
    ensures { Gives (λ i. i) result
        (outcome (interests_lines (view details.now)) (interests_of (view details.now))) }
{
    let values = array(details, Field::Interests)?;
    let interests = each(alloc, values)?;
    Ok(Listed::new(interests))
}
