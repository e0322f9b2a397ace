//! The numbers and truth values of a share.

ghost use Rattle.std.specs.Prelude.{◌≡◌, ◌≤◌, Some, IfOk, IfSome};
ghost use Rattle.serde_json.specs.View.{view};
ghost use Rattle.bods_read.specs.Outcome.{Gives, outcome};
ghost use Rattle.bods_read.specs.Share.{percent_lines, percent_in, percent_lines_at, percent_at, exclusive_lines_at, exclusive_at, member_lines, members_of, IsSmallExclusive, IsSmallShare};

use crate::fault::{Fault, Field};
use crate::member::member;
use crate::trouble::Trouble;
use serde_json::Value;

/// An exclusive member: an open bound itself, or a word on the bound beside it.
#[derive(Clone, Copy, PartialEq, Eq)]
pub(crate) enum Exclusive {
    Absent,
    Flag(bool),
    Percent(u8),
}

/// The members of a share.
#[derive(Clone, Copy)]
pub(crate) struct Share {
    pub exact: Option<u8>,
    pub minimum: Option<u8>,
    pub maximum: Option<u8>,
    pub exclusive_minimum: Exclusive,
    pub exclusive_maximum: Exclusive,
}

// The percent that a value is.
#[tactic(auto, unfolding(crate::specs::Share::percent_lines, crate::specs::Share::percent_in))]
fn percent_in(value: &Value, field: Field) -> Result<u8, Trouble>
    ensures value { Gives (λ n. Some n) result (outcome (percent_lines field (view value.now))
        (percent_in (view value.now))) }
    ensures small { IfOk result (λ n. n ≤ 100) }
{
    let Some(number) = value.as_number() else {
        return Err(Trouble::Fault(Fault::Bad(field)));
    };
    if number.is_f64() {
        return Err(Trouble::Fault(Fault::Fraction));
    }
    match number.as_u64() {
        Some(n) if n <= 100 => Ok(n as u8),
        _ => Err(Trouble::Fault(Fault::ShareRange)),
    }
}

// The percent that a member of a share is, if it is there.
#[tactic(auto, unfolding(crate::specs::Share::percent_lines_at, crate::specs::Share::percent_at))]
fn percent_at(share: &Value, field: Field) -> Result<Option<u8>, Trouble>
    ensures value { Gives (λ o. o) result (outcome (percent_lines_at field (view share.now))
        (percent_at field (view share.now))) }
    ensures small { IfOk result (λ o. IfSome o (λ n. n ≤ 100)) }
{
    match member(share, field.as_str()) {
        None => Ok(None),
        Some(value) => Ok(Some(percent_in(value, field)?)),
    }
}

#[tactic(auto, unfolding(crate::specs::Share::exclusive_lines_at, crate::specs::Share::exclusive_at))]
fn exclusive_at(share: &Value, field: Field) -> Result<Exclusive, Trouble>
    ensures value { Gives (λ e. e) result (outcome (exclusive_lines_at field (view share.now))
        (exclusive_at field (view share.now))) }
    ensures small { IfOk result IsSmallExclusive }
{
    let Some(value) = member(share, field.as_str()) else {
        return Ok(Exclusive::Absent);
    };
    match value.as_bool() {
        Some(flag) => Ok(Exclusive::Flag(flag)),
        None => Ok(Exclusive::Percent(percent_in(value, field)?)),
    }
}

/// The members of the object that a share is.
#[tactic(auto, using(crate::proofs::Tables::table_rules), unfolding(crate::specs::Share::member_lines, crate::specs::Share::members_of))]
pub(crate) fn members(share: &Value) -> Result<Share, Trouble>
    ensures value { Gives (λ s. s) result
        (outcome (member_lines (view share.now)) (members_of (view share.now))) }
    ensures small { IfOk result IsSmallShare }
{
    let exact = percent_at(share, Field::Exact)?;
    let minimum = percent_at(share, Field::Minimum)?;
    let maximum = percent_at(share, Field::Maximum)?;
    let exclusive_minimum = exclusive_at(share, Field::ExclusiveMinimum)?;
    let exclusive_maximum = exclusive_at(share, Field::ExclusiveMaximum)?;
    Ok(Share {
        exact,
        minimum,
        maximum,
        exclusive_minimum,
        exclusive_maximum,
    })
}
