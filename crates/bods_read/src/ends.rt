//! The ends of a relationship.

ghost use Rattle.std.specs.Prelude.{◌≡◌, Some, None, unwrap_or};
ghost use Rattle.serde_json.specs.View.{view};
ghost use Rattle.bods_read.specs.Outcome.{Gives, outcome};
ghost use Rattle.bods_read.specs.Member.{required, required_lines, required_value, end_in};

use crate::fault::{Fault, Field};
use crate::member::member;
use crate::trouble::Trouble;
use bor_terms::Ident;
use serde_json::Value;
use std::alloc::Global;

#[tactic(auto, unfolding(crate::specs::Member::end_in, crate::specs::Member::ident_in))]
fn end_in(alloc: Global, value: &Value, field: Field) -> Result<Option<Ident>, Trouble>
    ensures { Gives (λ x. x) result (outcome (required_lines field end_in (Some (view value.now)))
        (unwrap_or (end_in (view value.now)) None)) }
{
    if value.is_object() {
        return Ok(None);
    }
    let Some(text) = value.as_str() else {
        return Err(Trouble::Fault(Fault::Bad(field)));
    };
    match Ident::read(alloc, text)? {
        Some(ident) => Ok(Some(ident)),
        None => Err(Trouble::Fault(Fault::Bad(field))),
    }
}

/// The record that a required end names; an object names none.
pub(crate) fn end(alloc: Global, details: &Value, field: Field) -> Result<Option<Ident>, Trouble>
    ensures { Gives (λ x. x) result (outcome (required field end_in (view details.now))
        (required_value field end_in None (view details.now))) }
{
    match member(details, field.as_str()) {
        None => Err(Trouble::Fault(Fault::Missing(field))),
        Some(value) => end_in(alloc, value, field),
    }
}
