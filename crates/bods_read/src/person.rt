//! The details of a person.

ghost use Rattle.std.specs.Prelude.{◌≡◌, IfOk, option_map};
ghost use Rattle.serde_json.specs.View.{view};
ghost use Rattle.bods_read.specs.Words.{person_worded};
ghost use Rattle.bods_read.specs.Details.{person_kind, first_name, person_of};

use crate::details::{Details, PersonKind};
use crate::member::{free_text_at, items_in, member, text_at};
use crate::words::worded_or;
use serde_json::Value;
use std::alloc::{AllocError, Global};

// The first item of the names.
fn first_name(details: &Value) -> Option<&Value>
    ensures { option_map (λ v. view v.now) result ≡ first_name (view details.now) }
{
    items_in(member(details, "names")?)?.first()
}

#[tactic(auto, unfolding(crate::specs::Details::person_of, crate::specs::Words::person_worded))]
pub(crate) fn person(alloc: Global, details: &Value) -> Result<Details, AllocError>
    ensures { IfOk result (λ d. d ≡ person_of (view details.now)) }
{
    let kind = worded_or(text_at(details, "personType"), PersonKind::Other);
    let name = match first_name(details) {
        Some(name) => free_text_at(alloc, name, "fullName")?,
        None => None,
    };
    Ok(Details::Person { kind, name })
}
