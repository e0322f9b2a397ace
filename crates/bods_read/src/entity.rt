//! The details of an entity.

ghost use Rattle.std.specs.Prelude.{◌≡◌, option_map};
ghost use Rattle.serde_json.specs.View.{view};
ghost use Rattle.bods_read.specs.Outcome.{Gives, outcome};
ghost use Rattle.bods_read.specs.Words.{entity_worded};
ghost use Rattle.bods_read.specs.Details.{entity_kind, entity_lines, entity_of};

use crate::details::{Details, EntityKind};
use crate::fault::Field;
use crate::identifiers::kept;
use crate::member::{array, free_text_at, member, text_at};
use crate::trouble::Trouble;
use crate::words::worded_or;
use bor_terms::Listed;
use serde_json::Value;
use std::alloc::Global;

#[tactic(auto, unfolding(crate::specs::Words::entity_worded))]
fn kind(details: &Value) -> EntityKind
    ensures { result ≡ entity_kind (view details.now) }
{
    match member(details, "entityType") {
        Some(value) => worded_or(text_at(value, "type"), EntityKind::Other),
        None => EntityKind::Other,
    }
}

#[tactic(auto, using(crate::proofs::Tables::table_rules), unfolding(crate::specs::Details::entity_lines, crate::specs::Details::entity_of, crate::specs::Details::identifiers_of))]
pub(crate) fn entity(alloc: Global, details: &Value) -> Result<Details, Trouble>
    ensures { Gives (λ d. d) result
        (outcome (entity_lines (view details.now)) (entity_of (view details.now))) }
{
    let kind = kind(details);
    let items = array(details, Field::Identifiers)?;
    let name = free_text_at(alloc, details, "name")?;
    let identifiers = kept(alloc, items)?;
    Ok(Details::Entity {
        kind,
        name,
        identifiers: Listed::new(identifiers),
    })
}
