//! The details of a relationship.

ghost use Rattle.std.specs.Prelude.{◌≡◌};
ghost use Rattle.serde_json.specs.View.{view};
ghost use Rattle.bods_read.specs.Outcome.{Gives, outcome};
ghost use Rattle.bods_read.specs.Details.{relationship_lines, relationship_of};

use crate::details::Details;
use crate::ends::end;
use crate::fault::Field;
use crate::interests::interests;
use crate::trouble::Trouble;
use serde_json::Value;
use std::alloc::Global;

#[tactic(auto, using(crate::proofs::Tables::table_rules), unfolding(crate::specs::Details::relationship_lines, crate::specs::Details::relationship_of))]
pub(crate) fn relationship(alloc: Global, details: &Value) -> Result<Details, Trouble>
    ensures { Gives (λ d. d) result
        (outcome (relationship_lines (view details.now)) (relationship_of (view details.now))) }
{
    let subject = end(alloc, details, Field::Subject)?;
    let party = end(alloc, details, Field::InterestedParty)?;
    let interests = interests(alloc, details)?;
    Ok(Details::Relationship {
        subject,
        party,
        interests,
    })
}
