//! The identifiers of an entity.

ghost use Rattle.std.specs.Prelude.{◌≡◌, IfOk, map, option_map, filter_map};
ghost use Rattle.serde_json.specs.View.{view};
ghost use Rattle.bods_read.specs.Details.{filled_at, identifier_in};

use crate::details::Identifier;
use crate::free_text::FreeText;
use crate::member::text_at;
use serde_json::Value;
use std::alloc::{AllocError, Global};

// The text of a member, if it is one and not empty.
fn filled_at<'a>(object: &'a Value, name: &str) -> Option<&'a str>
    ensures { option_map (λ s. s.now) result ≡ filled_at name.now (view object.now) }
{
    let text = text_at(object, name)?;
    if text.is_empty() { None } else { Some(text) }
}

// The identifier that an item is, unless it lacks a text.
#[tactic(auto, unfolding(crate::specs::Details::identifier_in))]
fn identifier(alloc: Global, item: &Value) -> Result<Option<Identifier>, AllocError>
    ensures { IfOk result (λ identifier. identifier ≡ identifier_in (view item.now)) }
{
    let Some(scheme) = filled_at(item, "scheme") else {
        return Ok(None);
    };
    let Some(id) = filled_at(item, "id") else {
        return Ok(None);
    };
    Ok(Some(Identifier {
        scheme: FreeText::new(alloc, String::from_str(alloc, scheme)?)?,
        id: FreeText::new(alloc, String::from_str(alloc, id)?)?,
    }))
}

/// The items that have both texts, in order.
pub(crate) fn kept(alloc: Global, items: &[Value]) -> Result<Vec<Identifier>, AllocError>
    ensures { IfOk result (λ kept. kept.items ≡ filter_map identifier_in (map view items.now)) }
{
    let mut kept = Vec::new(alloc);
    for item in items {
        if let Some(identifier) = identifier(alloc, item)? {
            kept.push(identifier)?;
        }
    }
    Ok(kept)
}
