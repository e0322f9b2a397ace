//! The members of an object, and the forms that they may have to have.

ghost use Rattle.std.specs.Prelude.{◌≡◌, Some, None, Ok, [], IfOk, option_map, map, unwrap_or, pos};
ghost use Rattle.serde_json.specs.Data.{null};
ghost use Rattle.serde_json.specs.View.{view};
ghost use Rattle.bods_read.specs.Outcome.{Gives, outcome};
ghost use Rattle.bods_read.specs.Member.{member, required, required_lines, required_value, optional, optional_value, ident_in, day_in, type_in, status_in, object_in, member_text, items_in, array, array_items};
ghost use Rattle.bods_read.specs.declared.statement.RecordType.TheVariants.{Entity};

use crate::fault::{Fault, Field};
use crate::free_text::FreeText;
use crate::statement::{RecordType, Status};
use crate::trouble::Trouble;
use crate::words::Worded;
use bor_terms::{Day, Ident};
use serde_json::Value;
use std::alloc::{AllocError, Global};

/// The most items of a member that is an array: identifiers, interests.
pub const ITEMS_LIMIT: usize = 100;

/// The member of an object, unless it is absent or null.
#[tactic(auto, unfolding(crate::specs::Member::member))]
pub(crate) fn member<'a>(object: &'a Value, name: &str) -> Option<&'a Value>
    ensures { option_map (λ v. view v.now) result ≡ member name.now (view object.now) }
{
    let found = object.get(name)?;
    if found.is_null() { None } else { Some(found) }
}

/// The text of a member, if it is one.
pub(crate) fn text_at<'a>(object: &'a Value, name: &str) -> Option<&'a str>
    ensures { option_map (λ s. s.now) result ≡ member_text name.now (view object.now) }
{
    member(object, name)?.as_str()
}

/// A copy of the text of a member, if it is one.
pub(crate) fn free_text_at(
    alloc: Global,
    object: &Value,
    name: &str,
) -> Result<Option<FreeText>, AllocError>
    ensures { IfOk result (λ text. text ≡ member_text name.now (view object.now)) }
{
    match text_at(object, name) {
        Some(text) => Ok(Some(FreeText::new(alloc, String::from_str(alloc, text)?)?)),
        None => Ok(None),
    }
}

/// The items of an array.
#[tactic(auto, using(crate::proofs::Items::items_are), unfolding(crate::specs::Member::items_in))]
pub(crate) fn items_in(value: &Value) -> Option<&Vec<Value>>
    ensures { option_map (λ v. map view v.now.items) result ≡ items_in (view value.now) }
{
    value.as_array()
}

#[tactic(auto, unfolding(crate::specs::Member::ident_in))]
fn ident_in(alloc: Global, value: &Value, field: Field) -> Result<Ident, Trouble>
    ensures { Gives (λ x. x) result (outcome (required_lines field ident_in (Some (view value.now)))
        (unwrap_or (ident_in (view value.now)) [])) }
{
    let Some(text) = value.as_str() else {
        return Err(Trouble::Fault(Fault::Bad(field)));
    };
    match Ident::read(alloc, text)? {
        Some(ident) => Ok(ident),
        None => Err(Trouble::Fault(Fault::Bad(field))),
    }
}

/// A required member that is an identifier.
pub(crate) fn ident(alloc: Global, object: &Value, field: Field) -> Result<Ident, Trouble>
    ensures { Gives (λ x. x) result (outcome (required field ident_in (view object.now))
        (required_value field ident_in [] (view object.now))) }
{
    match member(object, field.as_str()) {
        None => Err(Trouble::Fault(Fault::Missing(field))),
        Some(value) => ident_in(alloc, value, field),
    }
}

#[tactic(auto, unfolding(crate::specs::Member::day_in))]
fn day_in(value: &Value, field: Field) -> Result<Day, Trouble>
    ensures { Gives (λ x. x) result (outcome (required_lines field day_in (Some (view value.now)))
        (unwrap_or (day_in (view value.now)) (pos 0))) }
{
    let Some(text) = value.as_str() else {
        return Err(Trouble::Fault(Fault::Bad(field)));
    };
    match Day::read(text) {
        Some(day) => Ok(day),
        None => Err(Trouble::Fault(Fault::Bad(field))),
    }
}

/// A required member that is a day.
pub(crate) fn day(object: &Value, field: Field) -> Result<Day, Trouble>
    ensures { Gives (λ x. x) result (outcome (required field day_in (view object.now))
        (required_value field day_in (pos 0) (view object.now))) }
{
    match member(object, field.as_str()) {
        None => Err(Trouble::Fault(Fault::Missing(field))),
        Some(value) => day_in(value, field),
    }
}

#[tactic(auto, unfolding(crate::specs::Member::type_in))]
fn type_in(value: &Value, field: Field) -> Result<RecordType, Trouble>
    ensures { Gives (λ x. x) result (outcome (required_lines field type_in (Some (view value.now)))
        (unwrap_or (type_in (view value.now)) Entity)) }
{
    let Some(text) = value.as_str() else {
        return Err(Trouble::Fault(Fault::Bad(field)));
    };
    match RecordType::of_word(text) {
        Some(kind) => Ok(kind),
        None => Err(Trouble::Fault(Fault::Bad(field))),
    }
}

/// A required member that is a type of record.
pub(crate) fn record_type(object: &Value, field: Field) -> Result<RecordType, Trouble>
    ensures { Gives (λ x. x) result (outcome (required field type_in (view object.now))
        (required_value field type_in Entity (view object.now))) }
{
    match member(object, field.as_str()) {
        None => Err(Trouble::Fault(Fault::Missing(field))),
        Some(value) => type_in(value, field),
    }
}

/// A member that is a status, or none.
#[tactic(auto, unfolding(crate::specs::Member::status_in))]
pub(crate) fn status(object: &Value, field: Field) -> Result<Option<Status>, Trouble>
    ensures { Gives (λ x. x) result (outcome (optional field status_in (view object.now))
        (optional_value field status_in (view object.now))) }
{
    let Some(value) = member(object, field.as_str()) else {
        return Ok(None);
    };
    let Some(text) = value.as_str() else {
        return Err(Trouble::Fault(Fault::Bad(field)));
    };
    match Status::of_word(text) {
        Some(status) => Ok(Some(status)),
        None => Err(Trouble::Fault(Fault::Bad(field))),
    }
}

/// A required member that is an object.
#[tactic(auto, unfolding(crate::specs::Member::object_in))]
pub(crate) fn object(object: &Value, field: Field) -> Result<&Value, Trouble>
    ensures { Gives (λ x. view x.now) result (outcome (required field object_in (view object.now))
        (required_value field object_in null (view object.now))) }
{
    match member(object, field.as_str()) {
        None => Err(Trouble::Fault(Fault::Missing(field))),
        Some(value) if value.is_object() => Ok(value),
        Some(_) => Err(Trouble::Fault(Fault::Bad(field))),
    }
}

/// The items of a member that is an array of so many at most; none where it is absent.
pub(crate) fn array(object: &Value, field: Field) -> Result<&[Value], Trouble>
    ensures { Gives (λ values. map view values.now) result (outcome (array field (view object.now))
        (array_items field (view object.now))) }
{
    let Some(value) = member(object, field.as_str()) else {
        return Ok(&[]);
    };
    let Some(values) = items_in(value) else {
        return Err(Trouble::Fault(Fault::Bad(field)));
    };
    if values.len() > ITEMS_LIMIT {
        return Err(Trouble::Fault(Fault::TooLong(field)));
    }
    Ok(values.as_slice())
}
