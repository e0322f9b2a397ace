//! The pairs of a query, and the values of its names.

ghost use Rattle.std.specs.Prelude.{◌≡◌, ◌∷◌, [], ◌++◌, IfOk, OnOk};
ghost use Rattle.std.specs.Option.{option_map};
ghost use Rattle.bor_terms.specs.Texts.{is_agent_name, is_ident};
ghost use Rattle.bor_terms.specs.Day.{day_of};
ghost use Rattle.bor_wire.specs.Spelling.Parts.{fitting, once, at_most_once};
ghost use Rattle.bor_wire.specs.Spelling.Query.{decoded, pairs_of, pair_text, pair_texts, how_often, first_text, only_text};
ghost use Rattle.bor_wire.specs.Spelling.Steps.{FindsStated, named};

use bods_read::FreeText;
use bor_http::incoming::{Name, Refusal, WireFault};
use bor_terms::{AgentName, Day, Ident};
use form_urlencoded::{decode, raw_pairs};
use std::alloc::{AllocError, Global};
use std::borrow::CowStr;

/// A name and its value, decoded. What stands for itself is borrowed from the query.
#[derive(Drop)]
pub(crate) struct QueryPair<'a> {
    name: CowStr<'a, Global>,
    value: CowStr<'a, Global>,
}

#[tactic(auto, using(crate::proofs::OnSpelling::Texts::texts))]
fn decoded_pair<'a>(
    alloc: Global,
    name: &'a [u8],
    value: &'a [u8],
) -> Result<QueryPair<'a>, AllocError>
    ensures { IfOk result (λ pair. pair_text pair ≡ decoded (name.now, value.now)) }
{
    let name = decode(alloc, name)?;
    let value = decode(alloc, value)?;
    Ok(QueryPair { name, value })
}

// Puts a pair behind the others.
fn push_pair<'a>(
    alloc: Global,
    pairs: &mut Vec<QueryPair<'a>>,
    name: &'a [u8],
    value: &'a [u8],
) -> Result<(), AllocError>
    ensures { OnOk result (pair_texts pairs.new.items
        ≡ pair_texts pairs.old.items ++ (decoded (name.now, value.now) ∷ [])) }
{
    let pair = decoded_pair(alloc, name, value)?;
    Ok(pairs.push(pair)?)
}

/// The pairs of a query.
pub(crate) fn query_pairs(alloc: Global, query: &[u8]) -> Result<Vec<QueryPair<'_>>, AllocError>
    ensures { IfOk result (λ pairs. pair_texts pairs.items ≡ pairs_of query.now) }
{
    let mut pairs = Vec::new(alloc);
    for (name, value) in raw_pairs(query) {
        push_pair(alloc, &mut pairs, name, value)?;
    }
    Ok(pairs)
}

// How often a name occurs.
fn count_pairs(pairs: &[QueryPair<'_>], name: &str) -> usize
    ensures { result ≡ how_often name.now (pair_texts pairs.now) }
{
    let mut count = 0;
    for pair in pairs {
        if pair.name.as_str() == name {
            count += 1;
        }
    }
    count
}

// The value of the first pair that has the name.
fn first_value<'a>(pairs: &'a [QueryPair<'_>], name: &str) -> Option<&'a str>
    ensures { option_map (λ value. value.now) result ≡ first_text name.now (pair_texts pairs.now) }
{
    for pair in pairs {
        if pair.name.as_str() == name {
            return Some(pair.value.as_str());
        }
    }
    None
}

// The value of the one pair that has the name, if there is exactly one.
fn only_value<'a>(pairs: &'a [QueryPair<'_>], name: &str) -> Option<&'a str>
    ensures { option_map (λ value. value.now) result ≡ only_text name.now (pair_texts pairs.now) }
{
    if count_pairs(pairs, name) == 1 {
        first_value(pairs, name)
    } else {
        None
    }
}

/// The agent of this name's value.
#[tactic(auto, unfolding(crate::specs::Spelling::Parts::once))]
pub(crate) fn agent_named(
    alloc: Global,
    pairs: &[QueryPair<'_>],
    name: Name,
) -> Result<AgentName, WireFault>
    ensures { FindsStated (λ agent. agent) result
        (named name (once (fitting is_agent_name) name (pair_texts pairs.now))) }
{
    let Some(text) = only_value(pairs, name.as_str()) else {
        return Err(WireFault::Refused(Refusal::BadQuery(name)));
    };
    match AgentName::read(alloc, text)? {
        Some(agent) => Ok(agent),
        None => Err(WireFault::Refused(Refusal::BadQuery(name))),
    }
}

/// The identifier of this name's value.
#[tactic(auto, unfolding(crate::specs::Spelling::Parts::once))]
pub(crate) fn ident_named(
    alloc: Global,
    pairs: &[QueryPair<'_>],
    name: Name,
) -> Result<Ident, WireFault>
    ensures { FindsStated (λ ident. ident) result
        (named name (once (fitting is_ident) name (pair_texts pairs.now))) }
{
    let Some(text) = only_value(pairs, name.as_str()) else {
        return Err(WireFault::Refused(Refusal::BadQuery(name)));
    };
    match Ident::read(alloc, text)? {
        Some(ident) => Ok(ident),
        None => Err(WireFault::Refused(Refusal::BadQuery(name))),
    }
}

/// The text of this name's value, where it has the form of an identifier.
#[tactic(auto, unfolding(crate::specs::Spelling::Parts::once))]
pub(crate) fn text_named(
    alloc: Global,
    pairs: &[QueryPair<'_>],
    name: Name,
) -> Result<FreeText, WireFault>
    ensures { FindsStated (λ text. text) result
        (named name (once (fitting is_ident) name (pair_texts pairs.now))) }
{
    let Some(text) = only_value(pairs, name.as_str()) else {
        return Err(WireFault::Refused(Refusal::BadQuery(name)));
    };
    if !Ident::fits(text) {
        return Err(WireFault::Refused(Refusal::BadQuery(name)));
    }
    let text = String::from_str(alloc, text)?;
    Ok(FreeText::new(alloc, text)?)
}

/// The day of this name's value.
#[tactic(auto, unfolding(crate::specs::Spelling::Parts::once))]
pub(crate) fn day_named(pairs: &[QueryPair<'_>], name: Name) -> Result<Day, WireFault>
    ensures { FindsStated (λ day. day) result
        (named name (once day_of name (pair_texts pairs.now))) }
{
    let Some(text) = only_value(pairs, name.as_str()) else {
        return Err(WireFault::Refused(Refusal::BadQuery(name)));
    };
    match Day::read(text) {
        Some(day) => Ok(day),
        None => Err(WireFault::Refused(Refusal::BadQuery(name))),
    }
}

/// The day of this name's value, or none where the name is missing.
#[tactic(auto, unfolding(crate::specs::Spelling::Parts::at_most_once))]
pub(crate) fn day_if_named(pairs: &[QueryPair<'_>], name: Name) -> Result<Option<Day>, WireFault>
    ensures { FindsStated (λ day. day) result
        (named name (at_most_once day_of name (pair_texts pairs.now))) }
{
    if count_pairs(pairs, name.as_str()) == 0 {
        return Ok(None);
    }
    let day = day_named(pairs, name)?;
    Ok(Some(day))
}
