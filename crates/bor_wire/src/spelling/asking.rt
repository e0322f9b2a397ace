//! The request of a message, and the token of whoever asks.
ghost use Rattle.std.specs.Prelude.{◌≡◌, ℕ, List, MatchResult};
ghost use Rattle.bor_http.specs.Incoming.Reading.{IsReadAs};
ghost use Rattle.bor_wire.specs.Spelling.Spell.{SpellsAs, asked_view, spell};
ghost use Rattle.bor_wire.specs.Spelling.Parts.{path_text, query};
ghost use Rattle.bor_wire.specs.Spelling.Query.{pair_texts};
ghost use Rattle.bor_wire.specs.Spelling.Steps.{FindsStated, enrolment_by_steps, entities_by_steps, entity_by_steps, identifier_by_steps, lodging_by_steps, node_by_steps, renewal_by_steps, request_by_steps, snapshot_by_steps};

use crate::spelling::query::{
    QueryPair, agent_named, day_if_named, day_named, ident_named, query_pairs, text_named,
};
use crate::spelling::target::{key_at, name_at, path_at};
use crate::spelling::token::{new_token, token_at};
use bods_read::Identifier;
use bor_chains::Node;
use bor_desk::{AgentRequest, RegistrarRequest, Request};
use bor_http::incoming::{Name, RawRequest, Refusal, WireFault, split_at_first};
use bor_http::routes::{Paths, Route, route_at};
use bor_terms::{Day, Listed, Token};
use std::alloc::Global;

/// A request, and the token of whoever asks.
#[derive(Drop)]
pub struct Asking {
    /// The bytes behind `Bearer`.
    pub token: Token,
    /// The request.
    pub request: Request,
}

// The record that a query names.
#[tactic(auto, unfolding(crate::specs::Spelling::Steps::node_by_steps))]
fn node_named(alloc: Global, pairs: &[QueryPair<'_>]) -> Result<Node, WireFault>
    ensures { FindsStated (λ node. node) result (node_by_steps (pair_texts pairs.now)) }
{
    let agent = agent_named(alloc, pairs, Name::Agent)?;
    let declaration = ident_named(alloc, pairs, Name::Declaration)?;
    let rec = ident_named(alloc, pairs, Name::Record)?;
    Ok(Node {
        agent,
        declaration,
        rec,
    })
}

// The identifier that a query names.
#[tactic(auto, unfolding(crate::specs::Spelling::Steps::identifier_by_steps))]
fn identifier_named(alloc: Global, pairs: &[QueryPair<'_>]) -> Result<Identifier, WireFault>
    ensures { FindsStated (λ identifier. identifier) result
        (identifier_by_steps (pair_texts pairs.now)) }
{
    let scheme = text_named(alloc, pairs, Name::Scheme)?;
    let id = text_named(alloc, pairs, Name::Id)?;
    Ok(Identifier { scheme, id })
}

#[tactic(auto, unfolding(crate::specs::Spelling::Steps::lodging_by_steps))]
fn lodging_for(
    alloc: Global,
    path: &[u8],
    pairs: &[QueryPair<'_>],
    body: &[u8],
) -> Result<Request, WireFault>
    ensures { FindsStated (λ request. request) result
        (lodging_by_steps path.now (pair_texts pairs.now) body.now) }
{
    let key = key_at(alloc, path)?;
    let due = day_named(pairs, Name::Due)?;
    let file = Listed::new(Vec::from_slice(alloc, body)?);
    Ok(Request::Agent(AgentRequest::Lodge { key, due, file }))
}

#[tactic(auto, unfolding(crate::specs::Spelling::Steps::snapshot_by_steps))]
fn snapshot_for(alloc: Global, pairs: &[QueryPair<'_>]) -> Result<Request, WireFault>
    ensures { FindsStated (λ request. request) result (snapshot_by_steps (pair_texts pairs.now)) }
{
    let agent = agent_named(alloc, pairs, Name::Agent)?;
    let declaration = ident_named(alloc, pairs, Name::Declaration)?;
    let date = day_if_named(pairs, Name::Date)?;
    Ok(Request::Agent(AgentRequest::Snapshot {
        agent,
        declaration,
        date,
    }))
}

// The entity that a query names, and the date, where it has one.
#[tactic(auto, unfolding(crate::specs::Spelling::Steps::entity_by_steps))]
fn entity_named(alloc: Global, pairs: &[QueryPair<'_>]) -> Result<(Node, Option<Day>), WireFault>
    ensures { FindsStated (λ found. found) result (entity_by_steps (pair_texts pairs.now)) }
{
    let entity = node_named(alloc, pairs)?;
    let date = day_if_named(pairs, Name::Date)?;
    Ok((entity, date))
}

#[tactic(auto, unfolding(crate::specs::Spelling::Steps::entities_by_steps))]
fn entities_for(alloc: Global, pairs: &[QueryPair<'_>]) -> Result<Request, WireFault>
    ensures { FindsStated (λ request. request) result (entities_by_steps (pair_texts pairs.now)) }
{
    let identifier = identifier_named(alloc, pairs)?;
    let date = day_if_named(pairs, Name::Date)?;
    Ok(Request::Agent(AgentRequest::Entities { identifier, date }))
}

#[tactic(auto, unfolding(crate::specs::Spelling::Steps::enrolment_by_steps))]
fn enrolment_for(alloc: Global, pairs: &[QueryPair<'_>], body: &[u8]) -> Result<Request, WireFault>
    ensures { FindsStated (λ request. request) result
        (enrolment_by_steps (pair_texts pairs.now) body.now) }
{
    let name = agent_named(alloc, pairs, Name::Name)?;
    let token = new_token(alloc, body)?;
    Ok(Request::Registrar(RegistrarRequest::Enrol { name, token }))
}

#[tactic(auto, unfolding(crate::specs::Spelling::Steps::renewal_by_steps))]
fn renewal_for(alloc: Global, path: &[u8], body: &[u8]) -> Result<Request, WireFault>
    ensures { FindsStated (λ request. request) result (renewal_by_steps path.now body.now) }
{
    let name = name_at(alloc, path)?;
    let token = new_token(alloc, body)?;
    Ok(Request::Registrar(RegistrarRequest::Renew { name, token }))
}

// The request that a route asks for, from a message's path, the pairs of its query and its body.
#[tactic(auto, unfolding(crate::specs::Spelling::Steps::request_by_steps))]
fn request_with(
    alloc: Global,
    route: Route,
    path: &[u8],
    pairs: &[QueryPair<'_>],
    raw: &RawRequest<'_>,
) -> Result<Request, WireFault>
    requires path { path.now ≡ path_text raw.now }
    requires query { pair_texts pairs.now ≡ query raw.now }
    ensures { FindsStated (λ request. request) result (request_by_steps route raw.now) }
{
    match route {
        Route::Lodge => lodging_for(alloc, path, pairs, raw.body()),
        Route::Withdraw => Ok(Request::Agent(AgentRequest::Withdraw {
            key: key_at(alloc, path)?,
        })),
        Route::Filings => Ok(Request::Agent(AgentRequest::Filings)),
        Route::File => Ok(Request::Agent(AgentRequest::File {
            key: key_at(alloc, path)?,
        })),
        Route::Published => Ok(Request::Agent(AgentRequest::Published)),
        Route::Snapshot => snapshot_for(alloc, pairs),
        Route::Chains => {
            let (entity, date) = entity_named(alloc, pairs)?;
            Ok(Request::Agent(AgentRequest::Chains { entity, date }))
        }
        Route::Evidence => {
            let (entity, date) = entity_named(alloc, pairs)?;
            Ok(Request::Agent(AgentRequest::Evidence { entity, date }))
        }
        Route::Entities => entities_for(alloc, pairs),
        Route::Day => Ok(Request::Registrar(RegistrarRequest::Day {
            date: day_named(pairs, Name::Date)?,
        })),
        Route::Enrol => enrolment_for(alloc, pairs, raw.body()),
        Route::Renew => renewal_for(alloc, path, raw.body()),
        Route::Register => Ok(Request::Registrar(RegistrarRequest::Register)),
    }
}

// The request that a route asks for.
fn request_for(alloc: Global, route: Route, raw: &RawRequest<'_>) -> Result<Request, WireFault>
    ensures { FindsStated (λ request. request) result (request_by_steps route raw.now) }
{
    let (path, query) = split_at_first(raw.target(), b'?');
    let pairs = query_pairs(alloc, query)?;
    request_with(alloc, route, path, &pairs, raw)
}

/// The request that a message spells, with the token of whoever asks, or the first refusal of those
/// that are about a path, a method, a token and names. Want of memory is answered where it is met;
/// the reader is not asked, so [`WireFault::Read`] is never answered.
pub fn parse(alloc: Global, raw: &RawRequest<'_>) -> Result<Asking, WireFault>
    ensures { FindsStated asked_view result (spell raw.now) }
{
    parse_by(alloc, &Paths::new(alloc)?, raw)
}

/// The request that a message spells, as [`parse`] gives it, by paths that were made before: for
/// whoever has many requests.
#[tactic(auto, using(crate::proofs::OnSpelling::Stepwise::stepwise), unfolding(crate::specs::Spelling::Steps::spell_by_steps))]
pub fn parse_by(alloc: Global, paths: &Paths, raw: &RawRequest<'_>) -> Result<Asking, WireFault>
    ensures { FindsStated asked_view result (spell raw.now) }
{
    let (path, _) = split_at_first(raw.target(), b'?');
    let path = path_at(paths, path)?;
    let Some(route) = route_at(path, raw.method()) else {
        return Err(WireFault::Refused(Refusal::WrongMethod(path)));
    };
    let token = token_at(alloc, raw)?;
    let request = request_for(alloc, route, raw)?;
    Ok(Asking { token, request })
}

/// The request that a whole input spells, with the token of whoever asks, from the message that the
/// input is; by paths that were made before.
///
/// # Errors
///
/// The message's own fault; else the first refusal that [`parse`] gives, or `Memory`.
#[tactic(auto, using(crate::proofs::OnSpelling::Messages::refuses_as, crate::proofs::OnSpelling::Messages::spells_as))]
pub fn spelled(
    alloc: Global,
    paths: &Paths,
    message: Result<RawRequest<'_>, WireFault>,
) -> Result<Asking, WireFault>
    ensures stated { MatchResult message.entry
        (λ m. FindsStated asked_view result (spell m)) (λ fault. result ≡ Err fault) }
    ensures spells { (input : List ℕ) → IsReadAs input message.entry → SpellsAs input result }
{
    parse_by(alloc, paths, &message?)
}
