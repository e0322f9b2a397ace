//! An agent's live statements, by their places.

ghost use Rattle.std.specs.Prelude.{◌≡◌, None, filter, option_map, true};
ghost use Rattle.std.specs.List.{last_or, list_any};
ghost use Rattle.bor_records.specs.Admission.{known_of, last_of};
ghost use Rattle.bor_records.specs.Settling.{as_live, has_id};
ghost use Rattle.bor_register.specs.Live.{live_of};
ghost use Rattle.bor_register.specs.Memory.Indexed.{has_key, has_record};
ghost use Rattle.bor_register.specs.Memory.Sited.{ArePlacesOf, passes, sited_at};

use crate::memory::index::{Place, StatementKey};
use crate::{AcceptedFiling, known};
use bor_records::Last;
use bor_records::links::Node;

// The statement at a place, as far as the rules ask.
fn known_at(filings: &[AcceptedFiling], place: Place) -> Option<Last>
    ensures { result ≡ option_map (λ x. known_of (as_live x.filing.due x.statement))
        (sited_at filings.now place) }
{
    let Some(filing) = place.filing_in(filings) else {
        return None;
    };
    match place.statement_in(filing) {
        Some(statement) => Some(known(statement, filing.due)),
        None => None,
    }
}

// Whether a statement stands at a place.
fn stands(filings: &[AcceptedFiling], place: Place) -> bool
    ensures { result ≡ passes (λ x. true) (sited_at filings.now place) }
{
    match place.filing_in(filings) {
        Some(filing) => place.statement_in(filing).is_some(),
        None => false,
    }
}

/// The last of the places at which a statement stands.
pub(crate) fn last_standing(filings: &[AcceptedFiling], places: &[Place]) -> Option<Place>
    ensures { result ≡ last_or None
        (filter (λ p. passes (λ x. true) (sited_at filings.now p)) places.now) }
{
    let mut next = places.len();
    while next > 0 {
        next -= 1;
        let place = places[next];
        if stands(filings, place) {
            return Some(place);
        }
    }
    None
}

/// A record's last live statement, as far as the rules ask, by the places of its statements. `node`
/// names what the contract speaks of; the body doesn't read it.
pub(crate) fn last_known(filings: &[AcceptedFiling], places: &[Place], node: &Node) -> Option<Last>
    requires { ArePlacesOf filings.now (has_record node.now) places.now }
    ensures { result ≡ last_of node.now.declaration node.now.rec (live_of filings.now) }
{
    match last_standing(filings, places) {
        Some(place) => known_at(filings, place),
        None => None,
    }
}

/// Whether a live statement has the identifier, by the places of those that have had it. `key`
/// names what the contract speaks of; the body doesn't read it.
pub(crate) fn any_stands(filings: &[AcceptedFiling], places: &[Place], key: &StatementKey) -> bool
    requires { ArePlacesOf filings.now (has_key key.now) places.now }
    ensures { result ≡ has_id key.now.id (live_of filings.now) }
{
    last_standing(filings, places).is_some()
}
