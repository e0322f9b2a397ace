//! Whether a later filing of an agent stands on one, by the places of statements.

ghost use Rattle.std.specs.Prelude.{◌≡◌, ◌+◌, IfOk, drop};
ghost use Rattle.std.specs.List.{list_any};
ghost use Rattle.bor_records.specs.Admission.{is_of};
ghost use Rattle.bor_register.specs.Withdrawal.{has_successor, shares_record};
ghost use Rattle.bor_register.specs.Memory.Indexed.{LeadsToAll, has_record};
ghost use Rattle.bor_register.specs.Memory.Sited.{ArePlacesOf};

use crate::AcceptedFiling;
use crate::memory::index::{Index, Place, record_of};
use crate::memory::standing::last_standing;
use bor_records::links::Node;
use bor_terms::AgentName;
use std::alloc::{AllocError, Global};

// Whether a record has a live statement in a filing after the one at this place, by the places of
// its statements. `node` names what the contract speaks of; the body doesn't read it.
fn is_followed(filings: &[AcceptedFiling], places: &[Place], at: usize, node: &Node) -> bool
    requires { ArePlacesOf filings.now (has_record node.now) places.now }
    ensures { result ≡ list_any
        (λ later. list_any (is_of node.now.declaration node.now.rec) later.statements)
        (drop (at + 1) filings.now) }
{
    match last_standing(filings, places) {
        Some(place) => at < place.filing,
        None => false,
    }
}

// Whether one of the filing's records has one in a filing after the one at this place.
fn any_followed(
    alloc: Global,
    index: &Index,
    agent: &AgentName,
    filings: &[AcceptedFiling],
    at: usize,
    filing: &AcceptedFiling,
) -> Result<bool, AllocError>
    requires { LeadsToAll agent.now filings.now index.now }
    ensures { IfOk result (λ any.
        any ≡ list_any (shares_record filing.now) (drop (at + 1) filings.now)) }
{
    for statement in filing.statements.as_slice() {
        let node = record_of(alloc, agent, statement)?;
        if is_followed(filings, index.places_of(&node), at, &node) {
            return Ok(true);
        }
    }
    Ok(false)
}

/// Whether one of the agent's filings that was accepted after the one with this number has a live
/// statement of one of its records; `false` where no filing has the number. Each of its records is
/// asked for by key.
pub(crate) fn has_successor(
    alloc: Global,
    index: &Index,
    agent: &AgentName,
    filings: &[AcceptedFiling],
    number: u32,
) -> Result<bool, AllocError>
    requires { LeadsToAll agent.now filings.now index.now }
    ensures { IfOk result (λ has. has ≡ has_successor number filings.now) }
{
    for (i, filing) in filings.iter().enumerate() {
        // (none follows the last one)
        if filing.number == number && i + 1 < filings.len() {
            return any_followed(alloc, index, agent, filings, i, filing);
        }
    }
    Ok(false)
}
